// Which ranges of a service cover a leg (17, 18), on the words of the ranges, and whether they follow each other, so that each leg is covered once. A range is so
// many words wide; its last two are from and to.
#![tactic(auto)]

ghost use Rattle.std.specs.Prelude.{◌≡◌, ◌+◌, ◌-◌, ◌*◌, ◌≤◌, length, drop};
ghost use Rattle.base.specs.Lists.{every, count_if, below};
ghost use Rattle.timetable.specs.Legs.{covers};
ghost use Rattle.timetable.specs.Table.{legs_at};
ghost use Rattle.timetable.specs.Inner.Words.{legs_held};
ghost use Rattle.cover.specs.Inner.Cover.{legs_in, once_in, cover_place_from, begins, in_turn};

use timetable::LegWords;

// ---- 17 and 18: legs covered exactly once

// Whether each leg is covered by exactly one of n ranges.
pub fn each_once(w: &[u32], n: u32, width: usize, legs: u32) -> bool
    requires le_width { 2 ≤ width }
    requires width_in_bounds { n * width ≤ length w.now }
    ensures { result ≡ every (once_in width n w.now) (below legs) }
{
    for leg in 0..legs {
        if !covered_once(w, n, width, leg) {
            return false;
        }
    }
    true
}

// Whether exactly one of n ranges covers a leg.
pub fn covered_once(w: &[u32], n: u32, width: usize, leg: u32) -> bool
    requires le_width { 2 ≤ width }
    requires width_in_bounds { n * width ≤ length w.now }
    ensures { result ≡ once_in width n w.now leg }
{
    covering(w, n, width, leg) == 1
}

// Where the first of n ranges that covers a leg stands, if one does.
pub fn covering_place(w: &[u32], n: u32, width: usize, leg: u32) -> Option<usize>
    requires le_width { 2 ≤ width }
    requires width_in_bounds { n * width ≤ length w.now }
    ensures { result ≡ cover_place_from leg width 0 n w.now }
{
    let mut left = n;
    let mut at: usize = 0;
    // Kept: (c) tried as `for _ in 0..n`: the laws of the rows left say `left` and `left - 1`, and the search did not find them at `n - counter`.
    while 0 < left {
        if covers_at(w, at, width, leg) {
            return Some(at);
        }
        at += width;
        left -= 1;
    }
    None
}

// How many of n ranges cover a leg.
fn covering(w: &[u32], n: u32, width: usize, leg: u32) -> u32
    requires le_width { 2 ≤ width }
    requires width_in_bounds { n * width ≤ length w.now }
    ensures { result ≡ count_if (covers leg) (legs_in width n w.now) }
{
    let mut count: u32 = 0;
    let mut left = n;
    let mut at: usize = 0;
    // Kept: (c) tried as `for _ in 0..n`: the laws of the rows left say `left` and `left - 1`, and the search did not find them at `n - counter`.
    while 0 < left {
        let here = covers_at(w, at, width, leg);
        at += width;
        left -= 1;
        if here {
            count += 1;
        }
    }
    count
}

// ---- ranges that follow each other

// Whether n ranges follow each other: the first begins at leg 0, each of the others where the one before ends, and the last ends at `legs`. Most services list them so.
pub fn in_turn(w: &[u32], n: u32, width: usize, legs: u32) -> bool
    requires le_width { 2 ≤ width }
    requires width_in_bounds { n * width ≤ length w.now }
    ensures { result ≡ in_turn 0 legs (legs_in width n w.now) }
{
    let mut left = n;
    let mut at: usize = 0;
    let mut leg: u32 = 0;
    // Kept: (c) tried as `for _ in 0..n`: the laws of the rows left say `left` and `left - 1`, and the search did not find them at `n - counter`.
    while 0 < left {
        if !begins_at(w, at, width, leg) {
            return false;
        }
        leg = end_at(w, at, width);
        at += width;
        left -= 1;
    }
    leg == legs
}

// ---- one range

// Whether a range covers a leg.
fn covers_leg(legs: LegWords, leg: u32) -> bool
    ensures { result ≡ covers leg (legs_held legs) }
{
    legs.from <= leg && leg < legs.to
}

// Whether the range at a place covers a leg.
fn covers_at(w: &[u32], at: usize, width: usize, leg: u32) -> bool
    requires le_width { 2 ≤ width }
    requires width_in_bounds { at + width ≤ length w.now }
    ensures { result ≡ covers leg (legs_at (width - 2) (drop at w.now)) }
{
    covers_leg(timetable::legs_at(w, at, width - 2), leg)
}

// Whether the range at a place has legs, of which the first is `leg`; its end is read only where it begins there, which takes fewer instructions than both at once.
fn begins_at(w: &[u32], at: usize, width: usize, leg: u32) -> bool
    requires le_width { 2 ≤ width }
    requires width_in_bounds { at + width ≤ length w.now }
    ensures { result ≡ begins leg (legs_at (width - 2) (drop at w.now)) }
{
    let ends = at + (width - 2);
    if w[ends] != leg {
        return false;
    }
    leg < w[ends + 1]
}

// The call where the range at a place ends.
fn end_at(w: &[u32], at: usize, width: usize) -> u32
    requires le_width { 2 ≤ width }
    requires width_in_bounds { at + width ≤ length w.now }
    ensures { result ≡ (legs_at (width - 2) (drop at w.now)).to }
{
    let legs = timetable::legs_at(w, at, width - 2);
    legs.to
}

// The words of a service's ranges of one kind, from its draft: `calls` holds c drafted calls, `ranges` n drafted ranges. The check counts legs on them,
// and the service is written with them.
#![tactic(auto)]

ghost use Rattle.std.specs.Prelude.{◌≡◌, ◌+◌, ◌*◌, ◌≤◌, length, drop};
ghost use Rattle.words.specs.Words.{write};
ghost use Rattle.timetable.specs.Plan.{part_number};
ghost use Rattle.draft.specs.Inner.Draft.{draft_call, draft_range, part_back, line_back, calls_in, ranges_in};
ghost use Rattle.range_words.specs.Inner.Parts.{range_row_words, part_row, range_gives, part_words};

use timetable::{RangeKind, RangeLine};

// Writes the ranges of one part; the place after them.
#[tactic(auto, using(crate::proofs::Parts::puts))]
pub fn part_into(
    part: RangeKind,
    ranges: &[u32],
    n: u32,
    calls: &[u32],
    c: u32,
    table: &mut [u32],
    at: usize,
) -> usize
    requires c_in_bounds { (draft_call * c ≤ length calls.now) × (draft_range * n ≤ length ranges.now) }
    requires ranges_in_bounds { at + length (part_words part (calls_in c calls.now) (ranges_in n ranges.now)) ≤ length table.old }
    ensures { (result ≡
        at + length (part_words part (calls_in c calls.now) (ranges_in n ranges.now))) ×
        (table.new ≡ write table.old at
        (part_words part (calls_in c calls.now) (ranges_in n ranges.now))) }
{
    let mut to = at;
    for i in 0..n {
        to = range_into(part, ranges, draft::range_start(i), calls, c, table, to);
    }
    to
}

// Writes what the range at a place gives to a part: nothing where its ends are not found; the place after it. Its part is looked at first: most ranges
// are of another, and are not taken apart.
#[tactic(auto, using(crate::proofs::Parts::gives))]
fn range_into(
    part: RangeKind,
    ranges: &[u32],
    place: usize,
    calls: &[u32],
    c: u32,
    table: &mut [u32],
    at: usize,
) -> usize
    requires c_in_bounds { (draft_call * c ≤ length calls.now) × (place + draft_range ≤ length ranges.now) }
    requires range_in_bounds { at + length (range_gives part (calls_in c calls.now) (line_back (drop place ranges.now))) ≤ length table.old }
    ensures { (result ≡
        at + length (range_gives part (calls_in c calls.now) (line_back (drop place ranges.now)))) ×
        (table.new ≡ write table.old at
        (range_gives part (calls_in c calls.now) (line_back (drop place ranges.now)))) }
{
    if part_drafted(ranges[place + 1]) != draft::part_number(part) {
        return at;
    }
    let range = draft::range_at(ranges, place);
    let Some((from, to)) = route::legs_on(calls, c, range) else {
        return at;
    };
    put_row(part, range, from.0, to.0, table, at)
}

// The part that a word of the draft says, by its number.
#[tactic(auto, using(crate::proofs::Parts::gives))]
fn part_drafted(word: u32) -> u32
    ensures { result ≡ part_number (part_back word) }
{
    match word {
        0 => 0,
        1 => 1,
        _ => 2,
    }
}

// Writes the words of a range, from one call to another, if it is of a part; the place after them.
#[tactic(auto, using(crate::proofs::Parts::rowing))]
pub fn row_into(
    part: RangeKind,
    range: RangeLine,
    from: u32,
    to: u32,
    table: &mut [u32],
    at: usize,
) -> usize
    requires { at + length (part_row part range from to) ≤ length table.old }
    ensures { (result ≡ at + length (part_row part range from to))
        × (table.new ≡ write table.old at (part_row part range from to)) }
{
    if draft::part_number(range.part) != draft::part_number(part) {
        return at;
    }
    put_row(part, range, from, to, table, at)
}

// Writes the words of a range of a part, from one call to another; the place after them.
#[tactic(auto, using(crate::proofs::Parts::putting))]
fn put_row(
    part: RangeKind,
    range: RangeLine,
    from: u32,
    to: u32,
    table: &mut [u32],
    at: usize,
) -> usize
    requires { at + length (range_row_words part range from to) ≤ length table.old }
    ensures { (result ≡ at + length (range_row_words part range from to))
        × (table.new ≡ write table.old at (range_row_words part range from to)) }
{
    match part {
        RangeKind::Category => {
            words::put(table, at, [range.name, from, to]);
            at + 3
        }
        RangeKind::Days => {
            words::put(table, at, [range.field, from, to]);
            at + 3
        }
        RangeKind::Extra => {
            words::put(table, at, [range.name, range.field, from, to]);
            at + 4
        }
    }
}

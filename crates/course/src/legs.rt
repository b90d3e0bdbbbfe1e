// The legs of a service on a day: what a walk refuses of them (34, 31), and which of them are operated. Where its ranges follow each other (`cover::in_turn`), as they
// mostly do, range by range with one look-up each (`day_legs`), else leg by leg.
// `w` are words with a sound header, `x` an index or none, `s` the words from the service's record on.
ghost use Rattle.std.specs.Prelude.{◌≡◌, map, true, ◌+◌, ◌-◌, ◌*◌, ◌≤◌, ◌<◌, length, drop};
ghost use Rattle.base.specs.Lists.{every, some_of, upto, below};
ghost use Rattle.timetable.specs.Layout.{day_size, most_period_days};
ghost use Rattle.timetable.specs.Table.{rows_in, day_at, day_place, service_at, sizes_sound};
ghost use Rattle.timetable.specs.Inner.Words.{day_held};
ghost use Rattle.timetable.specs.Legs.{operated_by};
ghost use Rattle.timetable.specs.Run.{leg_refusal, first_refusal};
ghost use Rattle.index.specs.Index.{view_in};
ghost use Rattle.index.specs.Inner.Ready.{Ready};
ghost use Rattle.course.specs.Inner.Run.{noted, range_known, range_runs, gap};
ghost use Rattle.course.specs.Inner.Turn.{no_legs, with_operated, with_idle, with_range, ranges_say};

use timetable::{DAYS_AT, DAYS_WORDS, DayWords, Refusal};

// The operated legs of a day: where the first stretch of them begins and ends, and where another begins; all three are the end where there is none.
#[derive(Clone, Copy)]
pub struct DayLegs {
    pub start: u32,
    pub end: u32,
    pub again: u32,
}

// ---- range by range

// What n ranges that follow each other from leg 0 on say of day k of the period: 31 where one has an unknown bit field. Their words are read here: handed on to a reader, `v` would be handed to this function
// in memory.
pub fn day_legs(w: &[u32], x: &[u32], v: &[u32], n: u32, k: u32) -> Result<DayLegs, Refusal>
    requires ready { Ready w.now x.now × (k < most_period_days) }
    requires day_size_in_bounds { n * day_size ≤ length v.now }
    ensures { result ≡
        ranges_say (view_in w.now x.now) k no_legs (rows_in day_at day_size n v.now) }
{
    let mut p: usize = 0;
    let mut seen = no_legs();
    for i in 0..n {
        let field = index::field_day(w, x, v[p], k);
        if !field.known {
            return Err(Refusal::LegFieldUnknown);
        }
        seen = with_range(seen, v[p + 1], v[p + 2], field.runs);
        p += DAYS_WORDS;
    }
    Ok(seen)
}

// The legs so far, which end at `from`, with those from there to `to`, which are all operated or all not.
fn with_range(seen: DayLegs, from: u32, to: u32, runs: bool) -> DayLegs
    ensures { result ≡ with_range runs from to seen }
{
    if runs {
        return with_operated(seen, from, to);
    }
    with_idle(seen, from, to)
}

// With operated legs: the stretch goes on or begins with them, if it has not ended before.
fn with_operated(seen: DayLegs, from: u32, to: u32) -> DayLegs
    ensures { result ≡ with_operated from to seen }
{
    if seen.end != from {
        return seen;
    }
    DayLegs {
        start: seen.start,
        end: to,
        again: to,
    }
}

// With legs that are not operated: neither the stretch nor, after it, another begins before their end, if it has not begun.
fn with_idle(seen: DayLegs, from: u32, to: u32) -> DayLegs
    ensures { result ≡ with_idle from to seen }
{
    if seen.start == from {
        return DayLegs {
            start: to,
            end: to,
            again: to,
        };
    }
    if seen.again != from {
        return seen;
    }
    DayLegs {
        start: seen.start,
        end: seen.end,
        again: to,
    }
}

fn no_legs() -> DayLegs
    ensures { result ≡ no_legs }
{
    DayLegs {
        start: 0,
        end: 0,
        again: 0,
    }
}

// ---- 34 and 31

// What the first refused one of the legs is refused for.
pub fn legs_refusal(w: &[u32], x: &[u32], s: &[u32], legs: u32) -> Result<(), Refusal>
    requires ready { Ready w.now x.now }
    requires s_value { sizes_sound s.now ≡ true }
    ensures { noted result ≡ first_refusal
        (leg_refusal (view_in w.now x.now) (service_at s.now)) (below legs) }
{
    for leg in 0..legs {
        leg_refusal(w, x, s, leg)?;
    }
    Ok(())
}

// What a leg is refused for: 34 not exactly one *A VE, 31 its bit field unknown.
fn leg_refusal(w: &[u32], x: &[u32], s: &[u32], leg: u32) -> Result<(), Refusal>
    requires ready { Ready w.now x.now }
    requires s_value { sizes_sound s.now ≡ true }
    ensures { noted result ≡
        leg_refusal (view_in w.now x.now) (service_at s.now) leg }
{
    let v = day_words(s);
    let n = s[DAYS_AT];
    if !cover::covered_once(v, n, DAYS_WORDS, leg) {
        return Err(Refusal::LegDaysNotOnce);
    }
    if !ranges_known(w, x, v, n, leg) {
        return Err(Refusal::LegFieldUnknown);
    }
    Ok(())
}

// Whether the ranges among n that cover a leg have known bit fields.
fn ranges_known(w: &[u32], x: &[u32], v: &[u32], n: u32, leg: u32) -> bool
    requires ready { Ready w.now x.now }
    requires day_size_in_bounds { n * day_size ≤ length v.now }
    ensures { result ≡
        every (range_known (view_in w.now x.now) leg) (rows_in day_at day_size n v.now) }
{
    let mut p: usize = 0;
    for i in 0..n {
        if !range_known(w, x, timetable::day_at(v, p), leg) {
            return false;
        }
        p += DAYS_WORDS;
    }
    true
}

// Whether a range has a known bit field, if it covers a leg.
fn range_known(w: &[u32], x: &[u32], range: DayWords, leg: u32) -> bool
    requires { Ready w.now x.now }
    ensures { result ≡ range_known (view_in w.now x.now) leg (day_held range) }
{
    if leg < range.from {
        return true;
    }
    if range.to <= leg {
        return true;
    }
    let f = index::field_words(w, x, range.field);
    f.known
}

// ---- operated legs

// The first leg from one on, below `legs`, that is operated on day k of the period, or (`on` false) that is not; `legs` where none is.
pub fn next_leg(w: &[u32], x: &[u32], s: &[u32], k: u32, from: u32, legs: u32, on: bool) -> u32
    requires ready { Ready w.now x.now × (k < most_period_days) }
    requires s_value { sizes_sound s.now ≡ true }
    ensures { result ≡ from + gap on (map
        (operated_by (view_in w.now x.now).runs (service_at s.now).days k)
        (upto (legs - from) from)) }
{
    let mut leg = from;
    // Kept: (d) where no leg is left the answer is `from`, and not `legs`: a `for` would need a test of its own for that.
    while leg < legs {
        if leg_runs(w, x, s, leg, k) == on {
            return leg;
        }
        leg += 1;
    }
    leg
}

// Whether a leg is operated on day k of the period.
fn leg_runs(w: &[u32], x: &[u32], s: &[u32], leg: u32, k: u32) -> bool
    requires ready { Ready w.now x.now × (k < most_period_days) }
    requires s_value { sizes_sound s.now ≡ true }
    ensures { result ≡
        operated_by (view_in w.now x.now).runs (service_at s.now).days k leg }
{
    ranges_run(w, x, day_words(s), s[DAYS_AT], leg, k)
}

// Whether one of n ranges covers a leg and runs on day k.
fn ranges_run(w: &[u32], x: &[u32], v: &[u32], n: u32, leg: u32, k: u32) -> bool
    requires ready { Ready w.now x.now × (k < most_period_days) }
    requires day_size_in_bounds { n * day_size ≤ length v.now }
    ensures { result ≡ some_of (range_runs (view_in w.now x.now) k leg)
        (rows_in day_at day_size n v.now) }
{
    let mut p: usize = 0;
    for i in 0..n {
        if range_runs(w, x, timetable::day_at(v, p), leg, k) {
            return true;
        }
        p += DAYS_WORDS;
    }
    false
}

// Whether a range covers a leg and runs on day k.
fn range_runs(w: &[u32], x: &[u32], range: DayWords, leg: u32, k: u32) -> bool
    requires { Ready w.now x.now × (k < most_period_days) }
    ensures { result ≡ range_runs (view_in w.now x.now) k leg (day_held range) }
{
    if leg < range.from {
        return false;
    }
    if range.to <= leg {
        return false;
    }
    let own = index::field_words(w, x, range.field);
    lookups::field_runs(own, k)
}

// The words from the first operating-day range of a service on.
pub fn day_words(s: &[u32]) -> &[u32]
    requires { sizes_sound s.now ≡ true }
    ensures { result.now ≡ drop (day_place s.now) s.now }
{
    &s[table::day_place(s)..]
}

// The checks of a service by line, on its draft: the times of its calls (15), and the ends of its ranges (16), which leaves the words of those that 17
// to 19 look at.
ghost use Rattle.std.specs.Prelude.{◌≡◌, ◌&&◌, ◌||◌, ◌+◌, ◌*◌, ◌≤◌, ◌<◌, length, drop};
ghost use Rattle.timetable.specs.Offences.{verdict_by};
ghost use Rattle.timetable.specs.Checks.{times_stated, not_below, later as later_of, times_rise, last_stated, times_first};
ghost use Rattle.timetable.specs.Checks.{ends_first};
ghost use Rattle.timetable.specs.declared.RangeKind.TheVariants.{Category, Days};
ghost use Rattle.draft.specs.Inner.Draft.{draft_call, draft_range, line_back, calls_on, calls_in, ranges_on, ranges_in};
ghost use Rattle.range_words.specs.Inner.Parts.{range_gives, part_words};
ghost use Rattle.words.specs.Words.{write};
ghost use Rattle.service.specs.Inner.Answers.{PartFound, row_by};

use timetable::{Call, Offence, RangeKind};

// The places after the *G ranges and after the *A VE ranges that are written.
#[derive(Clone, Copy)]
struct RowEnds {
    pub categories: usize,
    pub operating: usize,
}

// ---- 15

// The first of c calls whose times are missing or fall.
#[tactic(auto, using(crate::proofs::schedule::Times::timed))]
pub fn times_wrong(calls: &[u32], c: u32) -> Result<(), Offence>
    requires { draft_call * c ≤ length calls.now }
    ensures { result ≡ verdict_by (times_first c 0 0 (calls_on c calls.now)) }
{
    let mut before: u32 = 0;
    for i in 0..c {
        let at = draft::call_start(i);
        let call = draft::call_at(calls, at);
        if !times_fit(c, i, before, call) {
            return timetable::offends(15, draft::call_line(calls, at));
        }
        before = last_stated(before, call);
    }
    Ok(())
}

// Whether the i-th call of c states the times that it needs, and none of them falls after `before`, the time stated last.
#[tactic(auto, using(crate::proofs::schedule::Times::fitting))]
fn times_fit(c: u32, i: u32, before: u32, call: Call) -> bool
    requires { i < c }
    ensures { result ≡ (times_stated c i call && times_rise before call) }
{
    let stated = times_stated(c, i, call);
    let rise = times_rise(before, call);
    stated && rise
}

#[tactic(auto, using(crate::proofs::schedule::Times::fitting))]
fn times_stated(c: u32, i: u32, call: Call) -> bool
    requires { i < c }
    ensures { result ≡ times_stated c i call }
{
    let arrival = stated_or(i == 0, timetable::has_arrival(call));
    let departure = stated_or(i + 1 == c, timetable::has_departure(call));
    arrival && departure
}

// Whether a time is stated, or the call is free not to.
fn stated_or(free: bool, stated: bool) -> bool
    ensures { result ≡ (free || stated) }
{
    if free {
        return true;
    }
    stated
}

#[tactic(auto, using(crate::proofs::schedule::Times::fitting))]
fn times_rise(before: u32, call: Call) -> bool
    ensures { result ≡ times_rise before call }
{
    let arrival = timetable::has_arrival(call);
    let first = not_below(arrival, call.arrival, before);
    let then = not_below(
        timetable::has_departure(call),
        call.departure,
        later(arrival, call.arrival, before),
    );
    first && then
}

fn last_stated(before: u32, call: Call) -> u32
    ensures { result ≡ last_stated before call }
{
    later(
        timetable::has_departure(call),
        call.departure,
        later(timetable::has_arrival(call), call.arrival, before),
    )
}

fn not_below(stated: bool, time: u32, before: u32) -> bool
    ensures { result ≡ not_below stated time before }
{
    if stated {
        return before <= time;
    }
    true
}

// The time stated last, after one that was stated before.
fn later(stated: bool, time: u32, before: u32) -> u32
    ensures { result ≡ later_of stated time before }
{
    if stated { time } else { before }
}

// ---- 16

// Finds the ends of n ranges among the c calls, each once: the first range whose ends are not found, or are in wrong order; or, if there is none, the
// words of the *G ranges in `categories` and those of the *A VE ranges in `operating`.
#[tactic(auto, using(crate::proofs::schedule::Ends::ended))]
pub fn find_ends(
    ranges: &[u32],
    n: u32,
    calls: &[u32],
    c: u32,
    categories: &mut [u32],
    operating: &mut [u32],
) -> Result<(), Offence>
    requires n_in_bounds { (draft_range * n ≤ length ranges.now) × (draft_call * c ≤ length calls.now) }
    requires ranges_in_bounds { length (part_words Category (calls_in c calls.now) (ranges_in n ranges.now)) ≤ length
        categories.old }
    requires ranges_in_bounds_2 { length (part_words Days (calls_in c calls.now) (ranges_in n ranges.now)) ≤ length operating.old }
    ensures value { result ≡ verdict_by (ends_first (calls_in c calls.now) (ranges_on n ranges.now)) }
    ensures part_found { PartFound result Category (calls_in c calls.now) (ranges_in n ranges.now)
        categories.old categories.new }
    ensures part_found_2 { PartFound result Days (calls_in c calls.now) (ranges_in n ranges.now)
        operating.old operating.new }
{
    let mut ends = RowEnds {
        categories: 0,
        operating: 0,
    };
    for i in 0..n {
        let at = draft::range_start(i);
        let Some(after) = range_into(ranges, at, calls, c, categories, operating, ends) else {
            return timetable::offends(16, draft::range_line(ranges, at));
        };
        ends = after;
    }
    Ok(())
}

// Finds the ends of the range at a place, and writes its words behind those of its kind: of other *A none are. Where those then end, or nothing where the
// range's ends are not found, or are in wrong order.
#[tactic(auto, using(crate::proofs::schedule::Ends::finding))]
fn range_into(
    ranges: &[u32],
    at: usize,
    calls: &[u32],
    c: u32,
    categories: &mut [u32],
    operating: &mut [u32],
    ends: RowEnds,
) -> Option<RowEnds>
    requires draft_range_in_bounds { (at + draft_range ≤ length ranges.now) × (draft_call * c ≤ length calls.now) }
    requires ranges_in_bounds { ends.categories + length
        (range_gives Category (calls_in c calls.now) (line_back (drop at ranges.now))) ≤ length categories.old }
    requires ranges_in_bounds_2 { ends.operating + length
        (range_gives Days (calls_in c calls.now) (line_back (drop at ranges.now))) ≤ length operating.old }
    ensures value { result ≡ row_by ends (calls_in c calls.now) (line_back (drop at ranges.now)) }
    ensures categories_after { categories.new ≡ write categories.old ends.categories
        (range_gives Category (calls_in c calls.now) (line_back (drop at ranges.now))) }
    ensures operating_after { operating.new ≡ write operating.old ends.operating
        (range_gives Days (calls_in c calls.now) (line_back (drop at ranges.now))) }
{
    let range = draft::range_at(ranges, at);
    let (from, to) = route::legs_on(calls, c, range)?;
    let category = ends.categories;
    let day = ends.operating;
    Some(RowEnds {
        categories: range_words::row_into(
            RangeKind::Category,
            range,
            from.0,
            to.0,
            categories,
            category,
        ),
        operating: range_words::row_into(RangeKind::Days, range, from.0, to.0, operating, day),
    })
}

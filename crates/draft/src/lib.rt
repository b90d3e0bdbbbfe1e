// The draft of a service: what its lines say, in words of its own, so that each line is read once. Calls stand with the numbers of their lines,
// ranges in line order with their ends as they are written; `calls` and `ranges` are lent for it, and hold the drafts from their front on.
// The draft holds stop numbers, whatever the table's calls hold.
#![tactic(auto)]

ghost use Rattle.std.specs.Prelude.{◌≡◌, [], ◌∷◌, ◌++◌, cond, ◌+◌, ◌*◌, ◌≤◌, length, drop};
ghost use Rattle.timetable.specs.Plan.{as_call, as_range, part_number};
ghost use Rattle.timetable.specs.Service.{opened, call_by};
ghost use Rattle.words.specs.Words.{write};
ghost use Rattle.draft.specs.Inner.Draft.{draft_call, draft_range, draft_end, most_ranges, calls_lent, ranges_lent};
ghost use Rattle.draft.specs.Inner.Draft.{call_draft, place_tag, place_value, detail_tag, detail_value, end_draft};
ghost use Rattle.draft.specs.Inner.Draft.{range_draft};
ghost use Rattle.draft.specs.Inner.Draft.{call_back, place_back, detail_back, part_back, end_back, line_back};
ghost use Rattle.draft.specs.Inner.Draft.{range_back, calls_on, ranges_on, on_line, last_of, calls_after, no_counts};
ghost use Rattle.draft.specs.Inner.Draft.{count_calls, count_part, count_ranges, counted, ranges#, Within};

use fields::{Appearance, Detail, RangeEnd, RouteIndex, StopNumber};
use timetable::{
    Administration, Announced, Call, CallLine, End, Ends, Opening, RangeKind, RangeLine, Told,
};

// The words of a call in the draft: those of the table (stop, arrival, departure, flags, and the number and administration that hold there), and its
// line's number.
pub const DRAFT_CALL_WORDS: usize = 8;

// The words of a range: its line's number, its part, its name, its bit field, and four words for each of its ends.
pub const DRAFT_RANGE_WORDS: usize = 12;

// As many ranges as a service may have.
pub const MOST_RANGES: usize = timetable::MOST_CATEGORIES as usize
    + timetable::MOST_DAYS as usize
    + timetable::MOST_EXTRAS as usize;

// The words lent for the calls and the ranges of one service.
pub const CALLS_LENT: usize = DRAFT_CALL_WORDS * timetable::MOST_CALLS as usize;

pub const RANGES_LENT: usize = DRAFT_RANGE_WORDS * MOST_RANGES;

// How many calls, and ranges of each kind.
#[derive(Clone, Copy)]
pub struct Counts {
    pub calls: u32,
    pub categories: u32,
    pub days: u32,
    pub extras: u32,
}

// A service as drafted: what its opening line says and that line's number, how many calls and ranges it has, and where the next service begins:
// the place and the number of its opening line, or of the file's end.
#[derive(Clone, Copy)]
pub struct Drafted {
    pub opening: Opening,
    pub line: u32,
    pub counts: Counts,
    pub end: usize,
    pub no: u32,
}

// An end's place or detail in two words: which it is, and its number.
#[derive(Clone, Copy)]
struct Code {
    pub tag: u32,
    pub value: u32,
}

// ---- where the words stand

// Where the words of call i start.
pub fn call_start(i: u32) -> usize
    ensures { result ≡ draft_call * i }
{
    DRAFT_CALL_WORDS * i as usize
}

// Where those of range i do.
pub fn range_start(i: u32) -> usize
    ensures { result ≡ draft_range * i }
{
    DRAFT_RANGE_WORDS * i as usize
}

// ---- written

// No line is drafted.
pub fn no_counts() -> Counts
    ensures { result ≡ no_counts }
{
    Counts {
        calls: 0,
        categories: 0,
        days: 0,
        extras: 0,
    }
}

// How many ranges of all kinds.
pub fn range_count(counts: Counts) -> u32
    requires { ranges# counts ≤ most_ranges }
    ensures { result ≡ ranges# counts }
{
    counts.categories + counts.days + counts.extras
}

// Drafts what a line of the service that `opening` opens says, behind what is drafted; how much is drafted then.
pub fn draft_line(
    opening: Opening,
    said: Told,
    line: u32,
    counts: Counts,
    calls: &mut [u32],
    ranges: &mut [u32],
) -> Counts
    requires within { Within (counted counts said) }
    requires calls_lent_in_bounds { (calls_lent ≤ length calls.old) × (ranges_lent ≤ length ranges.old) }
    ensures value { result ≡ counted counts said }
    ensures calls_after { calls_on result.calls calls.new ≡
        calls_after opening (calls_on counts.calls calls.old) line (as_call said) }
    ensures ranges_after { ranges_on (ranges# result) ranges.new ≡
        ranges_on (ranges# counts) ranges.old ++ on_line line (as_range said) }
{
    // "Only schedule lines are taken as calls; every other kind is passed over when the route is gathered."
    if let Told::Calls(call) = said {
        return draft_call(opening, call, line, counts, calls);
    }
    let Told::Ranges(range) = said else {
        return counts;
    };
    draft_range(range, line, counts, ranges)
}

// Drafts the call of a schedule line.
pub fn draft_call(
    opening: Opening,
    call: CallLine,
    line: u32,
    counts: Counts,
    calls: &mut [u32],
) -> Counts
    requires within { Within (count_calls counts (call ∷ [])) }
    requires calls_lent_in_bounds { calls_lent ≤ length calls.old }
    ensures value { result ≡ count_calls counts (call ∷ []) }
    ensures calls_after { calls_on result.calls calls.new ≡
        calls_after opening (calls_on counts.calls calls.old) line (call ∷ []) }
{
    let before = announced_last(opening, counts.calls, calls);
    put_call(
        calls,
        DRAFT_CALL_WORDS * counts.calls as usize,
        line,
        call_by(before, call),
    );
    let mut k = counts;
    k.calls += 1;
    k
}

// What holds at the last of c drafted calls: "A blank field repeats the call before; the first call's blanks take the *Z values."
#[tactic(auto, using(crate::proofs::Writing::holds))]
fn announced_last(opening: Opening, c: u32, calls: &[u32]) -> Announced
    requires { draft_call * c ≤ length calls.now }
    ensures { result ≡ last_of (opened opening) (calls_on c calls.now) }
{
    if c == 0 {
        return Announced {
            number: opening.number,
            high: opening.high,
            low: opening.low,
        };
    }
    let at = DRAFT_CALL_WORDS * (c - 1) as usize;
    Announced {
        number: calls[at + 4],
        high: calls[at + 5],
        low: calls[at + 6],
    }
}

// The call of a schedule line, where that held before it.
fn call_by(before: Announced, line: CallLine) -> Call
    ensures { result ≡ call_by before line }
{
    let number = line.number.unwrap_or(before.number);
    let held = Administration {
        high: before.high,
        low: before.low,
    };
    let administration = line.administration.unwrap_or(held);
    Call {
        stop: line.stop,
        arrival: line.arrival,
        departure: line.departure,
        flags: line.flags,
        number,
        high: administration.high,
        low: administration.low,
    }
}

// Drafts the range of a *G or *A line.
pub fn draft_range(range: RangeLine, line: u32, counts: Counts, ranges: &mut [u32]) -> Counts
    requires within { Within (count_ranges counts (range ∷ [])) }
    requires ranges_lent_in_bounds { ranges_lent ≤ length ranges.old }
    ensures value { result ≡ count_ranges counts (range ∷ []) }
    ensures ranges_after { ranges_on (ranges# result) ranges.new ≡
        ranges_on (ranges# counts) ranges.old ++ on_line line (range ∷ []) }
{
    put_range(
        ranges,
        DRAFT_RANGE_WORDS * range_count(counts) as usize,
        line,
        range,
    );
    let part = range.part;
    count_part(counts, part)
}

fn count_part(counts: Counts, part: RangeKind) -> Counts
    requires { Within (count_part counts part) }
    ensures { result ≡ count_part counts part }
{
    let mut k = counts;
    match part {
        RangeKind::Category => {
            k.categories += 1;
            k
        }
        RangeKind::Days => {
            k.days += 1;
            k
        }
        RangeKind::Extra => {
            k.extras += 1;
            k
        }
    }
}

fn put_call(calls: &mut [u32], at: usize, line: u32, call: Call)
    requires { at + draft_call ≤ length calls.old }
    ensures { calls.new ≡ write calls.old at (call_draft (line, call)) }
{
    words::put(
        calls,
        at,
        [call.stop, call.arrival, call.departure, call.flags],
    );
    words::put(calls, at + 4, [call.number, call.high, call.low, line]);
}

fn put_range(ranges: &mut [u32], at: usize, line: u32, range: RangeLine)
    requires { at + draft_range ≤ length ranges.old }
    ensures { ranges.new ≡ write ranges.old at (range_draft (line, range)) }
{
    let part = range.part;
    let ends = range.ends;
    let from = ends.from;
    let to = ends.to;
    let number = part_number(part);
    words::put(ranges, at, [line, number, range.name, range.field]);
    put_end(ranges, at + 4, from);
    put_end(ranges, at + 8, to);
}

fn put_end(ranges: &mut [u32], at: usize, end: End)
    requires { at + draft_end ≤ length ranges.old }
    ensures { ranges.new ≡ write ranges.old at (end_draft end) }
{
    let place = end.place;
    let detail = end.detail;
    let p = place_code(place);
    let d = detail_code(detail);
    words::put(ranges, at, [p.tag, p.value, d.tag, d.value]);
}

fn place_code(place: RangeEnd) -> Code
    ensures { result ≡ record { tag = place_tag place; value = place_value place } }
{
    match place {
        RangeEnd::Outer => Code { tag: 0, value: 0 },
        RangeEnd::Index(index) => Code {
            tag: 1,
            value: index.0,
        },
        RangeEnd::Stop(number) => Code {
            tag: 2,
            value: number.0,
        },
        RangeEnd::NoEnd => Code { tag: 3, value: 0 },
    }
}

fn detail_code(detail: Detail) -> Code
    ensures { result ≡ record { tag = detail_tag detail; value = detail_value detail } }
{
    match detail {
        Detail::Plain => Code { tag: 0, value: 0 },
        Detail::Nth(appearance) => Code {
            tag: 1,
            value: appearance.0,
        },
        Detail::Timed(minutes) => Code {
            tag: 2,
            value: minutes,
        },
        Detail::NoDetail => Code { tag: 3, value: 0 },
    }
}

// The number that stands for a part, in the table's order.
pub fn part_number(part: RangeKind) -> u32
    ensures { result ≡ part_number part }
{
    match part {
        RangeKind::Category => 0,
        RangeKind::Days => 1,
        RangeKind::Extra => 2,
    }
}

// ---- read back

// The call whose words start at a place: they begin as a call's of the table do.
pub fn call_at(calls: &[u32], at: usize) -> Call
    requires { at + draft_call ≤ length calls.now }
    ensures { result ≡ (call_back (drop at calls.now)).1 }
{
    timetable::call_at(calls, at)
}

// The number of its line.
pub fn call_line(calls: &[u32], at: usize) -> u32
    requires { at + draft_call ≤ length calls.now }
    ensures { result ≡ (call_back (drop at calls.now)).0 }
{
    calls[at + 7]
}

// The range whose words start at a place.
pub fn range_at(ranges: &[u32], at: usize) -> RangeLine
    requires { at + draft_range ≤ length ranges.now }
    ensures { result ≡ line_back (drop at ranges.now) }
{
    let part = part_of(ranges[at + 1]);
    let name = ranges[at + 2];
    let field = ranges[at + 3];
    let from = end_at(ranges, at + 4);
    let to = end_at(ranges, at + 8);
    let ends = Ends { from, to };
    RangeLine {
        part,
        name,
        field,
        ends,
    }
}

// The number of its line.
pub fn range_line(ranges: &[u32], at: usize) -> u32
    requires { at + draft_range ≤ length ranges.now }
    ensures { result ≡ (range_back (drop at ranges.now)).0 }
{
    ranges[at]
}

// The end whose words start at a place.
fn end_at(ranges: &[u32], at: usize) -> End
    requires { at + draft_end ≤ length ranges.now }
    ensures { result ≡ end_back 0 (drop at ranges.now) }
{
    let place = place_of(ranges[at], ranges[at + 1]);
    let detail = detail_of(ranges[at + 2], ranges[at + 3]);
    End { place, detail }
}

fn place_of(tag: u32, value: u32) -> RangeEnd
    ensures { result ≡ place_back tag value }
{
    match tag {
        0 => RangeEnd::Outer,
        1 => RangeEnd::Index(RouteIndex(value)),
        2 => RangeEnd::Stop(StopNumber(value)),
        _ => RangeEnd::NoEnd,
    }
}

fn detail_of(tag: u32, value: u32) -> Detail
    ensures { result ≡ detail_back tag value }
{
    match tag {
        0 => Detail::Plain,
        1 => Detail::Nth(Appearance(value)),
        2 => Detail::Timed(value),
        _ => Detail::NoDetail,
    }
}

fn part_of(number: u32) -> RangeKind
    ensures { result ≡ part_back number }
{
    match number {
        0 => RangeKind::Category,
        1 => RangeKind::Days,
        _ => RangeKind::Extra,
    }
}

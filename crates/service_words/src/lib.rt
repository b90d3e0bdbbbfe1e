// Writes a service's words from its draft: `calls` holds c drafted calls, `ranges` n drafted ranges; the words stand in `table` from `at` on. A call is
// written with the place of its stop (document 02, No. 10), which is found by `stops`, the map of BAHNHOF.
#![tactic(auto)]

ghost use Rattle.std.specs.Prelude.{◌≡◌, ◌+◌, ◌-◌, ◌*◌, ◌/◌, ◌≤◌, length};
ghost use Rattle.base.specs.Lists.{gathered};
ghost use Rattle.words.specs.Words.{write};
ghost use Rattle.timetable.specs.Layout.{service_head, call_size, category_size, day_size, extra_size};
ghost use Rattle.timetable.specs.Files.{stops_in};
ghost use Rattle.timetable.specs.Table.{service_words};
ghost use Rattle.draft.specs.Inner.Draft.{draft_call, draft_range, calls_lent, ranges_lent, Within, calls_in, ranges_in};
ghost use Rattle.reading.specs.Inner.Maps.{StopMap};
ghost use Rattle.service_words.specs.Inner.Record.{placed_call, pointed_words, range_words, range_ends};
ghost use Rattle.service_words.specs.Inner.Record.{body_of, sizes_by, head_by, placed_in};

use draft::Drafted;
use timetable::{Call, Opening, RangeKind};

// How many calls and ranges a service has, and how many words it takes.
#[derive(Clone, Copy)]
struct Sizes {
    pub calls: u32,
    pub categories: u32,
    pub day_ranges: u32,
    pub extras: u32,
    pub words: u32,
}

// The places after a service's *G, *A VE and other *A ranges.
#[derive(Clone, Copy)]
struct RangeEnds {
    pub categories: usize,
    pub day_ranges: usize,
    pub extras: usize,
}

// Writes the words of a drafted service: its head, its calls and its ranges. How many words they are.
pub fn service_into(
    d: Drafted,
    calls: &[u32],
    ranges: &[u32],
    bahnhof: &[u8],
    stops: &[u32],
    table: &mut [u32],
    at: usize,
) -> u32
    requires within { Within d.counts × (calls_lent ≤ length calls.now) × (ranges_lent ≤ length ranges.now) }
    requires stop_map { StopMap bahnhof.now stops.now }
    requires ranges_in_bounds { at + length (service_words (placed_in (stops_in bahnhof.now) d calls.now ranges.now)) ≤
        length table.old }
    requires ranges_len_bound { length (service_words (placed_in (stops_in bahnhof.now) d calls.now ranges.now)) ≤ 4294967295 }
    ensures value { result ≡ length
        (service_words (placed_in (stops_in bahnhof.now) d calls.now ranges.now)) }
    ensures table_after { table.new ≡ write table.old at
        (service_words (placed_in (stops_in bahnhof.now) d calls.now ranges.now)) }
{
    let counts = d.counts;
    let n = draft::range_count(counts);
    let body = at + timetable::SERVICE_WORDS;
    let sizes = body_into(calls, counts.calls, ranges, n, bahnhof, stops, table, body);
    let opening = d.opening;
    head_into(table, at, sizes, opening, d.line);
    sizes.words
}

// Writes the words at the front of a service.
fn head_into(table: &mut [u32], at: usize, sizes: Sizes, opening: Opening, line: u32)
    requires { at + service_head ≤ length table.old }
    ensures { table.new ≡ write table.old at (head_by sizes opening line) }
{
    words::put(
        table,
        at,
        [sizes.words, opening.number, opening.high, opening.low],
    );
    words::put(
        table,
        at + timetable::REPEATS_AT,
        [
            opening.repeats,
            opening.offset,
            sizes.calls,
            sizes.categories,
        ],
    );
    words::put(
        table,
        at + timetable::DAYS_AT,
        [sizes.day_ranges, sizes.extras, line, opening.kind],
    );
}

// Writes the calls and ranges of a service.
fn body_into(
    calls: &[u32],
    c: u32,
    ranges: &[u32],
    n: u32,
    bahnhof: &[u8],
    stops: &[u32],
    table: &mut [u32],
    at: usize,
) -> Sizes
    requires c_in_bounds { (draft_call * c ≤ length calls.now) × (draft_range * n ≤ length ranges.now) }
    requires stop_map { StopMap bahnhof.now stops.now }
    requires ranges_in_bounds { at + length (body_of (stops_in bahnhof.now) (calls_in c calls.now) (ranges_in n ranges.now)) ≤
        length table.old }
    requires ranges_bound { service_head
        + length (body_of (stops_in bahnhof.now) (calls_in c calls.now) (ranges_in n ranges.now)) ≤ 4294967295 }
    ensures value { result ≡
        sizes_by (stops_in bahnhof.now) (calls_in c calls.now) (ranges_in n ranges.now) }
    ensures table_after { table.new ≡ write table.old at
        (body_of (stops_in bahnhof.now) (calls_in c calls.now)
        (ranges_in n ranges.now)) }
{
    let start = calls_into(calls, c, bahnhof, stops, table, at);
    let ends = ranges_into(ranges, n, calls, c, table, start);
    sizes_of(c, at, start, ends)
}

// Writes the calls, each with the place of its stop; the place after them.
#[tactic(auto, using(crate::proofs::Calls::calling))]
fn calls_into(
    calls: &[u32],
    c: u32,
    bahnhof: &[u8],
    stops: &[u32],
    table: &mut [u32],
    at: usize,
) -> usize
    requires c_in_bounds { draft_call * c ≤ length calls.now }
    requires stop_map { StopMap bahnhof.now stops.now }
    requires calls_in_bounds { at + length (gathered (pointed_words (stops_in bahnhof.now)) (calls_in c calls.now)) ≤
        length table.old }
    ensures value { result ≡
        at + length (gathered (pointed_words (stops_in bahnhof.now)) (calls_in c calls.now)) }
    ensures table_after { table.new ≡ write table.old at
        (gathered (pointed_words (stops_in bahnhof.now)) (calls_in c calls.now)) }
{
    let mut to = at;
    for i in 0..c {
        let call = draft::call_at(calls, draft::call_start(i));
        let stop = sections::stop_place(bahnhof, stops, call.stop);
        put_call(table, to, stop, call);
        to += timetable::CALL_WORDS;
    }
    to
}

// Writes the words of a call, with a place for its stop.
#[tactic(auto, using(crate::proofs::Calls::called))]
fn put_call(table: &mut [u32], at: usize, stop: u32, call: Call)
    requires { at + call_size ≤ length table.old }
    ensures { table.new ≡ write table.old at (placed_call stop call) }
{
    words::put(table, at, [stop, call.arrival, call.departure, call.flags]);
    words::put(table, at + 4, [call.number, call.high, call.low]);
}

// Writes the ranges, part by part; where each part ends.
fn ranges_into(
    ranges: &[u32],
    n: u32,
    calls: &[u32],
    c: u32,
    table: &mut [u32],
    at: usize,
) -> RangeEnds
    requires c_in_bounds { (draft_call * c ≤ length calls.now) × (draft_range * n ≤ length ranges.now) }
    requires ranges_in_bounds { at + length (range_words (calls_in c calls.now) (ranges_in n ranges.now)) ≤ length table.old }
    ensures { (result ≡ range_ends at (calls_in c calls.now) (ranges_in n ranges.now)) ×
        (table.new ≡ write table.old at
        (range_words (calls_in c calls.now) (ranges_in n ranges.now))) }
{
    let categories = range_words::part_into(RangeKind::Category, ranges, n, calls, c, table, at);
    let day_ranges = range_words::part_into(
        RangeKind::Days,
        ranges,
        n,
        calls,
        c,
        table,
        categories,
    );
    let extras = range_words::part_into(RangeKind::Extra, ranges, n, calls, c, table, day_ranges);
    RangeEnds {
        categories,
        day_ranges,
        extras,
    }
}

// The sizes of a service of c calls, whose calls are written from `at` on and its ranges from `start` on.
fn sizes_of(c: u32, at: usize, start: usize, ends: RangeEnds) -> Sizes
    requires { (at ≤ start) × (start ≤ ends.categories) × (ends.categories ≤ ends.day_ranges) ×
        (ends.day_ranges ≤ ends.extras) × (service_head + (ends.extras - at) ≤ 4294967295) }
    ensures { result ≡ record {
      calls = c;
      categories = (ends.categories - start) / category_size;
      day_ranges = (ends.day_ranges - ends.categories)
          / day_size;
      extras = (ends.extras - ends.day_ranges) / extra_size;
      words = service_head + (ends.extras - at);
    } }
{
    let categories = ends.categories - start;
    let day_ranges = ends.day_ranges - ends.categories;
    let extras = ends.extras - ends.day_ranges;
    let body = ends.extras - at;
    Sizes {
        calls: c,
        categories: (categories / timetable::CATEGORY_WORDS) as u32,
        day_ranges: (day_ranges / timetable::DAYS_WORDS) as u32,
        extras: (extras / timetable::EXTRA_WORDS) as u32,
        words: (timetable::SERVICE_WORDS + body) as u32,
    }
}

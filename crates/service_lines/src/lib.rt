// The record of a service as lines of FPLAN: where its ranges stand, its calls with their stops' numbers, how many lines it has; and whether all that a
// table holds can be written (44). `w` are the words of just a table, `s` those from a service's record on.
#![tactic(auto)]

ghost use Rattle.std.specs.Prelude.{◌≡◌, true, ◌+◌, ◌^◌, ◌≤◌, ◌<◌, length, drop};
ghost use Rattle.base.specs.Lists.{every};
ghost use Rattle.timetable.specs.Layout.{call_size};
ghost use Rattle.timetable.specs.Table.{stops#, stop_number_at, call_at, table_of, sizes_sound, call_sound};
ghost use Rattle.table.specs.JustTable.{JustTable};
ghost use Rattle.plan_services.specs.Services.{service_lines, plan_lines};
ghost use Rattle.writable.specs.Writable.{call_writable, service_writable};
ghost use Rattle.service_lines.specs.Inner.Record.{range_size, part_count, part_place, part_rows, range_writable};
ghost use Rattle.service_lines.specs.Inner.Record.{shown_call, call_rows, shown, Standing};

use timetable::{
    CALL_WORDS, CALLS_AT, CATEGORIES_AT, CATEGORY_WORDS, Call, DAYS_AT, DAYS_WORDS, EXTRA_WORDS,
    EXTRAS_AT, FIRST_SERVICE_AT, RangeKind, SERVICE_WORDS, SERVICES_AT,
};

// ---- ranges, by their part

// The words of a range.
pub fn range_words(part: RangeKind) -> usize
    ensures { result ≡ range_size part }
{
    match part {
        RangeKind::Category => CATEGORY_WORDS,
        RangeKind::Days => DAYS_WORDS,
        RangeKind::Extra => EXTRA_WORDS,
    }
}

// How many ranges the part has.
pub fn part_count(s: &[u32], part: RangeKind) -> u32
    requires { sizes_sound s.now ≡ true }
    ensures { result ≡ part_count part s.now }
{
    match part {
        RangeKind::Category => s[CATEGORIES_AT],
        RangeKind::Days => s[DAYS_AT],
        RangeKind::Extra => s[EXTRAS_AT],
    }
}

// Where they begin.
pub fn part_place(s: &[u32], part: RangeKind) -> usize
    requires { sizes_sound s.now ≡ true }
    ensures { result ≡ part_place part s.now }
{
    match part {
        RangeKind::Category => table::category_place(s),
        RangeKind::Days => table::day_place(s),
        RangeKind::Extra => table::extra_place(s),
    }
}

// Whether the range at a place can be written.
fn range_writable(s: &[u32], part: RangeKind, p: usize) -> bool
    requires { p + range_size part ≤ length s.now }
    ensures { result ≡ range_writable part (drop p s.now) }
{
    match part {
        RangeKind::Category => {
            let range = timetable::category_at(s, p);
            writable::name_writable(range.name)
        }
        RangeKind::Days => {
            let range = timetable::day_at(s, p);
            writable::field_writable(range.field)
        }
        RangeKind::Extra => {
            let range = timetable::extra_at(s, p);
            writable::extra_writable(range.code, range.field)
        }
    }
}

// Whether all ranges of the part can.
fn ranges_writable(s: &[u32], part: RangeKind) -> bool
    requires { sizes_sound s.now ≡ true }
    ensures { result ≡ every (range_writable part) (part_rows part s.now) }
{
    let mut p = part_place(s, part);
    for _ in 0..part_count(s, part) {
        if !range_writable(s, part, p) {
            return false;
        }
        p += range_words(part);
    }
    true
}

// ---- calls

// The call at a place, with its stop's number.
pub fn call_shown(w: &[u32], s: &[u32], p: usize) -> Call
    requires just_table { JustTable w.now × (p + call_size ≤ length s.now) }
    requires s_value { call_sound (stops# w.now) (call_at (drop p s.now)) ≡ true }
    ensures { result ≡ shown_call (table_of w.now).stops (drop p s.now) }
{
    let c = timetable::call_at(s, p);
    Call {
        stop: stop_number(w, c.stop),
        arrival: c.arrival,
        departure: c.departure,
        flags: c.flags,
        number: c.number,
        high: c.high,
        low: c.low,
    }
}

// The number of the stop at a place of the stop section.
fn stop_number(w: &[u32], place: u32) -> u32
    requires { JustTable w.now × (place < stops# w.now) }
    ensures { result ≡ stop_number_at (table_of w.now).stops place }
{
    index::stop_number(w, &w[0..0], place)
}

// Whether all calls can be written.
fn calls_writable(w: &[u32], s: &[u32]) -> bool
    requires { Standing w.now s.now }
    ensures { result ≡ every call_writable (call_rows (table_of w.now).stops s.now) }
{
    let mut p = SERVICE_WORDS;
    for _ in 0..s[CALLS_AT] {
        if !writable::call_writable(call_shown(w, s, p)) {
            return false;
        }
        p += CALL_WORDS;
    }
    true
}

// ---- services

// Whether the service can be written.
fn service_writable(w: &[u32], s: &[u32]) -> bool
    requires { Standing w.now s.now }
    ensures { result ≡ service_writable (shown w.now s.now) }
{
    if !writable::opening_writable(table::opening_at(s)) {
        return false;
    }
    if !ranges_writable(s, RangeKind::Category) {
        return false;
    }
    if !ranges_writable(s, RangeKind::Days) {
        return false;
    }
    if !ranges_writable(s, RangeKind::Extra) {
        return false;
    }
    calls_writable(w, s)
}

// Whether all services can.
pub fn services_writable(w: &[u32]) -> bool
    requires { JustTable w.now }
    ensures { result ≡ every service_writable (table_of w.now).services }
{
    let mut at = table::size(w[FIRST_SERVICE_AT]);
    for _ in 0..w[SERVICES_AT] {
        if !service_writable(w, &w[at..]) {
            return false;
        }
        at += table::size(w[at]);
    }
    true
}

// ---- lines

// How many lines the service has.
fn lines_of(w: &[u32], s: &[u32]) -> usize
    requires { Standing w.now s.now }
    ensures value { result ≡ length (service_lines (shown w.now s.now)) }
    ensures upper_bound { result ≤ 401 }
{
    1 + table::size(s[CALLS_AT])
        + table::size(s[CATEGORIES_AT])
        + table::size(s[DAYS_AT])
        + table::size(s[EXTRAS_AT])
}

// How many lines all services have.
pub fn count_lines(w: &[u32]) -> usize
    requires { JustTable w.now }
    ensures value { result ≡ length (plan_lines (table_of w.now).services) }
    ensures upper_bound { result < 2 ^ 41 }
{
    let mut at = table::size(w[FIRST_SERVICE_AT]);
    let mut n = 0;
    for _ in 0..w[SERVICES_AT] {
        n += lines_of(w, &w[at..]);
        at += table::size(w[at]);
    }
    n
}

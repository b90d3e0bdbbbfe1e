// Whether the calls of a record are as nearly all are: the first one's departure, both times of each call between and the last one's arrival are stated, and none of these is
// below the one before it. Then they are sound, and none is refused by 36 (specs/Steady).
ghost use Rattle.std.specs.Prelude.{◌≡◌, true, ◌+◌, ◌*◌, ◌≤◌, length, drop};
ghost use Rattle.timetable.specs.Layout.{service_head, call_size};
ghost use Rattle.timetable.specs.Table.{sizes_sound};
ghost use Rattle.table.specs.Steady.{opens_steady, passes_steady, ends_steady, two_steady, four_steady, later_steady};
ghost use Rattle.table.specs.Steady.{calls_steady};

use timetable::{ALL_FLAGS, CALL_WORDS, CALLS_AT, Call, DEPARTURE, LATEST_TIME, SERVICE_WORDS};

// Whether the calls of the record at the front of `s` are steady, in a table with so many stops: the first has a departure, and its arrival is not bound by the order.
pub fn calls_steady(s: &[u32], stops: u32) -> bool
    requires { sizes_sound s.now ≡ true }
    ensures { result ≡ calls_steady stops s.now }
{
    let first = timetable::call_at(s, SERVICE_WORDS);
    if !opens(first, stops) {
        return false;
    }
    later_steady(s, stops, s[CALLS_AT] - 2, first.departure)
}

// Of the calls after the first, which leaves at `departure`: `left` calls between, and the last. Four calls a turn: most instructions of a look at a table go here.
fn later_steady(s: &[u32], stops: u32, left: u32, departure: u32) -> bool
    requires { service_head + call_size * (left + 2) ≤ length s.now }
    ensures { result ≡ later_steady stops left departure (drop (service_head + call_size) s.now) }
{
    let mut p = SERVICE_WORDS + CALL_WORDS;
    let mut before = departure;
    for _ in 0..left / 4 {
        if !four_pass(s, p, stops, before) {
            return false;
        }
        before = s[p + FOURTH_DEPARTURE];
        p += 4 * CALL_WORDS;
    }
    few_steady(s, p, stops, left % 4, before)
}

// How far behind a call the departures of the second and the fourth from it on stand.
const SECOND_DEPARTURE: usize = CALL_WORDS + 2;

const FOURTH_DEPARTURE: usize = 3 * CALL_WORDS + 2;

// Of those from a place on.
fn few_steady(s: &[u32], from: usize, stops: u32, left: u32, departure: u32) -> bool
    requires { from + call_size * (left + 1) ≤ length s.now }
    ensures { result ≡ later_steady stops left departure (drop from s.now) }
{
    let mut p = from;
    let mut before = departure;
    for _ in 0..left {
        let call = timetable::call_at(s, p);
        if !passes(call, stops, before) {
            return false;
        }
        before = call.departure;
        p += CALL_WORDS;
    }
    ends(timetable::call_at(s, p), stops, before)
}

// Four calls between.
fn four_pass(s: &[u32], p: usize, stops: u32, before: u32) -> bool
    requires { p + 28 ≤ length s.now }
    ensures { result ≡ four_steady stops before (drop p s.now) }
{
    if !two_pass(s, p, stops, before) {
        return false;
    }
    two_pass(s, p + 2 * CALL_WORDS, stops, s[p + SECOND_DEPARTURE])
}

fn two_pass(s: &[u32], p: usize, stops: u32, before: u32) -> bool
    requires { p + 14 ≤ length s.now }
    ensures { result ≡ two_steady stops before (drop p s.now) }
{
    let call = timetable::call_at(s, p);
    if !passes(call, stops, before) {
        return false;
    }
    passes(timetable::call_at(s, p + CALL_WORDS), stops, call.departure)
}

// The first call.
fn opens(c: Call, stops: u32) -> bool
    ensures { result ≡ opens_steady stops c }
{
    if stops <= c.stop {
        return false;
    }
    if LATEST_TIME < c.arrival {
        return false;
    }
    if ALL_FLAGS < c.flags {
        return false;
    }
    c.flags / DEPARTURE % 2 == 1
}

// A call between: since times do not fall, only the last has to be compared with the latest.
fn passes(c: Call, stops: u32, before: u32) -> bool
    ensures { result ≡ passes_steady stops before c }
{
    if stops <= c.stop {
        return false;
    }
    if c.arrival < before {
        return false;
    }
    if c.departure < c.arrival {
        return false;
    }
    if ALL_FLAGS < c.flags {
        return false;
    }
    c.flags % 4 == 3
}

// The last call: its departure is not bound by the order.
fn ends(c: Call, stops: u32, before: u32) -> bool
    ensures { result ≡ ends_steady stops before c }
{
    if stops <= c.stop {
        return false;
    }
    if c.arrival < before {
        return false;
    }
    if LATEST_TIME < c.arrival {
        return false;
    }
    if LATEST_TIME < c.departure {
        return false;
    }
    if ALL_FLAGS < c.flags {
        return false;
    }
    c.flags % 2 == 1
}

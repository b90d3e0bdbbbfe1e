// Where a range starts and ends, on the calls of its route as the draft holds them (5.3.1).
#![tactic(auto)]

ghost use Rattle.std.specs.Prelude.{◌≡◌, ◌+◌, ◌*◌, ◌-◌, ◌%◌, ◌≤◌, cond, ◌&&◌, eqb, ltb, length, drop};
ghost use Rattle.std.proofs.Math.Option.{none, some};
ghost use Rattle.std.proofs.Math.ListN.{get_elem?};
ghost use Rattle.timetable.specs.Ranges.{places, calls_at, first_place, last_place};
ghost use Rattle.timetable.specs.Ranges.{legs_of};
ghost use Rattle.timetable.specs.Service.{loose as is_loose, legs_on};
ghost use Rattle.draft.specs.Inner.Draft.{draft_call, call_back, calls_in};
ghost use Rattle.route.specs.Inner.Route.{meets, route_place, found_of, stop_place, end_place};
ghost use Rattle.route.specs.declared.Sought.TheVariants.{Departing, Arriving};

use fields::{Appearance, Detail, RangeEnd, RouteIndex, StopNumber};
use timetable::{Call, DEPARTURE, End, Ends, RangeKind, RangeLine};

// Which calls are sought: those at a stop, those that depart there at a time, or those that arrive there at one.
#[derive(Clone, Copy)]
enum Sought {
    Calling(StopNumber),
    Departing(StopNumber, u32),
    Arriving(StopNumber, u32),
}

// ---- a range

// The two calls between which a range lies over the c calls of w, where both are found and in order.
#[tactic(auto, using(crate::proofs::Ends::legs))]
pub fn legs_on(w: &[u32], c: u32, range: RangeLine) -> Option<(RouteIndex, RouteIndex)>
    requires { draft_call * c ≤ length w.now }
    ensures { result ≡ found_of (legs_on (calls_in c w.now) range) }
{
    legs_of(w, c, range.ends, is_loose(range.part))
}

// "*G and operating-day ranges need from < to ..; other *A need from ≤ to": these are loose.
fn is_loose(part: RangeKind) -> bool
    ensures { result ≡ is_loose part }
{
    matches!(part, RangeKind::Extra)
}

#[tactic(auto, using(crate::proofs::Ends::legs))]
fn legs_of(w: &[u32], c: u32, e: Ends, loose: bool) -> Option<(RouteIndex, RouteIndex)>
    requires { draft_call * c ≤ length w.now }
    ensures { result ≡ found_of (legs_of loose (calls_in c w.now) e) }
{
    let from = end_place(w, c, e.from, false)?;
    let to = end_place(w, c, e.to, true)?;
    if timetable::in_order(loose, from.0, to.0) {
        return Some((from, to));
    }
    None
}

// ---- its ends

// The call at which a range starts, or, at its `last` end, the one at which it ends.
#[tactic(auto, using(crate::proofs::Ends::ends))]
fn end_place(w: &[u32], c: u32, e: End, last: bool) -> Option<RouteIndex>
    requires { draft_call * c ≤ length w.now }
    ensures { result ≡ route_place (end_place last (calls_in c w.now) e) }
{
    match e.place {
        RangeEnd::Outer => outer_call(c, last),
        RangeEnd::Index(i) => on_route(c, i),
        RangeEnd::Stop(n) => stop_place(w, c, n, e.detail, last),
        RangeEnd::NoEnd => None,
    }
}

// An index that a route of c calls has.
fn on_route(c: u32, i: RouteIndex) -> Option<RouteIndex>
    ensures { result ≡ route_place (cond (ltb i.0 c) (some i.0) none) }
{
    if i.0 < c {
        return Some(i);
    }
    None
}

// The first or the last of c calls.
fn outer_call(c: u32, last: bool) -> Option<RouteIndex>
    ensures { result ≡ route_place (cond (ltb (cond last (c - 1) 0) c) (some (cond last (c - 1) 0)) none) }
{
    if c == 0 {
        return None;
    }
    Some(RouteIndex(if last { c - 1 } else { 0 }))
}

// From a stop: searched from the front. To one: searched from the end, but appearances count from the route's start.
#[tactic(auto, using(crate::proofs::Ends::ends))]
fn stop_place(w: &[u32], c: u32, n: StopNumber, d: Detail, last: bool) -> Option<RouteIndex>
    requires { draft_call * c ≤ length w.now }
    ensures { result ≡ route_place (stop_place last (calls_in c w.now) n d) }
{
    match d {
        Detail::Plain => place_sought(w, c, Sought::Calling(n), last),
        Detail::Nth(k) => nth_place(w, c, n, k),
        Detail::Timed(m) => place_sought(w, c, timed_at(n, m, last), last),
        Detail::NoDetail => None,
    }
}

// A range starts with a departure and ends with an arrival.
fn timed_at(n: StopNumber, m: u32, last: bool) -> Sought
    ensures { result ≡ cond last (Arriving n m) (Departing n m) }
{
    if last {
        return Sought::Arriving(n, m);
    }
    Sought::Departing(n, m)
}

// ---- searches over the calls

// Of the calls that are sought the last, or the first.
fn place_sought(w: &[u32], c: u32, s: Sought, last: bool) -> Option<RouteIndex>
    requires { draft_call * c ≤ length w.now }
    ensures { result ≡
        route_place (cond last last_place first_place (places (meets s) 0 (calls_in c w.now))) }
{
    if last {
        return last_place(w, c, s);
    }
    first_place(w, c, s)
}

#[tactic(auto, using(crate::proofs::Laws::firsts))]
fn first_place(w: &[u32], c: u32, s: Sought) -> Option<RouteIndex>
    requires { draft_call * c ≤ length w.now }
    ensures { result ≡ route_place (first_place (places (meets s) 0 (calls_in c w.now))) }
{
    for i in 0..c {
        if sought_at(w, draft::call_start(i), s) {
            return Some(RouteIndex(i));
        }
    }
    None
}

// Searched from the end.
#[tactic(auto, using(crate::proofs::Laws::lasts))]
fn last_place(w: &[u32], c: u32, s: Sought) -> Option<RouteIndex>
    requires { draft_call * c ≤ length w.now }
    ensures { result ≡ route_place (last_place (places (meets s) 0 (calls_in c w.now))) }
{
    for i in (0..c).rev() {
        if sought_at(w, draft::call_start(i), s) {
            return Some(RouteIndex(i));
        }
    }
    None
}

// The k-th call at a stop, from 0.
#[tactic(auto, using(crate::proofs::Laws::nths))]
fn nth_place(w: &[u32], c: u32, n: StopNumber, k: Appearance) -> Option<RouteIndex>
    requires { draft_call * c ≤ length w.now }
    ensures { result ≡ route_place (get_elem? (places (calls_at n) 0 (calls_in c w.now)) k.0) }
{
    // its appearances from here on that come before the one sought
    let mut before = k;
    for i in 0..c {
        let call = draft::call_at(w, draft::call_start(i));
        let here = appearances(StopNumber(call.stop), n);
        if before.0 < here.0 {
            return Some(RouteIndex(i));
        }
        before = Appearance(before.0 - here.0);
    }
    None
}

// How many appearances of stop n a call at `stop` is: one, or none.
#[tactic(auto, using(crate::proofs::Laws::stops))]
fn appearances(stop: StopNumber, n: StopNumber) -> Appearance
    ensures { result.0 ≡ cond (eqb stop.0 n.0) 1 0 }
{
    if same_stop(stop, n) {
        return Appearance(1);
    }
    Appearance(0)
}

// Whether the call whose words start at a place is sought.
#[tactic(auto, using(crate::proofs::Laws::sought))]
fn sought_at(w: &[u32], at: usize, s: Sought) -> bool
    requires { at + draft_call ≤ length w.now }
    ensures { result ≡ meets s (call_back (drop at w.now)).1 }
{
    is_sought(s, draft::call_at(w, at))
}

#[tactic(auto, using(crate::proofs::Laws::sought))]
fn is_sought(s: Sought, call: Call) -> bool
    ensures { result ≡ meets s call }
{
    let stop = StopNumber(call.stop);
    match s {
        Sought::Calling(n) => same_stop(stop, n),
        Sought::Departing(n, m) => timed(stop, n, call.flags / DEPARTURE, call.departure, m),
        Sought::Arriving(n, m) => timed(stop, n, call.flags, call.arrival, m),
    }
}

// Whether a call at `stop` is at stop n and its stated time is m; the lowest bit of `stated` says whether it is stated.
#[tactic(auto, using(crate::proofs::Laws::stops))]
fn timed(stop: StopNumber, n: StopNumber, stated: u32, time: u32, m: u32) -> bool
    ensures { result ≡ (eqb stop.0 n.0 && (eqb (stated % 2) 1 && eqb time m)) }
{
    if same_stop(stop, n) {
        if stated % 2 == 1 {
            return time == m;
        }
    }
    false
}

// The one comparison of stop numbers.
fn same_stop(a: StopNumber, b: StopNumber) -> bool
    ensures { result ≡ eqb a.0 b.0 }
{
    a.0 == b.0
}

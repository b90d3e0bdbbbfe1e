// The calls of a stretch: what a walk refuses of them (36, 33), and the rows that it lists.
// `w` are words with a sound header, `x` an index or none, `s` the words from the service's record on; the stretch begins at call `start` and has so many `legs`.
ghost use Rattle.std.specs.Prelude.{◌≡◌, true, false, cond, ◌&&◌, ◌+◌, ◌*◌, ◌≤◌, ◌<◌, length, drop, eqb, leb};
ghost use Rattle.timetable.specs.Layout.{service_head, call_size, row_size, latest_time, all_flags, most_delay};
ghost use Rattle.timetable.specs.Delivery.{CategoryRange};
ghost use Rattle.timetable.specs.Legs.{covering};
ghost use Rattle.timetable.specs.Ranges.{has_arrival};
ghost use Rattle.timetable.specs.Table.{stops#, calls#, call_at, category_place, service_at, sizes_sound, record_sound};
ghost use Rattle.timetable.specs.Run.{needed_last, call_refusal, calls_refusal, category_on};
ghost use Rattle.timetable.specs.Questions.{row_flags, rows_of};
ghost use Rattle.words.specs.Words.{write};
ghost use Rattle.index.specs.Index.{view_in};
ghost use Rattle.index.specs.Inner.Ready.{Ready};
ghost use Rattle.course.specs.Inner.Run.{noted};
ghost use Rattle.course.specs.Inner.Rows.{times_fine, time_fine, times_stand, later_stand, row_for, walk_row_words};
ghost use Rattle.course.specs.Inner.Rows.{calls_from, call_shown, calls_shown, service_shown};

use timetable::{
    CALL_WORDS, CALLS_AT, CATEGORIES_AT, CATEGORY_WORDS, Call, DEPARTURE, NO_ALIGHTING,
    NO_BOARDING, ROW_WORDS, Refusal, SERVICE_WORDS,
};

// A row of a walk.
#[derive(Clone, Copy)]
pub struct WalkRow {
    pub stop: u32,
    pub arrival: u32,
    pub departure: u32,
    pub flags: u32,
    pub number: u32,
    pub high: u32,
    pub low: u32,
    pub category: u32,
    pub first: u32,
    pub second: u32,
}

// ---- 36 and 33

// What the first refused call of the stretch is refused for. Where the *G follow each other each leg has exactly one, and where the times stand, looked at
// together, there is none; else call by call.
pub fn calls_refusal(s: &[u32], start: u32, legs: u32) -> Result<(), Refusal>
    requires s_value { sizes_sound s.now ≡ true }
    requires legs_bound { start + legs < calls# s.now }
    ensures { noted result ≡
        calls_refusal (service_at s.now) start legs 0 0 (calls_from s.now start (legs + 1)) }
{
    let g = category_words(s);
    if !cover::in_turn(g, s[CATEGORIES_AT], CATEGORY_WORDS, s[CALLS_AT] - 1) {
        return first_refusal(s, start, legs);
    }
    if !times_stand(s, start, legs) {
        return first_refusal(s, start, legs);
    }
    Ok(())
}

// Call by call, its times and its leaving leg.
fn first_refusal(s: &[u32], start: u32, legs: u32) -> Result<(), Refusal>
    requires s_value { sizes_sound s.now ≡ true }
    requires legs_bound { start + legs < calls# s.now }
    ensures { noted result ≡
        calls_refusal (service_at s.now) start legs 0 0 (calls_from s.now start (legs + 1)) }
{
    let mut i: u32 = 0;
    let mut before: u32 = 0;
    while i <= legs {
        let call = call_of(s, start + i);
        call_refusal(s, start, legs, i, before, call)?;
        before = needed_last(legs, i, call);
        i += 1;
    }
    Ok(())
}

// What a call is refused for: 36 a needed time, 33 its leaving leg without exactly one *G.
fn call_refusal(
    s: &[u32],
    start: u32,
    legs: u32,
    i: u32,
    before: u32,
    call: Call,
) -> Result<(), Refusal>
    requires s_value { sizes_sound s.now ≡ true }
    requires legs_bound { (start + legs < calls# s.now) × (i ≤ legs) }
    ensures { noted result ≡ call_refusal (service_at s.now) start legs i before call }
{
    if !times_needed(legs, i, before, call) {
        return Err(Refusal::TimeNeeded);
    }
    if legs <= i {
        return Ok(());
    }
    if !category_once(s, start + i) {
        return Err(Refusal::LegCategoryNotOnce);
    }
    Ok(())
}

// Whether the times that a call needs are stated, and not below the needed one before.
fn times_needed(legs: u32, i: u32, before: u32, call: Call) -> bool
    ensures { result ≡ times_fine legs i before call }
{
    if !time_fine(i == 0, timetable::has_arrival(call), before, call.arrival) {
        return false;
    }
    time_fine(
        i == legs,
        timetable::has_departure(call),
        choose(i == 0, before, call.arrival),
        call.departure,
    )
}

// Whether a time is not needed, or is stated and not below the one before.
fn time_fine(free: bool, stated: bool, before: u32, time: u32) -> bool
    ensures { result ≡ time_fine free stated before time }
{
    if free {
        return true;
    }
    if !stated {
        return false;
    }
    before <= time
}

// The last needed time of a call.
fn needed_last(legs: u32, i: u32, call: Call) -> u32
    ensures { result ≡ needed_last legs i call }
{
    choose(i == legs, call.arrival, call.departure)
}

// One of two numbers, by a test.
fn choose(test: bool, first: u32, second: u32) -> u32
    ensures { result ≡ cond test first second }
{
    if test {
        return first;
    }
    second
}

// ---- no 36

// Whether the times that the calls of a stretch with legs need are stated and never fall.
fn times_stand(s: &[u32], start: u32, legs: u32) -> bool
    requires s_value { sizes_sound s.now ≡ true }
    requires legs_bound { start + legs < calls# s.now }
    ensures { result ≡ times_stand legs (call_at (drop (service_head + call_size * start) s.now))
        (drop (service_head + call_size * (start + 1)) s.now) }
{
    if legs == 0 {
        return false;
    }
    let first = call_of(s, start);
    if !timetable::has_departure(first) {
        return false;
    }
    later_stand(s, start + 1, legs - 1, first.departure)
}

// Those of the calls from call `from` on, where a departure stands before: `left` calls between, all of whose flags together say that both times are stated, and the last.
fn later_stand(s: &[u32], from: u32, left: u32, departure: u32) -> bool
    requires s_value { sizes_sound s.now ≡ true }
    requires left_bound { from + left < calls# s.now }
    ensures { result ≡ later_stand left 3 departure (drop (service_head + call_size * from) s.now) }
{
    let mut p = SERVICE_WORDS + CALL_WORDS * table::size(from);
    let mut k = left;
    let mut both: u32 = 3;
    let mut before = departure;
    while 0 < k {
        let call = timetable::call_at(s, p);
        if !in_order(before, call.arrival, call.departure) {
            return false;
        }
        both = both & call.flags;
        before = call.departure;
        p += CALL_WORDS;
        k -= 1;
    }
    if both != 3 {
        return false;
    }
    arrives(before, timetable::call_at(s, p))
}

fn in_order(before: u32, arrival: u32, departure: u32) -> bool
    ensures { result ≡ (leb before arrival && leb arrival departure) }
{
    if arrival < before {
        return false;
    }
    arrival <= departure
}

// Whether an arrival is stated, and not below the time before.
fn arrives(before: u32, call: Call) -> bool
    ensures { result ≡ time_fine false (has_arrival call) before call.arrival }
{
    time_fine(false, timetable::has_arrival(call), before, call.arrival)
}

// ---- the rows

// Writes the rows of the stretch from the front on.
pub fn rows_into(
    w: &[u32],
    x: &[u32],
    s: &[u32],
    start: u32,
    legs: u32,
    delay: u32,
    rows: &mut [u32],
)
    requires ready { Ready w.now x.now }
    requires s_value { record_sound (stops# w.now) s.now ≡ true }
    requires legs_bound { (start + legs < calls# s.now) × (delay ≤ most_delay) }
    requires legs_in_bounds { row_size * (legs + 1) ≤ length rows.old }
    ensures { rows.new ≡ write rows.old 0
        (rows_of (view_in w.now x.now)
        (service_shown (view_in w.now x.now) s.now) start legs delay 0
        (calls_shown (view_in w.now x.now) s.now start (legs + 1))) }
{
    let mut k: u32 = 0;
    let mut at: usize = 0;
    while k <= legs {
        put_call(w, x, s, start, legs, delay, k, rows, at);
        at += ROW_WORDS;
        k += 1;
    }
}

// Writes the row of the i-th call of the stretch.
fn put_call(
    w: &[u32],
    x: &[u32],
    s: &[u32],
    start: u32,
    legs: u32,
    delay: u32,
    i: u32,
    rows: &mut [u32],
    at: usize,
)
    requires ready { Ready w.now x.now }
    requires s_value { record_sound (stops# w.now) s.now ≡ true }
    requires legs_bound { (start + legs < calls# s.now) × (i ≤ legs) × (delay ≤ most_delay) }
    requires row_size_in_bounds { at + row_size ≤ length rows.old }
    ensures { rows.new ≡ write rows.old at
        (row_for (view_in w.now x.now)
        (service_shown (view_in w.now x.now) s.now) start legs delay i
        (call_shown (view_in w.now x.now)
        (call_at (drop (service_head + call_size * (start + i)) s.now)))) }
{
    let call = call_of(s, start + i);
    let row = row_of(w, x, s, start, legs, delay, i, call);
    put_row(rows, at, row);
}

fn put_row(t: &mut [u32], at: usize, row: WalkRow)
    requires { at + row_size ≤ length t.old }
    ensures { t.new ≡ write t.old at (walk_row_words row) }
{
    words::put(t, at, [row.stop, row.arrival, row.departure, row.flags]);
    words::put(t, at + 4, [row.number, row.high, row.low]);
    words::put(t, at + 7, [row.category, row.first, row.second]);
}

// The row of a call: its stop by its number, "Rows still show the number."
fn row_of(
    w: &[u32],
    x: &[u32],
    s: &[u32],
    start: u32,
    legs: u32,
    delay: u32,
    i: u32,
    call: Call,
) -> WalkRow
    requires ready { Ready w.now x.now }
    requires s_value { sizes_sound s.now ≡ true }
    requires legs_bound { (start + legs < calls# s.now) × (i ≤ legs) × (delay ≤ most_delay) }
    requires stop_bound { (call.stop < stops# w.now) × (call.arrival ≤ latest_time) × (call.departure ≤ latest_time)
        × (call.flags ≤ all_flags) }
    ensures { walk_row_words result ≡ row_for (view_in w.now x.now)
        (service_shown (view_in w.now x.now) s.now) start legs delay i
        (call_shown (view_in w.now x.now) call) }
{
    let stop = index::stop_number(w, x, call.stop);
    let times = index::interchange_at(w, x, stop);
    WalkRow {
        stop,
        arrival: choose(i == 0, 0, call.arrival + delay),
        departure: choose(i == legs, 0, call.departure + delay),
        flags: row_flags(legs, i, call.flags),
        number: call.number,
        high: call.high,
        low: call.low,
        category: leaving(s, start + i, i == legs),
        first: times.first,
        second: times.second,
    }
}

// The flags of a row: of the first call those of its departure only, of the last those of its arrival.
fn row_flags(legs: u32, i: u32, flags: u32) -> u32
    requires { flags ≤ all_flags }
    ensures { result ≡ row_flags legs i flags }
{
    choose(
        i == 0,
        0,
        flags % 2 + flags / NO_ALIGHTING % 2 * NO_ALIGHTING,
    ) + choose(
        i == legs,
        0,
        flags / DEPARTURE % 2 * DEPARTURE + flags / NO_BOARDING * NO_BOARDING,
    )
}

// The category of a leg, 0 after the last call.
fn leaving(s: &[u32], leg: u32, last: bool) -> u32
    requires { sizes_sound s.now ≡ true }
    ensures { result ≡ cond last 0 (category_on (service_at s.now) leg) }
{
    if last {
        return 0;
    }
    category_on(s, leg)
}

// ---- what stands in the record

// The k-th call.
pub fn call_of(s: &[u32], k: u32) -> Call
    requires s_value { sizes_sound s.now ≡ true }
    requires k_bound { k < calls# s.now }
    ensures { result ≡ call_at (drop (service_head + call_size * k) s.now) }
{
    timetable::call_at(s, SERVICE_WORDS + CALL_WORDS * table::size(k))
}

// Whether exactly one *G covers a leg.
fn category_once(s: &[u32], leg: u32) -> bool
    requires { sizes_sound s.now ≡ true }
    ensures { result ≡
        eqb (covering (λ (g : CategoryRange). g.legs) (service_at s.now).categories leg) 1 }
{
    cover::covered_once(category_words(s), s[CATEGORIES_AT], CATEGORY_WORDS, leg)
}

// The category of a leg: that of the first *G that covers it, 0 for none.
pub fn category_on(s: &[u32], leg: u32) -> u32
    requires { sizes_sound s.now ≡ true }
    ensures { result ≡ category_on (service_at s.now) leg }
{
    let g = category_words(s);
    let Some(p) = cover::covering_place(g, s[CATEGORIES_AT], CATEGORY_WORDS, leg) else {
        return 0;
    };
    let range = timetable::category_at(g, p);
    range.name
}

// The words from the first *G of a service on.
pub fn category_words(s: &[u32]) -> &[u32]
    requires { sizes_sound s.now ≡ true }
    ensures { result.now ≡ drop (category_place s.now) s.now }
{
    &s[table::category_place(s)..]
}

// The departures from one call of a service: which runs they are, by arithmetic and one look at the day's course, and their rows.
// `w` are words with a sound header, `x` an index of look-ups, or none.
#![tactic(auto)]

ghost use Rattle.std.specs.Prelude.{◌≡◌, [], true, ◌&&◌, ◌+◌, ◌-◌, ◌*◌, ◌≤◌, ◌<◌, length, drop, eqb, leb, ltb};
ghost use Rattle.base.specs.Lists.{gathered};
ghost use Rattle.timetable.specs.Layout.{most_period_days, service_head, call_size, latest_time};
ghost use Rattle.timetable.specs.Runs.{opening_sound};
ghost use Rattle.timetable.specs.Table.{stops#, calls#, call_at, opening_at, sizes_sound};
ghost use Rattle.timetable.specs.Table.{record_sound};
ghost use Rattle.words.specs.Words.{write};
ghost use Rattle.index.specs.Index.{view_in};
ghost use Rattle.index.specs.Inner.Ready.{Ready};
ghost use Rattle.sort.specs.Rows.{board_row_size, board_row_words};
ghost use Rattle.spans.specs.Spans.{runs#};
ghost use Rattle.board.specs.Board.{boardable, departure_of, runs_from, leaves};
ghost use Rattle.board_runs.specs.Batch.{followed, call_stands, call_gives, departures_in, batch_rows, Batched, Shelved};
ghost use Rattle.board_runs.specs.Batch.{outside, Quiet, AtMost, MostFrom};
ghost use Rattle.board_runs.specs.Inner.Goes.{goes_from, goes_in, along_in, record_gives, unrefused};
ghost use Rattle.board_runs.specs.Inner.Goes.{Opened, DaysInTurn, CallReady};

use course::{legs, rows};
use sort::ROW_WORDS;
use timetable::{
    Along, CALL_WORDS, CALLS_AT, CATEGORIES_AT, CATEGORY_WORDS, Call, DAYS_AT, DAYS_WORDS,
    NO_BOARDING, Opening, REPEATS_AT, Refusal, SERVICE_WORDS, STOPS_AT,
};

// Departures from one place of a service's route: of the runs from `low` on and below `high`, where run 0 leaves at `departure`.
#[derive(Clone, Copy)]
pub struct Batch {
    pub service: u32,
    pub place: u32,
    pub departure: u32,
    pub opening: Opening,
    pub low: u32,
    pub high: u32,
}

// ---- which runs

// From place p of the i-th service, where that is at stop n, on day k of the period, within two minutes of the day; the places of the services begin at `places` of
// the index. In a steady table the other calls of a record whose ranges follow each other are not looked at.
pub fn runs_at(
    w: &[u32],
    x: &[u32],
    places: usize,
    steady: bool,
    n: u32,
    k: u32,
    first: u32,
    last: u32,
    i: u32,
    p: u32,
) -> Batch
    requires { Shelved w.now x.now places × (k < most_period_days) }
    ensures { Batched result (departures_in steady w.now x.now n k first last i p) }
{
    let place = places + wide(i);
    if x.len() <= place {
        return no_runs();
    }
    let at = wide(x[place]);
    if w.len() < at {
        return no_runs();
    }
    record_runs(
        w,
        x,
        index::words_from(w, at),
        steady,
        n,
        k,
        first,
        last,
        i,
        p,
    )
}

// ---- a first look, before a record is checked and its course looked at; the places of the services begin at `places` of the index

// Whether two words tell that no run leaves from there within the two minutes: so it is of most calls at a stop.
pub fn is_quiet(w: &[u32], x: &[u32], places: usize, first: u32, last: u32, i: u32, p: u32) -> bool
    requires { Shelved w.now x.now places }
    ensures { Quiet w.now x.now places first last i p result }
{
    let place = places + wide(i);
    if x.len() <= place {
        return true;
    }
    let at = wide(x[place]);
    let end = call_end(at, p);
    if w.len() < end {
        return true;
    }
    is_outside(w[end - AFTER_DEPARTURE], w[at + REPEATS_AT], first, last)
}

// Where the words of place p of a record end, and how far before that its departure stands.
fn call_end(at: usize, p: u32) -> usize
    requires { at < 4294967296 }
    ensures { result ≡ at + service_head + call_size * p + call_size }
{
    at + SERVICE_WORDS + CALL_WORDS * wide(p) + CALL_WORDS
}

const AFTER_DEPARTURE: usize = 5;

// Whether run 0 leaves after the last minute, or before the first with no run after it.
fn is_outside(departure: u32, repeats: u32, first: u32, last: u32) -> bool
    ensures { result ≡ outside departure repeats first last }
{
    if last < departure {
        return true;
    }
    if first <= departure {
        return false;
    }
    repeats == 0
}

// At most so many runs leave from there within the two minutes, by the opening line and the call alone.
pub fn most_runs(
    w: &[u32],
    x: &[u32],
    places: usize,
    first: u32,
    last: u32,
    i: u32,
    p: u32,
) -> usize
    requires { Shelved w.now x.now places }
    ensures { AtMost w.now x.now first last i p result }
{
    if is_quiet(w, x, places, first, last, i, p) {
        return 0;
    }
    let at = wide(x[places + wide(i)]);
    most_from(index::words_from(w, at), first, last, p)
}

// From place p of the record at the front of `s`: a service that runs once needs no division.
fn most_from(s: &[u32], first: u32, last: u32, p: u32) -> usize
    requires { service_head + call_size * p + call_size ≤ length s.now }
    ensures { MostFrom s.now first last p result }
{
    let opening = table::opening_at(s);
    if opening.repeats == 0 {
        return 1;
    }
    if !runs::opening_sound(opening) {
        return 0;
    }
    let c = call_of(s, p);
    let span = spans::runs_between(opening, c.departure, first, last);
    span_size(span.low, span.high)
}

fn wide(x: u32) -> usize
    ensures is { result ≡ x }
    ensures low { result < 4294967296 }
{
    x as usize
}

// Of the service whose record stands at the front of `s`: none where what is looked at of it is not sound, or where the day's course does not go on from there. What is
// looked at in a moment comes first, the calls of the record last.
fn record_runs(
    w: &[u32],
    x: &[u32],
    s: &[u32],
    steady: bool,
    n: u32,
    k: u32,
    first: u32,
    last: u32,
    i: u32,
    p: u32,
) -> Batch
    requires { Ready w.now x.now × (k < most_period_days) }
    ensures { Batched result (record_gives steady (view_in w.now x.now) (stops# w.now)
        n k first last i s.now p) }
{
    if !table::sizes_sound(s) {
        return no_runs();
    }
    if !runs::opening_sound(table::opening_at(s)) {
        return no_runs();
    }
    if !goes_from(w, x, s, steady, k, p) {
        return no_runs();
    }
    call_runs(w, x, s, n, first, last, i, p)
}

// ---- whether the record is sound, as far as it is looked at, and the day's course goes on

// From place p, by the operating-day ranges: where they follow each other the day's stretch is known before the calls are looked at.
fn goes_from(w: &[u32], x: &[u32], s: &[u32], steady: bool, k: u32, p: u32) -> bool
    requires ready { Ready w.now x.now × (k < most_period_days) }
    requires opened { Opened s.now }
    ensures { result ≡
        goes_in steady (view_in w.now x.now) (stops# w.now) s.now k p }
{
    let v = legs::day_words(s);
    let n = s[DAYS_AT];
    if !cover::in_turn(v, n, DAYS_WORDS, s[CALLS_AT] - 1) {
        return goes_slowly(w, x, s, k, p);
    }
    match legs::day_legs(w, x, v, n, k) {
        Ok(day) => goes_along(s, w[STOPS_AT], steady, day.start, day.end, day.again, p),
        Err(refusal) => false,
    }
}

// Whatever its ranges.
fn goes_slowly(w: &[u32], x: &[u32], s: &[u32], k: u32, p: u32) -> bool
    requires { Ready w.now x.now × (k < most_period_days) }
    ensures { result ≡
        goes_from (view_in w.now x.now) (stops# w.now) s.now k p }
{
    if !table::record_sound(s, w[STOPS_AT]) {
        return false;
    }
    goes_on(course::course_on(w, x, s, k), p)
}

// Where the day's first stretch begins and ends, and where another begins.
fn goes_along(s: &[u32], stops: u32, steady: bool, start: u32, end: u32, again: u32, p: u32) -> bool
    requires days_in_turn { DaysInTurn s.now }
    requires start_le_end { (start ≤ end) × (end ≤ calls# s.now - 1) }
    ensures { result ≡ along_in steady stops s.now start end again p }
{
    if p < start {
        return false;
    }
    if end <= p {
        return false;
    }
    if again < s[CALLS_AT] - 1 {
        return false;
    }
    if !ranges_follow(s) {
        return stands(s, stops, start, end - start);
    }
    if steady {
        return call_stands(s, stops, p);
    }
    stands(s, stops, start, end - start)
}

// Whether the call at place p is sound.
fn call_stands(s: &[u32], stops: u32, p: u32) -> bool
    requires { service_head + call_size * p + call_size ≤ length s.now }
    ensures { result ≡ call_stands stops s.now p }
{
    table::call_sound(call_of(s, p), stops)
}

// Whether the record is sound, and no call of a stretch is refused.
fn stands(s: &[u32], stops: u32, start: u32, legs: u32) -> bool
    requires s_value { sizes_sound s.now ≡ true }
    requires legs_bound { start + legs < calls# s.now }
    ensures { result ≡ (record_sound stops s.now && unrefused s.now start legs) }
{
    if !table::record_sound(s, stops) {
        return false;
    }
    rows::calls_refusal(s, start, legs).is_ok()
}

// ---- whether the ranges of a record follow each other, as nearly always they do

// The ranges but the operating days, which do.
fn ranges_follow(s: &[u32]) -> bool
    requires { DaysInTurn s.now }
    ensures { result ≡ followed s.now }
{
    let g = rows::category_words(s);
    if !cover::in_turn(g, s[CATEGORIES_AT], CATEGORY_WORDS, s[CALLS_AT] - 1) {
        return false;
    }
    table::extras_sound(s)
}

// Whether a course goes on from place p of the route.
fn goes_on(course: Result<Option<Along>, Refusal>, p: u32) -> bool
    ensures { result ≡ leaves course p }
{
    match course {
        Ok(Some(along)) => is_left(along.start, along.legs, p),
        Ok(None) => false,
        Err(refusal) => false,
    }
}

// Whether place p is left along a stretch: its last call is not.
fn is_left(start: u32, legs: u32, p: u32) -> bool
    ensures { result ≡ (leb start p && ltb p (start + legs)) }
{
    if p < start {
        return false;
    }
    p - start < legs
}

// ---- by the call alone

// Whatever the course.
fn call_runs(
    w: &[u32],
    x: &[u32],
    s: &[u32],
    n: u32,
    first: u32,
    last: u32,
    i: u32,
    p: u32,
) -> Batch
    requires ready { Ready w.now x.now }
    requires call_ready { CallReady (stops# w.now) s.now p }
    ensures { Batched result
        (call_gives (view_in w.now x.now) n first last i s.now p) }
{
    if s[CALLS_AT] <= p {
        return no_runs();
    }
    let c = call_of(s, p);
    if !boards_at(w, x, c.stop, c.flags, n) {
        return no_runs();
    }
    span_batch(table::opening_at(s), c.departure, first, last, i, p)
}

// The call at place p of a record.
fn call_of(s: &[u32], p: u32) -> Call
    requires { service_head + call_size * p + call_size ≤ length s.now }
    ensures { result ≡ call_at (drop (service_head + call_size * p) s.now) }
{
    timetable::call_at(s, SERVICE_WORDS + CALL_WORDS * table::size(p))
}

// Whether the stop at a place has the number n, and boarding is allowed by a call's flags.
fn boards_at(w: &[u32], x: &[u32], place: u32, flags: u32, n: u32) -> bool
    requires { Ready w.now x.now × (place < stops# w.now) }
    ensures { result ≡ (eqb ((view_in w.now x.now).shown place) n && boardable
        (record { stop = place; arrival = 0; departure = 0; flags = flags; number = 0; high = 0; low = 0 })) }
{
    if index::stop_number(w, x, place) != n {
        return false;
    }
    flags / NO_BOARDING % 2 != 1
}

// The runs within two minutes of the day.
fn span_batch(opening: Opening, departure: u32, first: u32, last: u32, i: u32, p: u32) -> Batch
    requires opening_value { opening_sound opening ≡ true }
    requires departure_le_latest_time { departure ≤ latest_time }
    ensures { Batched result (runs_from first last i opening p departure) }
{
    let span = spans::runs_between(opening, departure, first, last);
    Batch {
        service: i,
        place: p,
        departure,
        opening,
        low: span.low,
        high: span.high,
    }
}

fn no_runs() -> Batch
    ensures { Batched result [] }
{
    Batch {
        service: 0,
        place: 0,
        departure: 0,
        opening: Opening {
            number: 0,
            high: 0,
            low: 0,
            repeats: 0,
            offset: 0,
            kind: 0,
        },
        low: 0,
        high: 0,
    }
}

// ---- how many, and their rows

// How many departures a batch has.
pub fn batch_size(b: Batch) -> usize
    ensures { result ≡ b.high - b.low }
{
    span_size(b.low, b.high)
}

// How many runs there are from one on and below another.
fn span_size(low: u32, high: u32) -> usize
    ensures { result ≡ high - low }
{
    if high <= low {
        return 0;
    }
    (high - low) as usize
}

// Writes the rows of a batch, and says where they end.
pub fn put_batch(list: &mut [u32], at: usize, b: Batch) -> usize
    requires opening_value { opening_sound b.opening ≡ true }
    requires high_bound { (b.high ≤ runs# b.opening) × (b.departure ≤ latest_time) }
    requires low_in_bounds { at + board_row_size * (b.high - b.low) ≤ length list.old }
    ensures end { result ≡ at + board_row_size * (b.high - b.low) }
    ensures words { list.new ≡ write list.old at (gathered board_row_words (batch_rows b)) }
{
    let mut to = at;
    for r in b.low..b.high {
        put_row(list, to, b, r);
        to += ROW_WORDS;
    }
    to
}

// Writes the row of run r of a batch.
fn put_row(list: &mut [u32], to: usize, b: Batch, r: u32)
    requires opening_value { opening_sound b.opening ≡ true }
    requires r_bound { (r < runs# b.opening) × (b.departure ≤ latest_time) }
    requires board_row_size_in_bounds { to + board_row_size ≤ length list.old }
    ensures { list.new ≡ write list.old to
        (board_row_words (departure_of b.service b.opening b.place b.departure r)) }
{
    let time = b.departure + runs::lateness(b.opening, r);
    words::put(list, to, [time, b.service, r, b.place]);
}

// Whether any words are a table (21), the words that a table uses, and the sections of its records.
// Sums of words are taken in 64 bits, and no word is read before its place is known to be there.
#![tactic(auto)]

ghost use Rattle.std.specs.Prelude.{◌≡◌, true, false, ◌&&◌, ◌+◌, ◌*◌, ◌≤◌, length, drop, leb, eqb};
ghost use Rattle.base.specs.Lists.{every};
ghost use Rattle.timetable.specs.Layout.{header_size, class_size, service_head, call_size, record_size, first_service};
ghost use Rattle.timetable.specs.Table.{word_count_in, rows_in, legs_at, class_at, call_at, opening_at, service_at};
ghost use Rattle.timetable.specs.Table.{category_place, day_place, extra_place, used, table_of, class_sound, call_sound};
ghost use Rattle.timetable.specs.Table.{legs_sound, counts_sound, sizes_sound, record_sound, records_sound};
ghost use Rattle.timetable.specs.Table.{head_sound, is_table};
ghost use Rattle.timetable.specs.Inner.Words.{legs_held};
ghost use Rattle.table.specs.JustTable.{record_end, header_sound, classes_place, bounds_sound, extras_sound};
ghost use Rattle.table.specs.Steady.{calls_steady, records_steady, steady, look_by};

use timetable::{
    ALL_FLAGS, BIT_FIELD_WORDS, BIT_FIELDS_AT, CALL_WORDS, CALLS_AT, CATEGORIES_AT, CATEGORY_WORDS,
    CLASS_WORDS, CLASSES_AT, Call, DAYS_AT, DAYS_WORDS, EXTRA_WORDS, EXTRAS_AT, FIRST_DAY_AT,
    FIRST_SERVICE_AT, HEADER_WORDS, HIGH_AT, INTERCHANGE_WORDS, INTERCHANGES_AT, KIND_AT,
    LATEST_TIME, LOW_AT, LegWords, MOST_CALLS, MOST_CATEGORIES, MOST_CLASS, MOST_DAYS, MOST_EXTRAS,
    MOST_PERIOD_DAYS, NUMBER_AT, OFFSET_AT, Opening, PERIOD_DAYS_AT, REPEATS_AT, SERVICE_WORDS,
    SERVICES_AT, SIZE_AT, STOP_WORDS, STOPS_AT, USED_AT,
};

pub mod steady;

// The day after 31.12.2199.
const AFTER_LAST_DAY: u64 = calendar::LAST_DAY as u64 + 1;

// Whether the words are a table.
pub fn is_table(w: &[u32]) -> bool
    ensures { result ≡ is_table w.now }
{
    look_at(w).is_some()
}

// Of a table whether its calls are steady (specs/Steady), and nothing of other words: one look tells both.
pub fn look_at(w: &[u32]) -> Option<bool>
    ensures { result ≡ look_by (is_table w.now) (steady w.now) }
{
    if w.len() < HEADER_WORDS {
        return None;
    }
    if !header_sound(w) {
        return None;
    }
    if !classes_sound(w) {
        return None;
    }
    records_look(
        &w[w[FIRST_SERVICE_AT] as usize..w[USED_AT] as usize],
        w[SERVICES_AT],
        w[STOPS_AT],
    )
}

// The words that a table uses, without those after them.
pub fn used_words(w: &[u32]) -> &[u32]
    requires { is_table w.now ≡ true }
    ensures { result.now ≡ used w.now }
{
    &w[0..w[USED_AT] as usize]
}

// A word as a place or a count of words: the one such function of the crates above, whose answers are named after its calls.
pub fn size(x: u32) -> usize
    ensures { result ≡ x }
{
    x as usize
}

// ---- the header

// Whether the header is sound.
pub fn header_sound(w: &[u32]) -> bool
    requires { header_size ≤ length w.now }
    ensures { result ≡ header_sound w.now }
{
    header_numbers_sound(
        w.len(),
        w[USED_AT],
        w[FIRST_DAY_AT],
        w[PERIOD_DAYS_AT],
        w[BIT_FIELDS_AT],
        w[STOPS_AT],
        w[INTERCHANGES_AT],
        w[FIRST_SERVICE_AT],
        w[CLASSES_AT],
    )
}

// Whether its numbers go together, for so many words lent.
fn header_numbers_sound(
    lent: usize,
    used: u32,
    start: u32,
    days: u32,
    fields: u32,
    stops: u32,
    interchanges: u32,
    first: u32,
    classes: u32,
) -> bool
    ensures { result ≡ head_sound lent used start days fields stops interchanges first classes }
{
    if (used as usize) < HEADER_WORDS {
        return false;
    }
    if lent < used as usize {
        return false;
    }
    if days < 1 {
        return false;
    }
    if MOST_PERIOD_DAYS < days {
        return false;
    }
    if AFTER_LAST_DAY < sum(start, days) {
        return false;
    }
    if interchanges < 1 {
        return false;
    }
    let place = first_service(fields, stops, interchanges, classes);
    if first as u64 != place {
        return false;
    }
    first <= used
}

fn sum(x: u32, y: u32) -> u64
    ensures { result ≡ x + y }
{
    x as u64 + y as u64
}

// The place of the first service.
fn first_service(fields: u32, stops: u32, interchanges: u32, classes: u32) -> u64
    ensures { result ≡ first_service fields stops interchanges classes }
{
    HEADER_WORDS as u64
        + BIT_FIELD_WORDS as u64 * (fields as u64)
        + STOP_WORDS as u64 * (stops as u64)
        + INTERCHANGE_WORDS as u64 * (interchanges as u64)
        + CLASS_WORDS as u64 * (classes as u64)
}

// ---- classes

// Whether no category has a class over 13.
fn classes_sound(w: &[u32]) -> bool
    requires { header_sound w.now ≡ true }
    ensures { result ≡ every class_sound (table_of w.now).classes }
{
    classes_within(&w[0..w[USED_AT] as usize], classes_place(w), w[CLASSES_AT])
}

// Where the categories and their classes begin: they end where the services begin.
pub fn classes_place(w: &[u32]) -> usize
    requires { header_sound w.now ≡ true }
    ensures { result ≡ classes_place w.now }
{
    w[FIRST_SERVICE_AT] as usize - CLASS_WORDS * w[CLASSES_AT] as usize
}

// Whether the n categories from a place on have no class over 13.
fn classes_within(w: &[u32], at: usize, n: u32) -> bool
    requires { at + class_size * n ≤ length w.now }
    ensures { result ≡ every class_sound (rows_in class_at class_size n (drop at w.now)) }
{
    let mut p = at;
    for _ in 0..n {
        if MOST_CLASS < w[p + 1] {
            return false;
        }
        p += CLASS_WORDS;
    }
    true
}

// ---- records

// Whether v records follow each other and end with the words, and whether their calls are steady; the table has so many stops.
fn records_look(w: &[u32], v: u32, stops: u32) -> Option<bool>
    ensures { result ≡ look_by (records_sound stops v w.now) (records_steady stops v w.now) }
{
    let mut at = 0;
    let mut steady = true;
    for _ in 0..v {
        let seen = record_look(&w[at..], stops)?;
        steady &= seen;
        at += w[at] as usize;
    }
    if at == w.len() { Some(steady) } else { None }
}

// Whether the record at the front of the words is sound, and whether its calls are steady: where they are, they are sound.
fn record_look(w: &[u32], stops: u32) -> Option<bool>
    ensures { result ≡ look_by (record_sound stops w.now) (calls_steady stops w.now) }
{
    if !sizes_sound(w) {
        return None;
    }
    if !bounds_sound(w) {
        return None;
    }
    if steady::calls_steady(w, stops) {
        return Some(true);
    }
    if calls_sound(w, SERVICE_WORDS, w[CALLS_AT], stops) {
        Some(false)
    } else {
        None
    }
}

// Whether it is sound.
pub fn record_sound(w: &[u32], stops: u32) -> bool
    ensures { result ≡ record_sound stops w.now }
{
    if !sizes_sound(w) {
        return false;
    }
    if !bounds_sound(w) {
        return false;
    }
    calls_sound(w, SERVICE_WORDS, w[CALLS_AT], stops)
}

// Whether its counts are in their bounds, and it is as long as it says.
pub fn sizes_sound(w: &[u32]) -> bool
    ensures { result ≡ sizes_sound w.now }
{
    if w.len() < SERVICE_WORDS {
        return false;
    }
    if !counts_sound(w[CALLS_AT], w[CATEGORIES_AT], w[DAYS_AT], w[EXTRAS_AT]) {
        return false;
    }
    length_sound(w)
}

// Whether its first word says how long its counts make it, and is within the words.
fn length_sound(w: &[u32]) -> bool
    requires { service_head ≤ length w.now }
    ensures { result ≡ (eqb (word_count_in w.now) (record_end w.now)
        && leb (word_count_in w.now) (length w.now)) }
{
    let said = w[SIZE_AT] as usize;
    if said as u64 != record_end(w) {
        return false;
    }
    said <= w.len()
}

// Where its counts make it end.
fn record_end(w: &[u32]) -> u64
    requires { service_head ≤ length w.now }
    ensures { result ≡ record_end w.now }
{
    record_size(w[CALLS_AT], w[CATEGORIES_AT], w[DAYS_AT], w[EXTRAS_AT])
}

fn counts_sound(c: u32, g: u32, v: u32, a: u32) -> bool
    ensures { result ≡ counts_sound c g v a }
{
    if c < 2 {
        return false;
    }
    if MOST_CALLS < c {
        return false;
    }
    if MOST_CATEGORIES < g {
        return false;
    }
    if MOST_DAYS < v {
        return false;
    }
    a <= MOST_EXTRAS
}

// The words of a record with these counts.
fn record_size(c: u32, g: u32, v: u32, a: u32) -> u64
    ensures { result ≡ record_size c g v a }
{
    SERVICE_WORDS as u64
        + CALL_WORDS as u64 * (c as u64)
        + CATEGORY_WORDS as u64 * (g as u64)
        + DAYS_WORDS as u64 * (v as u64)
        + EXTRA_WORDS as u64 * (a as u64)
}

// Whether all that it holds but its calls is within bounds.
fn bounds_sound(w: &[u32]) -> bool
    requires { record_end w.now ≤ length w.now }
    ensures { result ≡ bounds_sound w.now }
{
    if !runs::opening_sound(opening_at(w)) {
        return false;
    }
    let c = w[CALLS_AT];
    if !ranges_sound(w, category_place(w), w[CATEGORIES_AT], 1, false, c) {
        return false;
    }
    if !ranges_sound(w, day_place(w), w[DAYS_AT], 1, false, c) {
        return false;
    }
    ranges_sound(w, extra_place(w), w[EXTRAS_AT], 2, true, c)
}

// Whether its other *A are sound, of a record with sound sizes: for a look at a record that does without the others.
pub fn extras_sound(w: &[u32]) -> bool
    requires { record_end w.now ≤ length w.now }
    ensures { result ≡ extras_sound w.now }
{
    ranges_sound(w, extra_place(w), w[EXTRAS_AT], 2, true, w[CALLS_AT])
}

// ---- the sections of a record

// Where its *G begin.
pub fn category_place(w: &[u32]) -> usize
    requires { record_end w.now ≤ length w.now }
    ensures { result ≡ category_place w.now }
{
    SERVICE_WORDS + CALL_WORDS * w[CALLS_AT] as usize
}

// Where its *A VE begin.
pub fn day_place(w: &[u32]) -> usize
    requires { record_end w.now ≤ length w.now }
    ensures { result ≡ day_place w.now }
{
    category_place(w) + CATEGORY_WORDS * w[CATEGORIES_AT] as usize
}

// Where its other *A begin.
pub fn extra_place(w: &[u32]) -> usize
    requires { record_end w.now ≤ length w.now }
    ensures { result ≡ extra_place w.now }
{
    day_place(w) + DAYS_WORDS * w[DAYS_AT] as usize
}

// What its opening line says.
pub fn opening_at(w: &[u32]) -> Opening
    requires { service_head ≤ length w.now }
    ensures { result ≡ opening_at w.now }
{
    Opening {
        number: w[NUMBER_AT],
        high: w[HIGH_AT],
        low: w[LOW_AT],
        repeats: w[REPEATS_AT],
        offset: w[OFFSET_AT],
        kind: w[KIND_AT],
    }
}

// ---- calls and ranges

// Whether the n calls from a place on have their places, times and flags within bounds.
fn calls_sound(w: &[u32], at: usize, n: u32, stops: u32) -> bool
    requires { at + call_size * n ≤ length w.now }
    ensures { result ≡ every (call_sound stops) (rows_in call_at call_size n (drop at w.now)) }
{
    let mut p = at;
    for _ in 0..n {
        if !call_sound(timetable::call_at(w, p), stops) {
            return false;
        }
        p += CALL_WORDS;
    }
    true
}

// "21 additionally refuses a place not below S" (document 02, No. 10).
pub fn call_sound(c: Call, stops: u32) -> bool
    ensures { result ≡ call_sound stops c }
{
    if stops <= c.stop {
        return false;
    }
    if LATEST_TIME < c.arrival {
        return false;
    }
    if LATEST_TIME < c.departure {
        return false;
    }
    c.flags <= ALL_FLAGS
}

// Whether the n ranges from a place on are sound on a route of c calls; the legs of each stand after so many words of its own.
fn ranges_sound(w: &[u32], at: usize, n: u32, own: usize, loose: bool, c: u32) -> bool
    requires { at + (own + 2) * n ≤ length w.now }
    ensures { result ≡ every (legs_sound loose c) (rows_in (legs_at own) (own + 2) n (drop at w.now)) }
{
    let mut p = at;
    for _ in 0..n {
        if !legs_sound(timetable::legs_at(w, p, own), loose, c) {
            return false;
        }
        p += own + 2;
    }
    true
}

// Whether a range's ends are in order and below c.
fn legs_sound(legs: LegWords, loose: bool, c: u32) -> bool
    ensures { result ≡ legs_sound loose c (legs_held legs) }
{
    if !timetable::in_order(loose, legs.from, legs.to) {
        return false;
    }
    legs.to < c
}

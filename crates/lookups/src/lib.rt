// Look-ups in words: "lookups take the first match". The search itself, what stands at a place, and the day of a period that a date is. By which section and which index a
// thing is looked up: crate index.
#![tactic(auto)]

ghost use Rattle.std.specs.Prelude.{◌≡◌, ◌+◌, ◌*◌, ◌≤◌, ◌<◌, length, drop};
ghost use Rattle.bitfield.specs.BitField.{runs_on};
ghost use Rattle.timetable.specs.Layout.{stop_size, interchange_size, most_period_days};
ghost use Rattle.timetable.specs.Table.{stop_at, interchange_at};
ghost use Rattle.timetable.specs.Questions.{dated_by};
ghost use Rattle.lookups.specs.Lookups.{place_of, name_place, times_of};

use timetable::{BIT_WORDS, Refusal};

// A bit field: whether there is one of that number, and its days; an unknown one has none.
// Kept: (d) its two parts are read apart (crate course): an Option would be taken apart at each place.
#[derive(Clone, Copy)]
pub struct Field {
    pub known: bool,
    pub words: [u32; BIT_WORDS],
}

// The two times of an interchange record.
#[derive(Clone, Copy)]
pub struct Times {
    pub first: u32,
    pub second: u32,
}

// What the record of a stop says of its name: where it begins in BAHNHOF and how long it is.
#[derive(Clone, Copy)]
pub struct NamePlace {
    pub offset: u32,
    pub size: u32,
}

// ---- the search

// The place of the first of n records of a size from place `at` on that begins with the key.
#[tactic(auto, using(crate::proofs::Search::turns))]
pub fn find(w: &[u32], at: usize, n: u32, size: usize, key: u32) -> Option<usize>
    requires { (1 ≤ size) × (at + size * n ≤ length w.now) }
    ensures { result ≡ place_of w.now key size at n }
{
    let mut p = at;
    for _ in 0..n {
        if w[p] == key {
            return Some(p);
        }
        p += size;
    }
    None
}

// ---- what stands at a place

// What the stop record at a place says of its name.
pub fn name_at(w: &[u32], p: usize) -> NamePlace
    requires { p + stop_size ≤ length w.now }
    ensures { result ≡ name_place (stop_at (drop p w.now)) }
{
    NamePlace {
        offset: w[p + 1],
        size: w[p + 2],
    }
}

// The times of the interchange record at a place.
pub fn times_at(w: &[u32], p: usize) -> Times
    requires { p + interchange_size ≤ length w.now }
    ensures { result ≡ times_of (interchange_at (drop p w.now)) }
{
    Times {
        first: w[p + 1],
        second: w[p + 2],
    }
}

// ---- days

// Whether a bit field runs on day d of the period.
pub fn field_runs(field: Field, d: u32) -> bool
    requires { d < most_period_days }
    ensures { result ≡ runs_on field.words d }
{
    let words = field.words;
    bitfield::runs_on(words, d)
}

// The day of a period of n days from start on, counted from 0, that a date is.
pub fn in_period(start: u32, n: u32, date: Option<u32>) -> Result<u32, Refusal>
    ensures { result ≡ dated_by (record { start = start; n = n }) date }
{
    let Some(k) = date else {
        return Err(Refusal::NoSuchDate);
    };
    if k < start {
        return Err(Refusal::OutsidePeriod);
    }
    if n <= k - start {
        return Err(Refusal::OutsidePeriod);
    }
    Ok(k - start)
}

// The questions that go by no service: whether a bit field runs on a date, and how long an interchange takes, between two classes or two categories.
// Each of any words, and (`day_by`, `interchange_by`, `between_by`, which the quick questions share) of words and an index that look-ups may go by.
#![tactic(auto)]

ghost use Rattle.std.specs.Prelude.{◌≡◌, cond, ◌&&◌, ◌<◌, leb, Ok};
ghost use Rattle.timetable.specs.Layout.{most_class, most_period_days};
ghost use Rattle.timetable.specs.Questions.{day_by, day_in, day_asked, first_time_class, minutes_for, interchange_in};
ghost use Rattle.timetable.specs.Questions.{interchange_asked, between_in, between_asked};
ghost use Rattle.index.specs.Index.{view_in};
ghost use Rattle.index.specs.Inner.Ready.{Ready};

use lookups::Times;
use timetable::{MOST_CLASS, Refusal};

pub mod stop_names;

// Two services of classes up to this one take the first time.
const FIRST_TIME_CLASS: u32 = 2;

// ---- day

// Whether a bit field runs on a date: 21 to 23, 28 no such bit field.
pub fn day(w: &[u32], day: u32, month: u32, year: u32, field: u32) -> Result<bool, Refusal>
    ensures { result ≡ day_asked w.now day month year field }
{
    if !table::is_table(w) {
        return Err(Refusal::NoTable);
    }
    day_by(table::used_words(w), &w[0..0], day, month, year, field)
}

pub fn day_by(
    w: &[u32],
    x: &[u32],
    day: u32,
    month: u32,
    year: u32,
    field: u32,
) -> Result<bool, Refusal>
    requires { Ready w.now x.now }
    ensures { result ≡ day_in (view_in w.now x.now) day month year field }
{
    let k = index::dated(w, x, day, month, year)?;
    field_day(w, x, field, k)
}

// On day k of the period.
fn field_day(w: &[u32], x: &[u32], field: u32, k: u32) -> Result<bool, Refusal>
    requires { Ready w.now x.now × (k < most_period_days) }
    ensures { result ≡ day_by (view_in w.now x.now) field (Ok k) }
{
    let f = index::field_words(w, x, field);
    if !f.known {
        return Err(Refusal::NoSuchBitField);
    }
    Ok(lookups::field_runs(f, k))
}

// ---- interchange between two classes

// The minutes of an interchange between services of two classes: 21, 26 class over 13, 27 stop unknown.
pub fn interchange(w: &[u32], stop: u32, a: u32, b: u32) -> Result<u32, Refusal>
    ensures { result ≡ interchange_asked w.now stop a b }
{
    if !table::is_table(w) {
        return Err(Refusal::NoTable);
    }
    interchange_by(table::used_words(w), &w[0..0], stop, a, b)
}

pub fn interchange_by(w: &[u32], x: &[u32], stop: u32, a: u32, b: u32) -> Result<u32, Refusal>
    requires { Ready w.now x.now }
    ensures { result ≡ interchange_in (view_in w.now x.now) stop a b }
{
    if !classes_known(a, b) {
        return Err(Refusal::ClassTooHigh);
    }
    if !index::stop_known(w, x, stop) {
        return Err(Refusal::StopUnknown);
    }
    Ok(minutes(index::interchange_at(w, x, stop), a, b))
}

fn classes_known(a: u32, b: u32) -> bool
    ensures { result ≡ (leb a most_class && leb b most_class) }
{
    if MOST_CLASS < a {
        return false;
    }
    b <= MOST_CLASS
}

// ---- interchange between two categories

// The minutes of an interchange between services of two categories: 21, 27 stop unknown, 38 a category not listed.
pub fn between(w: &[u32], stop: u32, a: u32, b: u32) -> Result<u32, Refusal>
    ensures { result ≡ between_asked w.now stop a b }
{
    if !table::is_table(w) {
        return Err(Refusal::NoTable);
    }
    between_by(table::used_words(w), &w[0..0], stop, a, b)
}

pub fn between_by(w: &[u32], x: &[u32], stop: u32, a: u32, b: u32) -> Result<u32, Refusal>
    requires { Ready w.now x.now }
    ensures { result ≡ between_in (view_in w.now x.now) stop a b }
{
    if index::stop_known(w, x, stop) {
        if both_listed(w, x, a, b) {
            return Ok(minutes_between(w, x, stop, a, b));
        }
        return Err(Refusal::CategoryUnlisted);
    }
    Err(Refusal::StopUnknown)
}

// Whether two categories are listed.
pub fn both_listed(w: &[u32], x: &[u32], a: u32, b: u32) -> bool
    requires { Ready w.now x.now }
    ensures { result ≡
        ((view_in w.now x.now).listed a && (view_in w.now x.now).listed b) }
{
    if !index::class_known(w, x, a) {
        return false;
    }
    index::class_known(w, x, b)
}

// The time at a stop for the classes of two categories.
pub fn minutes_between(w: &[u32], x: &[u32], stop: u32, a: u32, b: u32) -> u32
    requires { Ready w.now x.now }
    ensures { result ≡ minutes_for ((view_in w.now x.now).times stop)
        ((view_in w.now x.now).class a) ((view_in w.now x.now).class b) }
{
    let times = index::interchange_at(w, x, stop);
    minutes(times, index::class_for(w, x, a), index::class_for(w, x, b))
}

// The time for two classes.
fn minutes(times: Times, a: u32, b: u32) -> u32
    ensures { result ≡ cond (first_time_class a && first_time_class b) times.first times.second }
{
    if FIRST_TIME_CLASS < a {
        return times.second;
    }
    if FIRST_TIME_CLASS < b {
        return times.second;
    }
    times.first
}

// The runs of a service, by what its opening line says: which there are, how late each is, and what a table asks of the line's numbers (21).
#![tactic(auto)]

ghost use Rattle.std.specs.Prelude.{◌≡◌, true, ◌&&◌, ◌*◌, ◌≤◌, leb};
ghost use Rattle.timetable.specs.Layout.{most_running, most_delay};
ghost use Rattle.timetable.specs.Runs as R;

use timetable::{KIND_T, KIND_Z, MOST_REPEATS, MOST_RUNNING, Opening};

// Whether a service has a run.
pub fn has_run(opening: Opening, run: u32) -> bool
    ensures { result ≡ R.has_run opening run }
{
    if opening.kind == KIND_T {
        return seconds(opening, run) <= 60 * (opening.repeats as u64);
    }
    run <= opening.repeats
}

// How long after the first a run of a *T starts: no product of two words is too large.
fn seconds(opening: Opening, run: u32) -> u64
    ensures { result ≡ run * R.density opening }
{
    run as u64 * opening.offset as u64
}

// How late a run of a service is, in minutes.
pub fn lateness(opening: Opening, run: u32) -> u32
    requires opening_value { R.opening_sound opening ≡ true }
    requires run_value { R.has_run opening run ≡ true }
    ensures is { result ≡ R.lateness opening run }
    ensures low { result ≤ most_delay }
{
    if opening.kind == KIND_T {
        return ((seconds(opening, run) + 59) / 60) as u32;
    }
    run * opening.offset
}

// Whether the numbers of an opening line are within a table's bounds.
pub fn opening_sound(opening: Opening) -> bool
    ensures { result ≡ R.opening_sound opening }
{
    if opening.kind == KIND_T {
        return frequency_sound(opening);
    }
    if opening.kind != KIND_Z {
        return false;
    }
    if MOST_REPEATS < opening.repeats {
        return false;
    }
    opening.offset <= MOST_REPEATS
}

// The same of a *T's.
fn frequency_sound(opening: Opening) -> bool
    ensures { result ≡ (leb (R.running_time opening) most_running
        && (leb 1 (R.density opening) && leb (R.density opening) most_running)) }
{
    if MOST_RUNNING < opening.repeats {
        return false;
    }
    if opening.offset < 1 {
        return false;
    }
    opening.offset <= MOST_RUNNING
}

// The runs of a service that leave a call within a span of time, found by arithmetic: no run is tried (specs/Spans).
#![tactic(auto)]

ghost use Rattle.std.specs.Prelude.{◌≡◌, true};
ghost use Rattle.timetable.specs.Runs.{opening_sound};
ghost use Rattle.spans.specs.Spans as S;

use timetable::{KIND_T, Opening};

// Runs: from one on, and below another.
#[derive(Clone, Copy)]
pub struct Span {
    pub low: u32,
    pub high: u32,
}

// The runs that leave a call within two minutes of the day, both counted; run 0 leaves at `departure`.
pub fn runs_between(opening: Opening, departure: u32, first: u32, last: u32) -> Span
    requires { opening_sound opening ≡ true }
    ensures { result ≡ S.span_of opening departure first last }
{
    let low = first_run(opening, departure, first);
    let high = end_run(opening, departure, last);
    Span { low, high }
}

// The first run that leaves at a minute or later: those before it are late by too little.
fn first_run(opening: Opening, departure: u32, first: u32) -> u32
    requires { opening_sound opening ≡ true }
    ensures { result ≡ S.first_run opening departure first }
{
    if first <= departure {
        return 0;
    }
    runs_within(opening, first - departure - 1)
}

// The first run that leaves after a minute.
fn end_run(opening: Opening, departure: u32, last: u32) -> u32
    requires { opening_sound opening ≡ true }
    ensures { result ≡ S.end_run opening departure last }
{
    if last < departure {
        return 0;
    }
    runs_within(opening, last - departure)
}

// How many runs are late by at most so many minutes.
fn runs_within(opening: Opening, minutes: u32) -> u32
    requires { opening_sound opening ≡ true }
    ensures { result ≡ S.runs_within opening minutes }
{
    if opening.kind == KIND_T {
        return 60 * less(opening.repeats, minutes) / opening.offset + 1;
    }
    if opening.offset == 0 {
        return opening.repeats + 1;
    }
    less(opening.repeats, minutes / opening.offset) + 1
}

fn less(a: u32, b: u32) -> u32
    ensures { result ≡ S.less a b }
{
    if a < b { a } else { b }
}

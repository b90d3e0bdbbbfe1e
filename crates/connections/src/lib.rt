// Whether a proposed connection holds (document 02, No. 12): of its parts, one after another, the stage along the day's run, and the change from the stage before.
// `w` are words with a sound header, `x` their index or none (crate index).
#![tactic(auto)]

ghost use Rattle.std.specs.Prelude.{◌≡◌, true, ◌&&◌, ◌+◌, ◌-◌, ◌/◌, ◌%◌, ◌^◌, ◌≤◌, ◌<◌, length, drop, ltb, leb, eqb};
ghost use Rattle.timetable.specs.Layout.{most_period_days, latest_time, most_delay};
ghost use Rattle.timetable.specs.Table.{stops#, calls#, opening_at, service_at, sizes_sound, record_sound};
ghost use Rattle.timetable.specs.Run.{category_on, a_run, run_of};
ghost use Rattle.timetable.specs.Runs.{has_run};
ghost use Rattle.index.specs.Index.{view_in};
ghost use Rattle.index.specs.Inner.Ready.{Ready};
ghost use Rattle.connections.specs.Inner.Stages.{run_in, call_in, stage_in, stage_ridden, stage_calls, change_answer};
ghost use Rattle.connections.specs.Connection.{part_size, part_at, parts_of, whole_parts, moment, stage_by, stage_of};
ghost use Rattle.connections.specs.Connection.{change_to, changed_to, parts_after, parts_hold, connection_in};
ghost use Rattle.connections.specs.Connection.{connection_asked, connection_refusal};
ghost use Rattle.connections.specs.Quick.{connection_quick};

use course::rows;
use timetable::{Call, NO_ALIGHTING, NO_BOARDING, Refusal};

// A part: a run by its service, its repeat and its date, and the calls where it is boarded and left, counted from 0 along the route.
#[derive(Clone, Copy)]
pub struct Part {
    pub service: u32,
    pub repeat: u32,
    pub day: u32,
    pub month: u32,
    pub year: u32,
    pub board: u32,
    pub alight: u32,
}

// What a part that is right makes: the stop, the moment and the category where it departs, and those where it arrives. A moment is in minutes from the period's
// first day on.
#[derive(Clone, Copy)]
pub struct Stage {
    pub from: u32,
    pub departs: u32,
    pub departing: u32,
    pub to: u32,
    pub arrives: u32,
    pub arriving: u32,
}

// Why a connection does not hold, and the first bad part, counted from 1 (0 for 21 and 46, and for 43 of the index as a whole).
#[derive(Clone, Copy)]
pub struct ConnectionRefusal {
    pub refusal: Refusal,
    pub part: u32,
}

// Of no part.
impl From<Refusal> for ConnectionRefusal {
    ghost from_gives = { λ r c. c ≡ connection_refusal r 0 };

    fn from(refusal: Refusal) -> ConnectionRefusal {
        ConnectionRefusal { refusal, part: 0 }
    }
}

// The words of a part.
pub const PART_WORDS: usize = 7;

// "1 to 10 parts"
pub const MOST_PARTS: usize = 10;

const DAY_MINUTES: u32 = 1440;

// ---- the connection

// Whether a proposed connection holds, on any words: 21, 46, then part by part.
pub fn connection(w: &[u32], parts: &[u32]) -> Result<(), ConnectionRefusal>
    ensures { result ≡ connection_asked w.now parts.now }
{
    if !table::is_table(w) {
        return Err(ConnectionRefusal::from(Refusal::NoTable));
    }
    connection_by(table::used_words(w), &w[0..0], parts)
}

// The same on any words with any words lent as their index: 21, 43 (both name 0), 46, then part by part; 43 of a service's record names the part.
pub fn quick_connection(w: &[u32], x: &[u32], parts: &[u32]) -> Result<(), ConnectionRefusal>
    ensures { result ≡ connection_quick w.now x.now parts.now }
{
    index::quick_refusal(w, x.len())?;
    let u = index::headed_words(w);
    connection_by(u, index::lookup_words(u, x), parts)
}

// Whether the parts proposed hold: 46 not 1 to 10 whole parts, then part by part.
pub fn connection_by(w: &[u32], x: &[u32], parts: &[u32]) -> Result<(), ConnectionRefusal>
    requires { Ready w.now x.now }
    ensures { result ≡ connection_in (view_in w.now x.now) parts.now }
{
    if !whole_parts(parts.len()) {
        return Err(ConnectionRefusal::from(Refusal::PartsNotWhole));
    }
    parts_hold(w, x, parts)
}

// The first part, then the others.
fn parts_hold(w: &[u32], x: &[u32], parts: &[u32]) -> Result<(), ConnectionRefusal>
    requires ready { Ready w.now x.now }
    requires parts_value { whole_parts (length parts.now) ≡ true }
    ensures { result ≡ parts_hold (view_in w.now x.now) (parts_of parts.now) }
{
    match stage_of(w, x, part_at(parts, 0)) {
        Err(refusal) => Err(ConnectionRefusal { refusal, part: 1 }),
        Ok(stage) => parts_after(w, x, parts, stage),
    }
}

// The parts from the second on, after the stage of the first.
fn parts_after(w: &[u32], x: &[u32], parts: &[u32], first: Stage) -> Result<(), ConnectionRefusal>
    requires ready { Ready w.now x.now }
    requires parts_value { whole_parts (length parts.now) ≡ true }
    ensures { result ≡
        parts_after (view_in w.now x.now) first 2 (parts_of (drop part_size parts.now)) }
{
    let mut before = first;
    for passed in 1..parts.len() / PART_WORDS {
        match next_stage(w, x, before, part_at(parts, PART_WORDS * passed)) {
            Err(refusal) => {
                return Err(ConnectionRefusal {
                    refusal,
                    part: passed as u32 + 1,
                });
            }
            Ok(stage) => before = stage,
        }
    }
    Ok(())
}

// The stage of the next part, after a change.
fn next_stage(w: &[u32], x: &[u32], before: Stage, part: Part) -> Result<Stage, Refusal>
    requires { Ready w.now x.now }
    ensures { result ≡ changed_to (view_in w.now x.now) before
        (stage_of (view_in w.now x.now) part) }
{
    change_to(w, x, before, stage_of(w, x, part)?)
}

// ---- a change

// The next stage, where a change to it is right.
fn change_to(w: &[u32], x: &[u32], before: Stage, next: Stage) -> Result<Stage, Refusal>
    requires { Ready w.now x.now }
    ensures { result ≡ change_to (view_in w.now x.now) before next }
{
    let listed = questions::both_listed(w, x, before.arriving, next.departing);
    let minutes = questions::minutes_between(w, x, next.from, before.arriving, next.departing);
    let long = waits(before.arrives, minutes, next.departs);
    change_refusal(before.to == next.from, listed, long)?;
    Ok(next)
}

// What a change is refused for: 49 other stop, 38 a category not listed, 50 wait too short.
fn change_refusal(same: bool, listed: bool, long: bool) -> Result<(), Refusal>
    ensures { result ≡ change_answer same listed long }
{
    if !same {
        return Err(Refusal::OtherStop);
    }
    if !listed {
        return Err(Refusal::CategoryUnlisted);
    }
    if !long {
        return Err(Refusal::WaitTooShort);
    }
    Ok(())
}

// ---- a stage

// The stage of a part: the walk's own refusals but 29, 47 not among the rows, 48 order or permission.
fn stage_of(w: &[u32], x: &[u32], part: Part) -> Result<Stage, Refusal>
    requires { Ready w.now x.now }
    ensures { result ≡ stage_of (view_in w.now x.now) part }
{
    let k = index::dated(w, x, part.day, part.month, part.year)?;
    stage_on(w, x, part, k)
}

// On day k of the period: 24 service index not below V.
fn stage_on(w: &[u32], x: &[u32], part: Part, k: u32) -> Result<Stage, Refusal>
    requires { Ready w.now x.now × (k < most_period_days) }
    ensures { result ≡
        stage_by k part (run_of (view_in w.now x.now) part.service part.repeat k) }
{
    let p = index::service_record(w, x, part.service)?;
    stage_in(w, x, index::words_from(w, p), part, k)
}

// Of the service at the front of `s`: what its course is refused for, and 47 on a day without a run.
fn stage_in(w: &[u32], x: &[u32], s: &[u32], part: Part, k: u32) -> Result<Stage, Refusal>
    requires ready { Ready w.now x.now × (k < most_period_days) }
    requires s_value { record_sound (stops# w.now) s.now ≡ true }
    ensures { result ≡ stage_in (view_in w.now x.now) s.now part k }
{
    match course::service_course(w, x, s, part.repeat, k)? {
        None => Err(Refusal::CallNotListed), // at rest
        Some(along) => stage_along(w, x, s, part, k, along.start, along.legs),
    }
}

// Along the stretch from call `start` on with so many legs: 47 not among the rows, 48 order or permission.
fn stage_along(
    w: &[u32],
    x: &[u32],
    s: &[u32],
    part: Part,
    k: u32,
    start: u32,
    legs: u32,
) -> Result<Stage, Refusal>
    requires ready { Ready w.now x.now × (k < most_period_days) }
    requires s_value { record_sound (stops# w.now) s.now ≡ true }
    requires legs_bound { (start + legs < calls# s.now) × (has_run (opening_at s.now) part.repeat ≡ true) }
    ensures { result ≡ stage_by k part (a_run
        (run_in (view_in w.now x.now) s.now part.repeat start legs)) }
{
    if !both_in_rows(start, legs, part.board, part.alight) {
        return Err(Refusal::CallNotListed);
    }
    stage_ridden(w, x, s, part, k)
}

// Of two calls that are among the rows.
fn stage_ridden(w: &[u32], x: &[u32], s: &[u32], part: Part, k: u32) -> Result<Stage, Refusal>
    requires ready { Ready w.now x.now × (k < most_period_days) }
    requires s_value { record_sound (stops# w.now) s.now ≡ true }
    requires board_bound { (part.board < calls# s.now) × (part.alight < calls# s.now)
        × (has_run (opening_at s.now) part.repeat ≡ true) }
    ensures { result ≡ stage_ridden (view_in w.now x.now) s.now part k }
{
    let boarding = rows::call_of(s, part.board);
    let alighting = rows::call_of(s, part.alight);
    if !may_ride(part.board, part.alight, boarding.flags, alighting.flags) {
        return Err(Refusal::NotBoardable);
    }
    Ok(stage_between(w, x, s, part, k, boarding, alighting))
}

// From the call where it boards to the call where it alights.
fn stage_between(
    w: &[u32],
    x: &[u32],
    s: &[u32],
    part: Part,
    k: u32,
    boarding: Call,
    alighting: Call,
) -> Stage
    requires ready { Ready w.now x.now × (k < most_period_days) }
    requires s_value { record_sound (stops# w.now) s.now ≡ true }
    requires board_bound { (part.board < calls# s.now) × (boarding ≡ call_in s.now part.board) }
    requires alight_bound { (part.alight < calls# s.now) × (alighting ≡ call_in s.now part.alight) }
    requires le_alight { (1 ≤ part.alight) × (has_run (opening_at s.now) part.repeat ≡ true) }
    ensures { result ≡
        stage_calls (view_in w.now x.now) s.now part k boarding alighting }
{
    let late = runs::lateness(table::opening_at(s), part.repeat);
    Stage {
        from: index::stop_number(w, x, boarding.stop),
        departs: moment_of(k, boarding.departure, late),
        departing: rows::category_on(s, part.board),
        to: index::stop_number(w, x, alighting.stop),
        arrives: moment_of(k, alighting.arrival, late),
        arriving: arriving_at(s, part.alight),
    }
}

// The category of the leg into a call.
fn arriving_at(s: &[u32], call: u32) -> u32
    requires s_value { sizes_sound s.now ≡ true }
    requires le_call { 1 ≤ call }
    ensures { result ≡ category_on (service_at s.now) (call - 1) }
{
    rows::category_on(s, call - 1)
}

// ---- the words of the parts

// Whether so many words are 1 to 10 whole parts.
fn whole_parts(n: usize) -> bool
    ensures { result ≡ whole_parts n }
{
    if n % PART_WORDS != 0 {
        return false;
    }
    if n / PART_WORDS < 1 {
        return false;
    }
    n / PART_WORDS <= MOST_PARTS
}

// The part whose words start at a place.
fn part_at(parts: &[u32], at: usize) -> Part
    requires { at + part_size ≤ length parts.now }
    ensures { result ≡ part_at (drop at parts.now) }
{
    Part {
        service: parts[at],
        repeat: parts[at + 1],
        day: parts[at + 2],
        month: parts[at + 3],
        year: parts[at + 4],
        board: parts[at + 5],
        alight: parts[at + 6],
    }
}

// ---- numbers

// Whether a call, by its place in the route, is among the rows of a stretch from call `start` on with so many legs.
fn in_rows(start: u32, legs: u32, call: u32) -> bool
    requires { start + legs < 2 ^ 32 }
    ensures { result ≡ (leb start call && leb call (start + legs)) }
{
    if call < start {
        return false;
    }
    call <= start + legs
}

fn both_in_rows(start: u32, legs: u32, board: u32, alight: u32) -> bool
    requires { start + legs < 2 ^ 32 }
    ensures { result ≡
        ((leb start board && leb board (start + legs)) && (leb start alight && leb alight (start + legs))) }
{
    if !in_rows(start, legs, board) {
        return false;
    }
    in_rows(start, legs, alight)
}

// Whether boarding comes before alighting and both are allowed, by the flags of the two calls.
fn may_ride(board: u32, alight: u32, boarding: u32, alighting: u32) -> bool
    ensures { result ≡ (ltb board alight && (eqb (boarding / 8 % 2) 0 && eqb (alighting / 4 % 2) 0)) }
{
    if alight <= board {
        return false;
    }
    if boarding / NO_BOARDING % 2 != 0 {
        return false;
    }
    alighting / NO_ALIGHTING % 2 == 0
}

// A minute of a run that starts on day k of the period and is late, counted from the period's first day on.
fn moment_of(k: u32, minute: u32, late: u32) -> u32
    requires { (k < most_period_days) × (minute ≤ latest_time) × (late ≤ most_delay) }
    ensures { result ≡ moment k (minute + late) }
{
    DAY_MINUTES * k + (minute + late)
}

// Whether so many minutes pass from one moment to another: no word is so large that the sum wraps.
fn waits(arrives: u32, minutes: u32, departs: u32) -> bool
    ensures { result ≡ leb (arrives + minutes) departs }
{
    arrives as u64 + minutes as u64 <= departs as u64
}

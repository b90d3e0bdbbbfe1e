// The calls at a stop, one after the other, by its number: along the chain of the stops with that number in the words `x`, and for each along the chain of its calls in
// the words `y`. Any words will do: a chain goes on only to a smaller number, and no more calls are met than are asked for (specs/StopCalls).
// The stop section has n records and ends at `end` of the table's words `w`; its chains begin at `from`.
#![tactic(auto)]

ghost use Rattle.std.specs.Prelude.{◌≡◌, ◌∷◌, ◌+◌, ◌-◌, ◌*◌, ◌≤◌, ◌<◌, length, take};
ghost use Rattle.base.specs.Lists.{gathered};
ghost use Rattle.timetable.specs.Layout.{stop_size};
ghost use Rattle.chains.specs.Chains.{next_by};
ghost use Rattle.stop_calls.specs.StopCalls.{chained, entries#, entry_word, calls_on, calls_by, Lent, left_at, On};
ghost use Rattle.stop_calls.specs.StopCalls.{last_on, before_on};

use timetable::STOP_WORDS;

// A call by its number (0 for none), its stop, counted from the end of the stop section, and how many calls may still come, with it.
#[derive(Clone, Copy)]
pub struct Cursor {
    pub call: u32,
    pub stop: u32,
    pub left: u32,
}

// The first of at most so many calls.
pub fn first_call(
    w: &[u32],
    x: &[u32],
    y: &[u32],
    end: usize,
    n: u32,
    from: usize,
    key: u32,
    most: u32,
) -> Cursor
    requires lent { Lent w.now x.now y.now end n from }
    requires most_nonzero { 0 < most }
    ensures left { left_at w.now x.now y.now end n from key result ≡
        take most (calls_by w.now x.now y.now end n from key) }
    ensures on { On y.now n result }
{
    let first = chains::find(w, x, end, STOP_WORDS, n, from, key);
    from_stop(w, x, y, end, n, from, key, first, most)
}

// The call after a cursor's.
#[tactic(auto, using(crate::proofs::Needs::nexts))]
pub fn next_call(
    w: &[u32],
    x: &[u32],
    y: &[u32],
    end: usize,
    n: u32,
    from: usize,
    key: u32,
    call: u32,
    stop: u32,
    left: u32,
) -> Cursor
    requires lent { Lent w.now x.now y.now end n from }
    requires on_2 { On y.now n (record { call = call; stop = stop; left = left }) }
    requires fact { call ≡ 0 → ⊥ }
    ensures left { left_at w.now x.now y.now end n from key
        (record { call = call; stop = stop; left = left }) ≡
        call ∷ left_at w.now x.now y.now end n from key result }
    ensures on { On y.now n result }
{
    if left <= 1 {
        return Cursor {
            call: 0,
            stop: 0,
            left: 0,
        };
    }
    let h = before(y, n, call);
    if h != 0 {
        return Cursor {
            call: h,
            stop,
            left: left - 1,
        };
    }
    let s = chains::next(w, x, end, STOP_WORDS, n, from, key, stop);
    from_stop(w, x, y, end, n, from, key, s, left - 1)
}

// The first call at a stop, or at those after it with the same number.
fn from_stop(
    w: &[u32],
    x: &[u32],
    y: &[u32],
    end: usize,
    n: u32,
    from: usize,
    key: u32,
    first: u32,
    left: u32,
) -> Cursor
    requires lent { Lent w.now x.now y.now end n from }
    requires first_le_n { (first ≤ n) × (0 < left) }
    ensures left { left_at w.now x.now y.now end n from key result ≡ take left
        (gathered (calls_on n y.now)
        (chained (next_by w.now x.now end stop_size from key) n first)) }
    ensures on { On y.now n result }
{
    // Kept: along the chain of the stops, which ends where it stands.
    let mut s = first;
    while s != 0 {
        let h = last(y, n, s);
        if h != 0 {
            return Cursor {
                call: h,
                stop: s,
                left,
            };
        }
        s = chains::next(w, x, end, STOP_WORDS, n, from, key, s);
    }
    Cursor {
        call: 0,
        stop: 0,
        left: 0,
    }
}

// ---- the words of the calls

// The last call at stop s.
fn last(y: &[u32], n: u32, s: u32) -> u32
    requires { (n ≤ length y.now) × (0 < s) × (s ≤ n) }
    ensures { result ≡ last_on n y.now s }
{
    let h = y[wide(n - s)];
    if wide(h) <= entries(y, n) {
        return h;
    }
    0
}

// The call before call e at its stop.
fn before(y: &[u32], n: u32, e: u32) -> u32
    requires { (n ≤ length y.now) × (0 < e) × (e ≤ entries# n y.now) }
    ensures { result ≡ before_on n y.now e }
{
    let h = entry_word(y, n, 0, e);
    if h < e {
        return h;
    }
    0
}

// How many calls the words have.
fn entries(y: &[u32], n: u32) -> usize
    requires { n ≤ length y.now }
    ensures { result ≡ entries# n y.now }
{
    (y.len() - wide(n)) / ENTRY_WORDS
}

// A word of call e: 0 the call before it, 1 its service, 2 the place of the service's record, 3 its place in the route.
pub fn entry_word(y: &[u32], n: u32, k: usize, e: u32) -> u32
    requires n_in_bounds { (n ≤ length y.now) × (0 < e) × (e ≤ entries# n y.now) }
    requires k_bound { k < 4 }
    ensures { result ≡ entry_word n y.now k e }
{
    y[wide(n) + ENTRY_WORDS * (wide(e) - 1) + k]
}

const ENTRY_WORDS: usize = 4;

fn wide(x: u32) -> usize
    ensures { result ≡ x }
{
    x as usize
}

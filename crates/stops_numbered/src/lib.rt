// The places of the stop section that have a number, one after the other: a board goes by a stop's number, and words from elsewhere may list it twice.
// On any words and any index each place that is told has the number, and the next is a later one (proofs/Numbered).
#![tactic(auto)]

ghost use Rattle.std.specs.Prelude.{◌≡◌, true, ◌+◌, ◌-◌, ◌*◌, ◌≤◌, ◌<◌, length};
ghost use Rattle.timetable.specs.Layout.{stop_size};
ghost use Rattle.timetable.specs.Table.{stops#};
ghost use Rattle.table.specs.JustTable.{header_sound};
ghost use Rattle.chains.specs.Chains.{first_by, next_by};
ghost use Rattle.index.specs.Index.{interchanges_from};
ghost use Rattle.stops_numbered.specs.Inner.Numbered.{first_stop, next_stop};

use timetable::STOP_WORDS;

// The first place with the number, as the index finds it, counted from 0; as many as there are stops where there is none.
pub fn first_stop(w: &[u32], x: &[u32], number: u32) -> u32
    requires w_value { header_sound w.now ≡ true }
    requires w_in_bounds { interchanges_from w.now ≤ length x.now }
    ensures { result ≡ first_stop w.now x.now number }
{
    let s = index::stop_section(w);
    first(w, x, s.at, s.n, s.from, number)
}

// The next after a place that has it.
pub fn next_stop(w: &[u32], x: &[u32], number: u32, place: u32) -> u32
    requires w_value { header_sound w.now ≡ true }
    requires w_in_bounds { interchanges_from w.now ≤ length x.now }
    requires place_bound { place < stops# w.now }
    ensures { result ≡ next_stop w.now x.now number place }
{
    let s = index::stop_section(w);
    next(w, x, s.at, s.n, s.from, number, place)
}

// The same, of n stops whose records begin at `at` and whose chains begin at `from`.
fn first(w: &[u32], x: &[u32], at: usize, n: u32, from: usize, number: u32) -> u32
    requires n_in_bounds { at + stop_size * n ≤ length w.now }
    requires n_in_bounds_2 { from + 2 * n ≤ length x.now }
    ensures { result ≡ n - first_by w.now x.now (at + stop_size * n) stop_size n from number }
{
    let end = at + STOP_WORDS * index::count(n);
    n - chains::find(w, x, end, STOP_WORDS, n, from, number)
}

fn next(w: &[u32], x: &[u32], at: usize, n: u32, from: usize, number: u32, place: u32) -> u32
    requires n_in_bounds { at + stop_size * n ≤ length w.now }
    requires n_in_bounds_2 { from + 2 * n ≤ length x.now }
    requires place_lt_n { place < n }
    ensures { result ≡
        n - next_by w.now x.now (at + stop_size * n) stop_size from number (n - place) }
{
    let end = at + STOP_WORDS * index::count(n);
    n - chains::next(w, x, end, STOP_WORDS, n, from, number, n - place)
}

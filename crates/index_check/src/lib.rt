// Whether words are a table's index (43), told exactly, without other words and in time that grows with the table only: each section's chains (`chain_check`),
// the place of each service by going from record to record, the calls (`calls_check`) and their mark.
#![tactic(auto)]

ghost use Rattle.std.specs.Prelude.{◌≡◌, ◌&&◌, ◌+◌, ◌*◌, ◌≤◌, length, drop};
ghost use Rattle.timetable.specs.Table.{services#};
ghost use Rattle.table.specs.JustTable.{JustTable};
ghost use Rattle.table.specs.Steady.{steady};
ghost use Rattle.chain_check.specs.Tally.{same};
ghost use Rattle.index.specs.Index.{index_size, places_of, index_of};
ghost use Rattle.index.specs.Inner.Ready.{Fits};
ghost use Rattle.whole_index.specs.Whole.{marked_calls, whole_index_of};
ghost use Rattle.index_check.specs.Check.{checked_of};
ghost use Rattle.index_check.specs.Inner.Parts.{chains_right};

use index::Section;
use timetable::{FIRST_SERVICE_AT, SERVICES_AT};

// That the words are the table's index; or 21 no table, 43 another's words.
#[derive(Clone, Copy)]
pub enum IndexCheck {
    Right,
    Refused(u32),
}

// Whether the words x, all of them, are the index of the table w.
pub fn check_index(w: &[u32], x: &[u32]) -> IndexCheck
    ensures { result ≡ checked_of w.now x.now }
{
    let Some(is_steady) = table::look_at(w) else {
        return IndexCheck::Refused(21);
    };
    if !is_index(table::used_words(w), is_steady, x) {
        return IndexCheck::Refused(43);
    }
    IndexCheck::Right
}

// The same of just a table, where it is known whether its calls are steady.
pub fn is_index(w: &[u32], is_steady: bool, x: &[u32]) -> bool
    requires just_table { JustTable w.now }
    requires is_steady_value { is_steady ≡ steady w.now }
    ensures { result ≡ same x.now (whole_index_of w.now) }
{
    let n = index::index_size(w);
    if x.len() < n {
        return false;
    }
    if !are_lookups(w, &x[0..n]) {
        return false;
    }
    are_marked(w, is_steady, &x[n..])
}

// Whether words are the calls and the mark.
fn are_marked(w: &[u32], is_steady: bool, y: &[u32]) -> bool
    requires just_table { JustTable w.now }
    requires is_steady_value { is_steady ≡ steady w.now }
    ensures { result ≡ same y.now (marked_calls w.now) }
{
    if y.len() == 0 {
        return false;
    }
    let last = y.len() - 1;
    if y[last] != whole_index::mark(is_steady) {
        return false;
    }
    calls_check::is_call_index(w, &y[0..last])
}

// ---- the look-ups

// Whether as many words as the look-ups have are the look-ups.
fn are_lookups(w: &[u32], x: &[u32]) -> bool
    requires just_table { JustTable w.now }
    requires x_len { length x.now ≡ index_size w.now }
    ensures { result ≡ same x.now (index_of w.now) }
{
    if !both_right(w, x, index::field_section(w), index::stop_section(w)) {
        return false;
    }
    if !both_right(w, x, index::interchange_section(w), index::class_section(w)) {
        return false;
    }
    places_right(w, x, index::services_from(w))
}

// Whether the chains of two sections are right.
fn both_right(w: &[u32], x: &[u32], s: Section, r: Section) -> bool
    requires fits { Fits w.now s × Fits w.now r }
    requires n_in_bounds { (s.from + 2 * s.n ≤ length x.now) × (r.from + 2 * r.n ≤ length x.now) }
    ensures { result ≡
        (chains_right w.now x.now s && chains_right w.now x.now r) }
{
    if !section_right(w, x, s) {
        return false;
    }
    section_right(w, x, r)
}

// Whether the chains of a section are right.
fn section_right(w: &[u32], x: &[u32], s: Section) -> bool
    requires fits { Fits w.now s }
    requires n_in_bounds { s.from + 2 * s.n ≤ length x.now }
    ensures { result ≡ chains_right w.now x.now s }
{
    chained(w, x, s.at, s.n, s.size, s.from)
}

// The same, of n records of a size that begin at `at`, from place `from` of the index on.
fn chained(w: &[u32], x: &[u32], at: usize, n: u32, size: usize, from: usize) -> bool
    requires fits { Fits w.now (record { at = at; n = n; size = size; from = from }) }
    requires n_in_bounds { from + 2 * n ≤ length x.now }
    ensures { result ≡
        chains_right w.now x.now (record { at = at; n = n; size = size; from = from }) }
{
    let end = at + size * index::count(n);
    let to = from + 2 * index::count(n);
    chain_check::is_chained(w, end, size, n, &x[from..to])
}

// Whether the words from a place on are the places of the services.
fn places_right(w: &[u32], x: &[u32], from: usize) -> bool
    requires just_table { JustTable w.now }
    requires w_value { from + services# w.now ≡ length x.now }
    ensures { result ≡ same (drop from x.now) (places_of w.now) }
{
    let mut p = w[FIRST_SERVICE_AT];
    let mut at = from;
    let mut k = w[SERVICES_AT];
    while 0 < k {
        if x[at] != p {
            return false;
        }
        p = indexing::next_place(w, p, k);
        at += 1;
        k -= 1;
    }
    true
}

// The index of a table, made: the words of the look-ups, then the words of the calls at each stop, and a mark whether the table's calls are steady. It is never longer
// than the table (`whole-within`, proofs/Whole).
#![tactic(auto)]

ghost use Rattle.std.specs.Prelude.{◌≡◌, cond, ◌≤◌, length};
ghost use Rattle.table.specs.JustTable.{JustTable};
ghost use Rattle.table.specs.Steady.{steady};
ghost use Rattle.words.specs.Words.{write};
ghost use Rattle.index.specs.Index.{index_size};
ghost use Rattle.whole_index.specs.Whole.{marked_calls, marked_size, whole_index_size, whole_index_of};
ghost use Rattle.whole_index.specs.Whole.{made_of, index_into};

// That an index was made, of so many words; or 21 and 29, with the words needed.
#[derive(Clone, Copy)]
pub enum Made {
    Index(usize),
    Refused { number: u32, needed: usize },
}

// Writes the index of a table to the front of the words lent: 21, 29 too few words.
pub fn make_index(w: &[u32], x: &mut [u32]) -> Made
    ensures answer { result ≡ made_of w.now (length x.old) }
    ensures words { x.new ≡ index_into w.now x.old }
{
    let Some(is_steady) = table::look_at(w) else {
        return Made::Refused {
            number: 21,
            needed: 0,
        };
    };
    make(table::used_words(w), is_steady, x)
}

// Of just a table, where it is known whether its calls are steady.
fn make(w: &[u32], is_steady: bool, x: &mut [u32]) -> Made
    requires just_table { JustTable w.now }
    requires is_steady_value { is_steady ≡ steady w.now }
    ensures answer { result ≡ made_of w.now (length x.old) }
    ensures words { x.new ≡ index_into w.now x.old }
{
    let from = index::index_size(w);
    let needed = from + marked_size(w);
    if x.len() < needed {
        return Made::Refused { number: 29, needed };
    }
    put_whole(w, is_steady, x, from, needed);
    Made::Index(needed)
}

// The words of the calls and the mark.
fn marked_size(w: &[u32]) -> usize
    requires { JustTable w.now }
    ensures { result ≡ marked_size w.now }
{
    calls::call_index_size(w) + 1
}

// Writes the index from the front on: the look-ups, and from `from` to `to` the calls and the mark.
fn put_whole(w: &[u32], is_steady: bool, x: &mut [u32], from: usize, to: usize)
    requires just_table { JustTable w.now }
    requires is_steady_value { is_steady ≡ steady w.now }
    requires from_value { (from ≡ index_size w.now) × (to ≡ whole_index_size w.now) }
    requires to_in_bounds { to ≤ length x.old }
    ensures { x.new ≡ write x.old 0 (whole_index_of w.now) }
{
    indexing::put_index(w, x);
    put_marked(w, is_steady, &mut x[from..to]);
}

// Writes the calls and the mark into words that are as many.
fn put_marked(w: &[u32], is_steady: bool, y: &mut [u32])
    requires just_table { JustTable w.now }
    requires is_steady_value { is_steady ≡ steady w.now }
    requires y_len { length y.old ≡ marked_size w.now }
    ensures { y.new ≡ marked_calls w.now }
{
    let last = y.len() - 1;
    calls::put_calls(w, &mut y[0..last]);
    y[last] = mark(is_steady);
}

// The mark of a table whose calls are steady, or of one whose calls are not.
pub fn mark(is_steady: bool) -> u32
    ensures { result ≡ cond is_steady 1 0 }
{
    if is_steady {
        return 1;
    }
    0
}

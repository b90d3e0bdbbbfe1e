// A look-up map in lent words: which record has this number. The words are four for each record that there is room for. Of the four of place i
// the first belongs to bucket i: the last record of that bucket, counted from 1, or 0. The others are record i's: its number, its place, and the
// record before it in its bucket, counted from 1, or 0.
#![tactic(auto)]

ghost use Rattle.std.specs.Prelude.{◌≡◌, ◌++◌, ◌+◌, ◌*◌, ◌≤◌, ◌<◌, length, drop, replicate, get_or};
ghost use Rattle.map.specs.Inner.Map.{map_record_size, word_values, Chained, Mapped, Finds};
ghost use Rattle.map.specs.Inner.Map.{Added};

// The words of a record.
const RECORD_WORDS: usize = 4;

// ---- the map

// The last record that has this number, counted from 0. Words for no record have no bucket.
#[tactic(auto, using(crate::proofs::Finds::walks))]
pub fn find(m: &[u32], number: u32) -> Option<usize>
    requires { Mapped m.now }
    ensures { Finds number m.now result }
{
    if m.len() < RECORD_WORDS {
        return None;
    }
    let b = chains::bucket(m.len() / RECORD_WORDS, number);
    let mut next = m[RECORD_WORDS * b] as usize;
    // Kept: (d) a chain ends at 0, no index counts it.
    while next != 0 {
        if m[RECORD_WORDS * next - 3] == number {
            return Some(next - 1);
        }
        next = m[RECORD_WORDS * next - 1] as usize;
    }
    None
}

// Adds record `count`, with its number and its place.
#[tactic(auto, using(crate::proofs::Puts::puts))]
pub fn put(m: &mut [u32], count: usize, number: u32, place: u32)
    requires chained { Chained count m.old }
    requires map_record_size_in_bounds { map_record_size * count + map_record_size ≤ length m.old }
    ensures { Added count number place m.old m.new }
{
    let b = chains::bucket(m.len() / RECORD_WORDS, number);
    let before = m[RECORD_WORDS * b];
    let at = RECORD_WORDS * count;
    m[at + 1] = number;
    m[at + 2] = place;
    m[at + 3] = before;
    m[RECORD_WORDS * b] = (count + 1) as u32;
}

// The place of record i.
pub fn place_of(m: &[u32], i: usize) -> usize
    requires { map_record_size * i + map_record_size ≤ length m.now }
    ensures { result ≡ get_or m.now (map_record_size * i + 2) 0 }
{
    m[RECORD_WORDS * i + 2] as usize
}

// Zeros the first words; the words after them stay.
pub fn clear(t: &mut [u32], words: usize)
    requires { words ≤ length t.old }
    ensures { t.new ≡ replicate words 0 ++ drop words t.old }
{
    t[..words].fill(0);
}

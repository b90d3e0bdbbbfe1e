// Arithmetic on operating days: union, intersection, first without second and complement inside a period of n days, each a bit field with a proper
// frame, and the number of days. First on words that a caller lends, which 42 may refuse; then on fields by value.
#![tactic(auto)]

ghost use Rattle.std.specs.Prelude.{◌≡◌, cond, ◌-◌, ◌≤◌, ◌<◌, length};
ghost use Rattle.base.specs.Lists.{count_if, upto};
ghost use Rattle.bitfield.specs.BitField.{bit_words, bit_count, bit, runs_on};
ghost use Rattle.timetable.specs.Layout.{most_period_days};
ghost use Rattle.day_sets.specs.DaySets.{word_of, field_of, bit_in, combined, complement, day_count, is_field};
ghost use Rattle.day_sets.specs.DaySets.{combine_asked, combine_written, complement_asked, complement_written};
ghost use Rattle.day_sets.specs.DaySets.{count_asked};

use timetable::{BIT_WORDS, MOST_PERIOD_DAYS, Refusal};

// What of two sets of days is wanted: the days of either, those of both, those of the first that the second has not.
#[derive(Clone, Copy)]
pub enum Operation {
    Union,
    Intersection,
    Difference,
}

// ---- on lent words

// Two fields taken together, into the result.
pub fn combine(
    op: Operation,
    n: u32,
    first: &[u32],
    second: &[u32],
    res: &mut [u32],
) -> Result<(), Refusal>
    ensures answer { result ≡ combine_asked n first.now second.now res.old }
    ensures words { res.new ≡
        combine_written op n first.now second.now res.old }
{
    if !is_field(n, first) {
        return Err(Refusal::NoProperField);
    }
    if !is_field(n, second) {
        return Err(Refusal::NoProperField);
    }
    if res.len() != BIT_WORDS {
        return Err(Refusal::NoProperField);
    }
    words::put(res, 0, combined(op, n, field_in(first), field_in(second)));
    Ok(())
}

// The days of the period that a field has not, into the result.
pub fn complement(n: u32, field: &[u32], res: &mut [u32]) -> Result<(), Refusal>
    ensures answer { result ≡ complement_asked n field.now res.old }
    ensures words { res.new ≡ complement_written n field.now res.old }
{
    if !is_field(n, field) {
        return Err(Refusal::NoProperField);
    }
    if res.len() != BIT_WORDS {
        return Err(Refusal::NoProperField);
    }
    words::put(res, 0, other_days(n, field_in(field)));
    Ok(())
}

// The number of days of a field.
pub fn count(n: u32, field: &[u32]) -> Result<u32, Refusal>
    ensures { result ≡ count_asked n field.now }
{
    if !is_field(n, field) {
        return Err(Refusal::NoProperField);
    }
    Ok(day_count(n, field_in(field)))
}

// Whether lent words are a field of n days, and n the days of a period.
fn is_field(n: u32, words: &[u32]) -> bool
    ensures { result ≡ is_field n words.now }
{
    if n < 1 {
        return false;
    }
    if MOST_PERIOD_DAYS < n {
        return false;
    }
    if words.len() != BIT_WORDS {
        return false;
    }
    bitfield::is_framed(field_in(words), n)
}

// Lent words as one value.
fn field_in(words: &[u32]) -> [u32; BIT_WORDS]
    requires { length words.now ≡ bit_words }
    ensures { result ≡ words.now }
{
    bitfield::words_at(words, 0)
}

// ---- on fields by value

// The field of n days that two fields make.
fn combined(
    op: Operation,
    n: u32,
    first: [u32; BIT_WORDS],
    second: [u32; BIT_WORDS],
) -> [u32; BIT_WORDS]
    requires { n ≤ most_period_days }
    ensures { result ≡ combined op n first second }
{
    match op {
        Operation::Union => in_frame(n, bitfield::either(first, second)),
        Operation::Intersection => in_frame(n, bitfield::both(first, second)),
        Operation::Difference => in_frame(n, bitfield::without(first, second)),
    }
}

// The field of the other days of the period.
fn other_days(n: u32, field: [u32; BIT_WORDS]) -> [u32; BIT_WORDS]
    requires { n ≤ most_period_days }
    ensures { result ≡ complement n field }
{
    in_frame(n, bitfield::without(bitfield::all_bits(), field))
}

// The number of its days, which stand at bits 2 to n + 1.
fn day_count(n: u32, field: [u32; BIT_WORDS]) -> u32
    requires { n ≤ most_period_days }
    ensures { result ≡ day_count n field }
{
    count_bits(field, 2, n + 2)
}

// How many bits from one place up to another are 1.
fn count_bits(bits: [u32; BIT_WORDS], from: u32, to: u32) -> u32
    requires { to ≤ bit_count }
    ensures { result ≡ count_if (bit bits) (upto (to - from) from) }
{
    let mut count: u32 = 0;
    for k in from..to {
        count += one_if(bitfield::bit_of(bits, k));
    }
    count
}

// The field of n days that has the days of some bits. Their bits that are no days make way for the frame.
fn in_frame(n: u32, days: [u32; BIT_WORDS]) -> [u32; BIT_WORDS]
    requires { n ≤ most_period_days }
    ensures { result ≡ field_of n (runs_on days) }
{
    let mut r = [0u32; BIT_WORDS];
    for i in 0..BIT_WORDS {
        r[i] = framed_word(n, days, i as u32);
    }
    r
}

// Word i of it.
fn framed_word(n: u32, days: [u32; BIT_WORDS], i: u32) -> u32
    requires { (n ≤ most_period_days) × (i < bit_words) }
    ensures { result ≡ word_of (bit_in n days) i }
{
    let mut word: u32 = 0;
    for k in i * 32..i * 32 + 32 {
        word = word * 2 + one_if(framed_bit(n, days, k));
    }
    word
}

// Bit k of it.
fn framed_bit(n: u32, days: [u32; BIT_WORDS], k: u32) -> bool
    requires { (n ≤ most_period_days) × (k < bit_count) }
    ensures { result ≡ bit_in n days k }
{
    let day = bitfield::bit_of(days, k);
    if k < 2 {
        return true;
    }
    if k < n + 2 {
        return day;
    }
    if k < n + 4 {
        return true;
    }
    false
}

fn one_if(b: bool) -> u32
    ensures { result ≡ cond b 1 0 }
{
    if b {
        return 1;
    }
    0
}

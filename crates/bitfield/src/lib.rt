// Bit fields: 384 bits, held as twelve words by value; bit 0 is the highest of the first word, bit d + 2 is day d.
#![tactic(auto)]

ghost use Rattle.std.specs.Prelude.{◌≡◌, not, true, false, ◌&&◌, ◌||◌, ℕ, ◌+◌, ◌-◌, ◌%◌, ◌^◌, ◌≤◌, ◌<◌, length, take, drop, get_or};
ghost use Rattle.base.specs.Lists.{every};
ghost use Rattle.columns.specs.Columns.{pad_to, columns, is_hex};
ghost use Rattle.bitfield.specs.BitField.{bit_words, bit_count, most_framed, hex_from, bits_in, bit, runs_on, framed};
ghost use Rattle.bitfield.specs.BitField.{some_day};
ghost use Rattle.bitfield.specs.Inner.Bits.{clear_from, no_bit};

use columns::ByteClass;
use columns::line_fields::bit_field;

// The words of a bit field, and its bits (specs/BitField).
pub const BIT_WORDS: usize = 12;

pub const BIT_COUNT: u32 = 384;

// The most days that a frame can hold: all bits but the frame's own four.
pub const MOST_FRAMED: u32 = BIT_COUNT - 4;

// The bit field of a line of BITFELD, by its 96 hex digits.
pub fn bits_in(line: &[u8]) -> [u32; BIT_WORDS]
    ensures { result ≡ bits_in line.now }
{
    if bit_field::BITS_END <= line.len() {
        if columns::all_in(line, bit_field::BITS, bit_field::BITS_END, ByteClass::Hex) {
            return hex_words(line);
        }
    }
    bits_by_words(line)
}

// The same of a line whose columns 8 to 103 are known to be hex digits.
pub fn hex_words(line: &[u8]) -> [u32; BIT_WORDS]
    requires { every is_hex (columns 8 103 line.now) ≡ true }
    ensures { result ≡ bits_in line.now }
{
    words_by(|i| eight_digits(line, i))
}

// Twelve words of a slice as one value.
pub fn words_at(words: &[u32], at: usize) -> [u32; BIT_WORDS]
    requires { at + bit_words ≤ length words.now }
    ensures { result ≡ take bit_words (drop at words.now) }
{
    words_by(|i| words[at + i])
}

// Bit k.
pub fn bit_of(b: [u32; BIT_WORDS], k: u32) -> bool
    requires { k < bit_count }
    ensures { result ≡ bit b k }
{
    let word = b[(k / 32) as usize];
    (word >> (31 - k % 32)) % 2 == 1
}

// Whether day d is in the set.
pub fn runs_on(b: [u32; BIT_WORDS], d: u32) -> bool
    requires { d < most_framed }
    ensures { result ≡ runs_on b d }
{
    bit_of(b, d + 2)
}

// Whether the frame bits are right for n days: two in front, two behind the days, and nothing behind those.
pub fn is_framed(b: [u32; BIT_WORDS], n: u32) -> bool
    requires { n ≤ most_framed }
    ensures { result ≡ framed n b }
{
    if two_bits(b, 0) {
        if two_bits(b, n + 2) {
            return is_clear(b, n + 4);
        }
    }
    false
}

// Whether some of the first n days is in the set. Mostly there is no bit at all, which is sooner seen.
pub fn some_day(b: [u32; BIT_WORDS], n: u32) -> bool
    requires { n ≤ most_framed }
    ensures { result ≡ some_day n b }
{
    if has_no_bit(b) {
        return false;
    }
    day_by_day(b, n)
}

// Whether no bit is set.
fn has_no_bit(b: [u32; BIT_WORDS]) -> bool
    ensures { result ≡ no_bit b }
{
    for i in 0..BIT_WORDS {
        if b[i] != 0 {
            return false;
        }
    }
    true
}

// Whether some of the first n days is in the set, day by day.
fn day_by_day(b: [u32; BIT_WORDS], n: u32) -> bool
    requires { n ≤ most_framed }
    ensures { result ≡ some_day n b }
{
    for d in 0..n {
        if runs_on(b, d) {
            return true;
        }
    }
    false
}

// ---- sets of days, bit by bit

// No bit.
pub fn no_bits() -> [u32; BIT_WORDS]
    ensures { (k : ℕ) → k < bit_count → bit result k ≡ false }
{
    [0u32; BIT_WORDS]
}

// Every bit.
pub fn all_bits() -> [u32; BIT_WORDS]
    ensures { (k : ℕ) → k < bit_count → bit result k ≡ true }
{
    [4294967295u32; BIT_WORDS]
}

// The bits of either.
pub fn either(a: [u32; BIT_WORDS], b: [u32; BIT_WORDS]) -> [u32; BIT_WORDS]
    ensures { (k : ℕ) → k < bit_count → bit result k ≡ (bit a k || bit b k) }
{
    words_by(|i| a[i] | b[i])
}

// The bits of both.
pub fn both(a: [u32; BIT_WORDS], b: [u32; BIT_WORDS]) -> [u32; BIT_WORDS]
    ensures { (k : ℕ) → k < bit_count → bit result k ≡ (bit a k && bit b k) }
{
    words_by(|i| a[i] & b[i])
}

// The bits of the first that the second has not.
pub fn without(a: [u32; BIT_WORDS], b: [u32; BIT_WORDS]) -> [u32; BIT_WORDS]
    ensures { (k : ℕ) → k < bit_count → bit result k ≡ (bit a k && not (bit b k)) }
{
    words_by(|i| a[i] ^ (a[i] & b[i]))
}

// ---- inner functions

// Twelve words, word i being what f says of i.
fn words_by<F: Fn(usize) -> u32>(f: F) -> [u32; BIT_WORDS]
    requires { (i : ℕ) → i < bit_words → F.pre f i }
    ensures each { (i : ℕ) → i < bit_words → F.post f i (get_or result i 0) }
    ensures twelve { length result ≡ bit_words }
{
    let mut r = [0u32; BIT_WORDS];
    for i in 0..BIT_WORDS {
        r[i] = f(i);
    }
    r
}

// Word i of a line whose columns 8 to 103 are hex digits.
fn eight_digits(line: &[u8], i: usize) -> u32
    requires in_bounds { 103 ≤ length line.now }
    requires line_value { every is_hex (columns 8 103 line.now) ≡ true }
    requires i_lt_bit_words { i < bit_words }
    ensures { result ≡ get_or (bits_in line.now) i 0 }
{
    byte_words::eight_hex(byte_words::word_at(line, 8 * i + 7))
}

// The last column of the first word.
const FIRST_WORD_END: usize = bit_field::BITS + 7;

// The bit field of a line that may be short, or have other bytes, digit by digit.
fn bits_by_words(line: &[u8]) -> [u32; BIT_WORDS]
    ensures { result ≡ bits_in line.now }
{
    words_by(|i| eight_columns(line, i))
}

// Word i of any line.
fn eight_columns(line: &[u8], i: usize) -> u32
    requires { i < bit_words }
    ensures { result ≡ get_or (bits_in line.now) i 0 }
{
    hex_word(columns::part(line, 8 * i + bit_field::BITS, 8 * i + FIRST_WORD_END))
}

// The word of eight hex digits.
fn hex_word(p: &[u8]) -> u32
    ensures { result ≡ hex_from 0 (pad_to 8 p.now) }
{
    let mut n: u32 = 0;
    for i in 0..8 {
        n = n * 16 + columns::hex_value(columns::byte_at(p, i));
    }
    n
}

// Whether bit k and the one behind it are set.
fn two_bits(b: [u32; BIT_WORDS], k: u32) -> bool
    requires { k + 1 < bit_count }
    ensures { result ≡ (bit b k && bit b (k + 1)) }
{
    if bit_of(b, k) {
        return bit_of(b, k + 1);
    }
    false
}

// Whether no bit from bit `from` on is set: the rest of its word at once, then the words behind it.
fn is_clear(b: [u32; BIT_WORDS], from: u32) -> bool
    ensures { result ≡ clear_from from b }
{
    // Kept: each step goes to the next word, from within the first; a `for` over words would need the first one apart.
    let mut k = from;
    while k < BIT_COUNT {
        let word = b[(k / 32) as usize] as u64;
        if word % rest_values(k) != 0 {
            return false;
        }
        k = k / 32 * 32 + 32;
    }
    true
}

// How many values the rest of a word has, from bit k on.
fn rest_values(k: u32) -> u64
    ensures value { result ≡ 2 ^ (32 - k % 32) }
    ensures result_nonzero { 0 < result }
{
    1u64 << (32 - k % 32)
}

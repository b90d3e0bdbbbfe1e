// The columns of a line: its bytes, parts of it, and what the bytes of a field say.
// A column is one byte, counted from 1; columns past the line's end read as blank (byte 32).
#![tactic(auto)]

ghost use Rattle.std.specs.Prelude.{◌≡◌, ◌&&◌, ◌-◌, ◌≤◌, get_or, take, drop, leb};
ghost use Rattle.base.specs.Lists.{every};
ghost use Rattle.columns.specs.Columns.{pad_to, columns, column, is_digit, is_hex, digit_value, hex_value, is_of};
ghost use Rattle.columns.specs.Columns.{count, number, count_to};

pub mod line_fields;

// What every byte of a field may have to be.
#[derive(Clone, Copy)]
pub enum ByteClass {
    Digit,
    Hex,
    Filled,
    Byte(u8),
}

// ---- a line's columns a to b

// Whether every byte is of the class.
pub fn every_in(line: &[u8], a: usize, b: usize, class: ByteClass) -> bool
    ensures { result ≡ every (is_of class) (columns a b line.now) }
{
    every_of(part(line, a, b), width(a, b), class)
}

// The same, for many columns: each byte is tested, whatever those before it were, so that the machine tests many at once.
pub fn all_in(line: &[u8], a: usize, b: usize, class: ByteClass) -> bool
    ensures { result ≡ every (is_of class) (columns a b line.now) }
{
    let p = part(line, a, b);
    let w = width(a, b);
    if p.len() < w {
        return every_of(p, w, class);
    }
    all_of(p, class)
}

// The number that digits or a count say.
pub fn number_in(line: &[u8], a: usize, b: usize) -> u32
    requires { b - (a - 1) ≤ 9 }
    ensures { result ≡ number (columns a b line.now) }
{
    number_of(part(line, a, b), width(a, b))
}

// Whether they are a count of at most m.
pub fn count_in(line: &[u8], a: usize, b: usize, m: u32) -> bool
    ensures { result ≡ count_to m (columns a b line.now) }
{
    let p = part(line, a, b);
    let w = width(a, b);
    if count_of(p, w) {
        return at_most(p, w, m);
    }
    false
}

// The part of the line that stands in columns a to b: shorter where the line ends before.
pub fn part(line: &[u8], a: usize, b: usize) -> &[u8]
    ensures { result.now ≡ take (b - (a - 1)) (drop (a - 1) line.now) }
{
    let from = a.saturating_sub(1);
    let w = width(a, b);
    if line.len() <= from {
        return &line[0..0];
    }
    if w <= line.len() - from {
        &line[from..from + w]
    } else {
        &line[from..]
    }
}

// How many columns a to b are.
pub fn width(a: usize, b: usize) -> usize
    ensures { result ≡ b - (a - 1) }
{
    b.saturating_sub(a.saturating_sub(1))
}

// Column c.
pub fn column_at(line: &[u8], c: usize) -> u8
    ensures { result ≡ column c line.now }
{
    byte_at(line, c.saturating_sub(1))
}

// ---- a part of a line, with its width

// The byte at place i, from 0.
pub fn byte_at(p: &[u8], i: usize) -> u8
    ensures { result ≡ get_or p.now i 32 }
{
    if i < p.len() { p[i] } else { b' ' }
}

// Whether every one of the w bytes is of the class.
pub fn every_of(p: &[u8], w: usize, class: ByteClass) -> bool
    ensures { result ≡ every (is_of class) (pad_to w p.now) }
{
    every_from(p, 0, w, class)
}

// Whether every byte is of the class. Each is tested: `all` would stop at the first that is not.
fn all_of(p: &[u8], class: ByteClass) -> bool
    ensures { result ≡ every (is_of class) p.now }
{
    let mut all = true;
    for i in 0..p.len() {
        all &= is_of(class, p[i]);
    }
    all
}

// Whether every one of the w bytes from place `from` on is of the class.
pub fn every_from(p: &[u8], from: usize, w: usize, class: ByteClass) -> bool
    ensures { result ≡ every (is_of class) (drop from (pad_to w p.now)) }
{
    for i in from..w {
        if !is_of(class, byte_at(p, i)) {
            return false;
        }
    }
    true
}

// The number that the w bytes say.
pub fn number_of(p: &[u8], w: usize) -> u32
    requires { w ≤ 9 }
    ensures { result ≡ number (pad_to w p.now) }
{
    let mut n: u32 = 0;
    for i in 0..w {
        n = n * 10 + digit_value(byte_at(p, i));
    }
    n
}

// Blanks, then at least one digit, to the end.
fn count_of(p: &[u8], w: usize) -> bool
    ensures { result ≡ count (pad_to w p.now) }
{
    for i in 0..w {
        if byte_at(p, i) != b' ' {
            return every_from(p, i, w, ByteClass::Digit);
        }
    }
    false // a count needs a digit
}

// Whether the number that the w bytes say is at most m; w may be any.
fn at_most(p: &[u8], w: usize, m: u32) -> bool
    ensures { result ≡ leb (number (pad_to w p.now)) m }
{
    let most = m as u64;
    let mut n: u64 = 0;
    for i in 0..w {
        if most < n {
            return false;
        }
        n = n * 10 + digit_value(byte_at(p, i)) as u64;
    }
    n <= most
}

// ---- bytes

fn is_of(class: ByteClass, b: u8) -> bool
    ensures { result ≡ is_of class b }
{
    match class {
        ByteClass::Digit => is_digit(b),
        ByteClass::Hex => is_hex(b),
        ByteClass::Filled => b != b' ',
        ByteClass::Byte(m) => b == m,
    }
}

pub fn is_digit(b: u8) -> bool
    ensures { result ≡ is_digit b }
{
    b.is_ascii_digit()
}

fn is_hex(b: u8) -> bool
    ensures { result ≡ is_hex b }
{
    matches!(b, b'0'..=b'9' | b'A'..=b'F')
}

// The value of a digit, 0 for another byte.
pub fn digit_value(b: u8) -> u32
    ensures { result ≡ digit_value b }
{
    match b {
        b'0'..=b'9' => b as u32 - b'0' as u32,
        _ => 0,
    }
}

// What is taken from "A" to "F" for their values 10 to 15.
const TEN_BEFORE_A: u8 = b'A' - 10;

// The value of a hex digit, 0 for another byte.
pub fn hex_value(b: u8) -> u32
    ensures { result ≡ hex_value b }
{
    match b {
        b'0'..=b'9' => (b - b'0') as u32,
        b'A'..=b'F' => (b - TEN_BEFORE_A) as u32,
        _ => 0,
    }
}

// The fields of a line that are more than digits: "#" and digits, times, range ends and their details.
#![tactic(auto)]

ghost use Rattle.std.specs.Prelude.{◌≡◌, ◌≤◌, drop};
ghost use Rattle.columns.specs.Columns.{pad_to, columns};
ghost use Rattle.fields.specs.Fields.{hash_digits, after_hash, hash, clock, time, index_by, range_end, timed_by};
ghost use Rattle.fields.specs.Fields.{nth_by, detail};

use columns::ByteClass;

// Three counters that never stand for each other: the place of a call in its route from 0, which appearance of a stop in the route
// from 0, and a stop's number.
#[derive(Clone, Copy)]
pub struct RouteIndex(pub u32);

#[derive(Clone, Copy)]
pub struct Appearance(pub u32);

#[derive(Clone, Copy)]
pub struct StopNumber(pub u32);

// A time: nothing, or minutes and whether "-" forbids alighting or boarding.
// Kept: NoTime, NoEnd and NoDetail are handed on beside the other variants (told, draft, route); with an Option around, each match has a layer more.
#[derive(Clone, Copy)]
pub enum Time {
    Absent,
    Stated { minutes: u32, barred: bool },
    NoTime,
}

// Where a range starts or ends: at the route's first or last call, at a route index, or at a stop.
#[derive(Clone, Copy)]
pub enum RangeEnd {
    Outer,
    Index(RouteIndex),
    Stop(StopNumber),
    NoEnd,
}

// Which of a stop's appearances is meant: the outermost, one by its count, or one by its minutes.
#[derive(Clone, Copy)]
pub enum Detail {
    Plain,
    Nth(Appearance),
    Timed(u32),
    NoDetail,
}

// ---- a line's columns a to b

pub fn time_in(line: &[u8], a: usize, b: usize) -> Time
    ensures { result ≡ time (columns a b line.now) }
{
    time_of(columns::part(line, a, b))
}

pub fn range_end_in(line: &[u8], a: usize, b: usize) -> RangeEnd
    ensures { result ≡ range_end (columns a b line.now) }
{
    range_end_of(columns::part(line, a, b))
}

pub fn detail_in(line: &[u8], a: usize, b: usize) -> Detail
    ensures { result ≡ detail (columns a b line.now) }
{
    detail_of(columns::part(line, a, b))
}

// ---- a part of a line

// Six columns: blank, or a blank or "-" and five digits HHHMM, MM at most 59.
fn time_of(p: &[u8]) -> Time
    ensures { result ≡ time p.now }
{
    if columns::every_of(p, 6, ByteClass::Byte(b' ')) {
        return Time::Absent;
    }
    let sign = columns::byte_at(p, 0);
    let rest = columns::part(p, 2, 6);
    match sign {
        b' ' => clock_of(rest, false),
        b'-' => clock_of(rest, true),
        _ => Time::NoTime,
    }
}

// HHHMM as minutes.
fn clock_of(p: &[u8], barred: bool) -> Time
    ensures { result ≡ clock barred (pad_to 5 p.now) }
{
    if columns::every_of(p, 5, ByteClass::Digit) {
        let n = columns::number_of(p, 5);
        if n % 100 <= 59 {
            return Time::Stated {
                minutes: n / 100 * 60 + n % 100,
                barred,
            };
        }
    }
    Time::NoTime
}

// Seven columns: blank, seven digits, or "#" and digits with blanks around.
fn range_end_of(p: &[u8]) -> RangeEnd
    ensures { result ≡ range_end p.now }
{
    if columns::every_of(p, 7, ByteClass::Byte(b' ')) {
        return RangeEnd::Outer;
    }
    if columns::every_of(p, 7, ByteClass::Digit) {
        return RangeEnd::Stop(StopNumber(columns::number_of(p, 7)));
    }
    index_of(hash_of(p, 7))
}

// The range end that "#" and digits say.
fn index_of(h: Option<u32>) -> RangeEnd
    ensures { result ≡ index_by h }
{
    match h {
        Some(n) => RangeEnd::Index(RouteIndex(n)),
        None => RangeEnd::NoEnd,
    }
}

// Six columns: blank, "#" and digits with blanks around, or a time.
fn detail_of(p: &[u8]) -> Detail
    ensures { result ≡ detail p.now }
{
    if columns::every_of(p, 6, ByteClass::Byte(b' ')) {
        return Detail::Plain;
    }
    nth_of(hash_of(p, 6), timed_of(time_of(p)))
}

// The detail that "#" and digits say, or else d.
fn nth_of(h: Option<u32>, d: Detail) -> Detail
    ensures { result ≡ nth_by h d }
{
    match h {
        Some(n) => Detail::Nth(Appearance(n)),
        None => d,
    }
}

// The detail that a time says.
fn timed_of(t: Time) -> Detail
    ensures { result ≡ timed_by t }
{
    match t {
        Time::Absent => Detail::Plain,
        Time::Stated { minutes, barred } => Detail::Timed(minutes),
        Time::NoTime => Detail::NoDetail,
    }
}

// "#" and digits with blanks around, in w columns.
fn hash_of(p: &[u8], w: usize) -> Option<u32>
    requires { w ≤ 9 }
    ensures { result ≡ hash (pad_to w p.now) }
{
    for i in 0..w {
        let b = columns::byte_at(p, i);
        if b != b' ' {
            if b == b'#' {
                return after_hash(p, i + 1, w);
            }
            return None;
        }
    }
    None
}

// After "#", from place `from`: at least one digit, then blanks.
fn after_hash(p: &[u8], from: usize, w: usize) -> Option<u32>
    requires { w ≤ 9 }
    ensures { result ≡ after_hash (drop from (pad_to w p.now)) }
{
    if from < w {
        if columns::is_digit(columns::byte_at(p, from)) {
            return hash_digits(p, from, w);
        }
    }
    None // "#" needs a digit
}

// Digits from place `from` on, and blanks after them.
fn hash_digits(p: &[u8], from: usize, w: usize) -> Option<u32>
    requires { w ≤ 9 }
    ensures { result ≡ hash_digits 0 (drop from (pad_to w p.now)) }
{
    let mut n: u32 = 0;
    for i in from..w {
        let b = columns::byte_at(p, i);
        if !columns::is_digit(b) {
            if columns::every_from(p, i, w, ByteClass::Byte(b' ')) {
                return Some(n);
            }
            return None;
        }
        n = n * 10 + columns::digit_value(b);
    }
    Some(n)
}

// The ground's public functions over the C boundary, for the comparison with the independent Rust reader only. Answers are flat:
// numbers, or structs of numbers. Where a called function requires something, that is tested first, and else a fixed value answered.
#![tactic(auto)]

ghost use Rattle.std.specs.Prelude.{◌≡◌, cond, not, true, false, ◌&&◌, ◌||◌, ℕ, ◌-◌, ◌<◌, ltb, leb, length};
ghost use Rattle.base.specs.Lists.{every};
ghost use Rattle.columns.specs.Columns.{columns, column, is_of, number, count_to};
ghost use Rattle.lines.specs.Lines.{cut_at, skipped};
ghost use Rattle.fields.specs.Fields.{time, range_end, detail};
ghost use Rattle.calendar.specs.Calendar.{day_of, date_in, period_of};
ghost use Rattle.bitfield.specs.BitField.{bit_count, most_framed, bits_in, bit, runs_on, framed, some_day};
ghost use Rattle.forms.specs.Kinds.{kind_of};
ghost use Rattle.forms.specs.Form.{form_of};
ghost use Rattle.forms.specs.Columns.{columns_of};
ghost use Rattle.probe.specs.Inner.Flat.{flat_cut, no_step, flat_time, flat_end, flat_detail, flat_number};
ghost use Rattle.probe.specs.Inner.Flat.{flat_kind, flat_form, class_of, line_kind};

use bitfield::{BIT_COUNT, BIT_WORDS, MOST_FRAMED};
use columns::ByteClass;
use fields::{Detail, RangeEnd, Time};
use forms::{Kind, LineKind};
use lines::{Cut, reader};

// Where a line's text stops, where the next line starts, and its number.
#[repr(C)]
#[derive(Clone, Copy)]
pub struct Step {
    pub stop: usize,
    pub next: usize,
    pub no: u32,
}

// One case of an enum, and its value (0 where it has none).
#[repr(C)]
#[derive(Clone, Copy)]
pub struct Told {
    pub kind: u32,
    pub value: u32,
}

// A bit field.
#[repr(C)]
#[derive(Clone, Copy)]
pub struct Words {
    pub words: [u32; BIT_WORDS],
}

// ---- lines

// One line of a file, cut by the reader struct, which is thin over `lines::line_at`.
#[unsafe(no_mangle)]
pub extern "C" fn probe_line(file: &[u8], at: usize, no: u32) -> Step
    ensures { result ≡ cond (leb at (length file.now))
        (cond (ltb no 4294967295) (flat_cut (cut_at file.now at no)) no_step) no_step }
{
    if at <= file.len() {
        if no < 4294967295 {
            return flat_cut(reader::line_from(file, at, no));
        }
    }
    Step {
        stop: 0,
        next: 0,
        no: 0,
    }
}

#[unsafe(no_mangle)]
pub extern "C" fn probe_skips(line: &[u8]) -> bool
    ensures { result ≡ skipped line.now }
{
    lines::skips(line)
}

// ---- columns

#[unsafe(no_mangle)]
pub extern "C" fn probe_column(line: &[u8], c: usize) -> u8
    ensures { result ≡ column c line.now }
{
    columns::column_at(line, c)
}

#[unsafe(no_mangle)]
pub extern "C" fn probe_number(line: &[u8], a: usize, b: usize) -> u32
    ensures { result ≡ cond (leb (b - (a - 1)) 9) (number (columns a b line.now)) 4294967295 }
{
    if columns::width(a, b) <= 9 {
        return columns::number_in(line, a, b);
    }
    4294967295
}

#[unsafe(no_mangle)]
pub extern "C" fn probe_count(line: &[u8], a: usize, b: usize, m: u32) -> bool
    ensures { result ≡ count_to m (columns a b line.now) }
{
    columns::count_in(line, a, b, m)
}

// Whether every column is of class k: 0 digits, 1 hex digits, 2 not blank, else the byte m.
#[unsafe(no_mangle)]
pub extern "C" fn probe_every(line: &[u8], a: usize, b: usize, k: u32, m: u8) -> bool
    ensures { result ≡ every (is_of (class_of k m)) (columns a b line.now) }
{
    columns::every_in(line, a, b, class_of(k, m))
}

// ---- fields

#[unsafe(no_mangle)]
pub extern "C" fn probe_time(line: &[u8], a: usize, b: usize) -> Told
    ensures { result ≡ flat_time (time (columns a b line.now)) }
{
    flat_time(fields::time_in(line, a, b))
}

#[unsafe(no_mangle)]
pub extern "C" fn probe_range_end(line: &[u8], a: usize, b: usize) -> Told
    ensures { result ≡ flat_end (range_end (columns a b line.now)) }
{
    flat_end(fields::range_end_in(line, a, b))
}

#[unsafe(no_mangle)]
pub extern "C" fn probe_detail(line: &[u8], a: usize, b: usize) -> Told
    ensures { result ≡ flat_detail (detail (columns a b line.now)) }
{
    flat_detail(fields::detail_in(line, a, b))
}

// ---- kinds and forms

#[unsafe(no_mangle)]
pub extern "C" fn probe_kind(line: &[u8]) -> u32
    ensures { result ≡ flat_kind (kind_of line.now) }
{
    flat_kind(forms::kind_of(line))
}

// The form of line kind k: 0 a date, 1 a bit field, 2 a stop, 3 an interchange record, 4 *Z, 5 *G, 6 *A, 8 *T, 9 a category of ZUGART, else a
// call.
#[unsafe(no_mangle)]
pub extern "C" fn probe_form(line: &[u8], k: u32) -> usize
    ensures { result ≡ flat_form (form_of (columns_of (line_kind k)) line.now) }
{
    flat_form(forms::line_form(kind_by(k), line))
}

// ---- the calendar

#[unsafe(no_mangle)]
pub extern "C" fn probe_day(d: u32, m: u32, y: u32) -> Told
    ensures { result ≡ flat_number (day_of d m y) }
{
    flat_number(calendar::day_of(d, m, y))
}

#[unsafe(no_mangle)]
pub extern "C" fn probe_date(line: &[u8]) -> Told
    ensures { result ≡ flat_number (date_in line.now) }
{
    flat_number(calendar::date_in(line))
}

#[unsafe(no_mangle)]
pub extern "C" fn probe_period(start: u32, end: u32) -> Told
    ensures { result ≡ flat_number (period_of start end) }
{
    flat_number(calendar::period_of(start, end))
}

// ---- bit fields

#[unsafe(no_mangle)]
pub extern "C" fn probe_bits(line: &[u8]) -> Words
    ensures { result.words ≡ bits_in line.now }
{
    Words {
        words: bitfield::bits_in(line),
    }
}

#[unsafe(no_mangle)]
pub extern "C" fn probe_bit(b: &[u32; BIT_WORDS], k: u32) -> bool
    ensures { result ≡ cond (ltb k bit_count) (bit b.now k) false }
{
    if k < BIT_COUNT {
        return bitfield::bit_of(*b, k);
    }
    false
}

#[unsafe(no_mangle)]
pub extern "C" fn probe_runs(b: &[u32; BIT_WORDS], d: u32) -> bool
    ensures { result ≡ cond (ltb d most_framed) (runs_on b.now d) false }
{
    if d < MOST_FRAMED {
        return bitfield::runs_on(*b, d);
    }
    false
}

#[unsafe(no_mangle)]
pub extern "C" fn probe_framed(b: &[u32; BIT_WORDS], n: u32) -> bool
    ensures { result ≡ cond (leb n most_framed) (framed n b.now) false }
{
    if n <= MOST_FRAMED {
        return bitfield::is_framed(*b, n);
    }
    false
}

#[unsafe(no_mangle)]
pub extern "C" fn probe_some_day(b: &[u32; BIT_WORDS], n: u32) -> bool
    ensures { result ≡ cond (leb n most_framed) (some_day n b.now) false }
{
    if n <= MOST_FRAMED {
        return bitfield::some_day(*b, n);
    }
    false
}

#[unsafe(no_mangle)]
pub extern "C" fn probe_no_bits() -> Words
    ensures { (k : ℕ) → k < bit_count → bit result.words k ≡ false }
{
    Words {
        words: bitfield::no_bits(),
    }
}

#[unsafe(no_mangle)]
pub extern "C" fn probe_all_bits() -> Words
    ensures { (k : ℕ) → k < bit_count → bit result.words k ≡ true }
{
    Words {
        words: bitfield::all_bits(),
    }
}

#[unsafe(no_mangle)]
pub extern "C" fn probe_either(a: &[u32; BIT_WORDS], b: &[u32; BIT_WORDS]) -> Words
    ensures { (k : ℕ) → k < bit_count → bit result.words k
        ≡ (bit a.now k || bit b.now k) }
{
    Words {
        words: bitfield::either(*a, *b),
    }
}

#[unsafe(no_mangle)]
pub extern "C" fn probe_both(a: &[u32; BIT_WORDS], b: &[u32; BIT_WORDS]) -> Words
    ensures { (k : ℕ) → k < bit_count → bit result.words k
        ≡ (bit a.now k && bit b.now k) }
{
    Words {
        words: bitfield::both(*a, *b),
    }
}

#[unsafe(no_mangle)]
pub extern "C" fn probe_without(a: &[u32; BIT_WORDS], b: &[u32; BIT_WORDS]) -> Words
    ensures { (k : ℕ) → k < bit_count → bit result.words k
        ≡ (bit a.now k && not (bit b.now k)) }
{
    Words {
        words: bitfield::without(*a, *b),
    }
}

// ---- enums as numbers, and numbers as enums

fn flat_cut(c: Cut) -> Step
    ensures { result ≡ flat_cut c }
{
    Step {
        stop: c.stop,
        next: c.next,
        no: c.no,
    }
}

fn flat_time(t: Time) -> Told
    ensures { result ≡ flat_time t }
{
    match t {
        Time::Absent => Told { kind: 0, value: 0 },
        Time::Stated { minutes, barred } => Told {
            kind: stated_kind(barred),
            value: minutes,
        },
        Time::NoTime => Told { kind: 3, value: 0 },
    }
}

fn stated_kind(barred: bool) -> u32
    ensures { result ≡ cond barred 2 1 }
{
    if barred { 2 } else { 1 }
}

fn flat_end(e: RangeEnd) -> Told
    ensures { result ≡ flat_end e }
{
    match e {
        RangeEnd::Outer => Told { kind: 0, value: 0 },
        RangeEnd::Index(i) => Told {
            kind: 1,
            value: i.0,
        },
        RangeEnd::Stop(n) => Told {
            kind: 2,
            value: n.0,
        },
        RangeEnd::NoEnd => Told { kind: 3, value: 0 },
    }
}

fn flat_detail(d: Detail) -> Told
    ensures { result ≡ flat_detail d }
{
    match d {
        Detail::Plain => Told { kind: 0, value: 0 },
        Detail::Nth(k) => Told {
            kind: 1,
            value: k.0,
        },
        Detail::Timed(minutes) => Told {
            kind: 2,
            value: minutes,
        },
        Detail::NoDetail => Told { kind: 3, value: 0 },
    }
}

fn flat_kind(k: Kind) -> u32
    ensures { result ≡ flat_kind k }
{
    match k {
        Kind::Opening => 1,
        Kind::Category => 2,
        Kind::Attribute => 3,
        Kind::Schedule => 4,
        Kind::Frequency => 5,
        Kind::Other => 0,
    }
}

fn flat_form(f: Result<(), usize>) -> usize
    ensures { result ≡ flat_form f }
{
    match f {
        Ok(()) => 0,
        Err(c) => c,
    }
}

fn flat_number(d: Option<u32>) -> Told
    ensures { result ≡ flat_number d }
{
    match d {
        Some(n) => Told { kind: 1, value: n },
        None => Told { kind: 0, value: 0 },
    }
}

fn class_of(k: u32, m: u8) -> ByteClass
    ensures { result ≡ class_of k m }
{
    match k {
        0 => ByteClass::Digit,
        1 => ByteClass::Hex,
        2 => ByteClass::Filled,
        _ => ByteClass::Byte(m),
    }
}

fn kind_by(k: u32) -> LineKind
    ensures { result ≡ line_kind k }
{
    match k {
        0 => LineKind::Date,
        1 => LineKind::BitField,
        2 => LineKind::Stop,
        3 => LineKind::Interchange,
        4 => LineKind::Opening,
        5 => LineKind::Category,
        6 => LineKind::Attribute,
        8 => LineKind::Frequency,
        9 => LineKind::CategoryClass,
        _ => LineKind::Schedule,
    }
}

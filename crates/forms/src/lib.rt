// The kinds of lines and their forms. A form is data: a table of rows (columns from, to, and what is asked of them) in the paper's
// order, read by one loop. Columns that no row names are blank.
#![tactic(auto)]

ghost use Rattle.std.specs.Prelude.{◌≡◌, true, not, ◌||◌, ◌-◌, ◌<◌, get_or, eqb};
ghost use Rattle.base.specs.Lists.{every};
ghost use Rattle.columns.specs.Columns as C;
ghost use Rattle.columns.specs.Columns.{is_of, is_blank, blank};
ghost use Rattle.forms.specs.Form.{a_date, is_time, is_end, is_stop, is_detail, detail_of, offset_of, from_one, or_blank};
ghost use Rattle.forms.specs.Form.{letter_to, transport_flag, Fits, unnamed, row_form, form_of};
ghost use Rattle.forms.specs.Inner.Rows.{rule_of, to_of, row_of, rows_of};
ghost use Rattle.forms.specs.Columns.{bit_field_columns, stop_columns, interchange_columns, class_columns, columns_of};
ghost use Rattle.forms.specs.Inner.Usual.{bit_field_fits, stop_fits, interchange_fits, class_fits, tariff_fits};
ghost use Rattle.forms.specs.Inner.Usual.{supplement_fits};
ghost use Rattle.forms.specs.Kinds.{starred, kind_of};

use columns::ByteClass;
use columns::line_fields::{
    attribute, bit_field, call, category, class, date, frequency, interchange, opening, plan_line,
    stop,
};
use fields::{Detail, RangeEnd, Time};

// Which kind a line of FPLAN is.
#[derive(Clone, Copy)]
pub enum Kind {
    Opening,
    Frequency,
    Category,
    Attribute,
    Schedule,
    Other,
}

// The kinds of lines that have a form: a row of the paper's table of columns each.
#[derive(Clone, Copy)]
pub enum LineKind {
    Date,
    BitField,
    Stop,
    Interchange,
    CategoryClass,
    Opening,
    Frequency,
    Category,
    Attribute,
    Schedule,
}

// ---- the tables. A row is one number: from * FROM + to * TO + the rule + what goes with it * WITH.

const FROM: u64 = 281474976710656;

const TO: u64 = 65536;

const WITH: u64 = 256;

// "file over 16,777,216 bytes" (1)
pub const MOST_FILE_BYTES: usize = 16777216;

// To the line's end: no file is longer.
const END: u64 = MOST_FILE_BYTES as u64 * TO;

// The rules.
const FREE: u64 = 0;

const DIGITS: u64 = 1;

const DIGITS_OR_BLANK: u64 = 2;

const HEX_DIGITS: u64 = 3;

const NOT_ALL_BLANK: u64 = 4;

const FIRST_NOT_BLANK: u64 = 5;

const NON_BLANK: u64 = 6;

const NON_BLANK_OR_BLANK: u64 = 7;

// with the highest count
const COUNT: u64 = 8;

const DATE: u64 = 9;

const TIME: u64 = 10;

const RANGE_END: u64 = 11;

// with the range end's first column
const DETAIL_OF: u64 = 12;

// with the repeats' first column
const OFFSET_OF: u64 = 13;

// with the byte
const BYTE_OR_BLANK: u64 = 14;

// at least 1
const DIGITS_FROM_ONE: u64 = 15;

// with the highest letter
const LETTER_OR_BLANK: u64 = 16;

const FLAG_OR_BLANK: u64 = 17;

// with the byte
const BYTE: u64 = 18;

const DATE_LINE: [u64; 2] = [
    date::WHOLE as u64 * FROM + date::WHOLE_END as u64 * TO + DATE,
    date::REST as u64 * FROM + END + FREE,
];

const BIT_FIELD: [u64; 2] = [
    bit_field::NUMBER as u64 * FROM + bit_field::NUMBER_END as u64 * TO + DIGITS,
    bit_field::BITS as u64 * FROM + bit_field::BITS_END as u64 * TO + HEX_DIGITS,
];

const STOP: [u64; 4] = [
    stop::NUMBER as u64 * FROM + stop::NUMBER_END as u64 * TO + DIGITS,
    stop::AUTHORITY as u64 * FROM + stop::AUTHORITY_END as u64 * TO + FREE,
    stop::NAMES as u64 * FROM + stop::NAMES_END as u64 * TO + NOT_ALL_BLANK,
    stop::REST as u64 * FROM + END + FREE,
];

const INTERCHANGE: [u64; 4] = [
    interchange::STOP as u64 * FROM + interchange::STOP_END as u64 * TO + DIGITS,
    interchange::FIRST as u64 * FROM + interchange::FIRST_END as u64 * TO + COUNT + 60 * WITH,
    interchange::SECOND as u64 * FROM + interchange::SECOND_END as u64 * TO + COUNT + 99 * WITH,
    interchange::REST as u64 * FROM + END + FREE,
];

const CATEGORY_CLASS: [u64; 8] = [
    class::CODE as u64 * FROM + class::CODE_END as u64 * TO + FIRST_NOT_BLANK,
    class::NUMBER as u64 * FROM + class::NUMBER_END as u64 * TO + COUNT + 13 * WITH,
    class::TARIFF as u64 * FROM + class::TARIFF as u64 * TO + LETTER_OR_BLANK + b'H' as u64 * WITH,
    class::CONTROL as u64 * FROM + class::CONTROL as u64 * TO + COUNT + 7 * WITH,
    class::TEXT as u64 * FROM + class::TEXT_END as u64 * TO + FREE,
    class::SUPPLEMENT as u64 * FROM + class::SUPPLEMENT as u64 * TO + COUNT + 2 * WITH,
    class::FLAG as u64 * FROM + class::FLAG as u64 * TO + FLAG_OR_BLANK,
    class::REST as u64 * FROM + END + FREE,
];

// Of each line of FPLAN but a call its kind, of each its mark and what may follow.
const PLAN_KIND: u64 = plan_line::KIND as u64 * FROM + plan_line::KIND_END as u64 * TO + FREE;

const PLAN_MARK: u64 = plan_line::MARK as u64 * FROM
    + plan_line::MARK as u64 * TO
    + BYTE
    + b'%' as u64 * WITH;

const PLAN_REST: u64 = plan_line::REST as u64 * FROM + END + FREE;

const SERVICE: [u64; 7] = [
    PLAN_KIND,
    opening::NUMBER as u64 * FROM + opening::NUMBER_END as u64 * TO + DIGITS,
    opening::ADMINISTRATION as u64 * FROM + opening::ADMINISTRATION_END as u64 * TO + NON_BLANK,
    opening::REPEATS as u64 * FROM + opening::REPEATS_END as u64 * TO + DIGITS_OR_BLANK,
    opening::OFFSET as u64 * FROM
        + opening::OFFSET_END as u64 * TO
        + OFFSET_OF
        + opening::REPEATS as u64 * WITH,
    PLAN_MARK,
    PLAN_REST,
];

const FREQUENCY: [u64; 7] = [
    PLAN_KIND,
    opening::NUMBER as u64 * FROM + opening::NUMBER_END as u64 * TO + DIGITS,
    opening::ADMINISTRATION as u64 * FROM + opening::ADMINISTRATION_END as u64 * TO + NON_BLANK,
    frequency::TIME as u64 * FROM + frequency::TIME_END as u64 * TO + DIGITS,
    frequency::DENSITY as u64 * FROM + frequency::DENSITY_END as u64 * TO + DIGITS_FROM_ONE,
    PLAN_MARK,
    PLAN_REST,
];

const CATEGORY: [u64; 8] = [
    PLAN_KIND,
    category::NAME as u64 * FROM + category::NAME_END as u64 * TO + FIRST_NOT_BLANK,
    category::FROM as u64 * FROM + category::FROM_END as u64 * TO + RANGE_END,
    category::TO as u64 * FROM + category::TO_END as u64 * TO + RANGE_END,
    category::FROM_DETAIL as u64 * FROM
        + category::FROM_DETAIL_END as u64 * TO
        + DETAIL_OF
        + category::FROM as u64 * WITH,
    category::TO_DETAIL as u64 * FROM
        + category::TO_DETAIL_END as u64 * TO
        + DETAIL_OF
        + category::TO as u64 * WITH,
    PLAN_MARK,
    PLAN_REST,
];

const ATTRIBUTE: [u64; 9] = [
    PLAN_KIND,
    attribute::CODE as u64 * FROM + attribute::CODE_END as u64 * TO + FIRST_NOT_BLANK,
    attribute::FROM as u64 * FROM + attribute::FROM_END as u64 * TO + RANGE_END,
    attribute::TO as u64 * FROM + attribute::TO_END as u64 * TO + RANGE_END,
    attribute::BIT_FIELD as u64 * FROM + attribute::BIT_FIELD_END as u64 * TO + DIGITS_OR_BLANK,
    attribute::FROM_DETAIL as u64 * FROM
        + attribute::FROM_DETAIL_END as u64 * TO
        + DETAIL_OF
        + attribute::FROM as u64 * WITH,
    attribute::TO_DETAIL as u64 * FROM
        + attribute::TO_DETAIL_END as u64 * TO
        + DETAIL_OF
        + attribute::TO as u64 * WITH,
    PLAN_MARK,
    PLAN_REST,
];

const CALL: [u64; 9] = [
    call::STOP as u64 * FROM + call::STOP_END as u64 * TO + DIGITS,
    call::STOP_NAME as u64 * FROM + call::STOP_NAME_END as u64 * TO + FREE,
    call::ARRIVAL as u64 * FROM + call::ARRIVAL_END as u64 * TO + TIME,
    call::DEPARTURE as u64 * FROM + call::DEPARTURE_END as u64 * TO + TIME,
    call::NUMBER as u64 * FROM + call::NUMBER_END as u64 * TO + DIGITS_OR_BLANK,
    call::ADMINISTRATION as u64 * FROM + call::ADMINISTRATION_END as u64 * TO + NON_BLANK_OR_BLANK,
    call::BOARD as u64 * FROM + call::BOARD as u64 * TO + BYTE_OR_BLANK + b'X' as u64 * WITH,
    PLAN_MARK,
    PLAN_REST,
];

// ---- the kind of a line, by its first bytes

pub fn kind_of(line: &[u8]) -> Kind
    ensures { result ≡ kind_of line.now }
{
    let a = columns::column_at(line, 1);
    match a {
        b'*' => starred_kind(columns::column_at(line, 2), columns::column_at(line, 3)),
        b'0'..=b'9' => Kind::Schedule,
        _ => Kind::Other,
    }
}

// The kind of a line that starts with a star.
fn starred_kind(b: u8, c: u8) -> Kind
    ensures { result ≡ starred b c }
{
    if c != b' ' {
        return Kind::Other;
    }
    match b {
        b'Z' => Kind::Opening,
        b'T' => Kind::Frequency,
        b'G' => Kind::Category,
        b'A' => Kind::Attribute,
        _ => Kind::Other,
    }
}

// ---- the form of each kind of line

// Whether a line has the form of a kind; the error is the column, from 1, where the leftmost field or unnamed column that breaks it starts.
pub fn line_form(kind: LineKind, line: &[u8]) -> Result<(), usize>
    ensures { result ≡ form_of (columns_of kind) line.now }
{
    if usual_form(kind, line) {
        return Ok(());
    }
    tabled_form(kind, line)
}

// By the kind's table.
fn tabled_form(kind: LineKind, line: &[u8]) -> Result<(), usize>
    ensures { result ≡ form_of (columns_of kind) line.now }
{
    match kind {
        LineKind::Date => form_of(line, &DATE_LINE),
        LineKind::BitField => form_of(line, &BIT_FIELD),
        LineKind::Stop => form_of(line, &STOP),
        LineKind::Interchange => form_of(line, &INTERCHANGE),
        LineKind::CategoryClass => form_of(line, &CATEGORY_CLASS),
        LineKind::Opening => form_of(line, &SERVICE),
        LineKind::Frequency => form_of(line, &FREQUENCY),
        LineKind::Category => form_of(line, &CATEGORY),
        LineKind::Attribute => form_of(line, &ATTRIBUTE),
        LineKind::Schedule => form_of(line, &CALL),
    }
}

// ---- usual lines of BITFELD, BAHNHOF, UMSTEIGB and ZUGART are tested column by column: with the length known, each test is a few loads at fixed places.
// Where a test fails, the table of columns says which column is broken. Lines of FPLAN are read so in `told`.

// Whether a line is seen to have the form of a kind without its table.
fn usual_form(kind: LineKind, line: &[u8]) -> bool
    ensures { result ≡ true → form_of (columns_of kind) line.now ≡ Fits }
{
    match kind {
        LineKind::Date => false,
        LineKind::BitField => usual_bit_field(line),
        LineKind::Stop => usual_stop(line),
        LineKind::Interchange => usual_interchange(line),
        LineKind::CategoryClass => usual_class(line),
        LineKind::Opening => false,
        LineKind::Frequency => false,
        LineKind::Category => false,
        LineKind::Attribute => false,
        LineKind::Schedule => false,
    }
}

fn usual_bit_field(line: &[u8]) -> bool
    ensures { result ≡ true → form_of bit_field_columns line.now ≡ Fits }
{
    if line.len() == bit_field::BITS_END {
        return bit_field_fits(line);
    }
    false
}

fn bit_field_fits(line: &[u8]) -> bool
    ensures { result ≡ bit_field_fits line.now }
{
    if columns::every_in(
        line,
        bit_field::NUMBER,
        bit_field::NUMBER_END,
        ByteClass::Digit,
    ) {
        if blank_at(line, 7) {
            return columns::all_in(line, bit_field::BITS, bit_field::BITS_END, ByteClass::Hex);
        }
    }
    false
}

fn usual_stop(line: &[u8]) -> bool
    ensures { result ≡ true → form_of stop_columns line.now ≡ Fits }
{
    if line.len() < stop::NAMES {
        return false;
    }
    if line.len() <= MOST_FILE_BYTES {
        return stop_fits(line);
    }
    false
}

fn stop_fits(line: &[u8]) -> bool
    ensures { result ≡ stop_fits line.now }
{
    if columns::every_in(line, stop::NUMBER, stop::NUMBER_END, ByteClass::Digit) {
        if blank_at(line, 8) {
            if blank_at(line, 12) {
                return is_filled(line, stop::NAMES, stop::NAMES_END);
            }
        }
    }
    false
}

fn usual_interchange(line: &[u8]) -> bool
    ensures { result ≡ true → form_of interchange_columns line.now ≡ Fits }
{
    if line.len() < interchange::SECOND_END {
        return false;
    }
    if line.len() <= MOST_FILE_BYTES {
        return interchange_fits(line);
    }
    false
}

fn interchange_fits(line: &[u8]) -> bool
    ensures { result ≡ interchange_fits line.now }
{
    if columns::every_in(
        line,
        interchange::STOP,
        interchange::STOP_END,
        ByteClass::Digit,
    ) {
        if blank_at(line, 8) {
            if columns::count_in(line, interchange::FIRST, interchange::FIRST_END, 60) {
                if blank_at(line, 11) {
                    if columns::count_in(line, interchange::SECOND, interchange::SECOND_END, 99) {
                        return blank_at(line, 14);
                    }
                }
            }
        }
    }
    false
}

fn usual_class(line: &[u8]) -> bool
    ensures { result ≡ true → form_of class_columns line.now ≡ Fits }
{
    if line.len() < class::SUPPLEMENT {
        return false;
    }
    if line.len() <= MOST_FILE_BYTES {
        return class_fits(line);
    }
    false
}

fn class_fits(line: &[u8]) -> bool
    ensures { result ≡ class_fits line.now }
{
    if first_filled(line, class::CODE, class::CODE_END) {
        if blank_at(line, 4) {
            if columns::count_in(line, class::NUMBER, class::NUMBER_END, 13) {
                if blank_at(line, 7) {
                    return tariff_fits(line);
                }
            }
        }
    }
    false
}

// From the tariff group on.
fn tariff_fits(line: &[u8]) -> bool
    ensures { result ≡ tariff_fits line.now }
{
    if letter_or_blank(line, class::TARIFF, class::TARIFF, b'H' as u32) {
        if blank_at(line, 9) {
            if columns::count_in(line, class::CONTROL, class::CONTROL, 7) {
                if blank_at(line, 11) {
                    return supplement_fits(line);
                }
            }
        }
    }
    false
}

// From the supplement on.
fn supplement_fits(line: &[u8]) -> bool
    ensures { result ≡ supplement_fits line.now }
{
    if blank_at(line, 20) {
        if columns::count_in(line, class::SUPPLEMENT, class::SUPPLEMENT, 2) {
            if blank_at(line, 22) {
                if flag_or_blank(line, class::FLAG, class::FLAG) {
                    return blank_at(line, 24);
                }
            }
        }
    }
    false
}

// Whether column c is blank.
pub fn blank_at(line: &[u8], c: usize) -> bool
    ensures { result ≡ is_blank (C.column c line.now) }
{
    columns::column_at(line, c) == b' '
}

// Whether columns a to b are not all blank.
fn is_filled(line: &[u8], a: usize, b: usize) -> bool
    ensures { result ≡ not (blank (C.columns a b line.now)) }
{
    !columns::every_in(line, a, b, ByteClass::Byte(b' '))
}

// ---- the form that a table says, row by row

fn form_of(line: &[u8], table: &[u64]) -> Result<(), usize>
    ensures { result ≡ form_of (rows_of table.now) line.now }
{
    let mut done: usize = 0;
    for &x in table {
        packed_row(line, done, x)?;
        done = row_end(x);
    }
    unnamed_form(line, done, line.len())
}

// One row of a table, where the columns up to `done` are done.
fn packed_row(line: &[u8], done: usize, x: u64) -> Result<(), usize>
    ensures { result ≡ row_form done (row_of x) line.now }
{
    row_form(
        line,
        done,
        (x / FROM) as usize,
        row_end(x),
        x % WITH,
        (x / WITH % 256) as u32,
    )
}

// The last column of a row.
fn row_end(x: u64) -> usize
    ensures { result ≡ to_of x }
{
    (x / TO % 4294967296) as usize
}

// The same with the row taken apart: columns `from` to `to`, rule k with m.
fn row_form(line: &[u8], done: usize, from: usize, to: usize, k: u64, m: u32) -> Result<(), usize>
    requires { m < 256 }
    ensures { result ≡ row_form done (record { from = from; to = to; rule = rule_of k m }) line.now }
{
    unnamed_form(line, done, less_one(from))?;
    if fits_rule(line, from, to, k, m) {
        return Ok(());
    }
    Err(from)
}

// The columns past column `done` up to column `to` are blank.
fn unnamed_form(line: &[u8], done: usize, to: usize) -> Result<(), usize>
    ensures { result ≡ unnamed done to line.now }
{
    for i in done..to {
        if line.len() <= i {
            return Ok(());
        }
        if line[i] != b' ' {
            return Err(i + 1);
        }
    }
    Ok(())
}

fn less_one(c: usize) -> usize
    ensures { result ≡ c - 1 }
{
    if c < 1 { 0 } else { c - 1 }
}

// ---- the rules

// Whether columns a to b fit rule k with m.
fn fits_rule(line: &[u8], a: usize, b: usize, k: u64, m: u32) -> bool
    requires { m < 256 }
    ensures { result ≡ rule_of k m line.now (C.columns a b line.now) }
{
    match k {
        FREE => true,
        DIGITS => columns::every_in(line, a, b, ByteClass::Digit),
        DIGITS_OR_BLANK => blank_or(line, a, b, ByteClass::Digit),
        HEX_DIGITS => columns::all_in(line, a, b, ByteClass::Hex),
        NOT_ALL_BLANK => !columns::every_in(line, a, b, ByteClass::Byte(b' ')),
        FIRST_NOT_BLANK => first_filled(line, a, b),
        NON_BLANK => columns::every_in(line, a, b, ByteClass::Filled),
        NON_BLANK_OR_BLANK => blank_or(line, a, b, ByteClass::Filled),
        COUNT => columns::count_in(line, a, b, m),
        DATE => fits_date(line, a, b),
        TIME => is_time(fields::time_in(line, a, b)),
        RANGE_END => is_end(fields::range_end_in(line, a, b)),
        DETAIL_OF => fits_detail(line, a, b, m),
        OFFSET_OF => fits_offset(line, a, b, m),
        BYTE_OR_BLANK => blank_or(line, a, b, ByteClass::Byte(m as u8)),
        DIGITS_FROM_ONE => fits_from_one(line, a, b),
        LETTER_OR_BLANK => letter_or_blank(line, a, b, m),
        FLAG_OR_BLANK => flag_or_blank(line, a, b),
        // BYTE
        _ => columns::every_in(line, a, b, ByteClass::Byte(m as u8)),
    }
}

// Whether columns a to b are blank, or every one is of the class.
pub fn blank_or(line: &[u8], a: usize, b: usize, class: ByteClass) -> bool
    ensures { result ≡
        (blank (C.columns a b line.now) || every (is_of class) (C.columns a b line.now)) }
{
    if columns::every_in(line, a, b, ByteClass::Byte(b' ')) {
        return true;
    }
    columns::every_in(line, a, b, class)
}

// Whether the first of the columns is not blank.
pub fn first_filled(line: &[u8], a: usize, b: usize) -> bool
    ensures { result ≡ not (C.is_blank (get_or (C.columns a b line.now) 0 32)) }
{
    first_byte(line, a, b) != b' '
}

// The first of the columns.
fn first_byte(line: &[u8], a: usize, b: usize) -> u8
    ensures { result ≡ get_or (C.columns a b line.now) 0 32 }
{
    columns::byte_at(columns::part(line, a, b), 0)
}

// Whether the column is blank, or a letter from "A" to m.
fn letter_or_blank(line: &[u8], a: usize, b: usize, m: u32) -> bool
    ensures { result ≡ or_blank (letter_to m) line.now (C.columns a b line.now) }
{
    if columns::every_in(line, a, b, ByteClass::Byte(b' ')) {
        return true;
    }
    let x = first_byte(line, a, b);
    if x < b'A' {
        return false;
    }
    x as u32 <= m
}

// Whether the column is blank, or "N", "B" or "F".
fn flag_or_blank(line: &[u8], a: usize, b: usize) -> bool
    ensures { result ≡ or_blank transport_flag line.now (C.columns a b line.now) }
{
    if columns::every_in(line, a, b, ByteClass::Byte(b' ')) {
        return true;
    }
    is_flag(first_byte(line, a, b))
}

fn is_flag(x: u8) -> bool
    ensures { result ≡ (eqb x 78 || (eqb x 66 || eqb x 70)) }
{
    if x == b'N' {
        return true;
    }
    if x == b'B' {
        return true;
    }
    x == b'F'
}

fn fits_date(line: &[u8], a: usize, b: usize) -> bool
    ensures { result ≡ a_date line.now (C.columns a b line.now) }
{
    is_date(columns::part(line, a, b))
}

// DD.MM.YYYY
fn is_date(p: &[u8]) -> bool
    ensures { result ≡ a_date p.now p.now }
{
    if columns::every_in(p, date::DAY, date::DAY_END, ByteClass::Digit) {
        if columns::column_at(p, 3) == b'.' {
            if columns::every_in(p, date::MONTH, date::MONTH_END, ByteClass::Digit) {
                if columns::column_at(p, 6) == b'.' {
                    return columns::every_in(p, date::YEAR, date::YEAR_END, ByteClass::Digit);
                }
            }
        }
    }
    false
}

// The detail of the range end in the seven columns from column c.
fn fits_detail(line: &[u8], a: usize, b: usize, c: u32) -> bool
    requires { c < 256 }
    ensures { result ≡ detail_of c line.now (C.columns a b line.now) }
{
    if is_stop(fields::range_end_in(line, c as usize, (c + 6) as usize)) {
        return is_detail(fields::detail_in(line, a, b));
    }
    true
}

// The offset beside the repeats in the three columns from column c.
pub fn fits_offset(line: &[u8], a: usize, b: usize, c: u32) -> bool
    requires { c < 256 }
    ensures { result ≡ offset_of c line.now (C.columns a b line.now) }
{
    let from = c as usize;
    let to = (c + 2) as usize;
    if columns::every_in(line, from, to, ByteClass::Byte(b' ')) {
        return columns::every_in(line, a, b, ByteClass::Byte(b' '));
    }
    if columns::every_in(line, a, b, ByteClass::Digit) {
        if columns::every_in(line, from, to, ByteClass::Byte(b'0')) {
            return true;
        }
        return !columns::every_in(line, a, b, ByteClass::Byte(b'0'));
    }
    false
}

// Whether the columns are digits that say at least 1.
fn fits_from_one(line: &[u8], a: usize, b: usize) -> bool
    ensures { result ≡ from_one line.now (C.columns a b line.now) }
{
    if columns::every_in(line, a, b, ByteClass::Digit) {
        return !columns::every_in(line, a, b, ByteClass::Byte(b'0'));
    }
    false
}

fn is_time(t: Time) -> bool
    ensures { result ≡ is_time t }
{
    match t {
        Time::Absent => true,
        Time::Stated { minutes, barred } => true,
        Time::NoTime => false,
    }
}

pub fn is_end(e: RangeEnd) -> bool
    ensures { result ≡ is_end e }
{
    match e {
        RangeEnd::Outer => true,
        RangeEnd::Index(i) => true,
        RangeEnd::Stop(n) => true,
        RangeEnd::NoEnd => false,
    }
}

pub fn is_stop(e: RangeEnd) -> bool
    ensures { result ≡ is_stop e }
{
    match e {
        RangeEnd::Outer => false,
        RangeEnd::Index(i) => false,
        RangeEnd::Stop(n) => true,
        RangeEnd::NoEnd => false,
    }
}

pub fn is_detail(d: Detail) -> bool
    ensures { result ≡ is_detail d }
{
    match d {
        Detail::Plain => true,
        Detail::Nth(k) => true,
        Detail::Timed(minutes) => true,
        Detail::NoDetail => false,
    }
}

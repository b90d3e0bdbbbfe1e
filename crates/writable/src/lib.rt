// What the columns of FPLAN's clean text can hold and give back (44, document 02, No. 11): a test for each kind of line.
#![tactic(auto)]

ghost use Rattle.std.specs.Prelude.{◌≡◌, ◌&&◌};
ghost use Rattle.base.specs.Lists.{every};
ghost use Rattle.line_text.specs.Text.{two_of, three_of};
ghost use Rattle.line_text.specs.Laid.{not_lf};
ghost use Rattle.writable.specs.Writable.{filled_byte, half_writable, administration_writable, opening_writable};
ghost use Rattle.writable.specs.Writable.{name_writable, field_writable, code_writable, time_writable, times_writable};
ghost use Rattle.writable.specs.Writable.{call_writable};

use timetable::{Call, NO_ALIGHTING, NO_BOARDING, Opening};

const BLANK: u32 = 32;

const LF: u32 = 10;

// A word of three bytes, and one of two, is below these.
const THREE_BYTES: u32 = 16777216;

const TWO_BYTES: u32 = 65536;

// "VE" as two bytes.
const VE: u32 = b'V' as u32 * 256 + b'E' as u32;

// ---- bytes

// A byte that is neither a blank nor LF.
fn filled_byte(b: u32) -> bool
    ensures { result ≡ filled_byte b }
{
    if b == BLANK {
        return false;
    }
    b != LF
}

// Half an administration: three such bytes.
fn half_writable(n: u32) -> bool
    ensures { result ≡ half_writable n }
{
    if THREE_BYTES <= n {
        return false;
    }
    if !filled_byte(n / 65536 % 256) {
        return false;
    }
    if !filled_byte(n / 256 % 256) {
        return false;
    }
    filled_byte(n % 256)
}

fn administration_writable(high: u32, low: u32) -> bool
    ensures { result ≡ administration_writable high low }
{
    if !half_writable(high) {
        return false;
    }
    half_writable(low)
}

// Whether two bytes are no LF.
fn two_held(n: u32) -> bool
    ensures { result ≡ every not_lf (two_of n) }
{
    if n / 256 % 256 == LF {
        return false;
    }
    n % 256 != LF
}

fn three_held(n: u32) -> bool
    ensures { result ≡ every not_lf (three_of n) }
{
    if n / 65536 % 256 == LF {
        return false;
    }
    two_held(n)
}

// ---- lines

// Whether an opening line can say it.
pub fn opening_writable(o: Opening) -> bool
    ensures { result ≡ opening_writable o }
{
    if 100000 <= o.number {
        return false;
    }
    if !administration_writable(o.high, o.low) {
        return false;
    }
    if o.repeats == 0 {
        return true;
    }
    1 <= o.offset
}

// Whether a *G line can name the category.
pub fn name_writable(name: u32) -> bool
    ensures { result ≡ name_writable name }
{
    if THREE_BYTES <= name {
        return false;
    }
    if name / 65536 % 256 == BLANK {
        return false;
    }
    three_held(name)
}

// Whether an *A line can say the bit field's number.
pub fn field_writable(n: u32) -> bool
    ensures { result ≡ field_writable n }
{
    n < 1000000
}

// Whether an *A line that is not of operating days can have the code.
fn code_writable(code: u32) -> bool
    ensures { result ≡ code_writable code }
{
    if TWO_BYTES <= code {
        return false;
    }
    if code / 256 % 256 == BLANK {
        return false;
    }
    if !two_held(code) {
        return false;
    }
    code != VE
}

// Whether an *A line that is not of operating days can have the code and the bit field.
pub fn extra_writable(code: u32, field: u32) -> bool
    ensures { result ≡ (code_writable code && field_writable field) }
{
    if !code_writable(code) {
        return false;
    }
    field_writable(field)
}

// Whether a time that is stated or not, barred or not, is read back so.
fn time_writable(stated: bool, barred: bool, minutes: u32) -> bool
    ensures { result ≡ time_writable stated barred minutes }
{
    if stated {
        return true;
    }
    if barred {
        return false;
    }
    minutes == 0
}

fn times_writable(c: Call) -> bool
    ensures { result ≡ times_writable c }
{
    if !time_writable(
        timetable::has_arrival(c),
        c.flags / NO_ALIGHTING % 2 == 1,
        c.arrival,
    ) {
        return false;
    }
    time_writable(
        timetable::has_departure(c),
        c.flags / NO_BOARDING % 2 == 1,
        c.departure,
    )
}

// Whether a schedule line can say it; its stop is a number.
pub fn call_writable(c: Call) -> bool
    ensures { result ≡ call_writable c }
{
    if 10000000 <= c.stop {
        return false;
    }
    if 100000 <= c.number {
        return false;
    }
    if !administration_writable(c.high, c.low) {
        return false;
    }
    times_writable(c)
}

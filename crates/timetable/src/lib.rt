// What a delivery and its table are made of: the types and the sizes that the loader, the table and the questions share.
// The rules of document 01 on them stand in specs/; the code that keeps them stands in the crates above.
#![tactic(auto)]

ghost use Rattle.std.specs.Prelude.{◌≡◌, [], ◌∷◌, ◌+◌, ◌^◌, ◌≤◌, ◌<◌, length, drop};
ghost use Rattle.std.proofs.Math.Option.{some};
ghost use Rattle.timetable.specs.Offences.{offence_at, verdict_by};
ghost use Rattle.timetable.specs.Layout.{header_size, bit_words, bit_field_size, stop_size, interchange_size};
ghost use Rattle.timetable.specs.Layout.{class_size, service_head, call_size, category_size, day_size, extra_size};
ghost use Rattle.timetable.specs.Layout.{row_size, helper_head, helper_line};
ghost use Rattle.timetable.specs.Layout.{most_file_bytes, most_period_days, most_class, most_calls, most_categories};
ghost use Rattle.timetable.specs.Layout.{most_days, most_extras, most_repeats, most_running, latest_time, all_flags};
ghost use Rattle.timetable.specs.Layout.{kind_z, kind_t};
ghost use Rattle.timetable.specs.Ranges.{in_order, has_arrival, has_departure};
ghost use Rattle.timetable.specs.Plan.{two_bytes, three_bytes, attribute_part, is_opening};
ghost use Rattle.timetable.specs.Table.{call_at, legs_at, category_at, day_at, extra_at};
ghost use Rattle.timetable.specs.Questions.{walk_refusal};
ghost use Rattle.timetable.specs.Inner.Words.{legs_read, category_read, day_read, extra_read};

pub mod refusal;

pub use bitfield::BIT_WORDS;
pub use calendar::MOST_PERIOD_DAYS;
use fields::{Detail, RangeEnd};
use forms::Kind;
pub use forms::MOST_FILE_BYTES;
pub use refusal::Refusal;

// ---- what a line of FPLAN says

// A line that opens a service: number, administration (two words of three bytes), and its kind; of a *Z its repeats and offset in minutes, of a *T its
// running time in minutes and its density in seconds, in their places.
#[derive(Clone, Copy)]
pub struct Opening {
    pub number: u32,
    pub high: u32,
    pub low: u32,
    pub repeats: u32,
    pub offset: u32,
    pub kind: u32,
}

// A schedule line: stop, times, and flags (1 arrival stated, 2 departure stated, 4 no alighting, 8 no boarding); a number, where it says one, and an
// administration, where it says one.
#[derive(Clone, Copy)]
pub struct CallLine {
    pub stop: u32,
    pub arrival: u32,
    pub departure: u32,
    pub flags: u32,
    pub number: Option<u32>,
    pub administration: Option<Administration>,
}

// An administration, in two words of three bytes.
#[derive(Clone, Copy)]
pub struct Administration {
    pub high: u32,
    pub low: u32,
}

// Where a range starts or ends, as its line says it; the detail counts only beside a stop.
#[derive(Clone, Copy)]
pub struct End {
    pub place: RangeEnd,
    pub detail: Detail,
}

#[derive(Clone, Copy)]
pub struct Ends {
    pub from: End,
    pub to: End,
}

// The three kinds of ranges, in the table's order: *G, *A VE, and other *A.
#[derive(Clone, Copy)]
pub enum RangeKind {
    Category,
    Days,
    Extra,
}

// The line of a range: its category as three bytes or its code as two, its bit field (0 for daily, and of a *G), and its ends.
#[derive(Clone, Copy)]
pub struct RangeLine {
    pub part: RangeKind,
    pub name: u32,
    pub field: u32,
    pub ends: Ends,
}

// What a line of FPLAN says: nothing (skipped), something of another kind, something whose form is broken (the column where it is), or one of
// the kinds.
#[derive(Clone, Copy)]
pub enum Told {
    Skip,
    Other,
    Broken(usize),
    Opens(Opening),
    Ranges(RangeLine),
    Calls(CallLine),
}

// Whether a line of a kind opens a service, whatever its form.
pub fn is_opening(kind: Kind) -> bool
    ensures { result ≡ is_opening kind }
{
    match kind {
        Kind::Opening => true,
        Kind::Frequency => true,
        Kind::Category => false,
        Kind::Attribute => false,
        Kind::Schedule => false,
        Kind::Other => false,
    }
}

// "VE" as two bytes: operating days.
const VE: u32 = b'V' as u32 * 256 + b'E' as u32;

// Which ranges a line of *A has, by its code.
pub fn attribute_part(code: u32) -> RangeKind
    ensures { result ≡ attribute_part code }
{
    if code == VE {
        RangeKind::Days
    } else {
        RangeKind::Extra
    }
}

// Columns c and c + 1 as one number, the first byte highest: a code.
pub fn two_bytes(text: &[u8], c: usize) -> u32
    requires { c + 2 < 2 ^ 64 }
    ensures value { result ≡ two_bytes c text.now }
    ensures upper_bound { result < 65536 }
{
    wide(columns::column_at(text, c)) * 256 + wide(columns::column_at(text, c + 1))
}

// The same of three columns: a category, or half an administration.
pub fn three_bytes(text: &[u8], c: usize) -> u32
    requires { c + 2 < 2 ^ 64 }
    ensures { result ≡ three_bytes c text.now }
{
    two_bytes(text, c) * 256 + wide(columns::column_at(text, c + 2))
}

fn wide(b: u8) -> u32
    ensures { result ≡ b }
{
    b as u32
}

// ---- calls

// What conductors announce: the number and the administration that hold at a call.
#[derive(Clone, Copy)]
pub struct Announced {
    pub number: u32,
    pub high: u32,
    pub low: u32,
}

// A call of a service: what its line says of stop, times and flags, and the number and the administration that hold there. Its stop is a number; in a
// table's own calls it is a place in the stop section.
#[derive(Clone, Copy)]
pub struct Call {
    pub stop: u32,
    pub arrival: u32,
    pub departure: u32,
    pub flags: u32,
    pub number: u32,
    pub high: u32,
    pub low: u32,
}

// The call whose words start at a place.
pub fn call_at(w: &[u32], at: usize) -> Call
    requires { at + call_size ≤ length w.now }
    ensures { result ≡ call_at (drop at w.now) }
{
    Call {
        stop: w[at],
        arrival: w[at + 1],
        departure: w[at + 2],
        flags: w[at + 3],
        number: w[at + 4],
        high: w[at + 5],
        low: w[at + 6],
    }
}

// Whether its arrival is stated; its departure.
pub fn has_arrival(call: Call) -> bool
    ensures { result ≡ has_arrival call }
{
    call.flags % 2 == 1
}

pub fn has_departure(call: Call) -> bool
    ensures { result ≡ has_departure call }
{
    call.flags / DEPARTURE % 2 == 1
}

// ---- ranges, as a table's words hold them

// The calls where a range begins and ends.
#[derive(Clone, Copy)]
pub struct LegWords {
    pub from: u32,
    pub to: u32,
}

// A *G: its category, and its ends.
#[derive(Clone, Copy)]
pub struct CategoryWords {
    pub name: u32,
    pub from: u32,
    pub to: u32,
}

// A *A VE: its bit field (0 for daily), and its ends.
#[derive(Clone, Copy)]
pub struct DayWords {
    pub field: u32,
    pub from: u32,
    pub to: u32,
}

// Another *A: its code, its bit field (0 for daily), and its ends.
#[derive(Clone, Copy)]
pub struct ExtraWords {
    pub code: u32,
    pub field: u32,
    pub from: u32,
    pub to: u32,
}

// The ends of the range whose words start at a place: they stand after so many words of its own.
pub fn legs_at(w: &[u32], at: usize, own: usize) -> LegWords
    requires { at + (own + 2) ≤ length w.now }
    ensures { result ≡ legs_read (legs_at own (drop at w.now)) }
{
    LegWords {
        from: w[at + own],
        to: w[at + own + 1],
    }
}

// Kept: three functions: what each reads bears its own names
// The range whose words start at a place.
pub fn category_at(w: &[u32], at: usize) -> CategoryWords
    requires { at + category_size ≤ length w.now }
    ensures { result ≡ category_read (category_at (drop at w.now)) }
{
    CategoryWords {
        name: w[at],
        from: w[at + 1],
        to: w[at + 2],
    }
}

pub fn day_at(w: &[u32], at: usize) -> DayWords
    requires { at + day_size ≤ length w.now }
    ensures { result ≡ day_read (day_at (drop at w.now)) }
{
    DayWords {
        field: w[at],
        from: w[at + 1],
        to: w[at + 2],
    }
}

pub fn extra_at(w: &[u32], at: usize) -> ExtraWords
    requires { at + extra_size ≤ length w.now }
    ensures { result ≡ extra_read (extra_at (drop at w.now)) }
{
    ExtraWords {
        code: w[at],
        field: w[at + 1],
        from: w[at + 2],
        to: w[at + 3],
    }
}

// ---- offences

// An offence of a file: its number, its line, and the column where a form is broken (0 unless 4).
// Kept: a number and not its Refusal: the change runs through the theorems of the crates above, and its proofs were not carried to the end
#[derive(Clone, Copy)]
pub struct Offence {
    pub number: u32,
    pub line: u32,
    pub column: usize,
}

// An offence that is not 4.
pub fn offence_at(number: u32, line: u32) -> Offence
    ensures { result ≡ offence_at number line }
{
    Offence {
        number,
        line,
        column: 0,
    }
}

// What a check answers whose one offence, which is not 4, is found.
pub fn offends(number: u32, line: u32) -> Result<(), Offence>
    ensures { result ≡ verdict_by (some (offence_at number line)) }
{
    Err(offence_at(number, line))
}

// ---- answers

// What load answers: the words used, or number, file, line and column (0 unless 4) of the first offence, and the words needed (0 unless 20 or 51).
// Kept: an enum and not a Result: it goes with the numbers of offences, which are kept
#[derive(Clone, Copy)]
pub enum Loaded {
    Accepted(u32),
    Refused {
        number: u32,
        file: u32,
        line: u32,
        column: usize,
        needed: u32,
    },
}

// What a question for a stop's name answers: the part of BAHNHOF that holds the name, by the byte where it starts, from 0, and its length.
#[derive(Clone, Copy)]
pub struct NamePart {
    pub start: usize,
    pub size: usize,
}

// The stretch that a service runs along on a day, by its first call and its number of legs.
#[derive(Clone, Copy)]
pub struct Along {
    pub start: u32,
    pub legs: u32,
}

// What a walk is refused for, and the words needed (0 unless 29).
#[derive(Clone, Copy)]
pub struct WalkRefusal {
    pub refusal: Refusal,
    pub needed: u32,
}

impl From<Refusal> for WalkRefusal {
    ghost from_gives = { λ r w. w ≡ walk_refusal r 0 };

    fn from(refusal: Refusal) -> WalkRefusal {
        WalkRefusal { refusal, needed: 0 }
    }
}

// ---- the table's sizes, in words (specs/Layout; `sizes_tied` ties the two)

pub const HEADER_WORDS: usize = 9;

pub const BIT_FIELD_WORDS: usize = 13;

pub const STOP_WORDS: usize = 3;

pub const INTERCHANGE_WORDS: usize = 3;

pub const CLASS_WORDS: usize = 2;

pub const SERVICE_WORDS: usize = 12;

pub const CALL_WORDS: usize = 7;

pub const CATEGORY_WORDS: usize = 3;

pub const DAYS_WORDS: usize = 3;

pub const EXTRA_WORDS: usize = 4;

pub const ROW_WORDS: usize = 10;

// The helper words that a load is lent: these, and for each line of BITFELD, BAHNHOF and UMSTEIGB those.
pub const HELPER_HEAD_WORDS: usize = 64;

pub const HELPER_LINE_WORDS: usize = 4;

// ---- where the header's words stand

pub const USED_AT: usize = 0;

pub const FIRST_DAY_AT: usize = 1;

pub const PERIOD_DAYS_AT: usize = 2;

pub const BIT_FIELDS_AT: usize = 3;

pub const STOPS_AT: usize = 4;

pub const INTERCHANGES_AT: usize = 5;

pub const SERVICES_AT: usize = 6;

pub const FIRST_SERVICE_AT: usize = 7;

pub const CLASSES_AT: usize = 8;

// ---- where the words of a service's head stand

pub const SIZE_AT: usize = 0;

pub const NUMBER_AT: usize = 1;

pub const HIGH_AT: usize = 2;

pub const LOW_AT: usize = 3;

pub const REPEATS_AT: usize = 4;

pub const OFFSET_AT: usize = 5;

pub const CALLS_AT: usize = 6;

pub const CATEGORIES_AT: usize = 7;

pub const DAYS_AT: usize = 8;

pub const EXTRAS_AT: usize = 9;

pub const KIND_AT: usize = 11;

// ---- the kinds of services

pub const KIND_Z: u32 = 0;

pub const KIND_T: u32 = 1;

// ---- limits (specs/Layout; `limits_tied` ties the two)

// "class over 13" (26, and of a table 21)
pub const MOST_CLASS: u32 = 13;

// What one service may have (13).
pub const MOST_CALLS: u32 = 200;

pub const MOST_CATEGORIES: u32 = 50;

pub const MOST_DAYS: u32 = 50;

pub const MOST_EXTRAS: u32 = 100;

// Repeats and offset have three digits.
pub const MOST_REPEATS: u32 = 999;

// The running time and density of a *T have four digits.
pub const MOST_RUNNING: u32 = 9999;

// 999 hours and 59 minutes.
pub const LATEST_TIME: u32 = 59999;

// "flags: 1 arrival, 2 departure, 4 no alighting, 8 no boarding", and all of them.
pub const ARRIVAL: u32 = 1;

pub const DEPARTURE: u32 = 2;

pub const NO_ALIGHTING: u32 = 4;

pub const NO_BOARDING: u32 = 8;

pub const ALL_FLAGS: u32 = 15;

// Whether a range's ends are in order; other *A ranges are loose: from may equal to.
pub fn in_order(loose: bool, from: u32, to: u32) -> bool
    ensures { result ≡ in_order loose from to }
{
    if loose {
        return from <= to;
    }
    from < to
}

// Kept: written out, since it ties each size to the definition of its name
// The sizes that the contracts name, by the names that the code uses.
pub fn sizes_tied() -> [usize; 14]
    ensures { result ≡ header_size ∷ bit_words ∷ bit_field_size ∷ stop_size ∷ interchange_size ∷ class_size ∷ service_head
        ∷ call_size ∷ category_size ∷ day_size ∷ extra_size ∷ row_size ∷ helper_head ∷ helper_line ∷ [] }
{
    [
        HEADER_WORDS,
        BIT_WORDS,
        BIT_FIELD_WORDS,
        STOP_WORDS,
        INTERCHANGE_WORDS,
        CLASS_WORDS,
        SERVICE_WORDS,
        CALL_WORDS,
        CATEGORY_WORDS,
        DAYS_WORDS,
        EXTRA_WORDS,
        ROW_WORDS,
        HELPER_HEAD_WORDS,
        HELPER_LINE_WORDS,
    ]
}

// The limits and the kinds, in the same way.
pub fn limits_tied() -> [usize; 13]
    ensures { result ≡ most_file_bytes ∷ most_period_days ∷ most_class ∷ most_calls ∷ most_categories ∷ most_days ∷ most_extras
        ∷ most_repeats ∷ most_running ∷ latest_time ∷ all_flags ∷ kind_z ∷ kind_t ∷ [] }
{
    [
        MOST_FILE_BYTES,
        MOST_PERIOD_DAYS as usize,
        MOST_CLASS as usize,
        MOST_CALLS as usize,
        MOST_CATEGORIES as usize,
        MOST_DAYS as usize,
        MOST_EXTRAS as usize,
        MOST_REPEATS as usize,
        MOST_RUNNING as usize,
        LATEST_TIME as usize,
        ALL_FLAGS as usize,
        KIND_Z as usize,
        KIND_T as usize,
    ]
}

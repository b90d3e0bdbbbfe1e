// The name field of a stop: names parted by "$", each with its patterns of languages and types, and the name that a language and a type ask for
// (request No. 3, section 5.1 of the standard).
#![tactic(auto)]

ghost use Rattle.std.specs.Prelude.{◌≡◌, ◌+◌, ◌≤◌, ◌<◌, length, drop};
ghost use Rattle.names.specs.Grammar.{is_plain, among, is_language, is_type};
ghost use Rattle.names.specs.Names.{span, names_of, patterns_of, is_name_list, language_known, type_digit, allows};
ghost use Rattle.names.specs.Names.{fits, name_for};
ghost use Rattle.names.specs.Inner.Answers.{is_of, asked_by, found_in, found_behind, first_of, pattern_answer};
ghost use Rattle.names.specs.Inner.Answers.{behind_answer, next_name, chosen_by};

use columns::byte_at;

pub mod name_field;

// A name inside its field: where it begins, from 0, and how many bytes it has.
#[derive(Clone, Copy)]
pub struct Name {
    pub place: usize,
    pub size: usize,
}

// What is asked for: the letter of a language and the digit of a type, 0 for any.
#[derive(Clone, Copy)]
pub struct Wanted {
    pub letter: u8,
    pub digit: u8,
}

// Columns 13 to 62: a longer list cannot stand there, and so the two functions that call each other below are never deep.
pub const MOST_NAME_BYTES: usize = 50;

// 0 stands for any language and any type.
const ANY: u8 = 0;

// The highest type.
const LAST_TYPE: u32 = 9;

// ---- the two questions on a field

// Whether a field is a name list.
pub fn is_name_list(field: &[u8]) -> bool
    ensures { result ≡ is_name_list field.now }
{
    if MOST_NAME_BYTES < field.len() {
        return false;
    }
    let found = name_list(
        field,
        0,
        Wanted {
            letter: ANY,
            digit: ANY,
        },
    );
    found.is_some()
}

// The first name with a fitting pattern, else the first name; none if the field is no name list.
pub fn name_for(field: &[u8], wanted: Wanted) -> Option<Name>
    ensures { result ≡ chosen_by (name_for wanted field.now) }
{
    if MOST_NAME_BYTES < field.len() {
        return None;
    }
    let found = name_list(field, 0, wanted)?;
    match found {
        Some(name) => Some(name),
        None => Some(first_name(field)),
    }
}

// The first name of a name list.
fn first_name(field: &[u8]) -> Name
    ensures { result ≡ record { place = 0; size = span is_plain field.now } }
{
    Name {
        place: 0,
        size: span_end(field, 0, NameByte::Plain),
    }
}

// ---- what is asked for

// What a language, by its letter, and a type, by its number, ask for (0 for any); none if one is outside the standard's list.
pub fn asked_for(language: u32, nametype: u32) -> Option<Wanted>
    ensures { result ≡ asked_by language nametype }
{
    if LAST_TYPE < nametype {
        return None;
    }
    if 255 < language {
        return None;
    }
    let letter = language as u8;
    if !known_language(letter) {
        return None;
    }
    Some(Wanted {
        letter,
        digit: type_digit(nametype),
    })
}

fn known_language(letter: u8) -> bool
    ensures { result ≡ language_known letter }
{
    if letter == ANY {
        return true;
    }
    is_language(letter)
}

// The digit of a type, 0 for any.
fn type_digit(nametype: u32) -> u8
    requires { nametype ≤ 9 }
    ensures { result ≡ type_digit nametype }
{
    if nametype == 0 {
        return ANY;
    }
    b'0' + nametype as u8
}

// ---- the field read from a place on: names read on into patterns, and patterns into further names

// Reading on tells the first name that fits, if one does; or none, that it is no name list.

// A name; then the end, "$" and patterns, or "$" and a further name list.
#[cycle(name_list_patterns)]
fn name_list(field: &[u8], at: usize, wanted: Wanted) -> Option<Option<Name>>
    ensures { result ≡ found_in wanted (names_of at (drop at field.now)) }
{
    let end = span_end(field, at, NameByte::Plain);
    if end == at {
        return None; // "A name is not empty"
    }
    if end == field.len() {
        return Some(None); // a name without patterns fits nothing
    }
    if field[end] != b'$' {
        return None;
    }
    if byte_at(field, end + 1) == b'<' {
        return patterns(
            field,
            end + 1,
            Name {
                place: at,
                size: end - at,
            },
            wanted,
        );
    }
    name_list(field, end + 1, wanted)
}

// The patterns of a name; behind each the end, a further pattern, or a further name list.
#[cycle(name_list_patterns)]
fn patterns(field: &[u8], at: usize, name: Name, wanted: Wanted) -> Option<Option<Name>>
    ensures { result ≡ found_behind wanted name (patterns_of at (drop at field.now)) }
{
    let read = pattern_at(field, at, wanted)?;
    let end = read.end;
    if end == field.len() {
        return first_of(read.is_fit, name, Some(None));
    }
    if field[end] == b'<' {
        return first_of(read.is_fit, name, patterns(field, end, name, wanted));
    }
    first_of(
        read.is_fit,
        name,
        name_list(field, next_name(field, end), wanted),
    )
}

// Where the next name begins behind a pattern: "After the last pattern a "$" before the next name may be there or not."
fn next_name(field: &[u8], end: usize) -> usize
    requires { end < length field.now }
    ensures { result ≡ next_name field.now end }
{
    if field[end] == b'$' { end + 1 } else { end }
}

// The name, if its pattern fits, before what reading on tells; but what reads on must be right.
fn first_of(fits: bool, name: Name, onward: Option<Option<Name>>) -> Option<Option<Name>>
    ensures { result ≡ first_of fits name onward }
{
    let later = onward?;
    if fits { Some(Some(name)) } else { Some(later) }
}

// ---- a pattern

// A pattern: where it ends, and whether it fits.
#[derive(Clone, Copy)]
struct PatternRead {
    end: usize,
    is_fit: bool,
}

// The pattern that begins at a place, if one does.
fn pattern_at(field: &[u8], at: usize, wanted: Wanted) -> Option<PatternRead>
    ensures { result ≡ pattern_answer wanted at (drop at field.now) }
{
    if byte_at(field, at) != b'<' {
        return None;
    }
    behind_opening(field, at + 1, wanted)
}

// What stands behind "<": letters of languages, then digits of types, ">", with at least one letter or digit.
fn behind_opening(field: &[u8], letters: usize, wanted: Wanted) -> Option<PatternRead>
    requires { letters ≤ length field.now }
    ensures { result ≡ behind_answer wanted letters (drop letters field.now) }
{
    let digits = span_end(field, letters, NameByte::Letter);
    let close = span_end(field, digits, NameByte::Digit);
    if close == letters {
        return None;
    }
    if byte_at(field, close) != b'>' {
        return None;
    }
    let is_fit = pattern_fits(&field[letters..digits], &field[digits..close], wanted);
    Some(PatternRead {
        end: close + 1,
        is_fit,
    })
}

// One and the same pattern fits both, the language and the type.
fn pattern_fits(letters: &[u8], digits: &[u8], wanted: Wanted) -> bool
    ensures { result ≡ fits wanted (record { letters = letters.now; digits = digits.now }) }
{
    if part_allows(letters, wanted.letter) {
        return part_allows(digits, wanted.digit);
    }
    false
}

// "no letters fits every language, no digits every type"
fn part_allows(part: &[u8], b: u8) -> bool
    ensures { result ≡ allows b part.now }
{
    if part.len() == 0 {
        return true;
    }
    if b == ANY {
        return true;
    }
    has(part, b)
}

// ---- bytes

// What the bytes of a span are.
#[derive(Clone, Copy)]
enum NameByte {
    Plain,
    Letter,
    Digit,
}

// Where the bytes of a class end that stand from a place on.
fn span_end(field: &[u8], at: usize, class: NameByte) -> usize
    ensures { result ≡ at + span (is_of class) (drop at field.now) }
{
    let mut i = at;
    // Kept: (d) a place past the end is the answer itself, where `position` would need a slice from there.
    while i < field.len() {
        if is_of(class, field[i]) {
            i += 1;
        } else {
            return i;
        }
    }
    i
}

fn is_of(class: NameByte, b: u8) -> bool
    ensures { result ≡ is_of class b }
{
    match class {
        NameByte::Plain => is_plain(b),
        NameByte::Letter => is_language(b),
        NameByte::Digit => is_type(b),
    }
}

// "has no "$", "<" or ">""
fn is_plain(b: u8) -> bool
    ensures { result ≡ is_plain b }
{
    if b == b'$' {
        return false;
    }
    if b == b'<' {
        return false;
    }
    b != b'>'
}

// The letters of 5.1.
fn is_language(b: u8) -> bool
    ensures { result ≡ is_language b }
{
    has(b"defhijnopstuwx", b)
}

// "digits 1 to 9"
fn is_type(b: u8) -> bool
    ensures { result ≡ is_type b }
{
    match b {
        b'1'..=b'9' => true,
        _ => false,
    }
}

// Whether a byte is among those of a part.
fn has(part: &[u8], b: u8) -> bool
    ensures { result ≡ among b part.now }
{
    part.contains(&b)
}

// BITFELD, BAHNHOF and UMSTEIGB: each line's own checks, and look-ups by number. The checks put each record into a map in lent words, four for each line, and
// a look-up takes no longer in a long file than in a short one. ZUGART's lines are given no words of their own: what is here of them is what a line holds; the
// crate `classes` checks them.
#![tactic(auto)]

ghost use Rattle.std.specs.Prelude.{◌≡◌, true, cond, not, ◌||◌, ◌%◌, ◌≤◌, length, take, drop, eqb};
ghost use Rattle.base.specs.Lists.{every};
ghost use Rattle.columns.specs.Columns.{columns, is_hex, number};
ghost use Rattle.columns.specs.LineFields.{field_in, bit_field_number, stop_number, class_code};
ghost use Rattle.lines.specs.Lines.{lines_of};
ghost use Rattle.forms.specs.Form.{form_of};
ghost use Rattle.forms.specs.Columns.{columns_of};
ghost use Rattle.timetable.specs.Layout.{most_file_bytes, most_period_days};
ghost use Rattle.timetable.specs.Offences.{verdict_by};
ghost use Rattle.timetable.specs.Files.{bit_fields_in, has_field, bit_field_offence};
ghost use Rattle.timetable.specs.Files.{stops_in, default_stop, has_stop, stop_offence, named_stop_offence};
ghost use Rattle.timetable.specs.Plan.{three_bytes};
ghost use Rattle.timetable.specs.Table.{stop_place};
ghost use Rattle.sections.specs.Inner.Sections.{line_kind, key_on, numbered_by, number_on, as_number, numbers};
ghost use Rattle.sections.specs.Inner.Sections.{has_number};
ghost use Rattle.sections.specs.Inner.Sections.{numbered_field, numbered_stop, line_verdict, interchange_verdict};
ghost use Rattle.sections.specs.Inner.Sections.{words_of};
ghost use Rattle.sections.specs.Inner.Sections.{section_checked, fields_checked, stops_checked, interchanges_checked};
ghost use Rattle.sections.specs.Inner.SectionMap.{text_at, Seen, MapOf, Lent, MapAfter, Ready, Reached, PutReady};
ghost use Rattle.sections.specs.Inner.SectionMap.{Put};
ghost use Rattle.sections.specs.declared.Section.TheVariants.{BitFields, Stops, Interchanges};

use columns::line_fields::{bit_field, class, stop};
use forms::LineKind;
use lines::reader;
use names::name_field;
use timetable::{BIT_WORDS, Offence};

// The sections of the table that files 2 to 4 and 6 give.
#[derive(Clone, Copy)]
pub enum Section {
    BitFields,
    Stops,
    Interchanges,
    Classes,
}

// The number of the record on a line; a line that is skipped has none, nor has one whose form is broken (the column where it is).
#[derive(Clone, Copy)]
pub enum Numbered {
    Number(u32),
    Skipped,
    Broken(usize),
}

// ---- the files: how many records each has, and the line number after its last line

// BAHNHOF is not read here: the file itself stands in its place.
pub fn check_bit_fields(f: &[u8], days: u32, m: &mut [u32]) -> Result<(u32, u32), Offence>
    requires f_len_bound { length f.now ≤ most_file_bytes }
    requires days_le_most_period_days { days ≤ most_period_days }
    requires lent { Lent f.now m.old }
    ensures value { result ≡ fields_checked days f.now }
    ensures map_after { MapAfter BitFields f.now result m.new }
{
    check_section(Section::BitFields, f, days, f, m, 0)
}

// Neither the days nor BAHNHOF are read here: 0 and the file itself stand in their places.
pub fn check_stops(f: &[u8], m: &mut [u32]) -> Result<(u32, u32), Offence>
    requires f_len_bound { length f.now ≤ most_file_bytes }
    requires lent { Lent f.now m.old }
    ensures value { result ≡ stops_checked f.now }
    ensures map_after { MapAfter Stops f.now result m.new }
{
    check_section(Section::Stops, f, 0, f, m, 0)
}

// UMSTEIGB has at least one record. The words before `split` are the map of BAHNHOF, which stays; those from there on are lent for UMSTEIGB. The days
// are not read here: 0 stands in their place.
pub fn check_interchanges(
    f: &[u8],
    bahnhof: &[u8],
    m: &mut [u32],
    split: usize,
) -> Result<(u32, u32), Offence>
    requires f_len_bound { length f.now ≤ most_file_bytes }
    requires split_in_bounds { split ≤ length m.old }
    requires map_of { MapOf Stops bahnhof.now (take split m.old) }
    requires lent { Lent f.now (drop split m.old) }
    ensures value { result ≡ interchanges_checked bahnhof.now f.now }
    ensures m_unchanged { take split m.new ≡ take split m.old }
{
    let (count, next) = check_section(Section::Interchanges, f, 0, bahnhof, m, split)?;
    if count < 1 {
        return Err(timetable::offence_at(2, next));
    }
    Ok((count, next))
}

// ---- look-ups, each behind one function, by the map of the file

// Kept: this and the next as two: each promises in the words of its own file
// Whether BITFELD has a bit field of this number.
pub fn known_field(f: &[u8], m: &[u32], number: u32) -> bool
    requires { MapOf BitFields f.now m.now }
    ensures { result ≡ has_field number (bit_fields_in f.now) }
{
    has_number(Section::BitFields, f, m, number)
}

// Whether BAHNHOF has this stop.
pub fn known_stop(f: &[u8], m: &[u32], number: u32) -> bool
    requires { MapOf Stops f.now m.now }
    ensures { result ≡ has_stop number (stops_in f.now) }
{
    has_number(Section::Stops, f, m, number)
}

// The twelve words of the first bit field of this number, zeros where there is none.
pub fn field_bits(f: &[u8], m: &[u32], number: u32) -> [u32; BIT_WORDS]
    requires { MapOf BitFields f.now m.now }
    ensures { result ≡ words_of number (bit_fields_in f.now) }
{
    let Some(i) = map::find(m, number) else {
        return [0u32; BIT_WORDS];
    };
    bitfield::bits_in(text_at(f, map::place_of(m, i)))
}

// The place of the first stop of this number among those of BAHNHOF, counted from 0; 0 where there is none.
pub fn stop_place(f: &[u8], m: &[u32], number: u32) -> u32
    requires { MapOf Stops f.now m.now }
    ensures { result ≡ stop_place number (stops_in f.now) }
{
    match map::find(m, number) {
        Some(i) => i as u32,
        None => 0,
    }
}

// Whether a line of a file, or of a part of it, holds a record of this number: the map knows. The file is there for the promise alone.
fn has_number(section: Section, f: &[u8], m: &[u32], number: u32) -> bool
    requires { Seen section (lines_of f.now) m.now }
    ensures { result ≡ has_number number (numbers section (lines_of f.now)) }
{
    map::find(m, number).is_some()
}

// The text of the line that starts at a place, none past the file's end. Its number does not matter, so it is cut as line 1.
fn text_at(f: &[u8], at: usize) -> &[u8]
    ensures { result.now ≡ text_at f.now at }
{
    if f.len() <= at {
        return &f[0..0];
    }
    let cut = reader::line_from(f, at, 1);
    let stop = cut.stop;
    &f[at..stop]
}

// ---- the number on a line

// What a line of a section has for a number.
pub fn number_on(section: Section, text: &[u8]) -> Numbered
    ensures { result ≡ number_on section text.now }
{
    if lines::skips(text) {
        return Numbered::Skipped;
    }
    formed_number(section, text)
}

// The same of a line that is not skipped.
fn formed_number(section: Section, text: &[u8]) -> Numbered
    ensures { result ≡
        numbered_by (form_of (columns_of (line_kind section)) text.now) (key_on section text.now) }
{
    match forms::line_form(line_kind(section), text) {
        Ok(()) => Numbered::Number(key_on(section, text)),
        Err(column) => Numbered::Broken(column),
    }
}

// The kind of a section's lines.
fn line_kind(section: Section) -> LineKind
    ensures { result ≡ line_kind section }
{
    match section {
        Section::BitFields => LineKind::BitField,
        Section::Stops => LineKind::Stop,
        Section::Interchanges => LineKind::Interchange,
        Section::Classes => LineKind::CategoryClass,
    }
}

// A record's number, which starts in column 1; a category's is its code.
pub fn key_on(section: Section, text: &[u8]) -> u32
    ensures { result ≡ key_on section text.now }
{
    match section {
        Section::BitFields => field_number(text),
        Section::Stops => stop_number(text),
        Section::Interchanges => stop_number(text),
        Section::Classes => code_on(text),
    }
}

// A bit field's number: six digits, which a word holds.
fn field_number(text: &[u8]) -> u32
    ensures { result ≡ number (field_in bit_field_number text.now) }
{
    if 8 <= text.len() {
        let w = byte_words::word_at(text, 0);
        if byte_words::six_digits(w) {
            return byte_words::six_number(w);
        }
    }
    columns::number_in(text, bit_field::NUMBER, bit_field::NUMBER_END)
}

// A stop's: seven.
fn stop_number(text: &[u8]) -> u32
    ensures { result ≡ number (field_in stop_number text.now) }
{
    if 8 <= text.len() {
        let w = byte_words::word_at(text, 0);
        if byte_words::seven_digits(w) {
            return byte_words::seven_number(w);
        }
    }
    columns::number_in(text, stop::NUMBER, stop::NUMBER_END)
}

// A category's code as one number.
fn code_on(text: &[u8]) -> u32
    ensures { result ≡ three_bytes class_code.from text.now }
{
    timetable::three_bytes(text, class::CODE)
}

// ---- checks

// The own checks of every line of a file, whose records go into the words from `split` on. The words before it are the map of BAHNHOF, where UMSTEIGB is
// checked. An empty line is passed at once: there may be as many as bytes; and so is another that is skipped, without being handed on.
fn check_section(
    section: Section,
    f: &[u8],
    days: u32,
    bahnhof: &[u8],
    m: &mut [u32],
    split: usize,
) -> Result<(u32, u32), Offence>
    requires f_len_bound { length f.now ≤ most_file_bytes }
    requires days_le_most_period_days { days ≤ most_period_days }
    requires ready { Ready section f.now bahnhof.now split m.old }
    ensures value { result ≡ section_checked section days bahnhof.now f.now }
    ensures map_after { MapAfter section f.now result (drop split m.new) }
    ensures m_unchanged { take split m.new ≡ take split m.old }
{
    let mut at: usize = 0;
    let mut no: u32 = 1;
    let mut count: u32 = 0;
    // Kept: a walk over a file from line to line, no loop by an index
    while at < f.len() {
        if f[at] == b'\n' {
            at += 1;
            no += 1;
            continue;
        }
        if f[at] <= b'%' {
            let past = reader::past_skipped(f, at);
            if at < past {
                at = past;
                no += 1;
                continue;
            }
        }
        let cut = reader::line_from(f, at, no);
        let stop = cut.stop;
        let text = &f[at..stop];
        let n = number_on(section, text);
        line_verdict(
            section,
            n,
            &f[0..at],
            text,
            no,
            days,
            bahnhof,
            m,
            split,
            count,
        )?;
        count = put_number(n, m, split, count, at);
        at = cut.next;
        no = cut.no;
    }
    Ok((count, no))
}

// Puts the record of a line that starts at a place into the map from `split` on, which has so many, if the line holds one; how many there are then.
fn put_number(n: Numbered, m: &mut [u32], split: usize, count: u32, at: usize) -> u32
    requires { PutReady count split at m.old }
    ensures { Put n at count split m.old result m.new }
{
    match n {
        Numbered::Skipped => count,
        Numbered::Broken(column) => count,
        Numbered::Number(x) => {
            let end = m.len();
            map::put(&mut m[split..end], count as usize, x, at as u32);
            count + 1
        }
    }
}

// The own checks of line `no`, which has n for a number, after the part of its file before it, which has so many records: 4, then the record's own.
fn line_verdict(
    section: Section,
    n: Numbered,
    before: &[u8],
    text: &[u8],
    no: u32,
    days: u32,
    bahnhof: &[u8],
    m: &[u32],
    split: usize,
    count: u32,
) -> Result<(), Offence>
    requires days_le_most_period_days { days ≤ most_period_days }
    requires n_value { n ≡ number_on section text.now }
    requires count_value { count ≡ length (numbers section (lines_of before.now)) }
    requires reached { Reached section before.now bahnhof.now split m.now }
    ensures { result ≡
        line_verdict section days bahnhof.now before.now no text.now n }
{
    match n {
        Numbered::Skipped => Ok(()),
        Numbered::Broken(column) => {
            Err(Offence {
                number: 4,
                line: no,
                column,
            })
        }
        Numbered::Number(x) => {
            let seen = &m[split..m.len()];
            match section {
                Section::BitFields => field_verdict(x, before, seen, text, no, days),
                Section::Stops => named_stop_verdict(x, before, seen, text, no),
                Section::Interchanges => {
                    interchange_verdict(x, before, seen, no, bahnhof, &m[0..split], count)
                }
                // not asked for
                Section::Classes => Ok(()),
            }
        }
    }
}

// 7, 6 or 8: 000000, seen earlier, frame bits wrong. The line has its form, so its bits are hex digits.
fn field_verdict(
    number: u32,
    before: &[u8],
    seen: &[u32],
    text: &[u8],
    no: u32,
    days: u32,
) -> Result<(), Offence>
    requires days_le_most_period_days { days ≤ most_period_days }
    requires text_value { every is_hex (columns 8 103 text.now) ≡ true }
    requires seen { Seen BitFields (lines_of before.now) seen.now }
    ensures { result ≡ verdict_by (bit_field_offence days (bit_fields_in before.now) no
        (numbered_field number text.now)) }
{
    if number == 0 {
        return timetable::offends(7, no);
    }
    if has_number(Section::BitFields, before, seen, number) {
        return timetable::offends(6, no);
    }
    if bitfield::is_framed(bitfield::hex_words(text), days) {
        return Ok(());
    }
    timetable::offends(8, no)
}

// 39, then the others: the name field is no name list.
fn named_stop_verdict(
    number: u32,
    before: &[u8],
    seen: &[u32],
    text: &[u8],
    no: u32,
) -> Result<(), Offence>
    requires { Seen Stops (lines_of before.now) seen.now }
    ensures { result ≡
        verdict_by (named_stop_offence (stops_in before.now) no text.now (numbered_stop number)) }
{
    if name_field::is_named(text) {
        return stop_verdict(number, before, seen, no);
    }
    timetable::offends(39, no)
}

// 7 or 6: a number that no stop has, seen earlier.
fn stop_verdict(number: u32, before: &[u8], seen: &[u32], no: u32) -> Result<(), Offence>
    requires { Seen Stops (lines_of before.now) seen.now }
    ensures { result ≡ verdict_by (stop_offence (stops_in before.now) no (numbered_stop number)) }
{
    if is_barred(number) {
        return timetable::offends(7, no);
    }
    if has_number(Section::Stops, before, seen, number) {
        return timetable::offends(6, no);
    }
    Ok(())
}

// In UMSTEIGB the number that stands for all stops; no stop has it.
const ALL_STOPS: u32 = 9999999;

// Whether no stop has this number: 9999999, or ending 00000.
fn is_barred(number: u32) -> bool
    ensures { result ≡ (eqb number default_stop || eqb (number % 100000) 0) }
{
    if number == ALL_STOPS {
        return true;
    }
    number % 100000 == 0
}

// 7: the first record is not 9999999; after it 6 or 9: seen earlier, not in BAHNHOF.
fn interchange_verdict(
    number: u32,
    before: &[u8],
    seen: &[u32],
    no: u32,
    bahnhof: &[u8],
    stops: &[u32],
    count: u32,
) -> Result<(), Offence>
    requires count_value { count ≡ length (numbers Interchanges (lines_of before.now)) }
    requires seen { Seen Interchanges (lines_of before.now) seen.now }
    requires map_of { MapOf Stops bahnhof.now stops.now }
    ensures { result ≡ interchange_verdict bahnhof.now before.now no number }
{
    if count == 0 {
        if number == ALL_STOPS {
            return Ok(());
        }
        return timetable::offends(7, no);
    }
    if has_number(Section::Interchanges, before, seen, number) {
        return timetable::offends(6, no);
    }
    if known_stop(bahnhof, stops, number) {
        return Ok(());
    }
    timetable::offends(9, no)
}

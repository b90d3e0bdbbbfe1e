// The words that BITFELD, BAHNHOF, UMSTEIGB and ZUGART give to the table.
ghost use Rattle.std.specs.Prelude.{◌≡◌, [], ◌∷◌, true, ◌+◌, ◌≤◌, length};
ghost use Rattle.columns.specs.Columns.{number as number_in};
ghost use Rattle.columns.specs.LineFields.{field_in, stop_names, class_number};
ghost use Rattle.lines.specs.Lines.{lines_of};
ghost use Rattle.words.specs.Words.{write};
ghost use Rattle.timetable.specs.Layout.{most_file_bytes, bit_field_size, stop_size, interchange_size, class_size};
ghost use Rattle.names.specs.NameField.{name_length};
ghost use Rattle.sections.specs.Inner.Sections.{number_on, is_sound, sound_section};
ghost use Rattle.table_words.specs.Inner.SectionWords.{times_on, words_on, section_words};

use columns::line_fields::{class, interchange};
use lines::reader;
use names::name_field;
use sections::Section;
use timetable::{BIT_FIELD_WORDS, BIT_WORDS, CLASS_WORDS, INTERCHANGE_WORDS, STOP_WORDS};

// Writes the words of a section whose lines were checked from place p on; the place after them. No form is asked again, and lines that are skipped are passed
// at once, as in the check.
pub fn put_section(section: Section, f: &[u8], t: &mut [u32], p: usize) -> usize
    requires f_len_bound { length f.now ≤ most_file_bytes }
    requires f_value { sound_section section (lines_of f.now) ≡ true }
    requires f_in_bounds { p + length (section_words section (lines_of f.now)) ≤ length t.old }
    ensures value { result ≡ p + length (section_words section (lines_of f.now)) }
    ensures t_after { t.new ≡ write t.old p (section_words section (lines_of f.now)) }
{
    let mut at: usize = 0;
    let mut no: u32 = 1;
    let mut q = p;
    // Kept: a walk over a file from line to line, no loop by an index
    while at < f.len() {
        if f[at] == b'\n' {
            at += 1;
            no += 1;
            continue;
        }
        if f[at] <= b'%' {
            let past = reader::past_skipped(f, at);
            if at < past {
                at = past;
                no += 1;
                continue;
            }
        }
        let cut = reader::line_from(f, at, no);
        let stop = cut.stop;
        q = put_line(section, &f[at..stop], at, t, q);
        at = cut.next;
        no = cut.no;
    }
    q
}

// Writes the words of a line that starts at `start`, if it holds a record; the place after them.
fn put_line(section: Section, text: &[u8], start: usize, t: &mut [u32], q: usize) -> usize
    requires start_le_most_file_bytes { start ≤ most_file_bytes }
    requires text_value { is_sound (number_on section text.now) ≡ true }
    requires text_in_bounds { q + length (words_on section start text.now) ≤ length t.old }
    ensures value { result ≡ q + length (words_on section start text.now) }
    ensures t_after { t.new ≡ write t.old q (words_on section start text.now) }
{
    if lines::skips(text) {
        return q;
    }
    let number = sections::key_on(section, text);
    match section {
        Section::BitFields => put_bit_field(t, q, number, bitfield::hex_words(text)),
        Section::Stops => put_stop(t, q, number, start, text),
        Section::Interchanges => put_interchange(t, q, number, text),
        Section::Classes => put_class(t, q, number, text),
    }
}

fn put_bit_field(t: &mut [u32], q: usize, number: u32, bits: [u32; BIT_WORDS]) -> usize
    requires { q + bit_field_size ≤ length t.old }
    ensures value { result ≡ q + bit_field_size }
    ensures t_after { t.new ≡ write t.old q (number ∷ bits) }
{
    t[q] = number;
    words::put(t, q + 1, bits);
    q + BIT_FIELD_WORDS
}

fn put_stop(t: &mut [u32], q: usize, number: u32, start: usize, text: &[u8]) -> usize
    requires start_le_most_file_bytes { start ≤ most_file_bytes }
    requires stop_size_in_bounds { q + stop_size ≤ length t.old }
    ensures value { result ≡ q + stop_size }
    ensures t_after { t.new ≡
        write t.old q (number ∷ (start + 12) ∷ name_length (field_in stop_names text.now) ∷ []) }
{
    words::put(
        t,
        q,
        [number, (start + 12) as u32, name_field::name_length(text)],
    );
    q + STOP_WORDS
}

fn put_interchange(t: &mut [u32], q: usize, number: u32, text: &[u8]) -> usize
    requires { q + interchange_size ≤ length t.old }
    ensures value { result ≡ q + interchange_size }
    ensures t_after { t.new ≡ write t.old q (times_on text.now number) }
{
    words::put(
        t,
        q,
        [
            number,
            columns::number_in(text, interchange::FIRST, interchange::FIRST_END),
            columns::number_in(text, interchange::SECOND, interchange::SECOND_END),
        ],
    );
    q + INTERCHANGE_WORDS
}

fn put_class(t: &mut [u32], q: usize, code: u32, text: &[u8]) -> usize
    requires { q + class_size ≤ length t.old }
    ensures value { result ≡ q + class_size }
    ensures t_after { t.new ≡
        write t.old q (code ∷ number_in (field_in class_number text.now) ∷ []) }
{
    let class = columns::number_in(text, class::NUMBER, class::NUMBER_END);
    t[q] = code;
    t[q + 1] = class;
    q + CLASS_WORDS
}

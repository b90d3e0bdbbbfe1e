// ZUGART: the own checks of its lines, and look-ups of a category by its code. Its lines may be as many as codes are, and no words are lent for them. So a
// repeated code is found by passes over the file, one for each first byte that codes have, with a bit for each two bytes behind it; and the index for
// look-ups takes what UMSTEIGB's check has left, for as many lines as it has room for.
#![tactic(auto)]

ghost use Rattle.std.specs.Prelude.{◌≡◌, true, not, ◌+◌, ◌-◌, ◌≤◌, ◌<◌, length, drop, replicate};
ghost use Rattle.columns.specs.LineFields.{class_code};
ghost use Rattle.lines.specs.Lines.{lines_at, lines_of};
ghost use Rattle.timetable.specs.Layout.{most_file_bytes, helper_head};
ghost use Rattle.timetable.specs.Files.{held_in, class_of, classes_in, has_class};
ghost use Rattle.timetable.specs.Plan.{three_bytes};
ghost use Rattle.sections.specs.Inner.Sections.{is_sound, as_number};
ghost use Rattle.classes.specs.Inner.Passes.{classes_checked, broken_column, sound, FormedAs, no_code, LineCode};
ghost use Rattle.classes.specs.Inner.Passes.{first_byte, PassAs, RepeatAs};
ghost use Rattle.classes.specs.Inner.Passes.{Rising, above_on, mark_words, marked, with_mark, repeats_on, marks_with};
ghost use Rattle.classes.specs.Inner.Passes.{lesser};
ghost use Rattle.classes.specs.Inner.Passes.{TariffAs, group_on, other_group, group_with};
ghost use Rattle.classes.specs.Inner.Index.{holds_code, first_slot, end_slot, FreeSlot, FilledTo, IndexOf};
ghost use Rattle.classes.specs.Inner.Index.{IndexRoom};
ghost use Rattle.classes.specs.Inner.Index.{EnteredOn, PutOn, ClassesAfter, SlotSays};

use columns::line_fields::class;
use lines::reader;
use sections::{Numbered, Section};
use timetable::Offence;

// ---- the check

// A line by its place and its number; or the end of a file.
#[derive(Clone, Copy)]
struct Stand {
    pub at: usize,
    pub no: u32,
}

// The first line that breaks its form, the column, and how many records stand before it.
#[derive(Clone, Copy)]
struct Formed {
    pub at: usize,
    pub no: u32,
    pub count: u32,
    pub column: usize,
}

// The first line that repeats a code, and the next first byte that the codes before it have.
#[derive(Clone, Copy)]
struct Pass {
    pub at: usize,
    pub no: u32,
    pub next: u32,
}

// ZUGART may have no record. Each pass looks only at the lines before the one that the pass before it found: so the last to find one found the first offence.
pub fn check_classes(zugart: &[u8], index: &mut [u32]) -> Result<(u32, u32), Offence>
    requires zugart_len_bound { length zugart.now ≤ most_file_bytes }
    requires index_room { IndexRoom index.old }
    ensures value { result ≡ classes_checked zugart.now }
    ensures classes_after { ClassesAfter zugart.now result index.new }
{
    let formed = formed_lines(zugart);
    let end = formed.at;
    let repeat = first_repeat(&zugart[0..end]);
    let stop = repeat.at;
    let other = other_tariff(&zugart[0..stop]);
    if other.at < stop {
        return Err(timetable::offence_at(37, other.no));
    }
    if stop < end {
        return Err(timetable::offence_at(6, repeat.no));
    }
    if end < zugart.len() {
        return Err(Offence {
            number: 4,
            line: formed.no,
            column: formed.column,
        });
    }
    fill_index(zugart, index);
    Ok((formed.count, formed.no))
}

// ---- 4: a line breaks its form

fn formed_lines(f: &[u8]) -> Formed
    requires { length f.now ≤ most_file_bytes }
    ensures { FormedAs f.now result }
{
    let mut at: usize = 0;
    let mut no: u32 = 1;
    let mut count: u32 = 0;
    // Kept: a walk over a file from line to line, no loop by an index
    while at < f.len() {
        let cut = reader::line_from(f, at, no);
        let stop = cut.stop;
        let n = sections::number_on(Section::Classes, &f[at..stop]);
        if is_broken(n) {
            return Formed {
                at,
                no,
                count,
                column: column_of(n),
            };
        }
        count = count_with(n, count);
        at = cut.next;
        no = cut.no;
    }
    Formed {
        at,
        no,
        count,
        column: 0,
    }
}

fn is_broken(n: Numbered) -> bool
    ensures { result ≡ not (is_sound n) }
{
    match n {
        Numbered::Skipped => false,
        Numbered::Broken(column) => true,
        Numbered::Number(x) => false,
    }
}

fn column_of(n: Numbered) -> usize
    ensures { result ≡ broken_column n }
{
    match n {
        Numbered::Skipped => 0,
        Numbered::Broken(column) => column,
        Numbered::Number(x) => 0,
    }
}

// How many records there are with this line, after so many.
fn count_with(n: Numbered, count: u32) -> u32
    requires { count ≤ most_file_bytes }
    ensures { result ≡ count + length (as_number n) }
{
    match n {
        Numbered::Skipped => count,
        Numbered::Broken(column) => count,
        Numbered::Number(x) => count + 1,
    }
}

// ---- 6: a code stands twice

// How many first bytes there are.
const FIRST_BYTES: u32 = 256;

// A bit for each of the other two.
const MARK_WORDS: usize = 2048;

// Codes that rise from line to line, as exports list them, need no pass.
fn first_repeat(f: &[u8]) -> Stand
    requires f_len_bound { length f.now ≤ most_file_bytes }
    requires f_value { sound (lines_of f.now) ≡ true }
    ensures { RepeatAs f.now result }
{
    if rises(f) {
        return Stand { at: f.len(), no: 1 };
    }
    repeat_by_bytes(f)
}

fn rises(f: &[u8]) -> bool
    requires f_len_bound { length f.now ≤ most_file_bytes }
    requires f_value { sound (lines_of f.now) ≡ true }
    ensures { Rising f.now result }
{
    let mut at: usize = 0;
    let mut no: u32 = 1;
    let mut below: u32 = 0;
    // Kept: a walk over a file from line to line, no loop by an index
    while at < f.len() {
        let cut = reader::line_from(f, at, no);
        let stop = cut.stop;
        let code = line_code(&f[at..stop]);
        if code < below {
            return false;
        }
        below = above(code, below);
        at = cut.next;
        no = cut.no;
    }
    true
}

// The number after a line's code; as it was for a line that has none.
fn above(code: u32, below: u32) -> u32
    requires { code ≤ no_code }
    ensures { result ≡ above_on code below }
{
    if code == NO_CODE { below } else { code + 1 }
}

fn repeat_by_bytes(f: &[u8]) -> Stand
    requires f_len_bound { length f.now ≤ most_file_bytes }
    requires f_value { sound (lines_of f.now) ≡ true }
    ensures { RepeatAs f.now result }
{
    let mut pass = repeat_from(f, 0);
    // Kept: a chain of passes, each over the lines that the one before leaves; no loop by an index
    while pass.next < FIRST_BYTES {
        let at = pass.at;
        pass = repeat_from(&f[0..at], pass.next);
    }
    Stand {
        at: pass.at,
        no: pass.no,
    }
}

// The pass for first byte b.
fn repeat_from(f: &[u8], b: u32) -> Pass
    requires f_len_bound { length f.now ≤ most_file_bytes }
    requires f_value { sound (lines_of f.now) ≡ true }
    requires b_bound { b < 256 }
    ensures { PassAs f.now b result }
{
    let mut marks = [0u32; MARK_WORDS];
    marked_pass(f, b, &mut marks)
}

fn marked_pass(f: &[u8], b: u32, marks: &mut [u32]) -> Pass
    requires f_len_bound { length f.now ≤ most_file_bytes }
    requires f_value { sound (lines_of f.now) ≡ true }
    requires b_bound { b < 256 }
    requires marks_value { marks.old ≡ replicate mark_words 0 }
    ensures { PassAs f.now b result }
{
    let mut at: usize = 0;
    let mut no: u32 = 1;
    let mut next = FIRST_BYTES;
    // Kept: a walk over a file from line to line, no loop by an index
    while at < f.len() {
        let cut = reader::line_from(f, at, no);
        let stop = cut.stop;
        let code = line_code(&f[at..stop]);
        if repeats(code, b, marks) {
            return Pass { at, no, next };
        }
        next = next_first(code, b, next);
        at = cut.next;
        no = cut.no;
    }
    Pass { at, no, next }
}

// Whether a code begins with b and is marked; it is marked then.
fn repeats(code: u32, b: u32, marks: &mut [u32]) -> bool
    requires { length marks.old ≡ mark_words }
    ensures value { result ≡ repeats_on b code marks.old }
    ensures marks_after { marks.new ≡ marks_with b code marks.old }
{
    if code / 65536 == b {
        return mark(marks, code % 65536);
    }
    false
}

// Whether the mark of two bytes is set; it is set then.
fn mark(marks: &mut [u32], low: u32) -> bool
    requires marks_len { length marks.old ≡ mark_words }
    requires low_bound { low < 65536 }
    ensures value { result ≡ marked marks.old low }
    ensures marks_after { marks.new ≡ with_mark marks.old low }
{
    let i = (low / 32) as usize;
    let w = marks[i];
    let k = low % 32;
    marks[i] = w | (1u32 << k);
    (w >> k) % 2 == 1
}

// The least first byte after b, with this code's.
fn next_first(code: u32, b: u32, next: u32) -> u32
    ensures { result ≡ lesser b next (first_byte code) }
{
    let first = code / 65536;
    if b < first {
        if first < next {
            return first;
        }
    }
    next
}

// The code of a line; of one that is skipped a number above all codes.
fn line_code(text: &[u8]) -> u32
    ensures { LineCode text.now result }
{
    if lines::skips(text) {
        return NO_CODE;
    }
    code_on(text)
}

const NO_CODE: u32 = 16777216;

// A category's code as one number.
fn code_on(text: &[u8]) -> u32
    ensures value { result ≡ three_bytes class_code.from text.now }
    ensures upper_bound { result < no_code }
{
    timetable::two_bytes(text, class::CODE) * 256 + columns::column_at(text, class::CODE_END) as u32
}

// ---- 37: a tariff group is missing or alone

fn other_tariff(f: &[u8]) -> Stand
    requires f_len_bound { length f.now ≤ most_file_bytes }
    requires f_value { sound (lines_of f.now) ≡ true }
    ensures { TariffAs f.now result }
{
    let mut at: usize = 0;
    let mut no: u32 = 1;
    let mut group: u32 = 0;
    // Kept: a walk over a file from line to line, no loop by an index
    while at < f.len() {
        let cut = reader::line_from(f, at, no);
        let stop = cut.stop;
        let own = group_on(&f[at..stop]);
        if other_group(group, own) {
            return Stand { at, no };
        }
        group = group_with(group, own);
        at = cut.next;
        no = cut.no;
    }
    Stand { at, no }
}

// 1 for a line without a tariff group, 2 for one with it, 0 for one that is skipped.
fn group_on(text: &[u8]) -> u32
    ensures { result ≡ group_on text.now }
{
    if lines::skips(text) {
        return 0;
    }
    if columns::column_at(text, class::TARIFF) == b' ' {
        1
    } else {
        2
    }
}

fn other_group(group: u32, own: u32) -> bool
    ensures { result ≡ other_group group own }
{
    if group == 0 {
        return false;
    }
    if own == 0 {
        return false;
    }
    group != own
}

fn group_with(group: u32, own: u32) -> u32
    ensures { result ≡ group_with group own }
{
    if group == 0 { own } else { group }
}

// ---- the index

// Puts every line into the words, up to the first that finds no slot.
fn fill_index(f: &[u8], index: &mut [u32])
    requires f_len_bound { length f.now ≤ most_file_bytes }
    requires f_value { sound (lines_of f.now) ≡ true }
    requires index_room { IndexRoom index.old }
    ensures { IndexOf f.now index.new }
{
    let words = index.len();
    map::clear(index, words);
    let rest = put_lines(f, index);
    index[0] = rest as u32;
}

fn put_lines(f: &[u8], index: &mut [u32]) -> usize
    requires f_len_bound { length f.now ≤ most_file_bytes }
    requires f_value { sound (lines_of f.now) ≡ true }
    requires index_room { IndexRoom index.old }
    requires index_value { index.old ≡ replicate (length index.old) 0 }
    ensures { FilledTo f.now result index.new }
{
    let mut at: usize = 0;
    let mut no: u32 = 1;
    // Kept: a walk over a file from line to line, no loop by an index
    while at < f.len() {
        let cut = reader::line_from(f, at, no);
        let stop = cut.stop;
        let put = put_line(&f[at..stop], index, at);
        if !put {
            return at;
        }
        at = cut.next;
        no = cut.no;
    }
    at
}

// Whether the line that starts at a place, if it holds a record, has found a slot.
fn put_line(text: &[u8], index: &mut [u32], at: usize) -> bool
    requires at_le_most_file_bytes { at ≤ most_file_bytes }
    requires index_room { IndexRoom index.old }
    ensures { PutOn text.now at result index.old index.new }
{
    if lines::skips(text) {
        return true;
    }
    put_code(index, code_on(text), at)
}

fn put_code(index: &mut [u32], code: u32, at: usize) -> bool
    requires at_le_most_file_bytes { at ≤ most_file_bytes }
    requires index_room { IndexRoom index.old }
    ensures { EnteredOn code at result index.old index.new }
{
    let i = free_slot(index, code);
    if i < end_slot(index.len(), code) {
        index[i] = (at + 1) as u32;
        return true;
    }
    false
}

// A code's first slot that is free, or the place behind its slots.
fn free_slot(index: &[u32], code: u32) -> usize
    requires { IndexRoom index.now }
    ensures { FreeSlot code index.now result }
{
    let end = end_slot(index.len(), code);
    let mut i = first_slot(index.len(), code);
    while i < end {
        if index[i] == 0 {
            return i;
        }
        i += 1;
    }
    i
}

// A code's first slot: its bucket among the first seven eighths of the words.
fn first_slot(words: usize, code: u32) -> usize
    requires { (helper_head ≤ words) × (words < 4294967296) }
    ensures value { result ≡ first_slot words code }
    ensures upper_bound { result < words }
{
    1 + chains::bucket(words - words / 8 - 1, code)
}

// The place behind the last: some hundreds, so that no look-up is long.
fn end_slot(words: usize, code: u32) -> usize
    requires { (helper_head ≤ words) × (words < 4294967296) }
    ensures { result ≡ end_slot words code }
{
    let end = first_slot(words, code) + 512;
    if end < words { end } else { words }
}

// ---- look-ups

// Whether ZUGART lists a category of this code.
pub fn known_class(zugart: &[u8], index: &[u32], code: u32) -> bool
    requires { IndexOf zugart.now index.now }
    ensures { result ≡ has_class code (classes_in zugart.now) }
{
    if has_slot(zugart, index, code) {
        return true;
    }
    has_class(zugart, index[0] as usize, code)
}

// Whether one of a code's slots has it.
fn has_slot(zugart: &[u8], index: &[u32], code: u32) -> bool
    requires { IndexOf zugart.now index.now }
    ensures { SlotSays code zugart.now index.now result }
{
    let end = end_slot(index.len(), code);
    let mut i = first_slot(index.len(), code);
    while i < end {
        let w = index[i];
        if w == 0 {
            return false;
        }
        if code_at(zugart, w) == code {
            return true;
        }
        i += 1;
    }
    false
}

// The code that a slot's word stands for.
fn code_at(zugart: &[u8], w: u32) -> u32
    requires { (0 < w) × (w ≤ length zugart.now) }
    ensures { result ≡ three_bytes class_code.from (drop (w - 1) zugart.now) }
{
    let at = (w - 1) as usize;
    code_on(&zugart[at..zugart.len()])
}

// Whether a line from a place on holds a category of this code. The lines have their form; their numbers do not matter, so they count from 1.
fn has_class(f: &[u8], from: usize, code: u32) -> bool
    requires f_len_bound { length f.now ≤ most_file_bytes }
    requires from_value { sound (lines_at f.now from 1) ≡ true }
    ensures { result ≡ has_class code (held_in class_of (lines_at f.now from 1)) }
{
    let mut at = from;
    let mut no: u32 = 1;
    // Kept: a walk over a file from line to line, no loop by an index
    while at < f.len() {
        let cut = reader::line_from(f, at, no);
        let stop = cut.stop;
        if holds_code(&f[at..stop], code) {
            return true;
        }
        at = cut.next;
        no = cut.no;
    }
    false
}

fn holds_code(text: &[u8], code: u32) -> bool
    ensures { result ≡ holds_code code text.now }
{
    if code_on(text) == code {
        return !lines::skips(text);
    }
    false
}

// FPLAN written from a table into lent bytes, in one clean form (document 02, No. 11). `w` are the words of just a table, `s` those from a service's record
// on; each line has 59 columns and LF.
#![tactic(auto)]

ghost use Rattle.std.specs.Prelude.{◌≡◌, true, ◌+◌, ◌*◌, ◌≤◌, length, drop};
ghost use Rattle.timetable.specs.Layout.{service_head};
ghost use Rattle.timetable.specs.Table.{calls#, opening_at, table_of, sizes_sound};
ghost use Rattle.words.specs.Words.{write};
ghost use Rattle.table.specs.JustTable.{JustTable};
ghost use Rattle.plan_text.specs.PlanText.{with_lf};
ghost use Rattle.plan_services.specs.Services.{opening_line};
ghost use Rattle.service_lines.specs.Inner.Record.{range_size, part_count, Standing};
ghost use Rattle.plan_writing.specs.Writing.{table_text, plan_answer, plan_bytes};
ghost use Rattle.plan_writing.specs.Inner.Record.{range_text, part_text, calls_text, record_text};

use timetable::{
    CALL_WORDS, CALLS_AT, FIRST_SERVICE_AT, KIND_Z, RangeKind, Refusal, SERVICE_WORDS, SERVICES_AT,
};

// Why nothing was written, and the bytes needed (0 unless 45).
#[derive(Clone, Copy)]
pub struct WriteRefusal {
    pub refusal: Refusal,
    pub needed: usize,
}

// The bytes of a line, with LF.
const LINE: usize = 60;

// "VE" as two bytes.
const VE: u32 = b'V' as u32 * 256 + b'E' as u32;

// Writes the services of a table from the front of the bytes, and says how many: 21, 44, 45 too few bytes. A refusal leaves the bytes as lent.
pub fn write_plan(w: &[u32], text: &mut [u8]) -> Result<usize, WriteRefusal>
    ensures answer { result ≡ plan_answer w.now (length text.old) }
    ensures bytes { text.new ≡ plan_bytes w.now text.old }
{
    if !table::is_table(w) {
        return Err(WriteRefusal {
            refusal: Refusal::NoTable,
            needed: 0,
        });
    }
    write_table(table::used_words(w), text)
}

// The same of just a table.
fn write_table(w: &[u32], text: &mut [u8]) -> Result<usize, WriteRefusal>
    requires { JustTable w.now }
    ensures answer { result ≡ plan_answer w.now (length text.old) }
    ensures bytes { text.new ≡ plan_bytes w.now text.old }
{
    if !service_lines::services_writable(w) {
        return Err(WriteRefusal {
            refusal: Refusal::NotWritable,
            needed: 0,
        });
    }
    let needed = LINE * service_lines::count_lines(w);
    if text.len() < needed {
        return Err(WriteRefusal {
            refusal: Refusal::TextTooShort,
            needed,
        });
    }
    put_services(w, text);
    Ok(needed)
}

// ---- services

// Writes the lines of all services from the front of the bytes.
fn put_services(w: &[u32], text: &mut [u8])
    requires just_table { JustTable w.now }
    requires w_in_bounds { length (table_text w.now) ≤ length text.old }
    ensures { text.new ≡ write text.old 0 (table_text w.now) }
{
    let mut at = table::size(w[FIRST_SERVICE_AT]);
    let mut q = 0;
    for _ in 0..w[SERVICES_AT] {
        q = put_service(w, &w[at..], text, q);
        at += table::size(w[at]);
    }
}

// Writes the lines of a service from place q on, and says where they end: the opening line, all *G, all *A VE, other *A, then calls.
fn put_service(w: &[u32], s: &[u32], text: &mut [u8], q: usize) -> usize
    requires standing { Standing w.now s.now }
    requires s_in_bounds { q + length (record_text w.now s.now) ≤ length text.old }
    ensures end { result ≡ q + length (record_text w.now s.now) }
    ensures bytes { text.new ≡
        write text.old q (record_text w.now s.now) }
{
    put_first(s, text, q);
    let days = put_ranges(s, RangeKind::Category, text, q + LINE);
    let extras = put_ranges(s, RangeKind::Days, text, days);
    let calls = put_ranges(s, RangeKind::Extra, text, extras);
    put_calls(w, s, text, calls)
}

// Writes its opening line.
fn put_first(s: &[u32], text: &mut [u8], q: usize)
    requires service_head_in_bounds { service_head ≤ length s.now }
    requires q_in_bounds { q + 60 ≤ length text.old }
    ensures { text.new ≡
        write text.old q (with_lf (opening_line (opening_at s.now))) }
{
    let o = table::opening_at(s);
    if o.kind == KIND_Z {
        plan_text::put_opening(text, q, o);
        return;
    }
    plan_text::put_frequency(text, q, o);
}

// ---- ranges

// Writes the lines of a part's ranges, and says where they end.
fn put_ranges(s: &[u32], part: RangeKind, text: &mut [u8], at: usize) -> usize
    requires s_value { sizes_sound s.now ≡ true }
    requires s_in_bounds { at + 60 * part_count part s.now ≤ length text.old }
    ensures end { result ≡ at + 60 * part_count part s.now }
    ensures bytes { text.new ≡ write text.old at (part_text part s.now) }
{
    let mut p = service_lines::part_place(s, part);
    let mut q = at;
    for _ in 0..service_lines::part_count(s, part) {
        put_range(s, part, p, text, q);
        p += service_lines::range_words(part);
        q += LINE;
    }
    q
}

// Writes the line of the range at a place.
fn put_range(s: &[u32], part: RangeKind, p: usize, text: &mut [u8], q: usize)
    requires part_in_bounds { p + range_size part ≤ length s.now }
    requires q_in_bounds { q + 60 ≤ length text.old }
    ensures { text.new ≡
        write text.old q (with_lf (range_text part (drop p s.now))) }
{
    match part {
        RangeKind::Category => {
            let r = timetable::category_at(s, p);
            plan_text::put_category(text, q, r.name, r.from, r.to)
        }
        RangeKind::Days => {
            let r = timetable::day_at(s, p);
            plan_text::put_attribute(text, q, VE, r.field, r.from, r.to)
        }
        RangeKind::Extra => {
            let r = timetable::extra_at(s, p);
            plan_text::put_attribute(text, q, r.code, r.field, r.from, r.to)
        }
    }
}

// ---- calls

// Writes the schedule lines, and says where they end.
fn put_calls(w: &[u32], s: &[u32], text: &mut [u8], at: usize) -> usize
    requires standing { Standing w.now s.now }
    requires s_in_bounds { at + 60 * calls# s.now ≤ length text.old }
    ensures end { result ≡ at + 60 * calls# s.now }
    ensures bytes { text.new ≡
        write text.old at (calls_text (table_of w.now).stops s.now) }
{
    let mut p = SERVICE_WORDS;
    let mut q = at;
    for _ in 0..s[CALLS_AT] {
        plan_text::put_call(text, q, service_lines::call_shown(w, s, p));
        p += CALL_WORDS;
        q += LINE;
    }
    q
}

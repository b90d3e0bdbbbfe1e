// A delivery of six files to the table, or its first offence. Nothing is written into the table before everything is checked; meanwhile the helper
// words hold the maps of BITFELD, BAHNHOF and UMSTEIGB and, where UMSTEIGB's was, the index of ZUGART, until all is written.
#![tactic(auto)]

ghost use Rattle.std.specs.Prelude.{◌≡◌, ◌++◌, ◌+◌, ◌-◌, ◌≤◌, length, take, drop, replicate};
ghost use Rattle.lines.specs.Lines.{lines_of};
ghost use Rattle.timetable.specs.Layout.{helper_head, most_file_bytes, most_period_days};
ghost use Rattle.timetable.specs.Delivery.{files_of};
ghost use Rattle.timetable.specs.Offences.{checked_by};
ghost use Rattle.timetable.specs.Files.{bit_fields_in, bit_fields_first, stops_in, stops_first, interchanges_in};
ghost use Rattle.timetable.specs.Files.{interchanges_first, classes_in, classes_first};
ghost use Rattle.timetable.specs.Service.{blocks};
ghost use Rattle.timetable.specs.Checks.{plan_first};
ghost use Rattle.timetable.specs.Load.{delivered, content_offence, loaded, written, helped};
ghost use Rattle.draft.specs.Inner.Draft.{calls_lent, ranges_lent};
ghost use Rattle.reading.specs.Inner.Maps.{FieldMap, StopMap, ClassIndex};
ghost use Rattle.reading.specs.Inner.Services.{block_words};
ghost use Rattle.load.specs.Inner.Delivered.{long_in, Few, FewHeld, header_by, header_or_offence, header_of, refused_in};
ghost use Rattle.load.specs.Inner.Delivered.{delivered_by, answered, left};
ghost use Rattle.load.specs.Inner.Helper.{Short, needed_of, Emptied, LentAt, IndexLent, FieldsAfter, StopsAfter};
ghost use Rattle.load.specs.Inner.Helper.{IndexAfter, StopsStand};

use lines::reader;
use table_words::Header;
use timetable::{
    BIT_FIELD_WORDS, CLASS_WORDS, HEADER_WORDS, HELPER_HEAD_WORDS, HELPER_LINE_WORDS,
    INTERCHANGE_WORDS, Loaded, MOST_FILE_BYTES, Offence, STOP_WORDS,
};

// The first offence of the files, with its file.
#[derive(Clone, Copy)]
pub struct FileOffence {
    pub file: u32,
    pub offence: Offence,
}

// What was counted in the files: the first day and the days of the period, the records of each section, and the words of the services.
#[derive(Clone, Copy)]
struct Counted {
    pub start: u32,
    pub days: u32,
    pub fields: u32,
    pub stops: u32,
    pub interchanges: u32,
    pub classes: u32,
    pub services: u32,
    pub words: u32,
}

pub fn load(
    eckdaten: &[u8],
    bitfeld: &[u8],
    bahnhof: &[u8],
    umsteigb: &[u8],
    fplan: &[u8],
    zugart: &[u8],
    table: &mut [u32],
    helper: &mut [u32],
) -> Loaded
    ensures value { result ≡ loaded
        (files_of eckdaten.now bitfeld.now bahnhof.now umsteigb.now fplan.now zugart.now)
        (length table.old) (length helper.old) }
    ensures table_after { table.new ≡ written
        (files_of eckdaten.now bitfeld.now bahnhof.now umsteigb.now fplan.now zugart.now)
        table.old (length helper.old) }
    ensures helper_after { helper.new ≡ helped
        (files_of eckdaten.now bitfeld.now bahnhof.now umsteigb.now fplan.now zugart.now)
        helper.old }
{
    let long = too_long(
        eckdaten.len(),
        bitfeld.len(),
        bahnhof.len(),
        umsteigb.len(),
        zugart.len(),
        fplan.len(),
    );
    if long != 0 {
        return Loaded::Refused {
            number: 1,
            file: long,
            line: 0,
            column: 0,
            needed: 0,
        };
    }
    let needed = helper_needed(bitfeld, bahnhof, umsteigb);
    if helper.len() < needed.words {
        return Loaded::Refused {
            number: 51,
            file: 0,
            line: 0,
            column: 0,
            needed: needed.words as u32,
        };
    }
    load_lent(
        eckdaten, bitfeld, bahnhof, umsteigb, fplan, zugart, needed, table, helper,
    )
}

// ---- the helper words

// What the maps take of them: the words for the lines of BITFELD and of BAHNHOF; and all words needed.
#[derive(Clone, Copy)]
struct Needed {
    pub fields: usize,
    pub stops: usize,
    pub words: usize,
}

fn helper_needed(bitfeld: &[u8], bahnhof: &[u8], umsteigb: &[u8]) -> Needed
    requires { (length bitfeld.now ≤ most_file_bytes) × (length bahnhof.now ≤ most_file_bytes)
        × (length umsteigb.now ≤ most_file_bytes) }
    ensures { result ≡ needed_of bitfeld.now bahnhof.now umsteigb.now }
{
    let fields = reader::lines_in(bitfeld) as usize;
    let stops = reader::lines_in(bahnhof) as usize;
    let interchanges = reader::lines_in(umsteigb) as usize;
    Needed {
        fields: HELPER_LINE_WORDS * fields,
        stops: HELPER_LINE_WORDS * stops,
        words: HELPER_HEAD_WORDS + HELPER_LINE_WORDS * (fields + stops + interchanges),
    }
}

// The load with the maps and the index in words that hold 0 before and after, where there are enough.
fn load_lent(
    eckdaten: &[u8],
    bitfeld: &[u8],
    bahnhof: &[u8],
    umsteigb: &[u8],
    fplan: &[u8],
    zugart: &[u8],
    needed: Needed,
    table: &mut [u32],
    helper: &mut [u32],
) -> Loaded
    requires short { Short eckdaten.now bitfeld.now bahnhof.now umsteigb.now fplan.now zugart.now }
    requires needed_value { needed ≡ needed_of bitfeld.now bahnhof.now umsteigb.now }
    requires words_in_bounds { needed.words ≤ length helper.old }
    ensures value { result ≡ answered
        (files_of eckdaten.now bitfeld.now bahnhof.now umsteigb.now fplan.now zugart.now)
        (length table.old) }
    ensures table_after { table.new ≡ left
        (files_of eckdaten.now bitfeld.now bahnhof.now umsteigb.now fplan.now zugart.now)
        table.old }
    ensures helper_after { helper.new ≡ replicate needed.words 0 ++ drop needed.words helper.old }
{
    let words = needed.words;
    map::clear(helper, words);
    let loaded = load_mapped(
        eckdaten,
        bitfeld,
        bahnhof,
        umsteigb,
        fplan,
        zugart,
        needed,
        table,
        &mut helper[0..words],
    );
    map::clear(helper, needed.words);
    loaded
}

// The same with words that hold 0 for the maps and the index. The words for the drafts of services are made here, once for the check and the writing.
fn load_mapped(
    eckdaten: &[u8],
    bitfeld: &[u8],
    bahnhof: &[u8],
    umsteigb: &[u8],
    fplan: &[u8],
    zugart: &[u8],
    needed: Needed,
    table: &mut [u32],
    m: &mut [u32],
) -> Loaded
    requires short { Short eckdaten.now bitfeld.now bahnhof.now umsteigb.now fplan.now zugart.now }
    requires emptied { Emptied bitfeld.now bahnhof.now umsteigb.now needed m.old }
    ensures value { result ≡ answered
        (files_of eckdaten.now bitfeld.now bahnhof.now umsteigb.now fplan.now zugart.now)
        (length table.old) }
    ensures table_after { table.new ≡ left
        (files_of eckdaten.now bitfeld.now bahnhof.now umsteigb.now fplan.now zugart.now)
        table.old }
{
    let mut calls = [0u32; draft::CALLS_LENT];
    let mut ranges = [0u32; draft::RANGES_LENT];
    load_drafting(
        eckdaten,
        bitfeld,
        bahnhof,
        umsteigb,
        fplan,
        zugart,
        needed,
        table,
        m,
        &mut calls,
        &mut ranges,
    )
}

// The same with words lent for the drafts. The table is written while the maps stand: its calls point by the map of BAHNHOF.
fn load_drafting(
    eckdaten: &[u8],
    bitfeld: &[u8],
    bahnhof: &[u8],
    umsteigb: &[u8],
    fplan: &[u8],
    zugart: &[u8],
    needed: Needed,
    table: &mut [u32],
    m: &mut [u32],
    calls: &mut [u32],
    ranges: &mut [u32],
) -> Loaded
    requires short { Short eckdaten.now bitfeld.now bahnhof.now umsteigb.now fplan.now zugart.now }
    requires emptied { Emptied bitfeld.now bahnhof.now umsteigb.now needed m.old }
    requires calls_lent_in_bounds { (calls_lent ≤ length calls.old) × (ranges_lent ≤ length ranges.old) }
    ensures value { result ≡ answered
        (files_of eckdaten.now bitfeld.now bahnhof.now umsteigb.now fplan.now zugart.now)
        (length table.old) }
    ensures table_after { table.new ≡ left
        (files_of eckdaten.now bitfeld.now bahnhof.now umsteigb.now fplan.now zugart.now)
        table.old }
{
    let counted = check_delivery(
        eckdaten, bitfeld, bahnhof, umsteigb, fplan, zugart, needed, m, calls, ranges,
    );
    let delivered = header_or_offence(counted);
    match delivered {
        Err(first) => Loaded::Refused {
            number: first.offence.number,
            file: first.file,
            line: first.offence.line,
            column: first.offence.column,
            needed: 0,
        },
        Ok(header) => {
            let used = header.words;
            if table.len() < used as usize {
                return Loaded::Refused {
                    number: 20,
                    file: 0,
                    line: 0,
                    column: 0,
                    needed: used,
                };
            }
            let at = needed.fields;
            let end = at + needed.stops;
            table_words::put_table(
                header,
                bitfeld,
                bahnhof,
                &m[at..end],
                umsteigb,
                fplan,
                zugart,
                calls,
                ranges,
                table,
            );
            Loaded::Accepted(used)
        }
    }
}

// ---- the checks: files 1 to 4, 6 and 5 ("ZUGART is file 6, its lengths and lines checked after UMSTEIGB's"), with words that hold 0 for the maps of
// BITFELD, BAHNHOF and UMSTEIGB, in this order; only ZUGART's index is asked after them, and stands where the map of UMSTEIGB was

fn check_delivery(
    eckdaten: &[u8],
    bitfeld: &[u8],
    bahnhof: &[u8],
    umsteigb: &[u8],
    fplan: &[u8],
    zugart: &[u8],
    needed: Needed,
    m: &mut [u32],
    calls: &mut [u32],
    ranges: &mut [u32],
) -> Result<Counted, FileOffence>
    requires short { Short eckdaten.now bitfeld.now bahnhof.now umsteigb.now fplan.now zugart.now }
    requires emptied { Emptied bitfeld.now bahnhof.now umsteigb.now needed m.old }
    requires calls_lent_in_bounds { (calls_lent ≤ length calls.old) × (ranges_lent ≤ length ranges.old) }
    ensures value { header_or_offence result ≡ delivered_by
        (content_offence
        (files_of eckdaten.now bitfeld.now bahnhof.now umsteigb.now fplan.now
        zugart.now))
        (header_of
        (delivered
        (files_of eckdaten.now bitfeld.now bahnhof.now umsteigb.now fplan.now
        zugart.now))) }
    ensures few { FewHeld result }
    ensures stops_stand { StopsStand bahnhof.now needed.fields needed.stops (header_or_offence result) m.new }
{
    let (start, days) = in_file(1, period::check_period(eckdaten))?;
    let (fields, _) = in_file(2, fields_in(bitfeld, days, m, needed.fields))?;
    let (stops, _) = in_file(3, stops_in(bahnhof, m, needed.fields, needed.stops))?;
    let (interchanges, _) = in_file(
        4,
        interchanges_in(umsteigb, bahnhof, m, needed.fields, needed.stops),
    )?;
    let (classes, _) = in_file(6, classes_in(zugart, m, needed.fields, needed.stops))?;
    let (services, words) = in_file(
        5,
        plan_by(
            fplan, bitfeld, bahnhof, zugart, days, m, needed, calls, ranges,
        ),
    )?;
    Ok(Counted {
        start,
        days,
        fields,
        stops,
        interchanges,
        classes,
        services,
        words,
    })
}

// BITFELD, its map in the first words, so many.
fn fields_in(bitfeld: &[u8], days: u32, m: &mut [u32], words: usize) -> Result<(u32, u32), Offence>
    requires bitfeld_len_bound { (length bitfeld.now ≤ most_file_bytes) × (days ≤ most_period_days) }
    requires lent_at { LentAt bitfeld.now 0 words m.old }
    ensures value { result ≡ checked_by (bit_fields_first days (lines_of bitfeld.now)) (length (bit_fields_in bitfeld.now))
        (length (lines_of bitfeld.now) + 1) }
    ensures fields_after { FieldsAfter bitfeld.now result words m.old m.new }
{
    sections::check_bit_fields(bitfeld, days, &mut m[0..words])
}

// BAHNHOF, its map in so many words from place `at` on.
fn stops_in(bahnhof: &[u8], m: &mut [u32], at: usize, words: usize) -> Result<(u32, u32), Offence>
    requires bahnhof_len_bound { length bahnhof.now ≤ most_file_bytes }
    requires lent_at { LentAt bahnhof.now at words m.old }
    ensures value { result ≡ checked_by (stops_first (lines_of bahnhof.now)) (length (stops_in bahnhof.now))
        (length (lines_of bahnhof.now) + 1) }
    ensures stops_after { StopsAfter bahnhof.now result at words m.old m.new }
{
    sections::check_stops(bahnhof, &mut m[at..at + words])
}

// UMSTEIGB, its map behind that of BAHNHOF, which takes so many words from place `at` on.
fn interchanges_in(
    umsteigb: &[u8],
    bahnhof: &[u8],
    m: &mut [u32],
    at: usize,
    words: usize,
) -> Result<(u32, u32), Offence>
    requires umsteigb_len_bound { (length umsteigb.now ≤ most_file_bytes) × (at + words + helper_head ≤ length m.old) }
    requires stop_map { StopMap bahnhof.now (take words (drop at m.old)) }
    requires lent_at { LentAt umsteigb.now (at + words) (length m.old - helper_head - (at + words)) m.old }
    ensures value { result ≡ checked_by (interchanges_first (stops_in bahnhof.now) (lines_of umsteigb.now))
        (length (interchanges_in umsteigb.now)) (length (lines_of umsteigb.now) + 1) }
    ensures m_unchanged { take (at + words) m.new ≡ take (at + words) m.old }
{
    let end = m.len() - HELPER_HEAD_WORDS;
    sections::check_interchanges(umsteigb, bahnhof, &mut m[at..end], words)
}

// ZUGART, its index behind the map of BAHNHOF, which takes so many words from place `at` on, where the map of UMSTEIGB was.
fn classes_in(zugart: &[u8], m: &mut [u32], at: usize, words: usize) -> Result<(u32, u32), Offence>
    requires zugart_len_bound { length zugart.now ≤ most_file_bytes }
    requires index_lent { IndexLent at words m.old }
    ensures value { result ≡ checked_by (classes_first (lines_of zugart.now)) (length (classes_in zugart.now))
        (length (lines_of zugart.now) + 1) }
    ensures index_after { IndexAfter zugart.now result at words m.old m.new }
{
    let end = m.len();
    classes::check_classes(zugart, &mut m[at + words..end])
}

// FPLAN, with the maps of BITFELD, in the first words, and of BAHNHOF, behind them, and the index of ZUGART, in the rest.
fn plan_by(
    fplan: &[u8],
    bitfeld: &[u8],
    bahnhof: &[u8],
    zugart: &[u8],
    days: u32,
    m: &[u32],
    needed: Needed,
    calls: &mut [u32],
    ranges: &mut [u32],
) -> Result<(u32, u32), Offence>
    requires fplan_len_bound { (length fplan.now ≤ most_file_bytes) × (days ≤ most_period_days)
        × (needed.fields + needed.stops + helper_head ≤ length m.now) }
    requires field_map { FieldMap bitfeld.now (take needed.fields m.now) ×
        StopMap bahnhof.now (take needed.stops (drop needed.fields m.now)) ×
        ClassIndex zugart.now (drop (needed.fields + needed.stops) m.now) }
    requires calls_lent_in_bounds { (calls_lent ≤ length calls.old) × (ranges_lent ≤ length ranges.old) }
    ensures { result ≡ checked_by
        (plan_first (bit_fields_in bitfeld.now) (stops_in bahnhof.now)
        (classes_in zugart.now) days (lines_of fplan.now))
        (length (blocks (lines_of fplan.now)))
        (length (block_words (blocks (lines_of fplan.now)))) }
{
    let at = needed.fields;
    let fields = &m[0..at];
    let stops = &m[at..at + needed.stops];
    let end = m.len();
    let index = &m[at + needed.stops..end];
    plan_check::check_plan(
        fplan, bitfeld, fields, bahnhof, stops, zugart, index, days, calls, ranges,
    )
}

// The first file of over 16,777,216 bytes, by the sizes of the six; 0 where none is.
fn too_long(
    eckdaten: usize,
    bitfeld: usize,
    bahnhof: usize,
    umsteigb: usize,
    zugart: usize,
    fplan: usize,
) -> u32
    ensures { result ≡ long_in eckdaten bitfeld bahnhof umsteigb zugart fplan }
{
    if MOST_FILE_BYTES < eckdaten {
        return 1;
    }
    if MOST_FILE_BYTES < bitfeld {
        return 2;
    }
    if MOST_FILE_BYTES < bahnhof {
        return 3;
    }
    if MOST_FILE_BYTES < umsteigb {
        return 4;
    }
    if MOST_FILE_BYTES < zugart {
        return 6;
    }
    if MOST_FILE_BYTES < fplan {
        return 5;
    }
    0
}

// What the check of a file says, its offence with the file.
fn in_file(file: u32, checked: Result<(u32, u32), Offence>) -> Result<(u32, u32), FileOffence>
    ensures { result ≡ refused_in file checked }
{
    match checked {
        Err(offence) => Err(FileOffence { file, offence }),
        Ok(held) => Ok(held),
    }
}

// The header of the table where no file offends, or the first offence.
fn header_or_offence(counted: Result<Counted, FileOffence>) -> Result<Header, FileOffence>
    requires { FewHeld counted }
    ensures { result ≡ header_or_offence counted }
{
    match counted {
        Err(first) => Err(first),
        Ok(counts) => Ok(header_of(counts)),
    }
}

// The table's header, from what was counted.
fn header_of(counts: Counted) -> Header
    requires { Few counts }
    ensures { result ≡ header_by counts.start counts.days counts.fields counts.stops counts.interchanges
        counts.classes counts.services counts.words }
{
    let first = HEADER_WORDS as u32
        + BIT_FIELD_WORDS as u32 * counts.fields
        + STOP_WORDS as u32 * counts.stops
        + INTERCHANGE_WORDS as u32 * counts.interchanges
        + CLASS_WORDS as u32 * counts.classes;
    Header {
        words: first + counts.words,
        start: counts.start,
        n: counts.days,
        fields: counts.fields,
        stops: counts.stops,
        interchanges: counts.interchanges,
        services: counts.services,
        first,
        classes: counts.classes,
    }
}

// Reads FPLAN service by service: each line of a service is cut and told once, and drafted. A service ends where the next line that opens one
// starts, or with the file.
#![tactic(auto)]

ghost use Rattle.std.specs.Prelude.{◌≡◌, ◌++◌, true, ◌+◌, ◌-◌, ◌≤◌, ◌<◌, length, take, drop, leb};
ghost use Rattle.lines.specs.Lines.{cut_at};
ghost use Rattle.timetable.specs.Layout.{most_file_bytes, most_calls};
ghost use Rattle.timetable.specs.Offences.{verdict_by};
ghost use Rattle.timetable.specs.Files.{bit_fields_in, stops_in, classes_in};
ghost use Rattle.forms.specs.Kinds.{kind_of};
ghost use Rattle.timetable.specs.Plan.{told_in, as_call, as_range, as_opening, is_opening};
ghost use Rattle.timetable.specs.Service.{first_opening};
ghost use Rattle.timetable.specs.Legs.{field_known};
ghost use Rattle.timetable.specs.Checks.{most, category_listed};
ghost use Rattle.draft.specs.Inner.Draft.{calls_lent, ranges_lent, calls_on, ranges_on, on_line, calls_after, counted};
ghost use Rattle.draft.specs.Inner.Draft.{ranges#, Within};
ghost use Rattle.reading.specs.Inner.Maps.{FieldMap, StopMap, ClassIndex};
ghost use Rattle.reading.specs.Inner.Reading.{service_lines_at, Boundary, Sound, Reaching, is_formed, ServiceRead};
ghost use Rattle.reading.specs.Inner.Reading.{ReadAs, HeadAs, ends_head, head_by, NextAs};
ghost use Rattle.reading.specs.Inner.Reading.{count_of, category_after, range_after, call_after, form_after};
ghost use Rattle.reading.specs.Inner.Reading.{offence_after};

use columns::line_fields::plan_line;
use draft::{Counts, Drafted};
use forms::Kind;
use lines::reader::Reader;
use lines::{Cut, reader};
use timetable::{Offence, Opening, RangeKind, Told};

// A service that was checked or written: the words that it takes, and where the next begins (the place and the number of its opening line, or of the
// file's end).
#[derive(Clone, Copy)]
pub struct Taken {
    pub words: u32,
    pub end: usize,
    pub no: u32,
}

// A line of a service: what it says, and the place and the number of the line after it.
#[derive(Clone, Copy)]
struct LineTold {
    pub said: Told,
    pub next: usize,
    pub no: u32,
}

// The end of the lines before the first service. Where that begins: the place and the number of its line (the file's end, where there is none); or the
// first line before it that is not skipped (12). One reader passes the lines; the first that it may not pass is the answer.
pub fn head_end(f: &[u8]) -> Result<(usize, u32), Offence>
    requires { length f.now ≤ most_file_bytes }
    ensures { HeadAs f.now result }
{
    let mut reader = Reader {
        file: f,
        at: 0,
        no: 1,
    };
    // Kept: a walk from line to line, no loop by an index
    while reader.at < f.len() {
        let at = reader.at;
        let no = reader.no;
        let cut = reader.next_line();
        if ends_head(f, at, cut.stop) {
            return head_at(f, at, no, cut.stop);
        }
    }
    Ok((reader.at, reader.no))
}

// Whether a line ends the lines before the first service: it opens a service, or is not skipped.
fn ends_head(f: &[u8], at: usize, stop: usize) -> bool
    requires { (at ≤ stop) × (stop ≤ length f.now) }
    ensures { result ≡ ends_head (take (stop - at) (drop at f.now)) }
{
    if timetable::is_opening(forms::kind_of(&f[at..stop])) {
        return true;
    }
    !lines::skips(&f[at..stop])
}

// What such a line is: the first service begins with it, or it is the first that is not skipped (12).
fn head_at(f: &[u8], at: usize, no: u32, stop: usize) -> Result<(usize, u32), Offence>
    requires { (at ≤ stop) × (stop ≤ length f.now) }
    ensures { result ≡ head_by (is_opening (kind_of (take (stop - at) (drop at f.now)))) at no }
{
    if timetable::is_opening(forms::kind_of(&f[at..stop])) {
        return Ok((at, no));
    }
    Err(timetable::offence_at(12, no))
}

// Reads the service that begins at a place, with line `no`, checks each of its lines (11, 4, 13, 9, 10, 38) and drafts it. Bit fields are looked
// up in BITFELD, stops in BAHNHOF, categories in ZUGART: `fields` and `stops` are the maps of the first two, `index` is the index of the third. The draft,
// or the first own offence of the lines.
#[tactic(auto, using(crate::proofs::Checking::checking))]
pub fn read_checked(
    fplan: &[u8],
    at: usize,
    no: u32,
    bitfeld: &[u8],
    fields: &[u32],
    bahnhof: &[u8],
    stops: &[u32],
    zugart: &[u8],
    index: &[u32],
    calls: &mut [u32],
    ranges: &mut [u32],
) -> Result<Drafted, Offence>
    requires boundary { Boundary fplan.now at no × (at < length fplan.now) }
    requires field_map { FieldMap bitfeld.now fields.now × StopMap bahnhof.now stops.now × ClassIndex zugart.now
        index.now }
    requires calls_lent_in_bounds { (calls_lent ≤ length calls.old) × (ranges_lent ≤ length ranges.old) }
    ensures { ReadAs (bit_fields_in bitfeld.now) (stops_in bahnhof.now) (classes_in zugart.now) fplan.now at
        no result calls.new ranges.new }
{
    let cut = reader::line_from(fplan, at, no);
    let stop = cut.stop;
    let first = told::told_first(&fplan[at..stop]);
    let mut counts = draft::no_counts();
    if let Err(offence) = first_offence(first, no) {
        return Err(offence);
    }
    let opening = opening_of(first);
    let mut end = cut.next;
    let mut line = cut.no;
    // Kept: a walk from line to line, no loop by an index
    while let Some(after) = next_line(fplan, end, line) {
        if let Err(offence) = offence_after(
            counts, after.said, line, bitfeld, fields, bahnhof, stops, zugart, index,
        ) {
            return Err(offence);
        }
        counts = draft::draft_line(opening, after.said, line, counts, calls, ranges);
        end = after.next;
        line = after.no;
    }
    Ok(Drafted {
        opening,
        line: no,
        counts,
        end,
        no: line,
    })
}

// Reads the service that begins at a place, with line `no`, and drafts it, where its lines were checked: no form is asked again.
pub fn read_again(
    fplan: &[u8],
    at: usize,
    no: u32,
    calls: &mut [u32],
    ranges: &mut [u32],
) -> Drafted
    requires boundary { Boundary fplan.now at no × (at < length fplan.now) }
    requires sound { Sound (service_lines_at fplan.now at no) }
    requires calls_lent_in_bounds { (calls_lent ≤ length calls.old) × (ranges_lent ≤ length ranges.old) }
    ensures { ServiceRead fplan.now at no result calls.new ranges.new }
{
    let cut = reader::line_from(fplan, at, no);
    let stop = cut.stop;
    let opening = opening_of(told::told_first(&fplan[at..stop]));
    let mut counts = draft::no_counts();
    let mut end = cut.next;
    let mut line = cut.no;
    // Kept: a walk from line to line, no loop by an index
    while end < fplan.len() {
        let after = cut_again(fplan, end, line);
        let last = after.stop;
        let kind = forms::kind_of(&fplan[end..last]);
        if timetable::is_opening(kind) {
            return Drafted {
                opening,
                line: no,
                counts,
                end,
                no: line,
            };
        }
        counts = draft_again(
            opening,
            kind,
            &fplan[end..last],
            line,
            counts,
            calls,
            ranges,
        );
        end = after.next;
        line = after.no;
    }
    Drafted {
        opening,
        line: no,
        counts,
        end,
        no: line,
    }
}

// The line that starts at a place, where the lines were checked: a schedule line has its mark in column 59, so that its end is not looked for before it.
fn cut_again(fplan: &[u8], at: usize, no: u32) -> Cut
    requires at_in_bounds { at < length fplan.now }
    requires no_bound { no < 4294967295 }
    requires reaching { Reaching fplan.now at }
    ensures { result ≡ cut_at fplan.now at no }
{
    if columns::is_digit(fplan[at]) {
        return reader::line_beyond(fplan, at, no, plan_line::MARK);
    }
    reader::line_from(fplan, at, no)
}

// Drafts a line of a kind whose form is not broken.
fn draft_again(
    opening: Opening,
    kind: Kind,
    text: &[u8],
    line: u32,
    counts: Counts,
    calls: &mut [u32],
    ranges: &mut [u32],
) -> Counts
    requires kind_value { (kind ≡ kind_of text.now) × (is_formed (told_in text.now) ≡ true) }
    requires within { Within (counted counts (told_in text.now)) }
    requires calls_lent_in_bounds { (calls_lent ≤ length calls.old) × (ranges_lent ≤ length ranges.old) }
    ensures value { result ≡ counted counts (told_in text.now) }
    ensures calls_after { calls_on result.calls calls.new ≡ calls_after opening (calls_on counts.calls calls.old) line
        (as_call (told_in text.now)) }
    ensures ranges_after { ranges_on (ranges# result) ranges.new ≡ ranges_on (ranges# counts) ranges.old ++ on_line line
        (as_range (told_in text.now)) }
{
    if let Kind::Schedule = kind {
        return draft::draft_call(opening, told::call_in(text), line, counts, calls);
    }
    if let Kind::Category = kind {
        return draft::draft_range(told::category_in(text), line, counts, ranges);
    }
    let Kind::Attribute = kind else {
        return counts;
    };
    draft::draft_range(told::attribute_in(text), line, counts, ranges)
}

// The line of a service that starts at a place, if the service has one there. An opening line is not told here: its own service tells it.
fn next_line(fplan: &[u8], at: usize, no: u32) -> Option<LineTold>
    requires { (length fplan.now ≤ most_file_bytes) × (at ≤ length fplan.now) × (no ≤ at + 1) }
    ensures { NextAs fplan.now at no result }
{
    if fplan.len() <= at {
        return None;
    }
    let cut = reader::line_from(fplan, at, no);
    let stop = cut.stop;
    let kind = forms::kind_of(&fplan[at..stop]);
    if timetable::is_opening(kind) {
        return None;
    }
    Some(LineTold {
        said: told::told_of(kind, &fplan[at..stop]),
        next: cut.next,
        no: cut.no,
    })
}

// What an opening line says.
fn opening_of(said: Told) -> Opening
    ensures { result ≡ first_opening (as_opening said) }
{
    let Told::Opens(opening) = said else {
        return Opening {
            number: 0,
            high: 0,
            low: 0,
            repeats: 0,
            offset: 0,
            kind: 0,
        };
    };
    opening
}

// ---- a line's own offence, where so much of its service is counted before it

// Of a service's first line.
fn first_offence(said: Told, line: u32) -> Result<(), Offence>
    ensures { result ≡ verdict_by (form_after line said) }
{
    let Told::Broken(column) = said else {
        return Ok(());
    };
    Err(Offence {
        number: 4,
        line,
        column,
    })
}

fn offence_after(
    counts: Counts,
    said: Told,
    line: u32,
    bitfeld: &[u8],
    fields: &[u32],
    bahnhof: &[u8],
    stops: &[u32],
    zugart: &[u8],
    index: &[u32],
) -> Result<(), Offence>
    requires { FieldMap bitfeld.now fields.now × StopMap bahnhof.now stops.now × ClassIndex zugart.now
        index.now }
    ensures { result ≡ verdict_by
        (offence_after (bit_fields_in bitfeld.now) (stops_in bahnhof.now) (classes_in zugart.now) counts line said) }
{
    match said {
        Told::Skip => Ok(()),
        Told::Other => timetable::offends(11, line),
        Told::Broken(column) => Err(Offence {
            number: 4,
            line,
            column,
        }),
        Told::Opens(opening) => Ok(()),
        Told::Ranges(range) => {
            let part = range.part;
            range_offence(
                counts,
                part,
                range.field,
                range.name,
                line,
                bitfeld,
                fields,
                zugart,
                index,
            )
        }
        Told::Calls(call) => call_offence(counts, call.stop, line, bahnhof, stops),
    }
}

// 13, 10, and last in its line 38.
fn range_offence(
    counts: Counts,
    part: RangeKind,
    field: u32,
    name: u32,
    line: u32,
    bitfeld: &[u8],
    fields: &[u32],
    zugart: &[u8],
    index: &[u32],
) -> Result<(), Offence>
    requires { FieldMap bitfeld.now fields.now × ClassIndex zugart.now index.now }
    ensures { result ≡ verdict_by (range_after (bit_fields_in bitfeld.now) (classes_in zugart.now)
        counts line part field name) }
{
    if full(counts, part) {
        return timetable::offends(13, line);
    }
    if field_known(bitfeld, fields, field) {
        return category_offence(part, name, line, zugart, index);
    }
    timetable::offends(10, line)
}

// 38: a *G line's category is not listed.
fn category_offence(
    part: RangeKind,
    name: u32,
    line: u32,
    zugart: &[u8],
    index: &[u32],
) -> Result<(), Offence>
    requires { ClassIndex zugart.now index.now }
    ensures { result ≡ verdict_by (category_after (classes_in zugart.now) line part name) }
{
    if category_listed(part, name, zugart, index) {
        return Ok(());
    }
    timetable::offends(38, line)
}

fn call_offence(
    counts: Counts,
    stop: u32,
    line: u32,
    bahnhof: &[u8],
    stops: &[u32],
) -> Result<(), Offence>
    requires { StopMap bahnhof.now stops.now }
    ensures { result ≡ verdict_by (call_after (stops_in bahnhof.now) counts line stop) }
{
    if timetable::MOST_CALLS <= counts.calls {
        return timetable::offends(13, line);
    }
    if sections::known_stop(bahnhof, stops, stop) {
        return Ok(());
    }
    timetable::offends(9, line)
}

// Whether a service has as many ranges of a kind as it may have.
fn full(counts: Counts, part: RangeKind) -> bool
    ensures { result ≡ leb (most part) (count_of part counts) }
{
    match part {
        RangeKind::Category => timetable::MOST_CATEGORIES <= counts.categories,
        RangeKind::Days => timetable::MOST_DAYS <= counts.days,
        RangeKind::Extra => timetable::MOST_EXTRAS <= counts.extras,
    }
}

// Whether a bit field is daily or in BITFELD.
fn field_known(bitfeld: &[u8], fields: &[u32], field: u32) -> bool
    requires { FieldMap bitfeld.now fields.now }
    ensures { result ≡ field_known field (bit_fields_in bitfeld.now) }
{
    if field == 0 {
        return true;
    }
    sections::known_field(bitfeld, fields, field)
}

// Whether a range's category is in ZUGART; a range of another kind has none.
fn category_listed(part: RangeKind, name: u32, zugart: &[u8], index: &[u32]) -> bool
    requires { ClassIndex zugart.now index.now }
    ensures { result ≡ category_listed part name (classes_in zugart.now) }
{
    match part {
        RangeKind::Category => classes::known_class(zugart, index, name),
        RangeKind::Days => true,
        RangeKind::Extra => true,
    }
}

// The words of a delivery that was checked, written into a table that has room for them.
#![tactic(auto)]

ghost use Rattle.std.specs.Prelude.{◌≡◌, ◌++◌, true, ◌+◌, ◌≤◌, length};
ghost use Rattle.std.proofs.Math.Option.{none};
ghost use Rattle.lines.specs.Lines.{lines_of};
ghost use Rattle.words.specs.Words.{write};
ghost use Rattle.timetable.specs.Layout.{header_size, most_file_bytes};
ghost use Rattle.timetable.specs.Service.{blocks};
ghost use Rattle.timetable.specs.Checks.{head_first};
ghost use Rattle.draft.specs.Inner.Draft.{calls_lent, ranges_lent};
ghost use Rattle.reading.specs.Inner.Maps.{StopMap};
ghost use Rattle.plan_words.specs.Inner.Services.{all_sound};
ghost use Rattle.table_words.specs.Inner.Words.{header_words, sections_words, body_words, SectionsSound};

use sections::Section;
use timetable::HEADER_WORDS;

pub mod section_words;

// The table's header: the words used, the period, how many records each section has, and the place of the first service. "The last being the count of
// categories".
#[derive(Clone, Copy)]
pub struct Header {
    pub words: u32,
    pub start: u32,
    pub n: u32,
    pub fields: u32,
    pub stops: u32,
    pub interchanges: u32,
    pub services: u32,
    pub first: u32,
    pub classes: u32,
}

// The header, and what each file gives, one after the other. `stops` is the map of BAHNHOF; `calls` and `ranges` are lent for the drafts of services.
pub fn put_table(
    h: Header,
    bitfeld: &[u8],
    bahnhof: &[u8],
    stops: &[u32],
    umsteigb: &[u8],
    fplan: &[u8],
    zugart: &[u8],
    calls: &mut [u32],
    ranges: &mut [u32],
    t: &mut [u32],
)
    requires bitfeld_len_bound { (length bitfeld.now ≤ most_file_bytes) × (length bahnhof.now ≤ most_file_bytes) × (length umsteigb.now ≤ most_file_bytes) ×
        (length zugart.now ≤ most_file_bytes) × (length fplan.now ≤ most_file_bytes) }
    requires stop_map { StopMap bahnhof.now stops.now }
    requires calls_lent_in_bounds { (calls_lent ≤ length calls.old) × (ranges_lent ≤ length ranges.old) }
    requires fplan_value { (head_first (lines_of fplan.now) ≡ none) × (all_sound (blocks (lines_of fplan.now)) ≡ true) }
    requires fplan_in_bounds { header_size + length (body_words bitfeld.now bahnhof.now umsteigb.now zugart.now fplan.now) ≤
        length t.old }
    requires sections_sound { SectionsSound bitfeld.now bahnhof.now umsteigb.now zugart.now }
    ensures { t.new ≡ write t.old 0
        (header_words h ++ body_words bitfeld.now bahnhof.now umsteigb.now zugart.now fplan.now) }
{
    put_header(h, t);
    let services = put_sections(bitfeld, bahnhof, umsteigb, zugart, t, HEADER_WORDS);
    plan_words::put_plan(fplan, bahnhof, stops, calls, ranges, t, services);
}

fn put_header(h: Header, t: &mut [u32])
    requires { header_size ≤ length t.old }
    ensures { t.new ≡ write t.old 0 (header_words h) }
{
    words::put(t, 0, [h.words, h.start, h.n]);
    words::put(t, 3, [h.fields, h.stops, h.interchanges]);
    words::put(t, 6, [h.services, h.first, h.classes]);
}

// The sections before the services, from place q on; the place after them.
fn put_sections(
    bitfeld: &[u8],
    bahnhof: &[u8],
    umsteigb: &[u8],
    zugart: &[u8],
    t: &mut [u32],
    q: usize,
) -> usize
    requires bitfeld_len_bound { (length bitfeld.now ≤ most_file_bytes) × (length bahnhof.now ≤ most_file_bytes) × (length umsteigb.now ≤ most_file_bytes) ×
        (length zugart.now ≤ most_file_bytes) }
    requires zugart_in_bounds { q + length (sections_words bitfeld.now bahnhof.now umsteigb.now zugart.now) ≤ length t.old }
    requires sections_sound { SectionsSound bitfeld.now bahnhof.now umsteigb.now zugart.now }
    ensures { (result ≡ q + length (sections_words bitfeld.now bahnhof.now umsteigb.now zugart.now)) ×
        (t.new ≡ write t.old q
        (sections_words bitfeld.now bahnhof.now umsteigb.now zugart.now)) }
{
    let stops = section_words::put_section(Section::BitFields, bitfeld, t, q);
    let interchanges = section_words::put_section(Section::Stops, bahnhof, t, stops);
    let classes = section_words::put_section(Section::Interchanges, umsteigb, t, interchanges);
    section_words::put_section(Section::Classes, zugart, t, classes)
}

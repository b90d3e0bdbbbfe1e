// The words of FPLAN written, service by service, where it has no offence.
#![tactic(auto)]

ghost use Rattle.std.specs.Prelude.{◌≡◌, true, ◌+◌, ◌≤◌, ◌<◌, length};
ghost use Rattle.std.proofs.Math.Option.{none};
ghost use Rattle.lines.specs.Lines.{lines_of, lines_at};
ghost use Rattle.words.specs.Words.{write};
ghost use Rattle.timetable.specs.Layout.{most_file_bytes};
ghost use Rattle.timetable.specs.Files.{stops_in};
ghost use Rattle.timetable.specs.Service.{blocks, service_of};
ghost use Rattle.timetable.specs.Checks.{head_first};
ghost use Rattle.timetable.specs.Table.{service_words, pointing};
ghost use Rattle.draft.specs.Inner.Draft.{calls_lent, ranges_lent};
ghost use Rattle.reading.specs.Inner.Maps.{StopMap};
ghost use Rattle.reading.specs.Inner.Reading.{service_lines_at, Boundary, Sound};
ghost use Rattle.reading.specs.Inner.Services.{ServiceTaken, block_words};
ghost use Rattle.plan_words.specs.Inner.Services.{placed_words, all_sound};

use reading::Taken;

// Writes the words of every service into the table from place `at` on, where FPLAN has no offence. `stops` is the map of BAHNHOF, which the calls
// point by; `calls` and `ranges` are lent for the drafts.
#[tactic(auto, using(crate::proofs::Putting::beginning))]
pub fn put_plan(
    fplan: &[u8],
    bahnhof: &[u8],
    stops: &[u32],
    calls: &mut [u32],
    ranges: &mut [u32],
    table: &mut [u32],
    at: usize,
)
    requires fplan_len_bound { length fplan.now ≤ most_file_bytes }
    requires stop_map { StopMap bahnhof.now stops.now }
    requires fplan_value { head_first (lines_of fplan.now) ≡ none }
    requires fplan_value_2 { all_sound (blocks (lines_of fplan.now)) ≡ true }
    requires calls_lent_in_bounds { (calls_lent ≤ length calls.old) × (ranges_lent ≤ length ranges.old) }
    requires fplan_in_bounds { at + length (placed_words (stops_in bahnhof.now) (blocks (lines_of fplan.now))) ≤ length
        table.old }
    ensures { table.new ≡ write table.old at
        (placed_words (stops_in bahnhof.now) (blocks (lines_of fplan.now))) }
{
    let Ok((start, first)) = reading::head_end(fplan) else {
        return;
    };
    put_services(
        fplan, start, first, bahnhof, stops, calls, ranges, table, at,
    );
}

// The same of the services from place `start` on, where line `first` opens one or the file ends.
#[tactic(auto, using(crate::proofs::Putting::putting))]
fn put_services(
    fplan: &[u8],
    start: usize,
    first: u32,
    bahnhof: &[u8],
    stops: &[u32],
    calls: &mut [u32],
    ranges: &mut [u32],
    table: &mut [u32],
    at: usize,
)
    requires boundary { Boundary fplan.now start first }
    requires stop_map { StopMap bahnhof.now stops.now }
    requires first_value { all_sound (blocks (lines_at fplan.now start first)) ≡ true }
    requires calls_lent_in_bounds { (calls_lent ≤ length calls.old) × (ranges_lent ≤ length ranges.old) }
    requires first_in_bounds { at + length (block_words (blocks (lines_at fplan.now start first))) ≤ length table.old }
    ensures { table.new ≡ write table.old at
        (placed_words (stops_in bahnhof.now) (blocks (lines_at fplan.now start first))) }
{
    let mut place = start;
    let mut no = first;
    let mut to = at;
    // Kept: a walk from service to service, no loop by an index
    while place < fplan.len() {
        let put = put_service(fplan, place, no, bahnhof, stops, calls, ranges, table, to);
        to += put.words as usize;
        place = put.end;
        no = put.no;
    }
}

// Writes the words of the service that begins at a place, with line `no`.
#[tactic(auto, using(crate::proofs::Putting::holding))]
fn put_service(
    fplan: &[u8],
    at: usize,
    no: u32,
    bahnhof: &[u8],
    stops: &[u32],
    calls: &mut [u32],
    ranges: &mut [u32],
    table: &mut [u32],
    to: usize,
) -> Taken
    requires boundary { Boundary fplan.now at no × (at < length fplan.now) }
    requires stop_map { StopMap bahnhof.now stops.now }
    requires sound { Sound (service_lines_at fplan.now at no) }
    requires calls_lent_in_bounds { (calls_lent ≤ length calls.old) × (ranges_lent ≤ length ranges.old) }
    requires no_in_bounds { to + length (service_words (service_of (service_lines_at fplan.now at no))) ≤ length table.old }
    ensures service_taken { ServiceTaken fplan.now at no result.words result.end result.no }
    ensures table_after { table.new ≡ write table.old to
        (service_words (pointing (stops_in bahnhof.now)
        (service_of (service_lines_at fplan.now at no)))) }
{
    let read = reading::read_again(fplan, at, no, calls, ranges);
    let words = service_words::service_into(read, calls, ranges, bahnhof, stops, table, to);
    Taken {
        words,
        end: read.end,
        no: read.no,
    }
}

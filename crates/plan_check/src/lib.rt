// FPLAN checked, service by service.
#![tactic(auto)]

ghost use Rattle.std.specs.Prelude.{◌≡◌, ◌≤◌, length};
ghost use Rattle.lines.specs.Lines.{lines_of, lines_at};
ghost use Rattle.timetable.specs.Layout.{most_file_bytes, most_period_days};
ghost use Rattle.timetable.specs.Offences.{checked_by};
ghost use Rattle.timetable.specs.Files.{bit_fields_in, stops_in, classes_in};
ghost use Rattle.timetable.specs.Service.{blocks};
ghost use Rattle.timetable.specs.Checks.{services_first, plan_first};
ghost use Rattle.draft.specs.Inner.Draft.{calls_lent, ranges_lent};
ghost use Rattle.reading.specs.Inner.Maps.{FieldMap, StopMap, ClassIndex};
ghost use Rattle.reading.specs.Inner.Reading.{Boundary};
ghost use Rattle.reading.specs.Inner.Services.{block_words};

use timetable::Offence;

// The first offence of FPLAN, or how many services it has and how many words they take. `fields` and `stops` are the maps of BITFELD and BAHNHOF, `index`
// is the index of ZUGART; `calls` and `ranges` are lent for the drafts.
#[tactic(auto, using(crate::proofs::Checking::planning))]
pub fn check_plan(
    fplan: &[u8],
    bitfeld: &[u8],
    fields: &[u32],
    bahnhof: &[u8],
    stops: &[u32],
    zugart: &[u8],
    index: &[u32],
    days: u32,
    calls: &mut [u32],
    ranges: &mut [u32],
) -> Result<(u32, u32), Offence>
    requires fplan_len_bound { (length fplan.now ≤ most_file_bytes) × (days ≤ most_period_days) }
    requires field_map { FieldMap bitfeld.now fields.now × StopMap bahnhof.now stops.now × ClassIndex zugart.now
        index.now }
    requires calls_lent_in_bounds { (calls_lent ≤ length calls.old) × (ranges_lent ≤ length ranges.old) }
    ensures { result ≡ checked_by
        (plan_first (bit_fields_in bitfeld.now) (stops_in bahnhof.now)
        (classes_in zugart.now) days (lines_of fplan.now))
        (length (blocks (lines_of fplan.now)))
        (length (block_words (blocks (lines_of fplan.now)))) }
{
    let (start, first) = reading::head_end(fplan)?;
    check_services(
        fplan, start, first, bitfeld, fields, bahnhof, stops, zugart, index, days, calls, ranges,
    )
}

// The same of the services from place `start` on, where line `first` opens one or the file ends.
#[tactic(auto, using(crate::proofs::Checking::checking))]
fn check_services(
    fplan: &[u8],
    start: usize,
    first: u32,
    bitfeld: &[u8],
    fields: &[u32],
    bahnhof: &[u8],
    stops: &[u32],
    zugart: &[u8],
    index: &[u32],
    days: u32,
    calls: &mut [u32],
    ranges: &mut [u32],
) -> Result<(u32, u32), Offence>
    requires boundary { Boundary fplan.now start first × (days ≤ most_period_days) }
    requires field_map { FieldMap bitfeld.now fields.now × StopMap bahnhof.now stops.now × ClassIndex zugart.now
        index.now }
    requires calls_lent_in_bounds { (calls_lent ≤ length calls.old) × (ranges_lent ≤ length ranges.old) }
    ensures { result ≡ checked_by
        (services_first (bit_fields_in bitfeld.now) (stops_in bahnhof.now)
        (classes_in zugart.now) days (blocks (lines_at fplan.now start first)))
        (length (blocks (lines_at fplan.now start first)))
        (length (block_words (blocks (lines_at fplan.now start first)))) }
{
    let mut at = start;
    let mut line = first;
    let mut count: u32 = 0;
    let mut total: u32 = 0;
    // Kept: a walk from service to service, no loop by an index
    while at < fplan.len() {
        let checked = service::check_service(
            fplan, at, line, bitfeld, fields, bahnhof, stops, zugart, index, days, calls, ranges,
        );
        let taken = match checked {
            Ok(taken) => taken,
            Err(offence) => return Err(offence),
        };
        count += 1;
        total += taken.words;
        at = taken.end;
        line = taken.no;
    }
    Ok((count, total))
}

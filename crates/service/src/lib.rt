// The checks of one service of FPLAN: every line's own checks as it is read, then the service's on its draft, the last of them on the words of its
// *G and *A VE ranges.
#![tactic(auto)]

ghost use Rattle.std.specs.Prelude.{◌≡◌, true, ℕ, ◌+◌, ◌-◌, ◌*◌, ◌≤◌, ◌<◌, length};
ghost use Rattle.base.specs.Lists.{every, below};
ghost use Rattle.cover.specs.Inner.Cover.{once_in};
ghost use Rattle.bitfield.specs.BitField.{runs_on};
ghost use Rattle.timetable.specs.Layout.{category_size, day_size, most_period_days, record_size};
ghost use Rattle.timetable.specs.Delivery.{DayRange};
ghost use Rattle.timetable.specs.Offences.{verdict_by};
ghost use Rattle.timetable.specs.Files.{bit_fields_in, stops_in, classes_in};
ghost use Rattle.timetable.specs.Legs.{field_runs};
ghost use Rattle.timetable.specs.Checks.{each_once};
ghost use Rattle.timetable.specs.Table.{rows_in, category_at, day_at};
ghost use Rattle.draft.specs.Inner.Draft.{calls_lent, ranges_lent, Within};
ghost use Rattle.reading.specs.Inner.Maps.{FieldMap, StopMap, ClassIndex};
ghost use Rattle.reading.specs.Inner.Reading.{Boundary};
ghost use Rattle.service.specs.Inner.Answers.{CheckedAs, Counted, service_in, draft_first, check_by};
ghost use Rattle.service.specs.Inner.Answers.{ranges_first, rows_first, days_first, rows_broken, rows_torn};

use draft::{Counts, Drafted};
use reading::Taken;
use timetable::{
    BIT_WORDS, CALL_WORDS, CATEGORY_WORDS, DAYS_WORDS, EXTRA_WORDS, MOST_CATEGORIES, MOST_DAYS,
    Offence, SERVICE_WORDS,
};

pub mod schedule;

// The service that begins at a place, with line `no`: every line's own checks, then 14 to 19. `fields` and `stops` are the maps of BITFELD and
// BAHNHOF, `index` is the index of ZUGART; `calls` and `ranges` are lent for its draft. The words that it takes and where the next begins, or its first
// offence.
#[tactic(auto, using(crate::proofs::Drafts::serving))]
pub fn check_service(
    fplan: &[u8],
    at: usize,
    no: u32,
    bitfeld: &[u8],
    fields: &[u32],
    bahnhof: &[u8],
    stops: &[u32],
    zugart: &[u8],
    index: &[u32],
    days: u32,
    calls: &mut [u32],
    ranges: &mut [u32],
) -> Result<Taken, Offence>
    requires at_in_bounds { (at < length fplan.now) × (days ≤ most_period_days) × (calls_lent ≤ length calls.old)
        × (ranges_lent ≤ length ranges.old) }
    requires boundary { Boundary fplan.now at no }
    requires field_map { FieldMap bitfeld.now fields.now × StopMap bahnhof.now stops.now × ClassIndex zugart.now
        index.now }
    ensures { CheckedAs (bit_fields_in bitfeld.now) (stops_in bahnhof.now)
        (classes_in zugart.now) days fplan.now at no result }
{
    let d = reading::read_checked(
        fplan, at, no, bitfeld, fields, bahnhof, stops, zugart, index, calls, ranges,
    )?;
    draft_checks(d, calls, ranges, bitfeld, fields, days)
}

// ---- 14 to 19 of a drafted service

#[tactic(auto, using(crate::proofs::Order::drafting))]
fn draft_checks(
    d: Drafted,
    calls: &[u32],
    ranges: &[u32],
    bitfeld: &[u8],
    fields: &[u32],
    days: u32,
) -> Result<Taken, Offence>
    requires counted { Counted d.counts calls.now ranges.now }
    requires days_le_most_period_days { days ≤ most_period_days }
    requires field_map { FieldMap bitfeld.now fields.now }
    ensures { result ≡ check_by
        (draft_first (bit_fields_in bitfeld.now) days d calls.now ranges.now)
        (service_in d calls.now ranges.now) d }
{
    let counts = d.counts;
    let c = counts.calls;
    if c < 2 {
        return Err(timetable::offence_at(14, d.line));
    }
    if let Err(offence) = schedule::times_wrong(calls, c) {
        return Err(offence);
    }
    if let Err(offence) = ranges_wrong(d, calls, ranges, bitfeld, fields, days) {
        return Err(offence);
    }
    Ok(Taken {
        words: words_of(counts),
        end: d.end,
        no: d.no,
    })
}

// The words that so many calls and ranges take.
fn words_of(counts: Counts) -> u32
    requires { Within counts }
    ensures { result ≡ record_size counts.calls counts.categories counts.days counts.extras }
{
    let ranges = CATEGORY_WORDS as u32 * counts.categories
        + DAYS_WORDS as u32 * counts.days
        + EXTRA_WORDS as u32 * counts.extras;
    SERVICE_WORDS as u32 + CALL_WORDS as u32 * counts.calls + ranges
}

// ---- 16 to 19 of such a service: the ends of its ranges are found once

fn ranges_wrong(
    d: Drafted,
    calls: &[u32],
    ranges: &[u32],
    bitfeld: &[u8],
    fields: &[u32],
    days: u32,
) -> Result<(), Offence>
    requires counted { Counted d.counts calls.now ranges.now }
    requires le_calls { (2 ≤ d.counts.calls) × (days ≤ most_period_days) }
    requires field_map { FieldMap bitfeld.now fields.now }
    ensures { result ≡ verdict_by (ranges_first (bit_fields_in bitfeld.now) days d calls.now
        ranges.now) }
{
    let counts = d.counts;
    let n = draft::range_count(counts);
    let mut categories = [0u32; CATEGORY_WORDS * MOST_CATEGORIES as usize];
    let mut operating = [0u32; DAYS_WORDS * MOST_DAYS as usize];
    schedule::find_ends(
        ranges,
        n,
        calls,
        counts.calls,
        &mut categories,
        &mut operating,
    )?;
    legs_wrong(
        &categories,
        &operating,
        counts,
        d.line,
        bitfeld,
        fields,
        days,
    )
}

// 17 to 19, where `categories` holds the *G ranges and `operating` the *A VE ranges that are counted.
fn legs_wrong(
    categories: &[u32],
    operating: &[u32],
    counts: Counts,
    line: u32,
    bitfeld: &[u8],
    fields: &[u32],
    days: u32,
) -> Result<(), Offence>
    requires category_size_in_bounds { (counts.categories * category_size ≤ length categories.now)
        × (counts.days * day_size ≤ length operating.now) }
    requires le_calls { (2 ≤ counts.calls) × (days ≤ most_period_days) }
    requires field_map { FieldMap bitfeld.now fields.now }
    ensures { result ≡ verdict_by (rows_first (bit_fields_in bitfeld.now) days line (counts.calls - 1)
        (rows_in category_at category_size counts.categories categories.now)
        (rows_in day_at day_size counts.days operating.now)) }
{
    let legs = counts.calls - 1;
    if each_once(categories, counts.categories, CATEGORY_WORDS, legs) {
        return days_wrong(operating, counts.days, legs, line, bitfeld, fields, days);
    }
    timetable::offends(17, line)
}

// 18 and 19, where `ranges` holds v *A VE ranges.
fn days_wrong(
    ranges: &[u32],
    v: u32,
    legs: u32,
    line: u32,
    bitfeld: &[u8],
    fields: &[u32],
    days: u32,
) -> Result<(), Offence>
    requires day_size_in_bounds { (v * day_size ≤ length ranges.now) × (days ≤ most_period_days) }
    requires field_map { FieldMap bitfeld.now fields.now }
    ensures { result ≡ verdict_by (days_first (bit_fields_in bitfeld.now) days line legs
        (rows_in day_at day_size v ranges.now)) }
{
    if each_once(ranges, v, DAYS_WORDS, legs) {
        if two_stretches(ranges, v, legs, bitfeld, fields, days) {
            return timetable::offends(19, line);
        }
        return Ok(());
    }
    timetable::offends(18, line)
}

// Whether each leg is covered by exactly one of n ranges. Ranges that follow each other, as nearly all do, are told by one pass over them.
fn each_once(ranges: &[u32], n: u32, width: usize, legs: u32) -> bool
    requires le_width { 2 ≤ width }
    requires width_in_bounds { n * width ≤ length ranges.now }
    ensures { result ≡ every (once_in width n ranges.now) (below legs) }
{
    if cover::in_turn(ranges, n, width, legs) {
        return true;
    }
    cover::each_once(ranges, n, width, legs)
}

// ---- 19, on all days at once

// Whether on some day of the period the operated legs form two or more separate stretches, where each leg is covered once.
#[tactic(auto, using(crate::proofs::Stretches::sweeps))]
fn two_stretches(
    ranges: &[u32],
    v: u32,
    legs: u32,
    bitfeld: &[u8],
    fields: &[u32],
    days: u32,
) -> bool
    requires day_size_in_bounds { (v * day_size ≤ length ranges.now) × (days ≤ most_period_days) }
    requires ranges_value { each_once (λ (r : DayRange). r.legs) legs (rows_in day_at day_size v ranges.now) ≡ true }
    requires field_map { FieldMap bitfeld.now fields.now }
    ensures { result ≡
        rows_torn (bit_fields_in bitfeld.now) days legs (rows_in day_at day_size v ranges.now) }
{
    // the legs of one range run on the same days
    if v == 1 {
        return false;
    }
    bitfield::some_day(torn_days(ranges, v, legs, bitfeld, fields), days)
}

// The days on which they do: a leg runs after one that ran and one that did not. The legs that one range covers run on the same days, so the
// way along the route goes from range to range, and each range's bit field is looked up once.
fn torn_days(ranges: &[u32], v: u32, legs: u32, bitfeld: &[u8], fields: &[u32]) -> [u32; BIT_WORDS]
    requires day_size_in_bounds { v * day_size ≤ length ranges.now }
    requires ranges_value { each_once (λ (r : DayRange). r.legs) legs (rows_in day_at day_size v ranges.now) ≡ true }
    requires field_map { FieldMap bitfeld.now fields.now }
    ensures { (d : ℕ) → d < most_period_days → runs_on result d ≡
        rows_broken (bit_fields_in bitfeld.now) legs (rows_in day_at day_size v ranges.now) d }
{
    let mut begun = bitfield::no_bits();
    let mut ended = bitfield::no_bits();
    let mut broken = bitfield::no_bits();
    let mut leg: u32 = 0;
    // Kept: a walk from range to range, no loop by an index
    while leg < legs {
        let Some(place) = cover::covering_place(ranges, v, DAYS_WORDS, leg) else {
            return broken;
        };
        let range = timetable::day_at(ranges, place);
        let on = field_days(bitfeld, fields, range.field);
        // named first: the check covers no call that is laid straight into an array that a loop carries
        let broken_now = bitfield::either(broken, bitfield::both(ended, on));
        let ended_now = bitfield::either(ended, bitfield::without(begun, on));
        let begun_now = bitfield::either(begun, on);
        broken = broken_now;
        ended = ended_now;
        begun = begun_now;
        leg = range.to;
    }
    broken
}

// The days of a bit field by its number: 0 is every day.
#[tactic(auto, using(crate::proofs::Stretches::sweeps))]
fn field_days(bitfeld: &[u8], fields: &[u32], number: u32) -> [u32; BIT_WORDS]
    requires { FieldMap bitfeld.now fields.now }
    ensures { (d : ℕ) → d < most_period_days → runs_on result d ≡ field_runs (bit_fields_in bitfeld.now) number
        d }
{
    if number == 0 {
        return bitfield::all_bits();
    }
    sections::field_bits(bitfeld, fields, number)
}

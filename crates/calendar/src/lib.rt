// Gregorian dates from 01.01.1900, day 0, to 31.12.2199, and periods of 1 to 380 days.
#![tactic(auto)]

ghost use Rattle.std.specs.Prelude.{◌≡◌, ◌≤◌, ◌-◌};
ghost use Rattle.calendar.specs.Calendar.{is_leap, month_days, years_before, months_before, day_of, date_in, period_of};

use columns::line_fields::date;

// 31.12.2199
pub const LAST_DAY: u32 = 109572;

// "A period of n days has 1 to 380."
pub const MOST_PERIOD_DAYS: u32 = 380;

// The day number of a date, if there is such a date.
pub fn day_of(d: u32, m: u32, y: u32) -> Option<u32>
    ensures { result ≡ day_of d m y }
{
    if y < 1900 {
        return None;
    }
    if 2199 < y {
        return None;
    }
    if m < 1 {
        return None;
    }
    if 12 < m {
        return None;
    }
    if d < 1 {
        return None;
    }
    if month_days(y, m) < d {
        return None;
    }
    Some(years_before(y) + months_before(y, m) + (d - 1))
}

// The day number of the date in columns 1 to 10 of a line, DD.MM.YYYY.
pub fn date_in(line: &[u8]) -> Option<u32>
    ensures { result ≡ date_in line.now }
{
    day_of(
        columns::number_in(line, date::DAY, date::DAY_END),
        columns::number_in(line, date::MONTH, date::MONTH_END),
        columns::number_in(line, date::YEAR, date::YEAR_END),
    )
}

// How many days the period from one day number to another has, if it is one.
pub fn period_of(start: u32, end: u32) -> Option<u32>
    ensures { result ≡ period_of start end }
{
    if end < start {
        return None;
    }
    if end - start < MOST_PERIOD_DAYS {
        return Some(end - start + 1);
    }
    None
}

// The days of the years from 1900 up to y: 365 each, and the leap days. Among n years from 1900 on there are (n + 3) / 4 that 4 divides,
// (n + 99) / 100 that 100 divides, and (n + 299) / 400 that 400 divides, the first of them 2000.
fn years_before(y: u32) -> u32
    requires { (1900 ≤ y) × (y ≤ 2199) }
    ensures { result ≡ years_before (y - 1900) }
{
    let n = y - 1900;
    let leap_days = (n + 3) / 4 - (n + 99) / 100 + (n + 299) / 400;
    365 * n + leap_days
}

// The days of a common year before each of its months.
const BEFORE_MONTH: [u32; 12] = [0, 31, 59, 90, 120, 151, 181, 212, 243, 273, 304, 334];

// The days of the months of year y before month m.
fn months_before(y: u32, m: u32) -> u32
    requires { (1 ≤ m) × (m ≤ 12) }
    ensures { result ≡ months_before y (m - 1) }
{
    let days = BEFORE_MONTH[(m - 1) as usize];
    if m <= 2 {
        return days;
    }
    if leap(y) { days + 1 } else { days }
}

fn month_days(y: u32, m: u32) -> u32
    ensures { result ≡ month_days y m }
{
    match m {
        2 => if leap(y) { 29 } else { 28 },
        4 | 6 | 9 | 11 => 30,
        _ => 31,
    }
}

fn leap(y: u32) -> bool
    ensures { result ≡ is_leap y }
{
    if y % 4 != 0 {
        return false;
    }
    if y % 100 != 0 {
        return true;
    }
    y % 400 == 0
}

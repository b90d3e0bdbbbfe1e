// ECKDATEN: the period, or the file's first offence.
#![tactic(auto)]

ghost use Rattle.std.specs.Prelude.{◌≡◌, ◌≤◌, length};
ghost use Rattle.lines.specs.Lines.{lines_of};
ghost use Rattle.timetable.specs.Layout.{most_file_bytes};
ghost use Rattle.timetable.specs.Offences.{checked_by};
ghost use Rattle.timetable.specs.Files.{period_first, period_in};
ghost use Rattle.period.specs.Inner.Dates.{date_at};

use forms::LineKind;
use lines::reader;
use timetable::Offence;

// The first day and the number of days. Line 3 says nothing, and is the last.
pub fn check_period(f: &[u8]) -> Result<(u32, u32), Offence>
    requires { length f.now ≤ most_file_bytes }
    ensures { result ≡ checked_by (period_first (lines_of f.now)) (period_in (lines_of f.now)).start
        (period_in (lines_of f.now)).n }
{
    let (start, second_at) = date_line(f, 0, 1)?;
    let (end, third_at) = date_line(f, second_at as usize, 2)?;
    let period = calendar::period_of(start, end);
    let Some(days) = period else {
        return Err(timetable::offence_at(5, 2));
    };
    let at = third_at as usize;
    if f.len() <= at {
        return Err(timetable::offence_at(2, 3));
    }
    let third = reader::line_from(f, at, 3);
    if third.next < f.len() {
        return Err(timetable::offence_at(3, 4));
    }
    Ok((start, days))
}

// Line `no`, which starts at `at` and has to be a date: its day number and the place of the next line.
fn date_line(f: &[u8], at: usize, no: u32) -> Result<(u32, u32), Offence>
    requires f_len_bound { length f.now ≤ most_file_bytes }
    requires no_bound { no ≤ 2 }
    ensures { result ≡ date_at f.now at no }
{
    if f.len() <= at {
        return Err(timetable::offence_at(2, no));
    }
    let cut = reader::line_from(f, at, no);
    let next = cut.next as u32;
    let stop = cut.stop;
    let text = &f[at..stop];
    let form = forms::line_form(LineKind::Date, text);
    if let Err(column) = form {
        return Err(Offence {
            number: 4,
            line: no,
            column,
        });
    }
    let date = calendar::date_in(text);
    let Some(day) = date else {
        return Err(timetable::offence_at(5, no));
    };
    Ok((day, next))
}

// The C boundary: the version, words enough for a load, load, walk, day, interchange (between classes and between categories) and stop name; an index and the same questions by it; departure boards; a proposed connection; FPLAN written back; and the arithmetic on operating days, with numbers and slices. Nothing is asked of
// the caller: bad input gets its numbered refusal, and table, rows and result words then hold what they held (the helper words of a load: `helped`, timetable/specs/Load).
#![tactic(auto)]

ghost use Rattle.std.specs.Prelude.{◌≡◌, length};
ghost use Rattle.timetable.specs.Delivery.{files_of};
ghost use Rattle.timetable.specs.Load.{loaded, written, helped};
ghost use Rattle.timetable.specs.Questions.{day_asked, interchange_asked, between_asked, walked_by, rows_by, walked};
ghost use Rattle.timetable.specs.Questions.{walk_rows};
ghost use Rattle.timetable.specs.StopNames.{stop_name_asked};
ghost use Rattle.day_sets.specs.declared.Operation.TheVariants.{Union, Intersection, Difference};
ghost use Rattle.day_sets.specs.DaySets.{combine_asked, combine_written, complement_asked, complement_written, count_asked};
ghost use Rattle.whole_index.specs.Whole.{made_of, index_into};
ghost use Rattle.index_check.specs.Check.{checked_of};
ghost use Rattle.quick.specs.Quick.{day_quick, interchange_quick, between_quick, stop_name_quick, walk_quick};
ghost use Rattle.board.specs.Question.{boarded_by, board_into};
ghost use Rattle.board_questions.specs.Quick.{board_checked, board_quick};
ghost use Rattle.connections.specs.Connection.{connection_asked};
ghost use Rattle.connections.specs.Quick.{connection_quick};
ghost use Rattle.plan_writing.specs.Writing.{plan_answer, plan_bytes};
ghost use Rattle.estelunya.specs.Answers.{version, load_result, day_result, interchange_result, name_result};
ghost use Rattle.estelunya.specs.Answers.{walk_result, index_result, check_number, board_result, connection_result};
ghost use Rattle.estelunya.specs.Answers.{write_result};
ghost use Rattle.room.specs.Room.{room_for, Enough};
ghost use Rattle.estelunya.specs.DaySets.{day_set_result, day_count_result};

use board::BoardAnswer;
use connections::ConnectionRefusal;
use day_sets::Operation;
use index_check::IndexCheck;
use plan_writing::WriteRefusal;
use questions::stop_names;
use timetable::{Loaded, NamePart, Refusal, WalkRefusal};
use whole_index::Made;

// Kept: a struct of plain numbers for each answer, as the C interface has it; the crates below answer by Result.

// number 0: accepted, and words is the words used; else the refusal's number, file and line, words is the words needed (0 unless 20 or 51), and column is
// where the line breaks its form (0 unless 4).
#[repr(C)]
#[derive(Clone, Copy)]
pub struct LoadResult {
    pub number: u32,
    pub file: u32,
    pub line: u32,
    pub words: u32,
    pub column: usize,
}

// number 0: runs is 1 where the bit field runs on the day, else 0; other numbers are refusals.
#[repr(C)]
#[derive(Clone, Copy)]
pub struct DayResult {
    pub number: u32,
    pub runs: u32,
}

// number 0: the interchange time in minutes; other numbers are refusals.
#[repr(C)]
#[derive(Clone, Copy)]
pub struct InterchangeResult {
    pub number: u32,
    pub minutes: u32,
}

// number 0: the byte of BAHNHOF where the name starts, from 0, and how many bytes it has; other numbers are refusals, with 0 and 0.
#[repr(C)]
#[derive(Clone, Copy)]
pub struct NameResult {
    pub number: u32,
    pub start: usize,
    pub length: usize,
}

// number 0: how many rows (of `ROW_WORDS` words) are listed, 0 where the service is not running; other numbers are refusals, 29 with the words needed.
#[repr(C)]
#[derive(Clone, Copy)]
pub struct WalkResult {
    pub number: u32,
    pub rows: u32,
    pub needed: u32,
}

// number 0: so many words of index stand at the front; 29 with the words needed; another number is a refusal.
#[repr(C)]
#[derive(Clone, Copy)]
pub struct IndexResult {
    pub number: u32,
    pub words: usize,
}

// number 0: how many rows (of four words) are listed; 29 with the words needed; another number is a refusal.
#[repr(C)]
#[derive(Clone, Copy)]
pub struct BoardResult {
    pub number: u32,
    pub rows: usize,
    pub needed: usize,
}

// number 0: the connection holds; another number is a refusal, and part the first bad part, from 1 (0 for 21, 43 by the index's length, and 46).
#[repr(C)]
#[derive(Clone, Copy)]
pub struct ConnectionResult {
    pub number: u32,
    pub part: u32,
}

// number 0: so many bytes of FPLAN stand at the front; 45 with the bytes needed; another number is a refusal.
#[repr(C)]
#[derive(Clone, Copy)]
pub struct WriteResult {
    pub number: u32,
    pub bytes: usize,
}

// number 0: the result holds the field; another number is a refusal.
#[repr(C)]
#[derive(Clone, Copy)]
pub struct DaySetResult {
    pub number: u32,
}

// number 0: the number of days; another number is a refusal.
#[repr(C)]
#[derive(Clone, Copy)]
pub struct DayCountResult {
    pub number: u32,
    pub days: u32,
}

// The version of this boundary: it grows whenever a function here, or the table's words, changes. A caller compares it with the version that it was built for.
pub const VERSION: u32 = 2;

#[unsafe(no_mangle)]
pub extern "C" fn estelunya_version() -> u32
    ensures { result ≡ version }
{
    VERSION
}

// Words that are enough for the table of any delivery whose files have so many bytes: with these no load is refused by 20.
#[unsafe(no_mangle)]
pub extern "C" fn estelunya_room(
    bitfeld: usize,
    bahnhof: usize,
    umsteigb: usize,
    fplan: usize,
    zugart: usize,
) -> usize
    ensures value { result ≡ room_for bitfeld bahnhof umsteigb fplan zugart }
    ensures enough { Enough bitfeld bahnhof umsteigb fplan zugart result }
{
    room::room_for(bitfeld, bahnhof, umsteigb, fplan, zugart)
}

#[unsafe(no_mangle)]
pub extern "C" fn estelunya_load(
    eckdaten: &[u8],
    bitfeld: &[u8],
    bahnhof: &[u8],
    umsteigb: &[u8],
    fplan: &[u8],
    zugart: &[u8],
    table: &mut [u32],
    helper: &mut [u32],
) -> LoadResult
    ensures answer { result ≡ load_result (loaded
        (files_of eckdaten.now bitfeld.now bahnhof.now
        umsteigb.now fplan.now zugart.now)
        (length table.old) (length helper.old)) }
    ensures words { table.new ≡ written
        (files_of eckdaten.now bitfeld.now bahnhof.now
        umsteigb.now fplan.now zugart.now)
        table.old (length helper.old) }
    ensures helper { helper.new ≡ helped
        (files_of eckdaten.now bitfeld.now bahnhof.now
        umsteigb.now fplan.now zugart.now)
        helper.old }
{
    load_result(load::load(
        eckdaten, bitfeld, bahnhof, umsteigb, fplan, zugart, table, helper,
    ))
}

#[unsafe(no_mangle)]
pub extern "C" fn estelunya_day(
    table: &[u32],
    day: u32,
    month: u32,
    year: u32,
    field: u32,
) -> DayResult
    ensures { result ≡ day_result (day_asked table.now day month year field) }
{
    day_result(questions::day(table, day, month, year, field))
}

#[unsafe(no_mangle)]
pub extern "C" fn estelunya_interchange(
    table: &[u32],
    stop: u32,
    arriving: u32,
    departing: u32,
) -> InterchangeResult
    ensures { result ≡ interchange_result (interchange_asked table.now stop arriving departing) }
{
    interchange_result(questions::interchange(table, stop, arriving, departing))
}

// The same between services of two categories, each as a row of a walk shows it (word 7).
#[unsafe(no_mangle)]
pub extern "C" fn estelunya_interchange_between(
    table: &[u32],
    stop: u32,
    arriving: u32,
    departing: u32,
) -> InterchangeResult
    ensures { result ≡ interchange_result (between_asked table.now stop arriving departing) }
{
    interchange_result(questions::between(table, stop, arriving, departing))
}

// The language is the byte of its letter in 5.1 of the standard, or 0 for any; the kind is the type, 1 to 9, or 0 for any.
#[unsafe(no_mangle)]
pub extern "C" fn estelunya_stop_name(
    table: &[u32],
    bahnhof: &[u8],
    stop: u32,
    language: u32,
    kind: u32,
) -> NameResult
    ensures { result ≡ name_result (stop_name_asked table.now bahnhof.now stop language kind) }
{
    name_result(stop_names::name(table, bahnhof, stop, language, kind))
}

#[unsafe(no_mangle)]
pub extern "C" fn estelunya_walk(
    table: &[u32],
    service: u32,
    repeat: u32,
    day: u32,
    month: u32,
    year: u32,
    rows: &mut [u32],
) -> WalkResult
    ensures answer { result ≡
        walk_result (walked table.now service repeat day month year (length rows.old)) }
    ensures words { rows.new ≡
        walk_rows table.now service repeat day month year rows.old }
{
    walk_result(walk::walk(table, service, repeat, day, month, year, rows))
}

// ---- the index, and the questions by it: what one costs does not grow with the table

// Makes the index of a table in the words lent: 21, 29 too few.
#[unsafe(no_mangle)]
pub extern "C" fn estelunya_index(table: &[u32], index: &mut [u32]) -> IndexResult
    ensures answer { result ≡ index_result (made_of table.now (length index.old)) }
    ensures words { index.new ≡ index_into table.now index.old }
{
    index_result(whole_index::make_index(table, index))
}

// 0 where the words are exactly this table's index; else 21 or 43.
#[unsafe(no_mangle)]
pub extern "C" fn estelunya_check_index(table: &[u32], index: &[u32]) -> u32
    ensures { result ≡ check_number (checked_of table.now index.now) }
{
    check_number(index_check::check_index(table, index))
}

#[unsafe(no_mangle)]
pub extern "C" fn estelunya_quick_day(
    table: &[u32],
    index: &[u32],
    day: u32,
    month: u32,
    year: u32,
    field: u32,
) -> DayResult
    ensures { result ≡ day_result (day_quick table.now index.now day month year field) }
{
    day_result(quick::quick_day(table, index, day, month, year, field))
}

#[unsafe(no_mangle)]
pub extern "C" fn estelunya_quick_interchange(
    table: &[u32],
    index: &[u32],
    stop: u32,
    arriving: u32,
    departing: u32,
) -> InterchangeResult
    ensures { result ≡
        interchange_result (interchange_quick table.now index.now stop arriving departing) }
{
    interchange_result(quick::quick_interchange(table, index, stop, arriving, departing))
}

#[unsafe(no_mangle)]
pub extern "C" fn estelunya_quick_interchange_between(
    table: &[u32],
    index: &[u32],
    stop: u32,
    arriving: u32,
    departing: u32,
) -> InterchangeResult
    ensures { result ≡
        interchange_result (between_quick table.now index.now stop arriving departing) }
{
    interchange_result(quick::quick_between(table, index, stop, arriving, departing))
}

#[unsafe(no_mangle)]
pub extern "C" fn estelunya_quick_stop_name(
    table: &[u32],
    index: &[u32],
    bahnhof: &[u8],
    stop: u32,
    language: u32,
    kind: u32,
) -> NameResult
    ensures { result ≡ name_result
        (stop_name_quick table.now index.now bahnhof.now stop language kind) }
{
    name_result(quick::quick_name(table, index, bahnhof, stop, language, kind))
}

#[unsafe(no_mangle)]
pub extern "C" fn estelunya_quick_walk(
    table: &[u32],
    index: &[u32],
    service: u32,
    repeat: u32,
    day: u32,
    month: u32,
    year: u32,
    rows: &mut [u32],
) -> WalkResult
    ensures answer { result ≡ walk_result (walked_by
        (walk_quick table.now index.now service repeat day month year) (length rows.old)) }
    ensures words { rows.new ≡ rows_by
        (walk_quick table.now index.now service repeat day month year) rows.old }
{
    walk_result(quick::quick_walk(table, index, service, repeat, day, month, year, rows))
}

// ---- a departure board (document 02, No. 9): rows of four words, time, service, repeat, place

// With the index checked: 43 unless it is this table's own.
#[unsafe(no_mangle)]
pub extern "C" fn estelunya_board(
    table: &[u32],
    index: &[u32],
    stop: u32,
    day: u32,
    month: u32,
    year: u32,
    first: u32,
    last: u32,
    list: &mut [u32],
) -> BoardResult
    ensures answer { result ≡ board_result (boarded_by
        (board_checked table.now index.now stop day month year first last) (length list.old)) }
    ensures words { list.new ≡ board_into
        (board_checked table.now index.now stop day month year first last) list.old }
{
    board_result(board_questions::ask_board(
        table, index, stop, day, month, year, first, last, list,
    ))
}

// By an index that is known to be its own: the cost does not grow with the table.
#[unsafe(no_mangle)]
pub extern "C" fn estelunya_quick_board(
    table: &[u32],
    index: &[u32],
    stop: u32,
    day: u32,
    month: u32,
    year: u32,
    first: u32,
    last: u32,
    list: &mut [u32],
) -> BoardResult
    ensures answer { result ≡ board_result (boarded_by
        (board_quick table.now index.now stop day month year first last) (length list.old)) }
    ensures words { list.new ≡ board_into
        (board_quick table.now index.now stop day month year first last) list.old }
{
    board_result(board_questions::quick_board(
        table, index, stop, day, month, year, first, last, list,
    ))
}

// ---- a proposed connection (document 02, No. 12): parts of seven words, service, repeat, day, month, year, boarding call, alighting call

#[unsafe(no_mangle)]
pub extern "C" fn estelunya_connection(table: &[u32], parts: &[u32]) -> ConnectionResult
    ensures { result ≡ connection_result (connection_asked table.now parts.now) }
{
    connection_result(connections::connection(table, parts))
}

#[unsafe(no_mangle)]
pub extern "C" fn estelunya_quick_connection(
    table: &[u32],
    index: &[u32],
    parts: &[u32],
) -> ConnectionResult
    ensures { result ≡
        connection_result (connection_quick table.now index.now parts.now) }
{
    connection_result(connections::quick_connection(table, index, parts))
}

// ---- FPLAN written back (document 02, No. 11)

#[unsafe(no_mangle)]
pub extern "C" fn estelunya_write(table: &[u32], text: &mut [u8]) -> WriteResult
    ensures answer { result ≡ write_result (plan_answer table.now (length text.old)) }
    ensures bytes { text.new ≡ plan_bytes table.now text.old }
{
    write_result(plan_writing::write_plan(table, text))
}

#[unsafe(no_mangle)]
pub extern "C" fn estelunya_days_union(
    n: u32,
    first: &[u32],
    second: &[u32],
    res: &mut [u32],
) -> DaySetResult
    ensures answer { result ≡
        day_set_result (combine_asked n first.now second.now res.old) }
    ensures words { res.new ≡
        combine_written Union n first.now second.now res.old }
{
    day_set_result(day_sets::combine(Operation::Union, n, first, second, res))
}

#[unsafe(no_mangle)]
pub extern "C" fn estelunya_days_intersection(
    n: u32,
    first: &[u32],
    second: &[u32],
    res: &mut [u32],
) -> DaySetResult
    ensures answer { result ≡
        day_set_result (combine_asked n first.now second.now res.old) }
    ensures words { res.new ≡
        combine_written Intersection n first.now second.now res.old }
{
    day_set_result(day_sets::combine(Operation::Intersection, n, first, second, res))
}

#[unsafe(no_mangle)]
pub extern "C" fn estelunya_days_difference(
    n: u32,
    first: &[u32],
    second: &[u32],
    res: &mut [u32],
) -> DaySetResult
    ensures answer { result ≡
        day_set_result (combine_asked n first.now second.now res.old) }
    ensures words { res.new ≡
        combine_written Difference n first.now second.now res.old }
{
    day_set_result(day_sets::combine(Operation::Difference, n, first, second, res))
}

#[unsafe(no_mangle)]
pub extern "C" fn estelunya_days_complement(n: u32, field: &[u32], res: &mut [u32]) -> DaySetResult
    ensures answer { result ≡ day_set_result (complement_asked n field.now res.old) }
    ensures words { res.new ≡ complement_written n field.now res.old }
{
    day_set_result(day_sets::complement(n, field, res))
}

#[unsafe(no_mangle)]
pub extern "C" fn estelunya_days_count(n: u32, field: &[u32]) -> DayCountResult
    ensures { result ≡ day_count_result (count_asked n field.now) }
{
    day_count_result(day_sets::count(n, field))
}

fn load_result(a: Loaded) -> LoadResult
    ensures { result ≡ load_result a }
{
    match a {
        Loaded::Accepted(used) => LoadResult {
            number: 0,
            file: 0,
            line: 0,
            words: used,
            column: 0,
        },
        Loaded::Refused {
            number,
            file,
            line,
            column,
            needed,
        } => LoadResult {
            number,
            file,
            line,
            words: needed,
            column,
        },
    }
}

fn day_result(a: Result<bool, Refusal>) -> DayResult
    ensures { result ≡ day_result a }
{
    match a {
        Ok(true) => DayResult { number: 0, runs: 1 },
        Ok(false) => DayResult { number: 0, runs: 0 },
        Err(refusal) => DayResult {
            number: u32::from(refusal),
            runs: 0,
        },
    }
}

fn interchange_result(a: Result<u32, Refusal>) -> InterchangeResult
    ensures { result ≡ interchange_result a }
{
    match a {
        Ok(minutes) => InterchangeResult { number: 0, minutes },
        Err(refusal) => InterchangeResult {
            number: u32::from(refusal),
            minutes: 0,
        },
    }
}

fn name_result(a: Result<NamePart, Refusal>) -> NameResult
    ensures { result ≡ name_result a }
{
    match a {
        Ok(part) => NameResult {
            number: 0,
            start: part.start,
            length: part.size,
        },
        Err(refusal) => NameResult {
            number: u32::from(refusal),
            start: 0,
            length: 0,
        },
    }
}

fn walk_result(a: Result<Option<u32>, WalkRefusal>) -> WalkResult
    ensures { result ≡ walk_result a }
{
    match a {
        Ok(Some(rows)) => WalkResult {
            number: 0,
            rows,
            needed: 0,
        },
        Ok(None) => WalkResult {
            number: 0,
            rows: 0,
            needed: 0,
        },
        Err(refused) => WalkResult {
            number: u32::from(refused.refusal),
            rows: 0,
            needed: refused.needed,
        },
    }
}

fn day_set_result(a: Result<(), Refusal>) -> DaySetResult
    ensures { result ≡ day_set_result a }
{
    match a {
        Ok(()) => DaySetResult { number: 0 },
        Err(refusal) => DaySetResult {
            number: u32::from(refusal),
        },
    }
}

fn day_count_result(a: Result<u32, Refusal>) -> DayCountResult
    ensures { result ≡ day_count_result a }
{
    match a {
        Ok(days) => DayCountResult { number: 0, days },
        Err(refusal) => DayCountResult {
            number: u32::from(refusal),
            days: 0,
        },
    }
}

fn index_result(a: Made) -> IndexResult
    ensures { result ≡ index_result a }
{
    match a {
        Made::Index(words) => IndexResult { number: 0, words },
        Made::Refused { number, needed } => IndexResult {
            number,
            words: needed,
        },
    }
}

fn check_number(a: IndexCheck) -> u32
    ensures { result ≡ check_number a }
{
    match a {
        IndexCheck::Right => 0,
        IndexCheck::Refused(number) => number,
    }
}

fn write_result(a: Result<usize, WriteRefusal>) -> WriteResult
    ensures { result ≡ write_result a }
{
    match a {
        Ok(bytes) => WriteResult { number: 0, bytes },
        Err(r) => WriteResult {
            number: u32::from(r.refusal),
            bytes: r.needed,
        },
    }
}

fn connection_result(a: Result<(), ConnectionRefusal>) -> ConnectionResult
    ensures { result ≡ connection_result a }
{
    match a {
        Ok(()) => ConnectionResult { number: 0, part: 0 },
        Err(r) => ConnectionResult {
            number: u32::from(r.refusal),
            part: r.part,
        },
    }
}

fn board_result(a: BoardAnswer) -> BoardResult
    ensures { result ≡ board_result a }
{
    match a {
        BoardAnswer::Listed(rows) => BoardResult {
            number: 0,
            rows,
            needed: 0,
        },
        BoardAnswer::Refused { number, needed } => BoardResult {
            number,
            rows: 0,
            needed,
        },
    }
}

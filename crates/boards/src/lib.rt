// A departure board by an index: the departures from each call at the stop are counted, then written, then put in order (specs/ByWords).
// `w` are words with a sound header, `x` the words of the look-ups, `y` those of the calls.
#![tactic(auto)]

ghost use Rattle.std.specs.Prelude.{◌≡◌, true, ◌+◌, ◌*◌, ◌≤◌, ◌<◌, length};
ghost use Rattle.base.specs.Lists.{gathered};
ghost use Rattle.timetable.specs.Layout.{most_period_days};
ghost use Rattle.table.specs.JustTable.{header_sound};
ghost use Rattle.words.specs.Words.{write};
ghost use Rattle.index.specs.Index.{stops_from, stop_section, section_end};
ghost use Rattle.index.specs.Inner.Ready.{Ready};
ghost use Rattle.sort.specs.Rows.{board_row_size, board_row_words};
ghost use Rattle.board.specs.Question.{board, boarded_by, board_into};
ghost use Rattle.board_runs.specs.Batch.{Batched, Shelved};
ghost use Rattle.stop_calls.specs.StopCalls.{entries#, On};
ghost use Rattle.boards.specs.ByWords.{steady_in, entry_departures, departures_by, board_by, Lends, Along, left_departures};
ghost use Rattle.boards.specs.ByWords.{Calm, Few, one_if, Behind, KeptFrom, Kept, Told, most};

use board::BoardAnswer;
use board_runs::Batch;
use sort::ROW_WORDS;
use stop_calls::Cursor;
use timetable::{BIT_FIELD_WORDS, BIT_FIELDS_AT, HEADER_WORDS, STOP_WORDS, STOPS_AT, USED_AT};

// The board of stop number n on day k of the period, within two minutes of the day: 29 with the words needed, and the list then stays.
// Where the list has room for as many rows as the opening lines and the calls alone allow, each course is looked at once; for a shorter list, or more calls than are kept, the
// departures are counted first.
pub fn list_board(
    w: &[u32],
    x: &[u32],
    y: &[u32],
    n: u32,
    k: u32,
    first: u32,
    last: u32,
    list: &mut [u32],
) -> BoardAnswer
    requires { Lends w.now x.now y.now × (k < most_period_days) }
    ensures answer { result ≡ boarded_by
        (board (board_by w.now x.now y.now n k first last))
        (length list.old) }
    ensures rows { list.new ≡ board_into
        (board (board_by w.now x.now y.now n k first last)) list.old }
{
    let mut kept = [0u32; KEPT_CALLS];
    list_kept(w, x, y, n, k, first, last, list, &mut kept)
}

// So many calls that may give rows are kept; a stop with more has its departures counted first.
const KEPT_CALLS: usize = 448;

// The same, with words for the calls.
fn list_kept(
    w: &[u32],
    x: &[u32],
    y: &[u32],
    n: u32,
    k: u32,
    first: u32,
    last: u32,
    list: &mut [u32],
    kept: &mut [u32],
) -> BoardAnswer
    requires { Lends w.now x.now y.now × (k < most_period_days) }
    ensures answer { result ≡ boarded_by
        (board (board_by w.now x.now y.now n k first last))
        (length list.old) }
    ensures rows { list.new ≡ board_into
        (board (board_by w.now x.now y.now n k first last)) list.old }
{
    let rows = list.len() / ROW_WORDS;
    let m = keep_calls(w, x, y, n, first, last, rows, kept);
    if kept.len() < m {
        return list_counted(w, x, y, n, k, first, last, list);
    }
    list_calls(w, x, y, n, k, first, last, list, kept, m)
}

// The same, by the first m calls kept.
fn list_calls(
    w: &[u32],
    x: &[u32],
    y: &[u32],
    n: u32,
    k: u32,
    first: u32,
    last: u32,
    list: &mut [u32],
    kept: &[u32],
    m: usize,
) -> BoardAnswer
    requires lends { Lends w.now x.now y.now × (k < most_period_days) }
    requires told { Told w.now x.now y.now n k first last kept.now m }
    requires last_in_bounds { board_row_size * length (departures_by w.now x.now y.now n k first last) ≤ length list.old }
    ensures answer { result ≡ boarded_by
        (board (board_by w.now x.now y.now n k first last))
        (length list.old) }
    ensures rows { list.new ≡ board_into
        (board (board_by w.now x.now y.now n k first last)) list.old }
{
    let count = put_kept(w, x, y, n, k, first, last, list, kept, m);
    sort::sort_rows(list, count);
    BoardAnswer::Listed(count)
}

// The same, counted first.
fn list_counted(
    w: &[u32],
    x: &[u32],
    y: &[u32],
    n: u32,
    k: u32,
    first: u32,
    last: u32,
    list: &mut [u32],
) -> BoardAnswer
    requires { Lends w.now x.now y.now × (k < most_period_days) }
    ensures answer { result ≡ boarded_by
        (board (board_by w.now x.now y.now n k first last))
        (length list.old) }
    ensures rows { list.new ≡ board_into
        (board (board_by w.now x.now y.now n k first last)) list.old }
{
    let count = count_board(w, x, y, n, k, first, last);
    if list.len() < ROW_WORDS * count {
        return BoardAnswer::Refused {
            number: 29,
            needed: ROW_WORDS * count,
        };
    }
    list_all(w, x, y, n, k, first, last, list)
}

// The same, where the list has room.
fn list_all(
    w: &[u32],
    x: &[u32],
    y: &[u32],
    n: u32,
    k: u32,
    first: u32,
    last: u32,
    list: &mut [u32],
) -> BoardAnswer
    requires lends { Lends w.now x.now y.now × (k < most_period_days) }
    requires last_in_bounds { board_row_size * length (departures_by w.now x.now y.now n k first last) ≤ length list.old }
    ensures answer { result ≡ boarded_by
        (board (board_by w.now x.now y.now n k first last))
        (length list.old) }
    ensures rows { list.new ≡ board_into
        (board (board_by w.now x.now y.now n k first last)) list.old }
{
    let count = put_board(w, x, y, n, k, first, last, list);
    sort::sort_rows(list, count);
    BoardAnswer::Listed(count)
}

// ---- the calls that may give rows, by the opening lines and the calls alone: no record is checked, and no course looked at

// Keeps them, and says how many they are; more than there are words for where they are too many, or where so many rows might not be enough.
fn keep_calls(
    w: &[u32],
    x: &[u32],
    y: &[u32],
    n: u32,
    first: u32,
    last: u32,
    rows: usize,
    kept: &mut [u32],
) -> usize
    requires { Lends w.now x.now y.now }
    ensures { Kept w.now x.now y.now n first last rows kept.new result }
{
    let s = w[STOPS_AT];
    let end = stops_end(w);
    let from = stops_from(w);
    let places = index::services_from(w);
    let c = stop_calls::first_call(w, x, y, end, s, from, n, most_calls(w[USED_AT]));
    keep_from(w, x, y, end, s, from, places, n, first, last, c, rows, kept)
}

// From a cursor on.
fn keep_from(
    w: &[u32],
    x: &[u32],
    y: &[u32],
    end: usize,
    s: u32,
    from: usize,
    places: usize,
    n: u32,
    first: u32,
    last: u32,
    start: Cursor,
    rows: usize,
    kept: &mut [u32],
) -> usize
    requires along { Along w.now x.now y.now end s from × Shelved w.now x.now places }
    requires on { On y.now s start }
    ensures { KeptFrom w.now x.now y.now end s from n first last start rows
        kept.new result }
{
    // Kept: from call to call along the chains, which end where they stand.
    let mut c = start;
    let mut left = rows;
    let mut m: usize = 0;
    while c.call != 0 {
        let most = most_of(w, x, y, s, places, first, last, c.call);
        if left < most {
            return kept.len() + 1;
        }
        if kept.len() <= m {
            return kept.len() + 1;
        }
        kept[m] = c.call;
        m += one_if(most);
        left -= most;
        c = next_loud(
            w, x, y, end, s, from, places, n, first, last, c.call, c.stop, c.left,
        );
    }
    m
}

// The next call after a cursor's that is not told to give none: so it is of most, and nothing more is done for them.
fn next_loud(
    w: &[u32],
    x: &[u32],
    y: &[u32],
    end: usize,
    s: u32,
    from: usize,
    places: usize,
    n: u32,
    first: u32,
    last: u32,
    call: u32,
    stop: u32,
    left: u32,
) -> Cursor
    requires along { Along w.now x.now y.now end s from × Shelved w.now x.now places }
    requires on { On y.now s (record { call = call; stop = stop; left = left }) × (call ≡ 0 → ⊥) }
    ensures { Behind w.now x.now y.now end s from n first last
        (record { call = call; stop = stop; left = left }) result }
{
    // Kept: from call to call along the chains.
    let mut c = stop_calls::next_call(w, x, y, end, s, from, n, call, stop, left);
    while c.call != 0 {
        if !gives_none(w, x, y, s, places, first, last, c.call) {
            return c;
        }
        c = stop_calls::next_call(w, x, y, end, s, from, n, c.call, c.stop, c.left);
    }
    c
}

// One call more, where it may give rows.
fn one_if(most: usize) -> usize
    ensures is { result ≡ one_if most }
    ensures low { result ≤ 1 }
{
    if most == 0 {
        return 0;
    }
    1
}

// At most how many departures there are from call e.
fn most_of(
    w: &[u32],
    x: &[u32],
    y: &[u32],
    s: u32,
    places: usize,
    first: u32,
    last: u32,
    e: u32,
) -> usize
    requires shelved { Shelved w.now x.now places }
    requires s_in_bounds { (s ≤ length y.now) × (0 < e) × (e ≤ entries# s y.now) }
    ensures { Few w.now x.now s y.now first last e result }
{
    let i = stop_calls::entry_word(y, s, 1, e);
    let p = stop_calls::entry_word(y, s, 3, e);
    board_runs::most_runs(w, x, places, first, last, i, p)
}

// Whether call e is told to give no departure, before its record is checked.
// Kept: beside `most_of`, which asks another thing of the same two words.
fn gives_none(
    w: &[u32],
    x: &[u32],
    y: &[u32],
    s: u32,
    places: usize,
    first: u32,
    last: u32,
    e: u32,
) -> bool
    requires shelved { Shelved w.now x.now places }
    requires s_in_bounds { (s ≤ length y.now) × (0 < e) × (e ≤ entries# s y.now) }
    ensures { Calm w.now x.now s y.now first last e result }
{
    let i = stop_calls::entry_word(y, s, 1, e);
    let p = stop_calls::entry_word(y, s, 3, e);
    board_runs::is_quiet(w, x, places, first, last, i, p)
}

// ---- counted

// How many departures there are.
fn count_board(w: &[u32], x: &[u32], y: &[u32], n: u32, k: u32, first: u32, last: u32) -> usize
    requires { Lends w.now x.now y.now × (k < most_period_days) }
    ensures value { result ≡ length (departures_by w.now x.now y.now n k first last) }
    ensures upper_bound { result ≤ most }
{
    let s = w[STOPS_AT];
    let end = stops_end(w);
    let from = stops_from(w);
    let places = index::services_from(w);
    let c = stop_calls::first_call(w, x, y, end, s, from, n, most_calls(w[USED_AT]));
    count_from(w, x, y, end, s, from, places, n, k, first, last, c)
}

// From a cursor on.
fn count_from(
    w: &[u32],
    x: &[u32],
    y: &[u32],
    end: usize,
    s: u32,
    from: usize,
    places: usize,
    n: u32,
    k: u32,
    first: u32,
    last: u32,
    start: Cursor,
) -> usize
    requires along { Along w.now x.now y.now end s from × Shelved w.now x.now places × (k < most_period_days) }
    requires on { On y.now s start }
    requires start_len_bound { length (left_departures w.now x.now y.now end s from n k first last start) ≤ most }
    ensures { result ≡
        length (left_departures w.now x.now y.now end s from n k first last start) }
{
    // Kept: from call to call along the chains.
    let mut c = start;
    let mut total: usize = 0;
    while c.call != 0 {
        total += count_call(w, x, y, s, places, n, k, first, last, c.call);
        c = stop_calls::next_call(w, x, y, end, s, from, n, c.call, c.stop, c.left);
    }
    total
}

// From call e.
fn count_call(
    w: &[u32],
    x: &[u32],
    y: &[u32],
    s: u32,
    places: usize,
    n: u32,
    k: u32,
    first: u32,
    last: u32,
    e: u32,
) -> usize
    requires shelved { Shelved w.now x.now places × (k < most_period_days) }
    requires s_in_bounds { (s ≤ length y.now) × (0 < e) × (e ≤ entries# s y.now) }
    ensures { result ≡
        length (entry_departures w.now x.now s y.now n k first last e) }
{
    if gives_none(w, x, y, s, places, first, last, e) {
        return 0;
    }
    let b = call_batch(w, x, y, s, places, n, k, first, last, e);
    board_runs::batch_size(b)
}

// Which runs leave from call e.
fn call_batch(
    w: &[u32],
    x: &[u32],
    y: &[u32],
    s: u32,
    places: usize,
    n: u32,
    k: u32,
    first: u32,
    last: u32,
    e: u32,
) -> Batch
    requires shelved { Shelved w.now x.now places × (k < most_period_days) }
    requires s_in_bounds { (s ≤ length y.now) × (0 < e) × (e ≤ entries# s y.now) }
    ensures { Batched result (entry_departures w.now x.now s y.now n k first
        last e) }
{
    let i = stop_calls::entry_word(y, s, 1, e);
    let p = stop_calls::entry_word(y, s, 3, e);
    board_runs::runs_at(w, x, places, steady_in(y, s), n, k, first, last, i, p)
}

// Whether the words of the calls, beside so many stops, mark the table as steady: then a record's other calls are not looked at where its ranges follow each other.
fn steady_in(y: &[u32], s: u32) -> bool
    ensures { result ≡ steady_in s y.now }
{
    if y.len() <= table::size(s) {
        return false;
    }
    y[y.len() - 1] == 1
}

// ---- written

// Writes their rows, in the order in which they are met, and says how many they are.
fn put_board(
    w: &[u32],
    x: &[u32],
    y: &[u32],
    n: u32,
    k: u32,
    first: u32,
    last: u32,
    list: &mut [u32],
) -> usize
    requires lends { Lends w.now x.now y.now × (k < most_period_days) }
    requires last_in_bounds { board_row_size * length (departures_by w.now x.now y.now n k first last) ≤ length list.old }
    ensures count { result ≡
        length (departures_by w.now x.now y.now n k first last) }
    ensures words { list.new ≡ write list.old 0
        (gathered board_row_words (departures_by w.now x.now y.now n k first last)) }
{
    let s = w[STOPS_AT];
    let end = stops_end(w);
    let from = stops_from(w);
    let places = index::services_from(w);
    let c = stop_calls::first_call(w, x, y, end, s, from, n, most_calls(w[USED_AT]));
    put_from(w, x, y, end, s, from, places, n, k, first, last, c, list) / ROW_WORDS
}

// From a cursor on, and says where the rows end.
fn put_from(
    w: &[u32],
    x: &[u32],
    y: &[u32],
    end: usize,
    s: u32,
    from: usize,
    places: usize,
    n: u32,
    k: u32,
    first: u32,
    last: u32,
    start: Cursor,
    list: &mut [u32],
) -> usize
    requires along { Along w.now x.now y.now end s from × Shelved w.now x.now places × (k < most_period_days) }
    requires on { On y.now s start }
    requires start_in_bounds { board_row_size * length (left_departures w.now x.now y.now end s from n k first last start) ≤ length
        list.old }
    ensures end { result ≡ board_row_size * length
        (left_departures w.now x.now y.now end s from n k first last start) }
    ensures words { list.new ≡ write list.old 0
        (gathered board_row_words (left_departures w.now x.now y.now end s from n k first
        last start)) }
{
    // Kept: from call to call along the chains.
    let mut c = start;
    let mut to: usize = 0;
    while c.call != 0 {
        to = put_call(w, x, y, s, places, n, k, first, last, c.call, list, to);
        c = stop_calls::next_call(w, x, y, end, s, from, n, c.call, c.stop, c.left);
    }
    to
}

// From call e, and says where the rows end.
fn put_call(
    w: &[u32],
    x: &[u32],
    y: &[u32],
    s: u32,
    places: usize,
    n: u32,
    k: u32,
    first: u32,
    last: u32,
    e: u32,
    list: &mut [u32],
    to: usize,
) -> usize
    requires shelved { Shelved w.now x.now places × (k < most_period_days) }
    requires s_in_bounds { (s ≤ length y.now) × (0 < e) × (e ≤ entries# s y.now) }
    requires e_in_bounds { to + board_row_size * length (entry_departures w.now x.now s y.now n k first last e) ≤
        length list.old }
    ensures end { result ≡ to + board_row_size * length
        (entry_departures w.now x.now s y.now n k first last e) }
    ensures words { list.new ≡ write list.old to
        (gathered board_row_words (entry_departures w.now x.now s y.now n k first
        last e)) }
{
    if gives_none(w, x, y, s, places, first, last, e) {
        return to;
    }
    put_rows(w, x, y, s, places, n, k, first, last, e, list, to)
}

// The same, without a look whether it is told to give none: its record is checked.
fn put_rows(
    w: &[u32],
    x: &[u32],
    y: &[u32],
    s: u32,
    places: usize,
    n: u32,
    k: u32,
    first: u32,
    last: u32,
    e: u32,
    list: &mut [u32],
    to: usize,
) -> usize
    requires shelved { Shelved w.now x.now places × (k < most_period_days) }
    requires s_in_bounds { (s ≤ length y.now) × (0 < e) × (e ≤ entries# s y.now) }
    requires e_in_bounds { to + board_row_size * length (entry_departures w.now x.now s y.now n k first last e) ≤
        length list.old }
    ensures end { result ≡ to + board_row_size * length
        (entry_departures w.now x.now s y.now n k first last e) }
    ensures words { list.new ≡ write list.old to
        (gathered board_row_words (entry_departures w.now x.now s y.now n k first
        last e)) }
{
    let b = call_batch(w, x, y, s, places, n, k, first, last, e);
    board_runs::put_batch(list, to, b)
}

// ---- written by the calls kept

// Writes the rows of the first m calls kept, and says how many they are.
fn put_kept(
    w: &[u32],
    x: &[u32],
    y: &[u32],
    n: u32,
    k: u32,
    first: u32,
    last: u32,
    list: &mut [u32],
    kept: &[u32],
    m: usize,
) -> usize
    requires lends { Lends w.now x.now y.now × (k < most_period_days) }
    requires told { Told w.now x.now y.now n k first last kept.now m }
    requires last_in_bounds { board_row_size * length (departures_by w.now x.now y.now n k first last) ≤ length list.old }
    ensures count { result ≡
        length (departures_by w.now x.now y.now n k first last) }
    ensures words { list.new ≡ write list.old 0
        (gathered board_row_words (departures_by w.now x.now y.now n k first last)) }
{
    let s = w[STOPS_AT];
    let places = index::services_from(w);
    let mut to: usize = 0;
    for j in 0..m {
        to = put_rows(w, x, y, s, places, n, k, first, last, kept[j], list, to);
    }
    to / ROW_WORDS
}

// ---- the header

// How many calls are looked at: no table has more calls than words.
fn most_calls(used: u32) -> u32
    ensures is { result ≡ used }
    ensures low { result < 4294967296 }
{
    used
}

// Where the stop section ends.
fn stops_end(w: &[u32]) -> usize
    requires { header_sound w.now ≡ true }
    ensures { result ≡ section_end (stop_section w.now) }
{
    HEADER_WORDS
        + BIT_FIELD_WORDS * table::size(w[BIT_FIELDS_AT])
        + STOP_WORDS * table::size(w[STOPS_AT])
}

// Where its chains begin in the look-ups.
fn stops_from(w: &[u32]) -> usize
    requires { header_sound w.now ≡ true }
    ensures { result ≡ stops_from w.now }
{
    2 * table::size(w[BIT_FIELDS_AT])
}

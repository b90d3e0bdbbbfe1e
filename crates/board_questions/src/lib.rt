// The question for a departure board: of any words, with an index that is checked (`board`: 43 unless it is this table's own), and without that check (`quick_board`).
// A refusal leaves the list as lent.
#![tactic(auto)]

ghost use Rattle.std.specs.Prelude.{◌≡◌, true, ◌<◌, length, Ok};
ghost use Rattle.timetable.specs.Layout.{most_period_days};
ghost use Rattle.table.specs.JustTable.{JustTable, header_sound};
ghost use Rattle.table.specs.Steady.{steady};
ghost use Rattle.index.specs.Quick.{index_long};
ghost use Rattle.whole_index.specs.Whole.{whole_index_of};
ghost use Rattle.board.specs.Question.{boarded_by, board_into};
ghost use Rattle.boards.specs.ByWords.{Lends};
ghost use Rattle.board_questions.specs.Quick.{board_checked, board_by_day, board_by_words, calls_part, board_quick};
ghost use Rattle.board_questions.specs.Inner.Checked.{board_dated, board_on_day, own_board};

use board::BoardAnswer;

// ---- with the index checked

// The departures from a stop on a date, within two times in minutes: 21 to 23, 27, 43, 29 list too short.
pub fn ask_board(
    w: &[u32],
    x: &[u32],
    stop: u32,
    day: u32,
    month: u32,
    year: u32,
    first: u32,
    last: u32,
    list: &mut [u32],
) -> BoardAnswer
    ensures answer { result ≡ boarded_by
        (board_checked w.now x.now stop day month year first last) (length list.old) }
    ensures rows { list.new ≡ board_into
        (board_checked w.now x.now stop day month year first last) list.old }
{
    let Some(is_steady) = table::look_at(w) else {
        return BoardAnswer::Refused {
            number: 21,
            needed: 0,
        };
    };
    board_of(
        table::used_words(w),
        is_steady,
        &w[0..0],
        x,
        stop,
        day,
        month,
        year,
        first,
        last,
        list,
    )
}

// Of just a table, where it is known whether its calls are steady, its date and stop looked up without an index (`z` is empty).
fn board_of(
    w: &[u32],
    is_steady: bool,
    z: &[u32],
    x: &[u32],
    stop: u32,
    day: u32,
    month: u32,
    year: u32,
    first: u32,
    last: u32,
    list: &mut [u32],
) -> BoardAnswer
    requires just_table { JustTable w.now × (length z.now ≡ 0) }
    requires is_steady_value { is_steady ≡ steady w.now }
    ensures answer { result ≡ boarded_by
        (board_dated w.now z.now x.now stop day month year first last)
        (length list.old) }
    ensures rows { list.new ≡ board_into
        (board_dated w.now z.now x.now stop day month year first last)
        list.old }
{
    let on = index::dated(w, z, day, month, year);
    match on {
        Err(refusal) => BoardAnswer::Refused {
            number: u32::from(refusal),
            needed: 0,
        },
        Ok(k) => board_on(w, is_steady, z, x, stop, k, first, last, list),
    }
}

// On day k of the period.
fn board_on(
    w: &[u32],
    is_steady: bool,
    z: &[u32],
    x: &[u32],
    stop: u32,
    k: u32,
    first: u32,
    last: u32,
    list: &mut [u32],
) -> BoardAnswer
    requires just_table { JustTable w.now × (length z.now ≡ 0) }
    requires is_steady_value { is_steady ≡ steady w.now }
    requires k_lt_most_period_days { k < most_period_days }
    ensures answer { result ≡ boarded_by
        (board_on_day w.now z.now x.now stop first last (Ok k))
        (length list.old) }
    ensures rows { list.new ≡ board_into
        (board_on_day w.now z.now x.now stop first last (Ok k))
        list.old }
{
    if !index::stop_known(w, z, stop) {
        return BoardAnswer::Refused {
            number: 27,
            needed: 0,
        };
    }
    if !index_check::is_index(w, is_steady, x) {
        return BoardAnswer::Refused {
            number: 43,
            needed: 0,
        };
    }
    own_board(w, x, stop, k, first, last, list)
}

// By the table's own index.
fn own_board(
    w: &[u32],
    x: &[u32],
    stop: u32,
    k: u32,
    first: u32,
    last: u32,
    list: &mut [u32],
) -> BoardAnswer
    requires just_table { JustTable w.now × (k < most_period_days) }
    requires x_value { x.now ≡ whole_index_of w.now }
    ensures answer { result ≡ boarded_by (own_board w.now stop k first last) (length list.old) }
    ensures rows { list.new ≡
        board_into (own_board w.now stop k first last) list.old }
{
    let n = index::index_size(w);
    boards::list_board(w, &x[0..n], &x[n..], stop, k, first, last, list)
}

// ---- without

// The same by an index that is not checked but for its length: 21 a header that is not sound, 43, 22, 23, 27, 29.
pub fn quick_board(
    w: &[u32],
    x: &[u32],
    stop: u32,
    day: u32,
    month: u32,
    year: u32,
    first: u32,
    last: u32,
    list: &mut [u32],
) -> BoardAnswer
    ensures answer { result ≡ boarded_by (board_quick w.now x.now stop day month year first last)
        (length list.old) }
    ensures rows { list.new ≡
        board_into (board_quick w.now x.now stop day month year first last) list.old }
{
    match index::quick_refusal(w, x.len()) {
        Err(refusal) => BoardAnswer::Refused {
            number: u32::from(refusal),
            needed: 0,
        },
        Ok(nothing) => {
            let u = index::headed_words(w);
            board_by(
                u,
                index::lookup_words(u, x),
                call_words(u, x),
                stop,
                day,
                month,
                year,
                first,
                last,
                list,
            )
        }
    }
}

// By what words, look-ups and calls show.
fn board_by(
    w: &[u32],
    x: &[u32],
    y: &[u32],
    stop: u32,
    day: u32,
    month: u32,
    year: u32,
    first: u32,
    last: u32,
    list: &mut [u32],
) -> BoardAnswer
    requires { Lends w.now x.now y.now }
    ensures answer { result ≡ boarded_by
        (board_by_words w.now x.now y.now stop day month year first last)
        (length list.old) }
    ensures rows { list.new ≡ board_into
        (board_by_words w.now x.now y.now stop day month year first last)
        list.old }
{
    let on = index::dated(w, x, day, month, year);
    match on {
        Err(refusal) => BoardAnswer::Refused {
            number: u32::from(refusal),
            needed: 0,
        },
        Ok(k) => board_by_day(w, x, y, stop, k, first, last, list),
    }
}

// On day k of the period.
fn board_by_day(
    w: &[u32],
    x: &[u32],
    y: &[u32],
    stop: u32,
    k: u32,
    first: u32,
    last: u32,
    list: &mut [u32],
) -> BoardAnswer
    requires { Lends w.now x.now y.now × (k < most_period_days) }
    ensures answer { result ≡ boarded_by
        (board_by_day w.now x.now y.now stop first last (Ok k))
        (length list.old) }
    ensures rows { list.new ≡ board_into
        (board_by_day w.now x.now y.now stop first last (Ok k))
        list.old }
{
    if !index::stop_known(w, x, stop) {
        return BoardAnswer::Refused {
            number: 27,
            needed: 0,
        };
    }
    boards::list_board(w, x, y, stop, k, first, last, list)
}

// The words of the calls, behind those of the look-ups.
fn call_words<'a>(w: &[u32], x: &'a [u32]) -> &'a [u32]
    requires w_value { header_sound w.now ≡ true }
    requires x_value { index_long w.now (length x.now) ≡ true }
    ensures { result.now ≡ calls_part w.now x.now }
{
    &x[index::index_size(w)..]
}

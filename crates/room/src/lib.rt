// Words that are enough for a delivery, from the sizes of its files alone: so nobody has to load twice to learn how many.
#![tactic(auto)]

ghost use Rattle.std.specs.Prelude.{◌≡◌, ◌≤◌};
ghost use Rattle.timetable.specs.Layout.{most_file_bytes};
ghost use Rattle.room.specs.Room.{counted, room_for, Enough};

use timetable::{
    BIT_FIELD_WORDS, CLASS_WORDS, HEADER_WORDS, INTERCHANGE_WORDS, MOST_FILE_BYTES, STOP_WORDS,
};

// The bytes that a line needs at least, if it gives the table anything.
const BIT_FIELD_BYTES: usize = 103;

const STOP_BYTES: usize = 13;

const INTERCHANGE_BYTES: usize = 13;

const CLASS_BYTES: usize = 21;

const PLAN_BYTES: usize = 59;

// The words that a line of FPLAN gives at most.
const PLAN_LINE_WORDS: usize = 8;

// The words, by the bytes of each file: what its lines give at most, where each has the fewest bytes that it needs.
pub fn room_for(
    bitfeld: usize,
    bahnhof: usize,
    umsteigb: usize,
    fplan: usize,
    zugart: usize,
) -> usize
    ensures value { result ≡ room_for bitfeld bahnhof umsteigb fplan zugart }
    ensures enough { Enough bitfeld bahnhof umsteigb fplan zugart result }
{
    HEADER_WORDS
        + BIT_FIELD_WORDS * counted_of(bitfeld) / BIT_FIELD_BYTES
        + STOP_WORDS * counted_of(bahnhof) / STOP_BYTES
        + INTERCHANGE_WORDS * counted_of(umsteigb) / INTERCHANGE_BYTES
        + CLASS_WORDS * counted_of(zugart) / CLASS_BYTES
        + PLAN_LINE_WORDS * counted_of(fplan) / PLAN_BYTES
}

// No more bytes than a file may have.
fn counted_of(bytes: usize) -> usize
    ensures { (result ≡ counted bytes) × (result ≤ most_file_bytes) }
{
    if MOST_FILE_BYTES < bytes {
        return MOST_FILE_BYTES;
    }
    bytes
}

// The program: reads the six files by name from its directory, up to 8,192 bytes each, loads them into a table of 4,096 words, and says what came of it.
#![tactic(auto)]

ghost use Rattle.std.specs.Prelude.{length, ◌≡◌};
ghost use Rattle.ferry.specs.Counts.{IsPrefixLen};

use std::fs::File;
use std::io::Read;
use std::{fs, io};
use timetable::{
    BIT_FIELDS_AT, CLASSES_AT, HELPER_HEAD_WORDS, HELPER_LINE_WORDS, INTERCHANGES_AT, Loaded,
    PERIOD_DAYS_AT, SERVICES_AT, STOPS_AT,
};

// One byte more than a file may have: a count of all of them says that the file is unread.
const ROOM_BYTES: usize = 8193;

const TABLE_WORDS: usize = 4096;

// Helper words for any three files that are read, with a line for each of their bytes: no delivery is refused with 51.
const HELPER_WORDS: usize = HELPER_HEAD_WORDS + HELPER_LINE_WORDS * 3 * (ROOM_BYTES - 1);

fn main(rt: HostRuntime) -> io::Result<()> {
    let mut eckdaten = room();
    let mut bitfeld = room();
    let mut bahnhof = room();
    let mut umsteigb = room();
    let mut fplan = room();
    let mut zugart = room();
    let eckdaten_bytes = read_named(&rt, "ECKDATEN", &mut eckdaten);
    let bitfeld_bytes = read_named(&rt, "BITFELD", &mut bitfeld);
    let bahnhof_bytes = read_named(&rt, "BAHNHOF", &mut bahnhof);
    let umsteigb_bytes = read_named(&rt, "UMSTEIGB", &mut umsteigb);
    let fplan_bytes = read_named(&rt, "FPLAN", &mut fplan);
    let zugart_bytes = read_named(&rt, "ZUGART", &mut zugart);
    let unread = first_unread(
        eckdaten_bytes,
        bitfeld_bytes,
        bahnhof_bytes,
        umsteigb_bytes,
        fplan_bytes,
        zugart_bytes,
    );
    if unread != 0 {
        println!(rt; "unread file {unread}")?;
        return Ok(());
    }
    let mut table = [0u32; TABLE_WORDS];
    let mut helper = [0u32; HELPER_WORDS];
    let answer = load::load(
        &eckdaten[..eckdaten_bytes],
        &bitfeld[..bitfeld_bytes],
        &bahnhof[..bahnhof_bytes],
        &umsteigb[..umsteigb_bytes],
        &fplan[..fplan_bytes],
        &zugart[..zugart_bytes],
        &mut table,
        &mut helper,
    );
    tell(&rt, answer, &table)
}

// ---- reading

fn room() -> [u8; ROOM_BYTES]
    ensures { 8193 ≡ length result }
{
    [0; ROOM_BYTES]
}

// Reads the file that path names into buf; all of buf counts where it cannot be opened or read, or is longer.
fn read_named(rt: &HostRuntime, path: &str, buf: &mut [u8]) -> usize
    ensures { IsPrefixLen result buf.new }
{
    match fs::open(rt, path) {
        Ok(file) => read_whole(file, buf),
        Err(_) => all(buf),
    }
}

// Reads the file to its end, and answers how many bytes it has; all of buf counts where a read fails, or nothing is left of buf before the end.
fn read_whole(mut file: File, buf: &mut [u8]) -> usize
    ensures { IsPrefixLen result buf.new }
{
    // Kept: a walk, not an index loop: the place goes on by what each read gives.
    let mut at = 0;
    while at < buf.len() {
        match file.read(&mut buf[at..]) {
            Ok(0) => return at,
            Ok(n) => at += n,
            Err(_) => return all(buf),
        }
    }
    all(buf)
}

fn all(buf: &[u8]) -> usize
    ensures { IsPrefixLen result buf.now }
{
    buf.len()
}

// The first file whose count is that of an unread one, or 0.
fn first_unread(
    eckdaten: usize,
    bitfeld: usize,
    bahnhof: usize,
    umsteigb: usize,
    fplan: usize,
    zugart: usize,
) -> u32 {
    if eckdaten == ROOM_BYTES {
        return 1;
    }
    if bitfeld == ROOM_BYTES {
        return 2;
    }
    if bahnhof == ROOM_BYTES {
        return 3;
    }
    if umsteigb == ROOM_BYTES {
        return 4;
    }
    if fplan == ROOM_BYTES {
        return 5;
    }
    if zugart == ROOM_BYTES {
        return 6;
    }
    0
}

// ---- telling

fn tell(rt: &HostRuntime, answer: Loaded, table: &[u32; TABLE_WORDS]) -> io::Result<()> {
    match answer {
        Loaded::Accepted(used) => {
            let days = table[PERIOD_DAYS_AT];
            let bit_fields = table[BIT_FIELDS_AT];
            let stops = table[STOPS_AT];
            let interchanges = table[INTERCHANGES_AT];
            let classes = table[CLASSES_AT];
            let services = table[SERVICES_AT];
            println!(rt;
                "accepted days {days} bitfields {bit_fields} stops {stops} interchange {interchanges} categories {classes} services {services} words {used}"
            )
        }
        Loaded::Refused {
            number,
            file,
            line,
            column,
            needed,
        } => println!(rt; "refused {number} file {file} line {line} column {column}"),
    }
}

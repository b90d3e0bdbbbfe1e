// The question for the name of a stop in a language and of a type (request No. 3), on any bytes of BAHNHOF: of any words (`name`), and of words and
// an index that look-ups may go by (`name_by`, which the quick question shares).
ghost use Rattle.std.specs.Prelude.{◌≡◌};
ghost use Rattle.timetable.specs.StopNames.{name_within, stop_name, stop_name_in, stop_name_asked};
ghost use Rattle.index.specs.Index.{view_in};
ghost use Rattle.index.specs.Inner.Ready.{Ready};

use names::Wanted;
use timetable::{NamePart, Refusal};

// The part of BAHNHOF that holds the name: 21, 40 language or type outside the standard's list, 27 stop unknown, 41, 39.
pub fn name(
    w: &[u32],
    bahnhof: &[u8],
    stop: u32,
    language: u32,
    kind: u32,
) -> Result<NamePart, Refusal>
    ensures { result ≡ stop_name_asked w.now bahnhof.now stop language kind }
{
    if !table::is_table(w) {
        return Err(Refusal::NoTable);
    }
    name_by(
        table::used_words(w),
        &w[0..0],
        bahnhof,
        stop,
        language,
        kind,
    )
}

pub fn name_by(
    w: &[u32],
    x: &[u32],
    bahnhof: &[u8],
    stop: u32,
    language: u32,
    kind: u32,
) -> Result<NamePart, Refusal>
    requires { Ready w.now x.now }
    ensures { result ≡
        stop_name_in (view_in w.now x.now) bahnhof.now stop language kind }
{
    let Some(wanted) = names::asked_for(language, kind) else {
        return Err(Refusal::NotAskable);
    };
    stop_name(w, x, bahnhof, stop, wanted)
}

// The name of a stop.
fn stop_name(
    w: &[u32],
    x: &[u32],
    bahnhof: &[u8],
    stop: u32,
    wanted: Wanted,
) -> Result<NamePart, Refusal>
    requires { Ready w.now x.now }
    ensures { result ≡
        stop_name bahnhof.now wanted ((view_in w.now x.now).named stop) }
{
    match index::stop_name(w, x, stop) {
        Some(place) => name_within(bahnhof, place.offset, place.size, wanted),
        None => Err(Refusal::StopUnknown),
    }
}

// The name in so many bytes from a place on: 41 not inside the bytes given, 39 no name list.
fn name_within(bahnhof: &[u8], offset: u32, size: u32, wanted: Wanted) -> Result<NamePart, Refusal>
    ensures { result ≡
        name_within bahnhof.now wanted (record { number = 0; offset = offset; size = size }) }
{
    let start = offset as usize;
    let end = start + size as usize;
    if bahnhof.len() < end {
        return Err(Refusal::NameOutside);
    }
    match names::name_for(&bahnhof[start..end], wanted) {
        Some(name) => Ok(NamePart {
            start: start + name.place,
            size: name.size,
        }),
        None => Err(Refusal::NoNameList),
    }
}

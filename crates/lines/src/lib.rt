// Walks a file line by line, by place and line number, without copying: a line is the part of its file from a place to a stop.
#![tactic(auto)]

ghost use Rattle.std.specs.Prelude.{◌≡◌, cond, not, ◌&&◌, ◌+◌, ◌-◌, ◌≤◌, ◌<◌, length, take, drop, eqb, leb};
ghost use Rattle.lines.specs.Lines.{lines_of, no_cr, to_lf, past_lf, cut_at, skipped};

use columns::ByteClass;

pub mod reader;

// The line that starts at a known place: where its text stops, where the next line starts, and the next line's number.
#[derive(Clone, Copy)]
pub struct Cut {
    pub stop: usize,
    pub next: usize,
    pub no: u32,
}

// The line with number `no` that starts at `at`.
pub fn line_at(file: &[u8], at: usize, no: u32) -> Cut
    requires at_in_bounds { at ≤ length file.now }
    requires no_bound { no < 4294967295 }
    ensures { result ≡ cut_at file.now at no }
{
    cut_to(file, at, line_end(file, at), no)
}

// The line that starts at `at`, whose LF, or the file's end, is at `end`.
pub fn cut_to(file: &[u8], at: usize, end: usize, no: u32) -> Cut
    requires at_in_bounds { at ≤ length file.now }
    requires end_value { end ≡ at + to_lf (drop at file.now) }
    requires no_bound { no < 4294967295 }
    ensures { result ≡ cut_at file.now at no }
{
    let stop = before_cr(file, at, end);
    let next = past_lf(file, end);
    Cut {
        stop,
        next,
        no: no + 1,
    }
}

// Whether a line is skipped: all blank, or "%" in column 1.
pub fn skips(line: &[u8]) -> bool
    ensures { result ≡ skipped line.now }
{
    if columns::column_at(line, 1) == b'%' {
        return true;
    }
    columns::every_of(line, line.len(), ByteClass::Byte(b' '))
}

// ---- the first LF. A block whose bytes are all tested, with no way out between them, is tested by the machine at once.

const BLOCK: usize = 16;

const HALF_BLOCK: usize = 8;

// How wide most lines of FPLAN are: whole blocks, and the bytes behind them.
const USUAL_WIDTH: usize = 59;

const USUAL_BLOCKS: usize = 48;

// The place of the first LF at or after `at`, or the file's length. A usual line's LF is seen at once.
fn line_end(file: &[u8], at: usize) -> usize
    requires { at ≤ length file.now }
    ensures { result ≡ at + to_lf (drop at file.now) }
{
    if USUAL_WIDTH < file.len() - at {
        if file[at + USUAL_WIDTH] == b'\n' {
            if no_lf(file, at, USUAL_BLOCKS) {
                if no_lf(file, at + USUAL_BLOCKS, USUAL_WIDTH - USUAL_BLOCKS) {
                    return at + USUAL_WIDTH;
                }
            }
        }
    }
    piece_end(file, at)
}

// The same for a line of any width.
fn piece_end(file: &[u8], at: usize) -> usize
    requires { at ≤ length file.now }
    ensures { result ≡ at + to_lf (drop at file.now) }
{
    let block = past_blocks(file, at);
    let half = past_half(file, block);
    first_lf(file, half)
}

// The place past the blocks from `at` on that hold no LF: what is sought is the same from there.
fn past_blocks(file: &[u8], at: usize) -> usize
    requires { at ≤ length file.now }
    ensures { (result ≤ length file.now)
        × (result + to_lf (drop result file.now) ≡ at + to_lf (drop at file.now)) }
{
    // Kept: each block is looked at from where the last one ended; `chunks_exact` would give parts without their places.
    let mut i = at;
    while BLOCK <= file.len() - i {
        if no_lf(file, i, BLOCK) {
            i += BLOCK;
        } else {
            return i;
        }
    }
    i
}

// The same of half a block.
fn past_half(file: &[u8], at: usize) -> usize
    requires { at ≤ length file.now }
    ensures { (result ≤ length file.now)
        × (result + to_lf (drop result file.now) ≡ at + to_lf (drop at file.now)) }
{
    if HALF_BLOCK <= file.len() - at {
        if no_lf(file, at, HALF_BLOCK) {
            return at + HALF_BLOCK;
        }
    }
    at
}

// Whether the n bytes from `at` on hold no LF.
fn no_lf(file: &[u8], at: usize, n: usize) -> bool
    requires { at + n ≤ length file.now }
    ensures { result ≡ leb n (to_lf (drop at file.now)) }
{
    let mut none = true;
    for i in 0..n {
        none &= file[at + i] != b'\n';
    }
    none
}

// The place of the first LF at or after `at`, byte by byte.
fn first_lf(file: &[u8], at: usize) -> usize
    requires { at ≤ length file.now }
    ensures { result ≡ at + to_lf (drop at file.now) }
{
    for i in at..file.len() {
        if file[i] == b'\n' {
            return i;
        }
    }
    file.len()
}

// ---- how many LF: a file's lines are counted without being cut

// How many bytes are counted at once: so few that a byte holds their number.
pub const COUNTED: usize = 128;

// How many lines end within the bytes from `at` on that are counted at once. The file goes on behind them.
pub fn lines_ended(file: &[u8], at: usize) -> u32
    requires { at + 128 < length file.now }
    ensures file_value { result + length (lines_of (drop (at + 128) file.now)) ≡
        length (lines_of (drop at file.now)) }
    ensures upper_bound { result ≤ 128 }
{
    let mut ended: u8 = 0;
    for i in 0..COUNTED {
        ended += one_lf(file[at + i]);
    }
    ended as u32
}

// 1 for an LF, else 0.
fn one_lf(b: u8) -> u8
    ensures { result ≡ cond (eqb b 10) 1 0 }
{
    if b == b'\n' { 1 } else { 0 }
}

// ---- what stands around a line

// The end of the line whose piece is `at` to `end`: before one CR.
fn before_cr(file: &[u8], at: usize, end: usize) -> usize
    requires at_le_end { at ≤ end }
    requires end_in_bounds { end ≤ length file.now }
    ensures { result ≡ at + length (no_cr (take (end - at) (drop at file.now))) }
{
    if at < end {
        if file[end - 1] == b'\r' {
            return end - 1;
        }
    }
    end
}

// The place after the LF at `end`, if there is one.
fn past_lf(file: &[u8], end: usize) -> usize
    ensures { result ≡ past_lf file.now end }
{
    if end < file.len() { end + 1 } else { end }
}

// The reader of a file: it holds the file, its place and its line number, cuts the next line and stands behind it. Thin over `lines::line_at`.
ghost use Rattle.std.specs.Prelude.{◌≡◌, ◌+◌, ◌≤◌, ◌<◌, ◌^◌, length, get_or, drop};
ghost use Rattle.lines.specs.Lines.{to_lf, cut_at, lines_of};
ghost use Rattle.lines.specs.Inner.Past.{past};
ghost use Rattle.lines.specs.Inner.Skips.{past_skipped};

use crate::Cut;

// A file, the place where its next line starts, and that line's number.
#[derive(Clone, Copy)]
pub struct Reader<'a> {
    pub file: &'a [u8],
    pub at: usize,
    pub no: u32,
}

impl<'a> Reader<'a> {
    // The next line. The reader goes behind it and keeps its number.
    pub fn next_line(&mut self) -> Cut
        requires at_in_bounds { self.old.at ≤ length self.old.file.now }
        requires no_bound { self.old.no < 4294967295 }
        ensures { (result ≡ cut_at self.old.file.now self.old.at self.old.no)
            × (self.new ≡ past self.old result) }
    {
        let cut = crate::line_at(self.file, self.at, self.no);
        self.at = cut.next;
        self.no = cut.no;
        cut
    }
}

// The line that a reader at `at` cuts: what a loop over a file calls.
pub fn line_from(file: &[u8], at: usize, no: u32) -> Cut
    requires at_in_bounds { at ≤ length file.now }
    requires no_bound { no < 4294967295 }
    ensures { result ≡ cut_at file.now at no }
{
    let mut reader = Reader { file, at, no };
    reader.next_line()
}

// The same of a line that is known to reach so far, none of its first `width` bytes being an LF: its LF is likely to be the next.
pub fn line_beyond(file: &[u8], at: usize, no: u32, width: usize) -> Cut
    requires at_in_bounds { at ≤ length file.now }
    requires no_bound { no < 4294967295 }
    requires width_bound { width ≤ to_lf (drop at file.now) }
    ensures { result ≡ cut_at file.now at no }
{
    let end = at + width;
    if end < file.len() {
        if file[end] == b'\n' {
            return crate::cut_to(file, at, end, no);
        }
    }
    line_from(file, at, no)
}

// The place after the line that starts at `at`, where that line is skipped, else `at`; the line is not empty. It may have one byte: a file may have half as
// many such lines as bytes.
pub fn past_skipped(file: &[u8], at: usize) -> usize
    requires at_in_bounds { at < length file.now }
    requires fact { get_or file.now at 0 ≡ 10 → ⊥ }
    ensures { result ≡ past_skipped file.now at }
{
    let cut = line_beyond(file, at, 1, 1);
    let stop = cut.stop;
    if crate::skips(&file[at..stop]) {
        return cut.next;
    }
    at
}

// How many lines a file has, without cutting them: those that end within its first bytes, and those that a reader passes in the rest.
pub fn lines_in(f: &[u8]) -> u32
    requires { length f.now + 1 < 2 ^ 32 }
    ensures { result ≡ length (lines_of f.now) }
{
    let mut at: usize = 0;
    let mut ended: u32 = 0;
    // Kept: the last bytes are never counted at once, and where they begin is handed on; a `for` over steps of 128 is no plainer.
    while crate::COUNTED < f.len() - at {
        ended += crate::lines_ended(f, at);
        at += crate::COUNTED;
    }
    ended + lines_passed(&f[at..f.len()])
}

// How many lines a text has: one reader passes them all, and its line number counts them from 1.
fn lines_passed(text: &[u8]) -> u32
    requires { length text.now + 1 < 2 ^ 32 }
    ensures { result ≡ length (lines_of text.now) }
{
    let mut reader = Reader {
        file: text,
        at: 0,
        no: 1,
    };
    // Kept: a walk over the text, line by line; no index is counted.
    while reader.at < text.len() {
        reader.next_line();
    }
    reader.no - 1
}

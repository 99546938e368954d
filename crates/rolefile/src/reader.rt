// A line reader: it keeps the file and the number of its next line.
ghost use Rattle.std.specs.Prelude.{◌≡◌};
ghost use Rattle.rolefile.specs.Line.{line_at};

use super::{Line, read};

#[derive(Clone, Copy, Debug, PartialEq, Eq)]
pub struct Reader<'a> {
    pub file: &'a [u8],
    pub next: usize,
}

// The reader of a file whose next line is line `next`, counted from 1.
pub fn from_line<'a>(file: &'a [u8], next: usize) -> Reader<'a>
    ensures { (result.file ≡ file.entry) × (result.next ≡ next) }
{
    Reader { file, next }
}

// Its next line; a malformed one where the file has no such line.
pub fn next_line<'a>(r: Reader<'a>) -> Line
    ensures { result ≡ line_at r.entry.file.now r.entry.next }
{
    read::line(r.file, r.next)
}

// Its next line with its number, and so to the file's last line.
impl<'a> Iterator for Reader<'a> {
    ghost use Rattle.std.specs.Prelude.{◌+◌, ◌-◌};
    ghost use Rattle.std.specs.Iterator.{at_most};
    ghost use Rattle.rolefile.specs.Line.{lines};
    ghost use Rattle.rolefile.specs.Reader.{GivesLine};

    type Item = (usize, Line);

    ghost next_gives = { GivesLine };

    ghost remaining = { λ r. at_most (lines r.file.now + 1 - r.next) };

    fn next(&mut self) -> Option<(usize, Line)> {
        let r = *self;
        if r.file.len() / read::LINE_LENGTH < r.next {
            return None;
        }
        self.next += 1;
        Some((r.next, next_line(r)))
    }
}

// Tables of one byte for each thing: clearances and card labels.
ghost use Rattle.std.specs.Prelude.{◌≡◌, ◌≤◌};
ghost use Rattle.search.specs.Search.{first, thing};
ghost use Rattle.rolefile.specs.Line.{lines};
ghost use Rattle.policy.specs.inner.Filling.{Bytes, noted, after_note, NotedBytes, unlabelled_in};

use super::layout::State;
use super::table::ByteTable;
use rolefile::read;

// The byte of a thing without a label. It and the next are bytes, and no enum, since the tables are
// the state's format (docs/LAYOUT.md).
const NONE: u8 = 0;

// The byte of a thing with several labels.
const SEVERAL: u8 = 255;

// The byte for a label where `old` was there before: `SEVERAL` where it is the second.
#[tactic(auto, unfolding(crate::specs::inner::Filling::noted))]
fn noted(old: u8, label: usize) -> u8
    ensures { result ≡ noted old label }
{
    if old == NONE {
        return (label % 256) as u8;
    }
    SEVERAL
}

// Notes a label for thing x, if it is one of the table's.
fn note(s: &mut State, table: ByteTable, x: usize, label: usize)
    ensures { Bytes table.at table.size (after_note s.old table.at x label) s.old s.new }
{
    if !search::among(table.size as u64, x as u64) {
        return;
    }
    let i = table.at + (x - 1);
    s[i] = noted(s[i], label);
}

// Notes the labels that the lines give.
pub fn note_lines(s: &mut State, table: ByteTable, p: &[u8])
    ensures { NotedBytes table.at table.size p.now (lines p.now) s.old s.new }
{
    for i in 0..p.len() / read::LINE_LENGTH {
        note(
            s,
            table,
            read::first_number(p, i),
            read::second_number(p, i),
        );
    }
}

// The lowest of n things with no label or several.
pub fn lowest_unlabelled(s: &State, table: ByteTable, n: usize) -> Option<usize>
    requires { n ≤ table.size }
    ensures { result ≡ thing (first n (unlabelled_in s.now table.at)) }
{
    for i in 0..n {
        let v = s[table.at + i];
        if (v == NONE) | (v == SEVERAL) {
            return Some(i + 1);
        }
    }
    None
}

// Dominance: the marks of the D lines, and the closed marks as bytes.
ghost use Rattle.std.specs.Prelude.{◌≡◌, cond, ◌+◌, ◌≤◌};
ghost use Rattle.order.specs.Bound.{converse};
ghost use Rattle.order.specs.Table.{mark, marks};
ghost use Rattle.order.specs.inner.Members.{row_holds};
ghost use Rattle.rolefile.specs.Line.{lines};
ghost use Rattle.policy.specs.Tables.{state_size};
ghost use Rattle.policy.specs.inner.Filling.{Bytes, Marking, WithPair, DominanceRows};
ghost use Rattle.policy.specs.inner.Stages.{Closed};

use super::file::File;
use super::layout;
use super::layout::State;
use order::bounds::MemberRows;
use order::marks::{Set, Table};
use rolefile::read;

// Dominance as marks, and as rows of labels: those under each label, and those over it.
#[derive(Drop)]
pub struct Dominance<'a> {
    pub file: &'a File<'a>,
    pub marks: &'a Table,
    pub under: MemberRows,
    pub over: MemberRows,
    ghost marked: { Closed file.now.bytes.now (mark marks.now) },
    ghost lower: { Closed file.now.bytes.now (row_holds under) },
    ghost upper: { Closed file.now.bytes.now (converse (row_holds over)) },
}

// Marks a over b in the table, if both are labels.
#[tactic(auto, using(search::proofs::Truth::one_of))]
fn add_pair(t: &mut Table, a: usize, b: usize)
    ensures { WithPair a b t.old t.new }
{
    if !search::among(layout::LABELS as u64, a as u64) {
        return;
    }
    let i = a - 1;
    let row = t[i];
    t[i] = order::marks::with_mark(row, b);
}

// The marks of the lines.
pub fn marks_of(p: &[u8]) -> Table
    ensures { Marking p.now (lines p.now) result }
{
    let mut t = [[false; layout::LABELS]; layout::LABELS];
    for i in 0..p.len() / read::LINE_LENGTH {
        add_pair(&mut t, read::first_number(p, i), read::second_number(p, i));
    }
    t
}

// The byte of a mark, by the name that `tables::dominates` reads.
fn byte(on: bool) -> u8
    ensures { result ≡ cond on 1 0 }
{
    if on { layout::MARK } else { 0 }
}

// Puts a row of marks at `at`, a byte for each. The row comes by value, so that the compiler sees that
// no byte of it is the state's, and moves many at once.
fn put_row(s: &mut State, at: usize, row: Set)
    requires { at + 32 ≤ state_size }
    ensures { Bytes at 32 (λ b. cond (marks row b) 1 0) s.old s.new }
{
    for j in 0..layout::LABELS {
        s[at + j] = byte(row[j]);
    }
}

// Puts the table where dominance stands.
pub fn put_table(s: &mut State, t: &Table)
    ensures { DominanceRows 32 t.now s.old s.new }
{
    for i in 0..layout::LABELS {
        put_row(s, layout::DOMINANCE_AT + layout::LABELS * i, t[i]);
    }
}

// A relation among up to 32 things as 32 rows by 32 marks, and sets of such things as 32 marks.
ghost use Rattle.std.specs.Prelude.{◌≡◌, ◌&&◌, ◌||◌, ◌+◌, ◌≤◌, ◌<◌, min, eqb, length, MatchOption};
ghost use Rattle.search.specs.Search.{thing, Among};
ghost use Rattle.order.specs.Closure.{path, loop, round, with_itself};
ghost use Rattle.order.specs.Table.{marks, mark, Upto, Rows};
ghost use Rattle.order.specs.inner.Rounds.{BecomesMarks, LinksMarks, marks_before, marks_round, marks_unlinked, marks_link};

use super::closing;
use super::closing::Closing;

// How many things there is room for.
pub const THINGS: usize = 32;

// A set of things: a mark for each.
pub type Set = [bool; THINGS];

// A table of marks: for each thing the set of those that it is related to.
pub type Table = [Set; THINGS];

// The lesser of the two.
pub fn lesser(n: usize, most: usize) -> usize
    ensures { result ≡ min n most }
{
    n.min(most)
}

// The index of thing a, if it is one of the 32.
pub(super) fn place(a: usize) -> Option<usize>
    ensures { MatchOption result (Among 32 a → ⊥) (λ i. (i < 32) × (a ≡ i + 1)) }
{
    match a.checked_sub(1) {
        Some(i) if i < THINGS => Some(i),
        _ => None,
    }
}

// The row with the marks of `other` too, where `on`.
fn stepped(row: Set, other: Set, on: bool) -> Set
    ensures { Upto 32 (λ b. marks row b || (on && marks other b)) result }
{
    let mut r = [false; THINGS];
    for j in 0..THINGS {
        r[j] = row[j] | (on & other[j]);
    }
    r
}

// One round of closing: in the first n rows, the paths past thing k + 1 too.
fn round_of(t: &mut Table, k: usize, n: usize)
    requires { (length t.old ≡ 32) × (k < n) × (n ≤ 32) }
    ensures { (length t.new ≡ 32) × Rows 32 n (round (mark t.old) (k + 1)) (mark t.old) (mark t.new) }
{
    let other = t[k];
    for i in 0..n {
        let on = t[i][k];
        t[i] = stepped(t[i], other, on);
    }
}

// The row with a mark at thing b too, if it is one of the 32.
pub fn with_mark(row: Set, b: usize) -> Set
    ensures { Upto 32 (λ y. eqb b y || marks row y) result }
{
    let mut r = row;
    if let Some(i) = place(b) {
        r[i] = true;
    }
    r
}

impl Closing for Table {
    ghost ROOM = { 32 };

    const ROOM: usize = THINGS;

    ghost relates = { mark };

    ghost becomes = { BecomesMarks };

    ghost links = { LinksMarks };

    fn loops(&self, i: usize) -> bool {
        self[i][i]
    }

    fn link(&mut self, i: usize) {
        self[i] = with_mark(self[i], i + 1);
    }

    fn pass(&mut self, k: usize, n: usize) {
        round_of(self, k, n);
    }

    ghost before_rounds = { marks_before };

    ghost after_round = { marks_round };

    ghost before_links = { marks_unlinked };

    ghost after_link = { marks_link };
}

// The paths of one step or more among the first n things.
pub fn paths(t: Table, n: usize) -> Table
    ensures { Rows 32 (min n 32) (path (min n 32) (mark t)) (mark t) (mark result) }
{
    let mut r = t;
    closing::paths(&mut r, n);
    r
}

// Each of the first n things with itself: of paths, the closure.
pub fn reflected(t: Table, n: usize) -> Table
    ensures { Rows 32 (min n 32) (with_itself (mark t)) (mark t) (mark result) }
{
    let mut r = t;
    closing::reflect(&mut r, n);
    r
}

// The lowest of the first n things that is related to itself: of paths, the lowest on a circle.
pub fn lowest_loop(t: Table, n: usize) -> Option<usize>
    ensures { result ≡ thing (loop (min n 32) (mark t)) }
{
    closing::lowest_loop(&t, n)
}

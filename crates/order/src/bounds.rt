// Bounds of sets of things in an order. A set of the things 1 to 32 is a number, and an order such a number for
// each thing, its row.
//
// The row of a thing has the things under it. So lower bounds are what rows have in common, and
// upper bounds are what columns have in common, the rows of the order turned round.
ghost use Rattle.std.specs.Prelude.{◌≡◌, ◌&&◌, ◌||◌, ◌+◌, ◌≤◌, ◌<◌, min, leb, eqb};
ghost use Rattle.search.specs.Search.{some, every, implies, thing};
ghost use Rattle.order.specs.Closure.{Agree};
ghost use Rattle.order.specs.Bound.{upper, least_of, converse, partner_without_bound, first_without_bound};
ghost use Rattle.order.specs.Table.{marks, mark};
ghost use Rattle.order.specs.inner.Members.{holds, Has, FirstThings, row_holds, in_row};

use super::marks;
use super::marks::{Set, THINGS, Table};

// A set of things: thing a is bit a - 1.
pub type Members = u32;

// A relation: for each thing the set of those that it is related to.
pub type MemberRows = [Members; THINGS];

// The set with thing i + 1 too where `on`.
fn put(s: Members, i: usize, on: bool) -> Members
    requires { i < 32 }
    ensures { Has (λ b. holds s b || (on && eqb (i + 1) b)) result }
{
    s | ((on as u32) << i)
}

// The set with thing a too where `on`, if it is one of the 32. A mark is such a flag, and no Option.
pub fn with(s: Members, a: usize, on: bool) -> Members
    ensures { Has (λ b. holds s b || (on && eqb a b)) result }
{
    match marks::place(a) {
        Some(i) => put(s, i, on),
        None => s,
    }
}

// The set of the first n things.
pub fn first_things(n: usize) -> Members
    ensures { FirstThings n result }
{
    if THINGS <= n {
        return u32::MAX;
    }
    (1 << n) - 1
}

// The set of the marks, as a number.
fn packed(row: Set) -> Members
    ensures { Has (marks row) result }
{
    let mut r = 0;
    for j in 0..THINGS {
        r = put(r, j, row[j]);
    }
    r
}

// The first n rows of a table, each as a number; those after are empty.
pub fn rows(t: &Table, n: usize) -> MemberRows
    ensures { Agree 32 32 (row_holds result) (λ a b. leb a n && mark t.now a b) }
{
    let mut r = [0; THINGS];
    for i in 0..n.min(THINGS) {
        r[i] = packed(t[i]);
    }
    r
}

// The rows with thing i + 1 too in each whose thing has a mark.
fn spread(t: MemberRows, row: Set, i: usize) -> MemberRows
    requires { i < 32 }
    ensures { Agree 32 32 (row_holds result) (λ a b. row_holds t a b || (marks row a && eqb (i + 1) b)) }
{
    let mut r = [0; THINGS];
    for j in 0..THINGS {
        r[j] = put(t[j], i, row[j]);
    }
    r
}

// The columns of a table, each as a number, of which the first n rows count: the rows of the relation turned round.
// Not `rows` of a table turned round: marks are read along the rows here too, a row spread over all columns at once.
pub fn columns(t: &Table, n: usize) -> MemberRows
    ensures { Agree 32 32 (row_holds result) (λ a b. leb b n && mark t.now b a) }
{
    let counted = n.min(THINGS);
    let mut r = [0; THINGS];
    for i in 0..counted {
        let wider = spread(r, t[i], i);
        r = wider;
    }
    r
}

// The row of thing a, empty where it is none of the 32.
pub fn row(t: &MemberRows, a: usize) -> Members
    ensures { Has (in_row t.now a) result }
{
    match marks::place(a) {
        Some(i) => t[i],
        None => 0,
    }
}

// Whether the set has a thing.
pub fn any(s: Members) -> bool
    ensures { result ≡ some 32 (holds s) }
{
    s != 0
}

// Whether some thing is in all three sets.
pub fn meet(s: Members, t: Members, u: Members) -> bool
    ensures { result ≡ some 32 (λ a. holds s a && (holds t a && holds u a)) }
{
    s & (t & u) != 0
}

// Whether all of s is in t.
fn within(s: Members, t: Members) -> bool
    ensures { result ≡ every 32 (λ a. implies (holds s a) (holds t a)) }
{
    s & t == s
}

// The greatest of the set. Where several are over all of it, the lowest number of them. They are tried in
// turn, the lowest that is left first.
//
// A `for` over the things of a set would need an iterator of bits, and that is this loop again in an impl with its
// laws: of `greatest` and of `lower_bounds` no line would go.
fn greatest(t: &MemberRows, s: Members) -> Option<usize>
    ensures { result ≡ thing (least_of 32 (converse (row_holds t.now)) (holds s)) }
{
    let mut rest = s;
    while rest != 0 {
        let c = rest.trailing_zeros() as usize;
        let under = t[c];
        if within(s, under) {
            return Some(c + 1);
        }
        rest = rest & (rest - 1);
    }
    None
}

// The things of `all` that are under each of s. Those of s are taken in turn, the lowest that is left first.
fn lower_bounds(t: &MemberRows, all: Members, s: Members) -> Members
    ensures { Has (λ c. holds all c && upper 32 (converse (row_holds t.now)) (holds s) c) result }
{
    let mut r = all;
    let mut rest = s;
    while rest != 0 {
        r = r & t[rest.trailing_zeros() as usize];
        rest = rest & (rest - 1);
    }
    r
}

// The greatest of the things of `all` that are under each of s. Where `all` is the set of the things that
// there are and s has no others, this is the greatest lower bound.
pub fn greatest_lower(t: &MemberRows, all: Members, s: Members) -> Option<usize>
    ensures { result ≡ thing (least_of 32 (converse (row_holds t.now)) (λ c. holds all c && upper 32 (converse (row_holds t.now)) (holds s) c)) }
{
    greatest(t, lower_bounds(t, all, s))
}

// The lowest of the first m things that comes after thing i + 1 and has no least upper bound with it, in
// the order that was turned round.
fn partner(up: &MemberRows, m: usize, i: usize) -> Option<usize>
    requires { (m ≤ 32) × (i < m) }
    ensures { result ≡ thing (partner_without_bound m (converse (row_holds up.now)) (i + 1)) }
{
    let bounds = first_things(m) & up[i];
    for j in i + 1..m {
        if greatest(up, bounds & up[j]).is_none() {
            return Some(j + 1);
        }
    }
    None
}

// Two things, the lower and the higher number.
#[derive(Clone, Copy, PartialEq, Eq, Debug)]
pub struct Pair {
    pub lower: usize,
    pub higher: usize,
}

// The first pair among the first n things that has no least upper bound in an order.
pub fn first_pair(t: Table, n: usize) -> Option<Pair>
    ensures { result ≡ first_without_bound (min n 32) (mark t) }
{
    let m = n.min(THINGS);
    let up = columns(&t, m);
    for i in 0..m {
        if let Some(higher) = partner(&up, m, i) {
            return Some(Pair {
                lower: i + 1,
                higher,
            });
        }
    }
    None
}

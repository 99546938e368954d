// Sets of roles 1 to 128 as rows of 16 bytes, each at an offset of a byte slice.
//
// Every public function takes any slice, offset and role. A row that does not lie wholly in the
// slice is empty and stays so, and a number that is no role's is in no row.
#![tactic(auto)]

mod inner;

ghost use Rattle.std.specs.Prelude.{◌≡◌, ◌&&◌, cond, ◌+◌, ◌*◌, leb};
ghost use Rattle.search.specs.Search.{some, thing};
ghost use Rattle.roleset.specs.Set.{in_set, low_of, high_of};
ghost use Rattle.roleset.specs.Row.{whole, member, common, next_member, RowCopy, Placed, PlacedRows, added, added_where, removed, united, united_where, joined};

// How many roles a set has room for.
pub const ROLES: usize = 128;

// The bytes of a row.
pub const ROW_BYTES: usize = 16;

// Whether n rows from `at` on lie wholly in `len` bytes.
pub fn rows_lie(len: usize, at: usize, n: usize) -> bool
    ensures { result ≡ leb (at + 16 * n) len }
{
    if len / ROW_BYTES < n {
        return false;
    }
    at <= len - ROW_BYTES * n
}

// Whether the row at `at` holds the role. Each test ends it at once, here and in `inner::has`: a loop
// that asks this of many rows then makes the mask of the role's bit but once.
pub fn has(s: &[u8], at: usize, role: usize) -> bool
    ensures { result ≡ (whole s.now at && member s.now at role) }
{
    let Some(row) = inner::row(s, at) else {
        return false;
    };
    inner::has(row, role)
}

// The lowest role above `after` that the row at `at` holds.
pub fn next(s: &[u8], at: usize, after: usize) -> Option<usize>
    ensures { result ≡ thing (cond (whole s.now at) (next_member s.now at after) 0) }
{
    inner::next(inner::row(s, at)?, after)
}

// Puts the role into the row at `at`. Each function that writes a row tests by itself that it lies in
// the slice: what a closure did behind a `&mut`, a contract of its caller could not say.
pub fn add(s: &mut [u8], at: usize, role: usize)
    ensures { Placed at (added s.old at role) s.old s.new }
{
    if rows_lie(s.len(), at, 1) {
        inner::add(&mut s[at..at + ROW_BYTES], role);
    }
}

// Adds the role where `on` holds, as its contract has it.
pub fn add_where(s: &mut [u8], at: usize, role: usize, on: bool)
    ensures { Placed at (added_where s.old at role on) s.old s.new }
{
    if on {
        add(s, at, role);
    }
}

// Takes the role out of the row at `at`.
pub fn remove(s: &mut [u8], at: usize, role: usize)
    ensures { Placed at (removed s.old at role) s.old s.new }
{
    if rows_lie(s.len(), at, 1) {
        inner::remove(&mut s[at..at + ROW_BYTES], role);
    }
}

// The row at `at`, by value.
pub fn row(s: &[u8], at: usize) -> [u8; ROW_BYTES]
    ensures { RowCopy s.now at result }
{
    match inner::row(s, at) {
        Some(row) => *row,
        None => [0; ROW_BYTES],
    }
}

// Puts the roles of a row that was taken by value into the row at `at`.
pub fn unite(s: &mut [u8], at: usize, other: [u8; ROW_BYTES])
    ensures { Placed at (united s.old at other) s.old s.new }
{
    if rows_lie(s.len(), at, 1) {
        inner::unite(&mut s[at..at + ROW_BYTES], other);
    }
}

// The same for each of the n rows from `at` on that holds the role. Where not all of them lie in the
// slice, none is changed.
pub fn unite_rows(s: &mut [u8], at: usize, n: usize, role: usize, other: [u8; ROW_BYTES])
    ensures { PlacedRows at n (λ i. united_where s.old (at + 16 * i) role other) s.old s.new }
{
    if !rows_lie(s.len(), at, n) {
        return;
    }
    // No row holds a number that is no role's, so none is looked at.
    if !inner::is_role(role) {
        return;
    }
    for i in 0..n {
        let row = at + ROW_BYTES * i;
        inner::unite_where(&mut s[row..row + ROW_BYTES], role, other);
    }
}

// Puts the roles of the row at `from` into the row at `into`. The two may overlap.
pub fn join(s: &mut [u8], into: usize, from: usize)
    ensures { Placed into (joined s.old into from) s.old s.new }
{
    let other = row(s, from);
    unite(s, into, other);
}

// The roles 1 to 64 of the row at `at` as a number: role r is bit r - 1.
pub fn low(s: &[u8], at: usize) -> u64
    ensures { result ≡ cond (whole s.now at) (low_of (member s.now at)) 0 }
{
    match inner::row(s, at) {
        Some(row) => inner::low_half(row),
        None => 0,
    }
}

// The roles 65 to 128: role r is bit r - 65.
pub fn high(s: &[u8], at: usize) -> u64
    ensures { result ≡ cond (whole s.now at) (high_of (member s.now at)) 0 }
{
    match inner::row(s, at) {
        Some(row) => inner::high_half(row),
        None => 0,
    }
}

// Whether the row at `at` has a role in common with a set that is told as two numbers, as C has it.
pub fn meet_set(s: &[u8], at: usize, low: u64, high: u64) -> bool
    ensures { result ≡ (whole s.now at && some 128 (λ q. member s.now at q && in_set low high q)) }
{
    match inner::row(s, at) {
        Some(row) => inner::meet_set(row, low, high),
        None => false,
    }
}

// Whether the rows at `a` and at `b` have a role in common.
pub fn meet(s: &[u8], a: usize, b: usize) -> bool
    ensures { result ≡ common s.now a b }
{
    let Some(row) = inner::row(s, a) else {
        return false;
    };
    let Some(other) = inner::row(s, b) else {
        return false;
    };
    inner::meet(row, other)
}

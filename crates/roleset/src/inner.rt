// One row by itself: its 16 bytes, or the bytes from its first on.
ghost use Rattle.std.specs.Prelude.{◌≡◌, true, false, ◌&&◌, ℕ, length, MatchOption};
ghost use Rattle.search.specs.Search.{among, some, first, thing};
ghost use Rattle.roleset.specs.Row.{whole, member, next_member, Placed, added, removed, united, united_where};
ghost use Rattle.roleset.specs.Set.{in_set, low_of, high_of};
ghost use Rattle.roleset.specs.inner.Bits.{bit_after};

use super::{ROLES, ROW_BYTES};

pub type Row = [u8; ROW_BYTES];

// The row at `at`, if it lies wholly in the slice.
pub fn row(s: &[u8], at: usize) -> Option<&Row>
    ensures { MatchOption result (whole s.now at ≡ false) (λ y. (whole s.now at ≡ true) × ((r : ℕ) → member y.now 0 r ≡ member s.now at r)) }
{
    if !super::rows_lie(s.len(), at, 1) {
        return None;
    }
    s[at..at + ROW_BYTES].first_chunk()
}

// Whether the number is a role's.
pub fn is_role(role: usize) -> bool
    ensures { result ≡ among 128 role }
{
    search::among(ROLES as u64, role as u64)
}

pub fn has(row: &Row, role: usize) -> bool
    ensures { result ≡ member row.now 0 role }
{
    if !is_role(role) {
        return false;
    }
    (row[(role - 1) / 8] >> ((role - 1) % 8)) % 2 == 1
}

// Puts the role into the row that the bytes begin with. Too few of them are no row, and stay.
pub fn add(from: &mut [u8], role: usize)
    ensures { Placed 0 (added from.old 0 role) from.old from.new }
{
    if let Some(row) = from.first_chunk_mut::<ROW_BYTES>() {
        if is_role(role) {
            row[(role - 1) / 8] |= 1 << ((role - 1) % 8);
        }
    }
}

pub fn remove(from: &mut [u8], role: usize)
    ensures { Placed 0 (removed from.old 0 role) from.old from.new }
{
    if let Some(row) = from.first_chunk_mut::<ROW_BYTES>() {
        if has(row, role) {
            row[(role - 1) / 8] ^= 1 << ((role - 1) % 8);
        }
    }
}

fn join(row: &mut Row, other: Row)
    ensures long { length row.new ≡ 16 }
    ensures roles { (r : ℕ) → member row.new 0 r ≡ united row.old 0 other r }
{
    for i in 0..ROW_BYTES {
        row[i] |= other[i];
    }
}

pub fn unite(from: &mut [u8], other: Row)
    ensures { Placed 0 (united from.old 0 other) from.old from.new }
{
    if let Some(row) = from.first_chunk_mut() {
        join(row, other);
    }
}

pub fn unite_where(from: &mut [u8], role: usize, other: Row)
    ensures { Placed 0 (united_where from.old 0 role other) from.old from.new }
{
    if let Some(into) = from.first_chunk_mut() {
        if has(into, role) {
            join(into, other);
        }
    }
}

// The roles of half a row.
const HALF_ROLES: usize = ROLES / 2;

// The first half of the row as a number: role r is bit r - 1. Rows are met and searched by their
// halves: by numbers of 128 bits a search takes half as long again, and to meet two rows takes six
// instructions in place of three.
pub fn low_half(row: &Row) -> u64
    ensures { result ≡ low_of (member row.now 0) }
{
    u64::from_le_bytes([
        row[0], row[1], row[2], row[3], row[4], row[5], row[6], row[7],
    ])
}

// The second half: role r is bit r - 65. One function of both would take the place of its first byte,
// and ask that it is 0 or 8.
pub fn high_half(row: &Row) -> u64
    ensures { result ≡ high_of (member row.now 0) }
{
    u64::from_le_bytes([
        row[8], row[9], row[10], row[11], row[12], row[13], row[14], row[15],
    ])
}

pub fn meet_set(row: &Row, low: u64, high: u64) -> bool
    ensures { result ≡ some 128 (λ r. member row.now 0 r && in_set low high r) }
{
    let first = low_half(row) & low;
    let second = high_half(row) & high;
    first | second != 0
}

pub fn meet(row: &Row, other: &Row) -> bool
    ensures { result ≡ some 128 (λ r. member row.now 0 r && member other.now 0 r) }
{
    meet_set(row, low_half(other), high_half(other))
}

// The lowest bit above the first `after` that is set in x; bits are counted from 1.
fn lowest_above(x: u64, after: usize) -> Option<usize>
    ensures { result ≡ thing (first 64 (bit_after x after)) }
{
    if HALF_ROLES <= after {
        return None;
    }
    let rest = x >> after;
    if rest == 0 {
        return None;
    }
    Some(after + rest.trailing_zeros() as usize + 1)
}

pub fn next(row: &Row, after: usize) -> Option<usize>
    ensures { result ≡ thing (next_member row.now 0 after) }
{
    match lowest_above(low_half(row), after) {
        Some(low) => Some(low),
        None => {
            let high = lowest_above(high_half(row), after.saturating_sub(HALF_ROLES))?;
            Some(HALF_ROLES + high)
        }
    }
}

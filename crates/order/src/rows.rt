// A relation among up to 128 roles as a table of 128 role sets, 2,048 bytes at an offset of a slice.
// The row of a role has the roles that it is related to.
//
// A table that does not lie wholly in the slice relates nothing and stays as it is.
ghost use Rattle.std.specs.Prelude.{◌≡◌, cond, ◌+◌, ◌≤◌, ◌<◌, min, leb, length};
ghost use Rattle.search.specs.Search.{thing};
ghost use Rattle.order.specs.Closure.{path, loop, round, with_itself};
ghost use Rattle.order.specs.Table.{related, Tabled};
ghost use Rattle.order.specs.inner.Tables.{BecomesRoles, LinksRoles};
ghost use Rattle.order.specs.inner.Placing.{roles_before, roles_round, roles_unlinked, roles_link};

use super::closing;
use super::closing::Closing;
use roleset::{ROLES, ROW_BYTES};

// The bytes of a table.
pub const TABLE_BYTES: usize = ROW_BYTES * ROLES;

type RoleTable = [u8; TABLE_BYTES];

impl Closing for RoleTable {
    ghost ROOM = { 128 };

    const ROOM: usize = ROLES;

    ghost relates = { λ xs. related xs 0 };

    ghost becomes = { BecomesRoles };

    ghost links = { LinksRoles };

    fn loops(&self, i: usize) -> bool {
        roleset::has(self, ROW_BYTES * i, i + 1)
    }

    fn link(&mut self, i: usize) {
        roleset::add(self, ROW_BYTES * i, i + 1);
    }

    fn pass(&mut self, k: usize, n: usize) {
        let other = roleset::row(self, ROW_BYTES * k);
        roleset::unite_rows(self, 0, n, k + 1, other);
    }

    ghost before_rounds = { roles_before };

    ghost after_round = { roles_round };

    ghost before_links = { roles_unlinked };

    ghost after_link = { roles_link };
}

// Leaves the paths, in a slice that is a table and nothing else. This and the next are two functions
// and not one that takes the step: each is a test and a call.
fn paths_of(table: &mut [u8], n: usize)
    ensures { BecomesRoles (min n 128) (path (min n 128) (related table.old 0)) table.old table.new }
{
    if let Some(table) = table.as_mut_array::<TABLE_BYTES>() {
        closing::paths(table, n);
    }
}

fn reflect_of(table: &mut [u8], n: usize)
    ensures { BecomesRoles (min n 128) (with_itself (related table.old 0)) table.old table.new }
{
    if let Some(table) = table.as_mut_array::<TABLE_BYTES>() {
        closing::reflect(table, n);
    }
}

// Leaves the paths of one step or more among the first n roles.
pub fn paths(s: &mut [u8], at: usize, n: usize)
    ensures { Tabled at (min n 128) (path (min n 128) (related s.old at)) s.old s.new }
{
    if roleset::rows_lie(s.len(), at, ROLES) {
        paths_of(&mut s[at..at + TABLE_BYTES], n);
    }
}

// Relates each of the first n roles to itself: of paths, this makes the closure.
pub fn reflect(s: &mut [u8], at: usize, n: usize)
    ensures { Tabled at (min n 128) (with_itself (related s.old at)) s.old s.new }
{
    if roleset::rows_lie(s.len(), at, ROLES) {
        reflect_of(&mut s[at..at + TABLE_BYTES], n);
    }
}

// The lowest of the first n roles that is related to itself: of paths, the lowest on a circle.
pub fn lowest_loop(s: &[u8], at: usize, n: usize) -> Option<usize>
    ensures { result ≡ thing (cond (leb (at + 2048) (length s.now)) (loop (min n 128) (related s.now at)) 0) }
{
    if !roleset::rows_lie(s.len(), at, ROLES) {
        return None;
    }
    closing::lowest_loop(s[at..at + TABLE_BYTES].as_array::<TABLE_BYTES>()?, n)
}

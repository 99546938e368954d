// Role flow, and what a state holds of its roles, for reports.
//
// Every public function takes any slice. One that is too short to be a state has no roles.
ghost use Rattle.std.specs.Prelude.{◌≡◌, ◌&&◌, cond, ◌+◌, ◌≤◌, ◌<◌};
ghost use Rattle.search.specs.Search.{among, some, thing};
ghost use Rattle.order.specs.Closure.{Agree};
ghost use Rattle.order.specs.Table.{related, Tabled};
ghost use Rattle.policy.specs.Tables.{r_levels_at, w_levels_at, is_state, byte_of, up_to, flows_by_card, role_count, level_in, flows_in, circle_in};
ghost use Rattle.policy.specs.inner.Filling.{InEither, past_card, without_loops};

use super::layout::{STATE_SIZE, State};
use super::table::ByteTable;
use super::{layout, table, tables};
use order::rows::TABLE_BYTES;
use roleset::ROW_BYTES;

// The count at `at`, `most` where it is higher.
fn count(s: &State, at: u16, most: usize) -> usize
    ensures { result ≡ up_to s.now at most }
{
    (tables::word(s, at) as usize).min(most)
}

// How many roles the state holds.
pub fn roles(s: &[u8]) -> usize
    ensures { result ≡ role_count s.now }
{
    match s.first_chunk() {
        Some(s) => count(s, layout::ROLE_COUNT_AT, layout::ROLES),
        None => 0,
    }
}

// The role's byte of a table of levels, and 0 for a number that is no role's, as `level_in` has it.
#[tactic(auto, using(search::proofs::Truth::one_of))]
fn level(s: &[u8], table: ByteTable, role: usize) -> u8
    ensures { result ≡ cond (is_state s.now && among table.size role) (byte_of s.now table.at role) 0 }
{
    let Some(s) = s.first_chunk::<STATE_SIZE>() else {
        return 0;
    };
    if !search::among(table.size as u64, role as u64) {
        return 0;
    }
    s[table.at + (role - 1)]
}

// The r-level of a role: its label, 0 for free, 99 for undefined; 0 for a number that is no role's.
pub fn r_level(s: &[u8], role: usize) -> u8
    ensures { result ≡ level_in s.now r_levels_at role }
{
    level(s, table::R_LEVELS, role)
}

// The w-level of a role, in the same way. Both are public names, and `level` is what they share.
pub fn w_level(s: &[u8], role: usize) -> u8
    ensures { result ≡ level_in s.now w_levels_at role }
{
    level(s, table::W_LEVELS, role)
}

// Whether role `from` may write card o + 1 and role `to` may read or write it. Here and below o comes
// from a `for`: a type that keeps it in range would be made and taken apart in each turn.
fn flows_by_card(s: &State, o: usize, from: usize, to: usize) -> bool
    requires { o < 512 }
    ensures { result ≡ flows_by_card s.now from to (o + 1) }
{
    roleset::has(s, layout::WRITERS_AT + ROW_BYTES * o, from)
        && (roleset::has(s, layout::READERS_AT + ROW_BYTES * o, to)
            | roleset::has(s, layout::WRITERS_AT + ROW_BYTES * o, to))
}

// Whether role `from` flows to role `to`.
pub fn flows(s: &[u8], from: usize, to: usize) -> bool
    ensures { result ≡ flows_in s.now from to }
{
    let Some(s) = s.first_chunk() else {
        return false;
    };
    if from == to {
        return false;
    }
    for o in 0..count(s, layout::CARD_COUNT_AT, layout::CARDS) {
        if flows_by_card(s, o, from, to) {
            return true;
        }
    }
    false
}

// The roles that may read or write card o + 1.
fn readers_or_writers(s: &State, o: usize) -> [u8; ROW_BYTES]
    requires { o < 512 }
    ensures { InEither s.now (o + 1) result }
{
    let writers = roleset::row(s, layout::WRITERS_AT + ROW_BYTES * o);
    let mut either = roleset::row(s, layout::READERS_AT + ROW_BYTES * o);
    roleset::unite(&mut either, 0, writers);
    either
}

// Relates each role that may write card o + 1 to each role that may read or write it. It goes from
// one writer to the next, where a `for` would ask for each of the 128 roles.
fn flow_past(t: &mut [u8; TABLE_BYTES], s: &State, o: usize)
    requires { o < 512 }
    ensures { Tabled 0 128 (past_card t.old s.now (o + 1)) t.old t.new }
{
    let writers = roleset::row(s, layout::WRITERS_AT + ROW_BYTES * o);
    let either = readers_or_writers(s, o);
    let mut i = 0;
    while let Some(writer) = roleset::next(&writers, 0, i) {
        roleset::unite(t, ROW_BYTES * (writer - 1), either);
        i = writer;
    }
}

// Relates each role that may write one of the first n cards to each role that may read or write
// that card.
fn flow_table(s: &State, n: usize) -> [u8; TABLE_BYTES]
    requires { n ≤ 512 }
    ensures { Agree 128 128 (related result 0) (λ r q. some n (flows_by_card s.now r q)) }
{
    let mut t = [0u8; TABLE_BYTES];
    for o in 0..n {
        flow_past(&mut t, s, o);
    }
    t
}

// Takes each role out of its own row.
fn remove_itself(t: &mut [u8; TABLE_BYTES])
    ensures { Tabled 0 128 (without_loops t.old) t.old t.new }
{
    for i in 0..layout::ROLES {
        roleset::remove(t, ROW_BYTES * i, i + 1);
    }
}

// Role flow as a table of role sets: row r has the roles that r flows to.
pub fn table(s: &[u8]) -> [u8; TABLE_BYTES]
    ensures { Agree 128 128 (related result 0) (flows_in s.now) }
{
    let Some(s) = s.first_chunk() else {
        return [0u8; TABLE_BYTES];
    };
    let mut t = flow_table(s, count(s, layout::CARD_COUNT_AT, layout::CARDS));
    remove_itself(&mut t);
    t
}

// The lowest role on a circle of flow.
pub fn flow_circle(s: &[u8]) -> Option<usize>
    ensures { result ≡ thing (circle_in s.now) }
{
    let s = s.first_chunk::<STATE_SIZE>()?;
    let n = roles(s);
    let mut t = table(s);
    order::rows::paths(&mut t, 0, n);
    order::rows::lowest_loop(&t, 0, n)
}

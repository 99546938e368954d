// The numbers 14 to 16: each assignment against the levels of its role, by the tables.
ghost use Rattle.std.specs.Prelude.{◌≡◌};
ghost use Rattle.search.specs.Search.{Among};
ghost use Rattle.order.specs.inner.Members.{Has};
ghost use Rattle.rolefile.specs.Line.{lines};
ghost use Rattle.rolefile.specs.Form.{scan};
ghost use Rattle.rolefile.specs.Refusal.{told};
ghost use Rattle.policy.specs.Settings.{settings};
ghost use Rattle.policy.specs.Image.{Labelled, Levelled, Dominating};
ghost use Rattle.policy.specs.Verdict.{assignment_verdict};
ghost use Rattle.policy.specs.Refusal.{verdict_of};
ghost use Rattle.policy.specs.inner.Filling.{level_row, some_serves, assign_by_tables};

use super::layout::State;
use super::marks::Dominance;
use super::{Refusal, layout, tables};
use order::bounds::{MemberRows, Members};
use rolefile::read;

// The row of a level: every label where it is free, and none where it is undefined.
fn level_row(t: &MemberRows, level: u64) -> Members
    ensures { Has (level_row t.now level) result }
{
    if level == layout::FREE as u64 {
        return order::bounds::first_things(layout::LABELS);
    }
    order::bounds::row(t, level as usize)
}

// Whether some label serves: one under the clearance, over the r-level and under the w-level.
fn some_serves(dominance: &Dominance, clearance: u64, reads: u64, writes: u64) -> bool
    ensures { result ≡ some_serves dominance.now.under dominance.now.over clearance reads writes }
{
    let lower = order::bounds::row(&dominance.under, clearance as usize);
    let above = level_row(&dominance.over, reads);
    let below = level_row(&dominance.under, writes);
    order::bounds::meet(lower, above, below)
}

// 14 to 16 for a user and a role. The levels are compared as the bytes that are kept, which is how
// `tables` reads them.
#[tactic(auto, unfolding(crate::specs::inner::Filling::assign_by_tables))]
fn assign(s: &State, dominance: &Dominance, user: usize, role: usize) -> Result<(), Refusal>
    requires { Among 256 user × Among 128 role }
    ensures { told verdict_of result ≡ assign_by_tables s.now dominance.now.under dominance.now.over user role }
{
    let clearance = s[layout::CLEARANCES_AT + (user - 1)] as u64;
    let reads = s[layout::R_LEVELS_AT + (role - 1)] as u64;
    let writes = s[layout::W_LEVELS_AT + (role - 1)] as u64;
    if writes == layout::UNDEFINED as u64 {
        return Err(Refusal::NoWriteLevel { user, role });
    }
    if !tables::passes(s, reads, clearance, reads) {
        return Err(Refusal::ReadsMore { user, role });
    }
    if !some_serves(dominance, clearance, reads, writes) {
        return Err(Refusal::NoLabel { user, role });
    }
    Ok(())
}

// 14 to 16 for each assignment of the file, by the tables in the state: the first refusal.
pub fn check_assignments(s: &State, dominance: &Dominance) -> Result<(), Refusal>
    requires { let f = dominance.now.file.now.bytes.now in Labelled (settings f) s.now × Dominating (settings f) s.now × Levelled (settings f) s.now }
    ensures { let f = dominance.now.file.now.bytes.now in told verdict_of result ≡ scan (lines f) (assignment_verdict f) }
{
    let p = dominance.file.assignments;
    for i in 0..p.len() / read::LINE_LENGTH {
        assign(
            s,
            dominance,
            read::first_number(p, i),
            read::second_number(p, i),
        )?;
    }
    Ok(())
}

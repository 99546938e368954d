// What a role file's policy comes to: levels, the numbers 6, 7 and 11 to 16, and role flow.
//
// `load` checks a file and keeps its policy in a lent state; `layout` says where its parts stand,
// `tables` reads a state, and `flow` answers reports of a loaded one.
#![tactic(auto)]

mod assign;
mod build;
mod counts;
mod file;
pub mod flow;
mod gather;
mod labels;
pub mod layout;
mod marks;
mod rows;
mod table;
pub mod tables;

ghost use Rattle.std.specs.Prelude.{◌≡◌};
ghost use Rattle.rolefile.specs.Refusal.{told};
ghost use Rattle.policy.specs.declared.Refusal.TheVariants.{Form};
ghost use Rattle.policy.specs.Image.{Loaded};
ghost use Rattle.policy.specs.Refusal.{verdict_of};

use rolefile::{Verdict, check};

// Why a load is refused: the file's form, its policy, or the state that is lent.
#[derive(Clone, Copy, Debug, PartialEq, Eq)]
pub enum Refusal {
    // 1 to 5
    Form(rolefile::Refusal),
    // 6: a user or a card with no label or more than one
    UserLabels { user: usize },
    CardLabels { card: usize },
    // 7: a state that is too short
    State,
    // 11: a label on a circle of dominance
    LabelCircle { label: usize },
    // 12: two labels without a least upper bound
    NoBound { lower: usize, higher: usize },
    // 13: a role on a circle of seniority
    RoleCircle { role: usize },
    // 14: the role's w-level is undefined
    NoWriteLevel { user: usize, role: usize },
    // 15: the clearance does not dominate the role's r-level
    ReadsMore { user: usize, role: usize },
    // 16: no label serves
    NoLabel { user: usize, role: usize },
}

impl From<rolefile::Refusal> for Refusal {
    ghost from_gives = { λ form r. r ≡ Form form };

    fn from(form: rolefile::Refusal) -> Refusal {
        Refusal::Form(form)
    }
}

impl From<Refusal> for Verdict {
    ghost from_gives = { λ r v. v ≡ verdict_of r };

    fn from(r: Refusal) -> Verdict {
        match r {
            Refusal::Form(form) => form.into(),
            Refusal::UserLabels { user } => check::refused(6, 1, user as u64),
            Refusal::CardLabels { card } => check::refused(6, 2, card as u64),
            Refusal::State => check::refused(7, 0, 0),
            Refusal::LabelCircle { label } => check::refused(11, label as u64, 0),
            Refusal::NoBound { lower, higher } => check::refused(12, lower as u64, higher as u64),
            Refusal::RoleCircle { role } => check::refused(13, role as u64, 0),
            Refusal::NoWriteLevel { user, role } => check::refused(14, user as u64, role as u64),
            Refusal::ReadsMore { user, role } => check::refused(15, user as u64, role as u64),
            Refusal::NoLabel { user, role } => check::refused(16, user as u64, role as u64),
        }
    }
}

// Checks a role file and, where there is nothing to refuse, replaces the state by its policy. On a
// refusal the state is as it was.
pub fn load(f: &[u8], state: &mut [u8]) -> Result<(), Refusal>
    ensures { Loaded f.now (told verdict_of result) state.old state.new }
{
    if state.len() < layout::STATE_SIZE {
        return Err(Refusal::State);
    }
    let mut scratch = [0u8; layout::STATE_SIZE];
    build::build(f, &mut scratch)?;
    state[..layout::STATE_SIZE].copy_from_slice(&scratch);
    Ok(())
}

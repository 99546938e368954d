// What a state says of its users, labels, roles, cards and places: the review calls.
#![tactic(auto, using(crate::proofs::Refused::never_done), unfolding(crate::specs::Calls::unless, crate::specs::Calls::if_done, crate::specs::Calls::state_number, crate::specs::Review::review_number, crate::specs::Review::takable_number))]

ghost use Rattle.std.specs.Prelude.{◌≡◌, ℕ, IfOk};
ghost use Rattle.roleset.specs.Row.{member};
ghost use Rattle.monitor.specs.Review as review;
ghost use Rattle.monitor.specs.Refusals.{told, figured, mode_of};

use super::refusal::Refusal;
use super::rules::Cleared;
use super::state::{OpenPlace, Policy};
use super::things::{Card, Mode, Thing};
use super::{Counts, RoleSet, Session, state};
use policy::tables;
use roleset::ROW_BYTES;

// How many labels, roles, users and cards the state has: 21.
pub fn counts(s: &[u8]) -> Counts
    ensures { review.CountsOf s.now result.number result.labels result.roles result.users result.cards }
{
    match Policy::new(s) {
        Ok(policy) => Counts {
            number: 0,
            labels: policy.label_count(),
            roles: policy.role_count(),
            users: policy.user_count(),
            cards: policy.card_count(),
        },
        Err(refusal) => Counts {
            number: refusal.into(),
            ..Counts::default()
        },
    }
}

// The session at a place, with the roles that it holds: 21, 22, 24.
pub fn session(s: &[u8], place: u64) -> Session
    ensures { review.SessionOf s.now place result.number result.user result.label result.low result.high }
{
    match OpenPlace::new(s, place) {
        Ok(session) => Session {
            number: 0,
            user: session.user().number as u64,
            label: session.label(),
            low: roleset::low(s, session.place.held_at()),
            high: roleset::high(s, session.place.held_at()),
        },
        Err(refusal) => Session {
            number: refusal.into(),
            ..Session::default()
        },
    }
}

// The user's clearance: 21, 25.
pub fn clearance(s: &[u8], user: u64) -> Result<u64, Refusal>
    ensures { review.ClearanceOf s.now user (told result) (figured result) }
{
    let policy = Policy::new(s)?;
    let user = policy.user(user)?;
    Ok(policy.clearance(user))
}

// The card's label: 21, 25.
pub fn card_label(s: &[u8], card: u64) -> Result<u64, Refusal>
    ensures { review.CardLabelOf s.now card (told result) (figured result) }
{
    let policy = Policy::new(s)?;
    let card = policy.card(card)?;
    Ok(policy.card_label(card))
}

// The role's r-level (mode 1) or w-level (mode 2): 21, 25.
pub fn level(s: &[u8], role: u64, mode: u64) -> Result<u64, Refusal>
    ensures { review.LevelOf s.now role mode (told result) (figured result) }
{
    let policy = Policy::new(s)?;
    let role = policy.role(role)?;
    let mode = Mode::try_from(mode)?;
    Ok(policy.level(role, mode))
}

// Whether label a dominates label b, 1 or 0: 21, 25.
pub fn dominates(s: &[u8], a: u64, b: u64) -> Result<u64, Refusal>
    ensures { review.Dominates s.now a b (told result) (figured result) }
{
    let policy = Policy::new(s)?;
    policy.label(a)?;
    policy.label(b)?;
    Ok(u64::from(tables::dominates(s, a, b)))
}

// Whether the role is a senior of the other, or the same, 1 or 0: 21, 25.
pub fn senior(s: &[u8], role: u64, other: u64) -> Result<u64, Refusal>
    ensures { review.SeniorTo s.now role other (told result) (figured result) }
{
    let policy = Policy::new(s)?;
    let role = policy.role(role)?;
    let other = policy.role(other)?;
    let is_senior = roleset::has(s, state::senior_row(other), role.number as usize);
    Ok(u64::from(is_senior))
}

// Whether the user is assigned to the role itself, 1 or 0: 21, 25.
pub fn assigned(s: &[u8], user: u64, role: u64) -> Result<u64, Refusal>
    ensures { review.AssignedTo s.now user role (told result) (figured result) }
{
    let policy = Policy::new(s)?;
    let user = policy.user(user)?;
    let role = policy.role(role)?;
    let is_assigned = roleset::has(s, state::assigned_row(user), role.number as usize);
    Ok(u64::from(is_assigned))
}

impl<'a> Policy<'a> {
    // The roles that a session of the user at the label may take. Its loop is slower where it is a
    // call: then the bound on how many roles there are is not seen.
    #[inline(always)]
    fn roles_at(self, at: Cleared) -> [u8; ROW_BYTES]
        ensures { (r : ℕ) → member result 0 r ≡ review.takable_in self.entry.bytes.now at.user.number at.label.number r }
    {
        let mut row = [0u8; ROW_BYTES];
        for i in 0..self.role_count() {
            let number = i as u16 + 1;
            let may = self.may_take(at, Thing { number });
            roleset::add_where(&mut row, 0, number as usize, may);
        }
        row
    }

    // Whether a role of the set gives the use of the card.
    fn set_gives(self, low: u64, high: u64, card: Card, mode: Mode) -> bool
        ensures { result ≡ review.gives_in self.entry.bytes.now low high card.number (mode_of mode) }
    {
        roleset::meet_set(self.bytes, state::card_row(card, mode), low, high)
    }
}

// The roles that a session of the user at the label may take, by their numbers: 21, 25, 26.
fn takable_row(s: &[u8], user: u64, label: u64) -> Result<[u8; ROW_BYTES], Refusal>
    ensures refused { told result ≡ review.takable_number s.now user label }
    ensures done { IfOk result (λ row. (r : ℕ) → member row 0 r ≡ review.takable_in s.now user label r) }
{
    let policy = Policy::new(s)?;
    let user = policy.user(user)?;
    let label = policy.label(label)?;
    let at = policy.cleared(user, label)?;
    Ok(policy.roles_at(at))
}

// The same as two numbers.
pub fn takable(s: &[u8], user: u64, label: u64) -> RoleSet
    ensures { review.TakableOf s.now user label result.number result.low result.high }
{
    match takable_row(s, user, label) {
        Ok(row) => RoleSet {
            number: 0,
            low: roleset::low(&row, 0),
            high: roleset::high(&row, 0),
        },
        Err(refusal) => RoleSet {
            number: refusal.into(),
            ..RoleSet::default()
        },
    }
}

// Whether a role of the set gives the read (mode 1) or the write (mode 2) of the card to a session
// at the label, 1 or 0: 21, 25.
pub fn gives(
    s: &[u8],
    low: u64,
    high: u64,
    label: u64,
    card: u64,
    mode: u64,
) -> Result<u64, Refusal>
    ensures { review.GivesOf s.now low high label card mode (told result) (figured result) }
{
    let policy = Policy::new(s)?;
    policy.label(label)?;
    let card = policy.card(card)?;
    let mode = Mode::try_from(mode)?;
    Ok(u64::from(policy.set_gives(low, high, card, mode)))
}

// What the rules ask of a user, a label, a role and a card.
#![tactic(auto, using(crate::proofs::Refused::never_done), unfolding(crate::specs::Calls::unless, crate::specs::Session::cleared, crate::specs::Session::entitled, crate::specs::Session::fitting, crate::specs::Session::gives))]

ghost use Rattle.std.specs.Prelude.{◌≡◌, ◌+◌, ◌*◌, ◌&&◌, leb, IfOk};
ghost use Rattle.policy.specs.Tables as tables;
ghost use Rattle.monitor.specs.Session as session;
ghost use Rattle.monitor.specs.Calls.{unless};
ghost use Rattle.monitor.specs.Refusals.{told, mode_of};

use super::refusal::Refusal;
use super::state;
use super::state::{OpenPlace, Policy};
use super::things::{Card, Label, Mode, Role, User};
use policy::tables;

// The bytes of a card of the store.
pub const CARD_BYTES: u64 = 64;

// Whether n bytes from the offset on lie in a card.
pub fn in_card(offset: u64, n: u64) -> bool
    ensures { result ≡ leb (offset + n) 64 }
{
    n <= CARD_BYTES && offset <= CARD_BYTES - n
}

// A user, and a label that the user's clearance dominates, as `cleared` has found.
#[derive(Clone, Copy)]
pub struct Cleared {
    pub user: User,
    pub label: Label,
}

impl<'a> Policy<'a> {
    // Whether the user's clearance dominates the label.
    pub fn clears(self, user: User, label: Label) -> bool
        ensures { result ≡ session.cleared self.entry.bytes.now user.number label.number }
    {
        tables::dominates(self.bytes, self.clearance(user), label.number as u64)
    }

    // The two together, where it does: 26.
    pub fn cleared(self, user: User, label: Label) -> Result<Cleared, Refusal>
        ensures refused { told result ≡ unless (session.cleared self.entry.bytes.now user.number label.number) 26 0 }
        ensures done { IfOk result (λ at. (at.user ≡ user) × (at.label ≡ label)) }
    {
        if !self.clears(user, label) {
            return Err(Refusal::Clearance);
        }
        Ok(Cleared { user, label })
    }

    // Whether the user is assigned to the role or to a senior of it.
    pub fn entitles(self, user: User, role: Role) -> bool
        ensures { result ≡ session.entitled self.entry.bytes.now user.number role.number }
    {
        roleset::meet(
            self.bytes,
            state::assigned_row(user),
            state::senior_row(role),
        )
    }

    // Whether the levels of the role allow it at the label.
    pub fn fits(self, label: u64, role: Role) -> bool
        ensures { result ≡ session.fitting self.entry.bytes.now label role.number }
    {
        let reads = self.level(role, Mode::Read);
        if !tables::passes(self.bytes, reads, label, reads) {
            return false;
        }
        let writes = self.level(role, Mode::Write);
        tables::passes(self.bytes, writes, writes, label)
    }

    // Whether a session of the user at the label may take the role. Two loops call it for each role,
    // and are slower where it is a call.
    #[inline(always)]
    pub fn may_take(self, at: Cleared, role: Role) -> bool
        ensures { result ≡ (session.entitled self.entry.bytes.now at.user.number role.number && session.fitting self.entry.bytes.now at.label.number role.number) }
    {
        self.entitles(at.user, role) && self.fits(at.label.number as u64, role)
    }

    // Whether a store of `size` bytes has all its cards.
    pub fn stored(self, size: usize) -> bool
        ensures { result ≡ leb (64 * session.cards_in self.entry.bytes.now) size }
    {
        CARD_BYTES * self.card_count() <= size as u64
    }
}

impl<'a> OpenPlace<'a> {
    // Whether its user is assigned to the role or to a senior of it.
    pub fn entitled(self, role: Role) -> bool
        ensures { result ≡ session.entitled self.entry.policy.bytes.now (session.user_at self.entry.policy.bytes.now self.entry.place.number) role.number }
    {
        self.policy.entitles(self.user(), role)
    }

    // Whether the levels of the role allow it at its label.
    pub fn fitting(self, role: Role) -> bool
        ensures { result ≡ session.fitting self.entry.policy.bytes.now (session.label_at self.entry.policy.bytes.now self.entry.place.number) role.number }
    {
        self.policy.fits(self.label(), role)
    }

    // Whether a role that it holds gives the use of the card.
    pub fn gives(self, card: Card, mode: Mode) -> bool
        ensures { result ≡ session.gives self.entry.policy.bytes.now (tables.table_of (mode_of mode)) self.entry.place.number card.number }
    {
        let held = self.place.held_at();
        roleset::meet(self.policy.bytes, held, state::card_row(card, mode))
    }
}

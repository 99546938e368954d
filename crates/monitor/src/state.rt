// What the calls read of a state, and where its places stand, in the words of docs/LAYOUT.md.
#![tactic(auto, using(crate::proofs::Refused::never_done), unfolding(crate::specs::Calls::unless, crate::specs::Calls::state_number, crate::specs::Calls::close_number, crate::specs::Session::in_use, crate::specs::Session::user_at, crate::specs::Session::label_at))]

ghost use Rattle.std.specs.Prelude.{◌≡◌, ◌≤◌, ◌<◌, IfOk, length, true};
ghost use Rattle.search.specs.Search.{among, Among};
ghost use Rattle.roleset.specs.Row.{row_of};
ghost use Rattle.policy.specs.Tables as tables;
ghost use Rattle.monitor.specs.Session as session;
ghost use Rattle.monitor.specs.Review.{levels_of};
ghost use Rattle.monitor.specs.Calls.{unless, state_number, close_number};
ghost use Rattle.monitor.specs.Refusals.{told, mode_of};

use super::refusal::Refusal;
use super::things::{Card, Label, Mode, Place, Role, Thing, User, counted};
use policy::{layout, tables};
use rolefile::check;
use roleset::ROW_BYTES;

// Where the first place begins.
const PLACES_AT: usize = 61456;

// The bytes of a place.
pub const PLACE_BYTES: usize = 20;

// The first byte of a place that is in use.
pub const IN_USE: u8 = 1;

// Where in a place the user less 1 stands.
pub const USER_IN_PLACE: usize = 1;

// Where in a place the label stands.
pub const LABEL_IN_PLACE: usize = 2;

// Where in a place the held roles begin.
const HELD_IN_PLACE: usize = 4;

// What 21 tests.
#[tactic(auto, unfolding(crate::specs::Session::sound))]
pub fn sound(s: &[u8]) -> bool
    ensures { result ≡ session.sound s.now }
{
    if s.len() < layout::STATE_SIZE {
        return false;
    }
    let labels = tables::word(s, layout::LABEL_COUNT_AT);
    let roles = tables::word(s, layout::ROLE_COUNT_AT);
    let users = tables::word(s, layout::USER_COUNT_AT);
    let cards = tables::word(s, layout::CARD_COUNT_AT);
    check::counts_fit(labels, roles, users, cards)
}

// A state whose length and counts a load could have left, to be read.
#[derive(Clone, Copy)]
pub struct Policy<'a> {
    pub bytes: &'a [u8],
    ghost sound: { session.sound bytes.now ≡ true },
    ghost long: { tables.state_size ≤ length bytes.now },
    ghost labels: { session.labels_in bytes.now ≤ 32 },
    ghost roles: { session.roles_in bytes.now ≤ 128 },
    ghost users: { session.users_in bytes.now ≤ 256 },
    ghost cards: { session.cards_in bytes.now ≤ 512 },
}

impl<'a> Policy<'a> {
    // The policy in a state: 21.
    pub fn new(bytes: &'a [u8]) -> Result<Policy<'a>, Refusal>
        ensures refused { told result ≡ state_number bytes.now }
        ensures done { IfOk result (λ policy. policy.bytes ≡ bytes.entry) }
    {
        if !sound(bytes) {
            return Err(Refusal::State);
        }
        Ok(Policy { bytes })
    }

    // How many labels it has.
    pub fn label_count(self) -> u64
        ensures { (result ≡ session.labels_in self.entry.bytes.now) × (result ≤ 32) }
    {
        tables::word(self.bytes, layout::LABEL_COUNT_AT)
    }

    // How many roles.
    pub fn role_count(self) -> u64
        ensures { (result ≡ session.roles_in self.entry.bytes.now) × (result ≤ 128) }
    {
        tables::word(self.bytes, layout::ROLE_COUNT_AT)
    }

    // How many users.
    pub fn user_count(self) -> u64
        ensures { (result ≡ session.users_in self.entry.bytes.now) × (result ≤ 256) }
    {
        tables::word(self.bytes, layout::USER_COUNT_AT)
    }

    // How many cards.
    pub fn card_count(self) -> u64
        ensures { (result ≡ session.cards_in self.entry.bytes.now) × (result ≤ 512) }
    {
        tables::word(self.bytes, layout::CARD_COUNT_AT)
    }

    // Label x: 25.
    pub fn label(self, x: u64) -> Result<Label, Refusal>
        ensures refused { told result ≡ unless (among (session.labels_in self.entry.bytes.now) x) 25 0 }
        ensures done { IfOk result (λ label. label.number ≡ x) }
    {
        counted(self.label_count(), x)
    }

    // Role x: 25.
    pub fn role(self, x: u64) -> Result<Role, Refusal>
        ensures refused { told result ≡ unless (among (session.roles_in self.entry.bytes.now) x) 25 0 }
        ensures done { IfOk result (λ role. role.number ≡ x) }
    {
        counted(self.role_count(), x)
    }

    // User x: 25.
    pub fn user(self, x: u64) -> Result<User, Refusal>
        ensures refused { told result ≡ unless (among (session.users_in self.entry.bytes.now) x) 25 0 }
        ensures done { IfOk result (λ user. user.number ≡ x) }
    {
        counted(self.user_count(), x)
    }

    // Card x: 25.
    pub fn card(self, x: u64) -> Result<Card, Refusal>
        ensures refused { told result ≡ unless (among (session.cards_in self.entry.bytes.now) x) 25 0 }
        ensures done { IfOk result (λ card. (card.number ≡ x) × (x ≤ session.cards_in self.entry.bytes.now)) }
    {
        counted(self.card_count(), x)
    }

    // Whether the place has a session.
    pub fn in_use(self, place: Place) -> bool
        ensures { result ≡ session.in_use self.entry.bytes.now place.number }
    {
        tables::byte(self.bytes, place.at()) == IN_USE
    }

    // Thing x's byte in the table of bytes at `at`.
    fn byte<const MOST: usize>(self, at: usize, x: Thing<MOST>) -> u64
        requires { at < tables.state_size }
        ensures { (result ≡ tables.byte_of self.entry.bytes.now at x.entry.number) × (result < 256) }
    {
        tables::byte(self.bytes, at + (x.number as usize - 1)) as u64
    }

    // The user's clearance.
    pub fn clearance(self, user: User) -> u64
        ensures { (result ≡ tables.byte_of self.entry.bytes.now tables.clearances_at user.number) × (result < 256) }
    {
        self.byte(layout::CLEARANCES_AT, user)
    }

    // The card's label.
    pub fn card_label(self, card: Card) -> u64
        ensures { (result ≡ tables.byte_of self.entry.bytes.now tables.card_labels_at card.number) × (result < 256) }
    {
        self.byte(layout::CARD_LABELS_AT, card)
    }

    // The role's r-level or w-level.
    pub fn level(self, role: Role, mode: Mode) -> u64
        ensures { (result ≡ tables.byte_of self.entry.bytes.now (levels_of (mode_of mode)) role.number) × (result < 256) }
    {
        match mode {
            Mode::Read => self.byte(layout::R_LEVELS_AT, role),
            Mode::Write => self.byte(layout::W_LEVELS_AT, role),
        }
    }
}

// Where the row of thing x begins in the table of rows at `at`.
fn row<const MOST: usize>(at: usize, x: Thing<MOST>) -> usize
    requires { at < tables.state_size }
    ensures { result ≡ row_of at x.entry.number }
{
    at + ROW_BYTES * (x.number as usize - 1)
}

// The row of the roles that the user is assigned to.
pub fn assigned_row(user: User) -> usize
    ensures { result ≡ row_of tables.assigned_at user.number }
{
    row(layout::ASSIGNED_AT, user)
}

// The row of the role's seniors.
pub fn senior_row(role: Role) -> usize
    ensures { result ≡ row_of tables.seniors_at role.number }
{
    row(layout::SENIORS_AT, role)
}

// The row of the roles that may use the card so.
pub fn card_row(card: Card, mode: Mode) -> usize
    ensures { result ≡ row_of (tables.table_of (mode_of mode)) card.number }
{
    match mode {
        Mode::Read => row(layout::READERS_AT, card),
        Mode::Write => row(layout::WRITERS_AT, card),
    }
}

impl Place {
    // Where its bytes begin.
    pub fn at(self) -> usize
        ensures { result ≡ session.place_at self.number }
    {
        PLACES_AT + PLACE_BYTES * (self.number as usize - 1)
    }

    // Where the row of the roles that it holds begins.
    pub fn held_at(self) -> usize
        ensures { result ≡ session.held_at self.number }
    {
        self.at() + HELD_IN_PLACE
    }
}

// A place that has a session, and the policy of the state that it is in.
#[derive(Clone, Copy)]
pub struct OpenPlace<'a> {
    pub policy: Policy<'a>,
    pub place: Place,
    ghost in_use: { session.in_use policy.bytes.now place.number ≡ true },
}

impl<'a> OpenPlace<'a> {
    // The session at a place of a state: 21, 22, 24.
    pub fn new(bytes: &'a [u8], place: u64) -> Result<OpenPlace<'a>, Refusal>
        ensures refused { told result ≡ close_number bytes.now place }
        ensures policy { IfOk result (λ session. session.policy.bytes ≡ bytes.entry) }
        ensures place { IfOk result (λ session. session.place.number ≡ place) }
    {
        let policy = Policy::new(bytes)?;
        let place = Place::try_from(place)?;
        if !policy.in_use(place) {
            return Err(Refusal::NoSession);
        }
        Ok(OpenPlace { policy, place })
    }

    // Its user.
    pub fn user(self) -> User
        ensures { result.number ≡ session.user_at self.entry.policy.bytes.now self.entry.place.number }
    {
        let number = tables::byte(self.policy.bytes, self.place.at() + USER_IN_PLACE) as u16 + 1;
        Thing { number }
    }

    // Its label, which is only what the place says.
    pub fn label(self) -> u64
        ensures { result ≡ session.label_at self.entry.policy.bytes.now self.entry.place.number }
    {
        tables::byte(self.policy.bytes, self.place.at() + LABEL_IN_PLACE) as u64
    }
}

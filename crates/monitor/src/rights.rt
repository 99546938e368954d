// What a user could do at a label.
#![tactic(auto, using(crate::proofs::Refused::never_done), unfolding(crate::specs::Calls::unless, crate::specs::Calls::if_done, crate::specs::Calls::state_number, crate::specs::Rights::can_number, crate::specs::Rights::role_could))]

ghost use Rattle.std.specs.Prelude.{◌≡◌};
ghost use Rattle.policy.specs.Tables.{table_of};
ghost use Rattle.monitor.specs.Refusals.{told, figured, mode_of};
ghost use Rattle.monitor.specs.Rights as rights;

use super::refusal::Refusal;
use super::rules::Cleared;
use super::state;
use super::state::Policy;
use super::things::{Card, Mode, Role, Thing};

impl<'a> Policy<'a> {
    // Whether a session of the user at the label may take the role, and the role gives the use of the
    // card.
    fn role_could(self, at: Cleared, card: Card, mode: Mode, role: Role) -> bool
        ensures { result ≡ rights.role_could self.entry.bytes.now at.user.number at.label.number card.number (table_of (mode_of mode)) role.number }
    {
        let row = state::card_row(card, mode);
        self.may_take(at, role) && roleset::has(self.bytes, row, role.number as usize)
    }

    // Whether one of its roles could.
    fn could(self, at: Cleared, card: Card, mode: Mode) -> bool
        ensures { result ≡ rights.could self.entry.bytes.now at.user.number at.label.number card.number (table_of (mode_of mode)) }
    {
        for i in 0..self.role_count() {
            let number = i as u16 + 1;
            if self.role_could(at, card, mode, Thing { number }) {
                return true;
            }
        }
        false
    }
}

// Whether a session of the user at the label could use the card so, 1 or 0: 21, 25, 26.
pub fn can(s: &[u8], user: u64, label: u64, card: u64, mode: u64) -> Result<u64, Refusal>
    ensures { rights.Cans s.now user label card mode (told result) (figured result) }
{
    let policy = Policy::new(s)?;
    let user = policy.user(user)?;
    let label = policy.label(label)?;
    let card = policy.card(card)?;
    let mode = Mode::try_from(mode)?;
    let at = policy.cleared(user, label)?;
    Ok(u64::from(policy.could(at, card, mode)))
}

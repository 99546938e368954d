// The numbers of places, users, labels, roles and cards, each known to be in its range, and modes.
#![tactic(auto, unfolding(crate::specs::Calls::unless))]

ghost use Rattle.std.specs.Prelude.{◌≡◌, ◌≤◌, ◌<◌, ◌&&◌, IfOk};
ghost use Rattle.search.specs.Search.{among, Among};
ghost use Rattle.monitor.specs.Calls.{unless};
ghost use Rattle.monitor.specs.Refusals.{told, mode_of};

use super::refusal::Refusal;
use policy::layout;

// How many places there are.
pub const PLACES: usize = 64;

// The number of one of MOST things.
#[derive(Clone, Copy, Debug, PartialEq, Eq)]
pub struct Thing<const MOST: usize> {
    pub number: u16,
    ghost in_range: { Among MOST number },
}

pub type Place = Thing<PLACES>;

pub type User = Thing<{ layout::USERS }>;

pub type Label = Thing<{ layout::LABELS }>;

pub type Role = Thing<{ layout::ROLES }>;

pub type Card = Thing<{ layout::CARDS }>;

// The place of that number: 22.
impl TryFrom<u64> for Place {
    type Error = Refusal;

    ghost try_from_gives = { λ x answer. (told answer ≡ unless (among 64 x) 22 0) × IfOk answer (λ place. place.number ≡ x) };

    fn try_from(x: u64) -> Result<Place, Refusal> {
        if !search::among(PLACES as u64, x) {
            return Err(Refusal::Place);
        }
        let number = x as u16;
        Ok(Thing { number })
    }
}

// Thing x of the first `count`, of which there are at most MOST: 25.
pub fn counted<const MOST: usize>(count: u64, x: u64) -> Result<Thing<MOST>, Refusal>
    requires { (count ≤ MOST) × (MOST < 65536) }
    ensures refused { told result ≡ unless (among count x) 25 0 }
    ensures done { IfOk result (λ thing. (thing.number ≡ x) × (x ≤ count)) }
{
    if !search::among(count, x) {
        return Err(Refusal::OutOfRange);
    }
    let number = x as u16;
    Ok(Thing { number })
}

// A use of a card.
#[derive(Clone, Copy, Debug, PartialEq, Eq)]
pub enum Mode {
    Read = 1,
    Write = 2,
}

// The mode of that number: 25.
impl TryFrom<u64> for Mode {
    type Error = Refusal;

    ghost try_from_gives = { λ x answer. (told answer ≡ unless (among 2 x) 25 0) × IfOk answer (λ mode. mode_of mode ≡ x) };

    fn try_from(x: u64) -> Result<Mode, Refusal> {
        match x {
            1 => Ok(Mode::Read),
            2 => Ok(Mode::Write),
            _ => Err(Refusal::OutOfRange),
        }
    }
}

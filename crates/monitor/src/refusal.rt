// Why a call is refused.
ghost use Rattle.std.specs.Prelude.{◌≡◌};
ghost use Rattle.monitor.specs.Refusals.{number_of};

// Each with the number that C gets.
#[derive(Clone, Copy, Debug, PartialEq, Eq)]
pub enum Refusal {
    // The state is too short, or its counts are beyond their limits.
    State = 21,
    // There is no such place.
    Place = 22,
    // The place has a session.
    InUse = 23,
    // The place has no session.
    NoSession = 24,
    // A user, a label, a role, a card or a mode is out of its range.
    OutOfRange = 25,
    // The user's clearance does not dominate the label.
    Clearance = 26,
    // The user is not assigned to the role or to a senior of it.
    Assignment = 27,
    // The levels of the role do not allow it at the label.
    Levels = 28,
    // No role of the session gives the read or the write of the card.
    Card = 29,
    // The part does not lie in a card.
    Offset = 30,
    // The store does not have all cards.
    Store = 31,
}

impl From<Refusal> for u64 {
    ghost from_gives = { λ refusal number. number ≡ number_of refusal };

    fn from(refusal: Refusal) -> u64 {
        refusal as u64
    }
}

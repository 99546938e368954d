// Sessions: opening and closing a place, taking and dropping a role.
#![tactic(auto, using(crate::proofs::Refused::never_done), unfolding(crate::specs::Calls::unless, crate::specs::Calls::state_number, crate::specs::Calls::if_done, crate::specs::Calls::open_number, crate::specs::Calls::opened, crate::specs::Calls::close_number, crate::specs::Calls::closed, crate::specs::Calls::take_number, crate::specs::Calls::drop_number))]

ghost use Rattle.std.specs.Prelude.{◌≡◌, ◌+◌, ◌≤◌, length, IfOk};
ghost use Rattle.policy.specs.Tables.{state_size};
ghost use Rattle.monitor.specs.Calls.{written, open_number, session_bytes, opened, Opens, close_number, closed, Closes, take_number, taken, Takes, drop_number, dropped, Drops};
ghost use Rattle.monitor.specs.Refusals.{told};

use super::refusal::Refusal;
use super::state;
use super::state::{OpenPlace, Policy};
use super::things::{Label, Place, Role, User};

// Puts the bytes of b into s, from `at` on, one by one: the library's copy becomes a call of memmove,
// which whoever links the archive would then have to bring.
pub fn put(s: &mut [u8], at: usize, b: &[u8])
    requires { at + length b.now ≤ length s.old }
    ensures { s.new ≡ written s.old at b.now }
{
    for i in 0..b.len() {
        s[at + i] = b[i];
    }
}

// The bytes of a place with a session that holds no role.
fn session_bytes(user: User, label: Label) -> [u8; state::PLACE_BYTES]
    ensures { result ≡ session_bytes user.number label.number }
{
    let mut bytes = [0u8; state::PLACE_BYTES];
    bytes[0] = state::IN_USE;
    bytes[state::USER_IN_PLACE] = (user.number - 1) as u8;
    bytes[state::LABEL_IN_PLACE] = label.number as u8;
    bytes
}

// Opens a place: 21, 22, 23, 25, 26.
pub fn open(s: &mut [u8], place: u64, user: u64, label: u64) -> Result<(), Refusal>
    ensures { Opens s.old place user label (told result) s.new }
{
    let policy = Policy::new(s)?;
    let place = Place::try_from(place)?;
    if policy.in_use(place) {
        return Err(Refusal::InUse);
    }
    let user = policy.user(user)?;
    let label = policy.label(label)?;
    let at = policy.cleared(user, label)?;
    let bytes = session_bytes(at.user, at.label);
    put(s, place.at(), &bytes);
    Ok(())
}

// Closes a place: 21, 22, 24.
pub fn close(s: &mut [u8], place: u64) -> Result<(), Refusal>
    ensures { Closes s.old place (told result) s.new }
{
    let session = OpenPlace::new(s, place)?;
    let place = session.place;
    let bytes = [0u8; state::PLACE_BYTES];
    put(s, place.at(), &bytes);
    Ok(())
}

// Puts a role among those that the place holds.
fn hold(s: &mut [u8], place: Place, role: Role)
    requires { state_size ≤ length s.old }
    ensures { s.new ≡ taken s.old place.number role.number }
{
    roleset::add(s, place.held_at(), role.number as usize);
}

// Takes a role: 21, 22, 24, 25, 27, 28.
pub fn take(s: &mut [u8], place: u64, role: u64) -> Result<(), Refusal>
    ensures { Takes s.old place role (told result) s.new }
{
    let session = OpenPlace::new(s, place)?;
    let role = session.policy.role(role)?;
    if !session.entitled(role) {
        return Err(Refusal::Assignment);
    }
    if !session.fitting(role) {
        return Err(Refusal::Levels);
    }
    let place = session.place;
    hold(s, place, role);
    Ok(())
}

// Leaves the role out of those that the place holds.
fn remove_role(s: &mut [u8], place: Place, role: Role)
    requires { state_size ≤ length s.old }
    ensures { s.new ≡ dropped s.old place.number role.number }
{
    roleset::remove(s, place.held_at(), role.number as usize);
}

// Drops a role: 21, 22, 24, 25.
pub fn drop(s: &mut [u8], place: u64, role: u64) -> Result<(), Refusal>
    ensures { Drops s.old place role (told result) s.new }
{
    let session = OpenPlace::new(s, place)?;
    let role = session.policy.role(role)?;
    let place = session.place;
    remove_role(s, place, role);
    Ok(())
}

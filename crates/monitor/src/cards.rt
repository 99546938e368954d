// Reads and writes of a part of a card of the lent store.
#![tactic(auto, using(crate::proofs::Refused::never_done), unfolding(crate::specs::Calls::unless, crate::specs::Calls::if_done, crate::specs::Calls::close_number, crate::specs::Calls::part_number))]

ghost use Rattle.std.specs.Prelude.{◌≡◌, ◌+◌, ◌≤◌, IfOk};
ghost use Rattle.policy.specs.Tables.{table_of};
ghost use Rattle.monitor.specs.Calls.{part_number, part_at, Reads, Writes};
ghost use Rattle.monitor.specs.Refusals.{told, mode_of};

use super::refusal::Refusal;
use super::state::OpenPlace;
use super::things::Mode;
use super::{rules, sessions};

// Where the n bytes from the offset on of a card begin in a store of `size` bytes, where a session
// may use them so: 21, 22, 24, 25, 29, 30, 31. The four numbers are those of the calls of C, and each
// is tested as it comes.
pub fn part(
    s: &[u8],
    mode: Mode,
    size: usize,
    place: u64,
    card: u64,
    offset: u64,
    n: u64,
) -> Result<usize, Refusal>
    ensures refused { told result ≡ part_number (table_of (mode_of mode)) s.now size place card offset n }
    ensures done { IfOk result (λ at. (at ≡ part_at card offset) × (at + n ≤ size)) }
{
    let session = OpenPlace::new(s, place)?;
    let card = session.policy.card(card)?;
    if !session.gives(card, mode) {
        return Err(Refusal::Card);
    }
    if !rules::in_card(offset, n) {
        return Err(Refusal::Offset);
    }
    if !session.policy.stored(size) {
        return Err(Refusal::Store);
    }
    Ok(rules::CARD_BYTES as usize * (card.number as usize - 1) + offset as usize)
}

// The part of the store that is read; on a refusal the empty part at the store's start.
pub fn read<'a>(s: &[u8], store: &'a [u8], place: u64, card: u64, offset: u64, n: u64) -> &'a [u8]
    ensures { Reads s.now store.entry place card offset n result }
{
    match part(s, Mode::Read, store.len(), place, card, offset, n) {
        Ok(at) => &store[at..at + n as usize],
        Err(_) => &store[..0],
    }
}

// Writes the bytes into a card from the offset on.
pub fn write(
    s: &[u8],
    store: &mut [u8],
    place: u64,
    card: u64,
    offset: u64,
    bytes: &[u8],
) -> Result<(), Refusal>
    ensures { Writes s.now store.old place card offset bytes.now (told result) store.new }
{
    let n = bytes.len() as u64;
    let at = part(s, Mode::Write, store.len(), place, card, offset, n)?;
    sessions::put(store, at, bytes);
    Ok(())
}

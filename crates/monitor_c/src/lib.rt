// The archive that a C program links: the functions of `monitor`, exported under their names and
// with their contracts. The header is include/monitor.h.
#![tactic(auto)]

ghost use Rattle.std.specs.Prelude.{◌≡◌};
ghost use Rattle.policy.specs.Image.{Loaded};
ghost use Rattle.monitor.specs.Rights.{Cans};
ghost use Rattle.monitor.specs.Review as review;
ghost use Rattle.monitor.specs.Calls.{Opens, Closes, Takes, Drops, read_number, Reads, Writes, Flows, Circles};

use monitor::{Counts, Figure, LoadAnswer, RoleSet, Session};

// Checks a role file and replaces the state by its policy: 7, or the verdict on the file.
#[unsafe(no_mangle)]
pub extern "C" fn monitor_load(file: &[u8], state: &mut [u8]) -> LoadAnswer
    ensures { Loaded file.now (record { number = result.number; first = result.first; second = result.second }) state.old state.new }
{
    monitor::monitor_load(file, state)
}

// Opens a place for a user at a label: 21, 22, 23, 25, 26.
#[unsafe(no_mangle)]
pub extern "C" fn monitor_open(state: &mut [u8], place: u64, user: u64, label: u64) -> u64
    ensures { Opens state.old place user label result state.new }
{
    monitor::monitor_open(state, place, user, label)
}

// Closes a place: 21, 22, 24.
#[unsafe(no_mangle)]
pub extern "C" fn monitor_close(state: &mut [u8], place: u64) -> u64
    ensures { Closes state.old place result state.new }
{
    monitor::monitor_close(state, place)
}

// Takes a role at a place: 21, 22, 24, 25, 27, 28.
#[unsafe(no_mangle)]
pub extern "C" fn monitor_take(state: &mut [u8], place: u64, role: u64) -> u64
    ensures { Takes state.old place role result state.new }
{
    monitor::monitor_take(state, place, role)
}

// Drops a role at a place: 21, 22, 24, 25.
#[unsafe(no_mangle)]
pub extern "C" fn monitor_drop(state: &mut [u8], place: u64, role: u64) -> u64
    ensures { Drops state.old place role result state.new }
{
    monitor::monitor_drop(state, place, role)
}

// The number of a read: 21, 22, 24, 25, 29, 30, 31.
#[unsafe(no_mangle)]
pub extern "C" fn monitor_read_number(
    state: &[u8],
    store: &[u8],
    place: u64,
    card: u64,
    offset: u64,
    count: u64,
) -> u64
    ensures { result ≡ read_number state.now store.now place card offset count }
{
    monitor::monitor_read_number(state, store, place, card, offset, count)
}

// Writes bytes into a card: 21, 22, 24, 25, 29, 30, 31.
#[unsafe(no_mangle)]
pub extern "C" fn monitor_write(
    state: &[u8],
    store: &mut [u8],
    place: u64,
    card: u64,
    offset: u64,
    bytes: &[u8],
) -> u64
    ensures { Writes state.now store.old place card offset bytes.now result store.new }
{
    monitor::monitor_write(state, store, place, card, offset, bytes)
}

// Whether one role flows to another, 1 or 0: 21, 25.
#[unsafe(no_mangle)]
pub extern "C" fn monitor_flows(state: &[u8], from: u64, to: u64) -> Figure
    ensures { Flows state.now from to result.number result.figure }
{
    monitor::monitor_flows(state, from, to)
}

// The lowest role on a circle of flow, or 0: 21.
#[unsafe(no_mangle)]
pub extern "C" fn monitor_circle(state: &[u8]) -> Figure
    ensures { Circles state.now result.number result.figure }
{
    monitor::monitor_circle(state)
}

// Whether a session of the user at the label could be granted a read (mode 1) or a write (mode 2)
// of the card, 1 or 0: 21, 25, 26.
#[unsafe(no_mangle)]
pub extern "C" fn monitor_can(state: &[u8], user: u64, label: u64, card: u64, mode: u64) -> Figure
    ensures { Cans state.now user label card mode result.number result.figure }
{
    monitor::monitor_can(state, user, label, card, mode)
}

// How many labels, roles, users and cards the state has: 21.
#[unsafe(no_mangle)]
pub extern "C" fn monitor_counts_of(state: &[u8]) -> Counts
    ensures { review.CountsOf state.now result.number result.labels result.roles result.users result.cards }
{
    monitor::monitor_counts_of(state)
}

// The session at a place, with the roles that it holds: 21, 22, 24.
#[unsafe(no_mangle)]
pub extern "C" fn monitor_session_at(state: &[u8], place: u64) -> Session
    ensures { review.SessionOf state.now place result.number result.user result.label result.low result.high }
{
    monitor::monitor_session_at(state, place)
}

// The user's clearance: 21, 25.
#[unsafe(no_mangle)]
pub extern "C" fn monitor_clearance(state: &[u8], user: u64) -> Figure
    ensures { review.ClearanceOf state.now user result.number result.figure }
{
    monitor::monitor_clearance(state, user)
}

// The card's label: 21, 25.
#[unsafe(no_mangle)]
pub extern "C" fn monitor_card_label(state: &[u8], card: u64) -> Figure
    ensures { review.CardLabelOf state.now card result.number result.figure }
{
    monitor::monitor_card_label(state, card)
}

// The role's r-level (mode 1) or w-level (mode 2), a label, 0 free or 99 undefined: 21, 25.
#[unsafe(no_mangle)]
pub extern "C" fn monitor_level(state: &[u8], role: u64, mode: u64) -> Figure
    ensures { review.LevelOf state.now role mode result.number result.figure }
{
    monitor::monitor_level(state, role, mode)
}

// Whether label a dominates label b, 1 or 0: 21, 25.
#[unsafe(no_mangle)]
pub extern "C" fn monitor_dominates(state: &[u8], a: u64, b: u64) -> Figure
    ensures { review.Dominates state.now a b result.number result.figure }
{
    monitor::monitor_dominates(state, a, b)
}

// Whether the role is a senior of the other, or the same, 1 or 0: 21, 25.
#[unsafe(no_mangle)]
pub extern "C" fn monitor_senior(state: &[u8], role: u64, other: u64) -> Figure
    ensures { review.SeniorTo state.now role other result.number result.figure }
{
    monitor::monitor_senior(state, role, other)
}

// Whether the user is assigned to the role itself, 1 or 0: 21, 25.
#[unsafe(no_mangle)]
pub extern "C" fn monitor_assigned(state: &[u8], user: u64, role: u64) -> Figure
    ensures { review.AssignedTo state.now user role result.number result.figure }
{
    monitor::monitor_assigned(state, user, role)
}

// The roles that a session of the user at the label may take: 21, 25, 26.
#[unsafe(no_mangle)]
pub extern "C" fn monitor_takable(state: &[u8], user: u64, label: u64) -> RoleSet
    ensures { review.TakableOf state.now user label result.number result.low result.high }
{
    monitor::monitor_takable(state, user, label)
}

// Whether a role of the set gives the read (mode 1) or the write (mode 2) of the card to a session
// at the label, 1 or 0: 21, 25.
#[unsafe(no_mangle)]
pub extern "C" fn monitor_gives(
    state: &[u8],
    low: u64,
    high: u64,
    label: u64,
    card: u64,
    mode: u64,
) -> Figure
    ensures { review.GivesOf state.now low high label card mode result.number result.figure }
{
    monitor::monitor_gives(state, low, high, label, card, mode)
}

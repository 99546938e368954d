// The monitor that a C server links: a policy loaded into a lent state, and the session calls over
// a lent store of cards. `monitor_c` exports these functions to C.
//
// No public function here asks anything of its caller: every number is legal and every slice may be
// empty.
#![tactic(auto)]

mod cards;
mod refusal;
mod report;
mod review;
mod rights;
mod rules;
mod sessions;
mod state;
mod things;

ghost use Rattle.std.specs.Prelude.{◌≡◌};
ghost use Rattle.policy.specs.Image.{Loaded};
ghost use Rattle.monitor.specs.Rights.{Cans};
ghost use Rattle.monitor.specs.Review as review;
ghost use Rattle.monitor.specs.Calls.{Opens, Closes, Takes, Drops, read_number, Reads, Writes, Flows, Circles};
ghost use Rattle.monitor.specs.Refusals.{told, figured};

use refusal::Refusal;
use rolefile::Verdict;
use things::Mode;

// The answer of a load, as C has it.
#[repr(C)]
#[derive(Clone, Copy, Debug, PartialEq, Eq)]
pub struct LoadAnswer {
    pub number: u64,
    pub first: u64,
    pub second: u64,
}

// The answer of a report or of a review call, as C has it.
#[repr(C)]
#[derive(Clone, Copy, Debug, PartialEq, Eq)]
pub struct Figure {
    pub number: u64,
    pub figure: u64,
}

// The answer that tells how many of each thing there are, as C has it.
#[repr(C)]
#[derive(Clone, Copy, Debug, PartialEq, Eq, Default)]
pub struct Counts {
    pub number: u64,
    pub labels: u64,
    pub roles: u64,
    pub users: u64,
    pub cards: u64,
}

// The answer that tells a session, as C has it. Of the roles held role r is bit r - 1 of `low`, or
// from 65 on bit r - 65 of `high`.
#[repr(C)]
#[derive(Clone, Copy, Debug, PartialEq, Eq, Default)]
pub struct Session {
    pub number: u64,
    pub user: u64,
    pub label: u64,
    pub low: u64,
    pub high: u64,
}

// The answer that tells a set of roles, as C has it.
#[repr(C)]
#[derive(Clone, Copy, Debug, PartialEq, Eq, Default)]
pub struct RoleSet {
    pub number: u64,
    pub low: u64,
    pub high: u64,
}

// The number of an answer: 0 where the call is done.
fn number_of<A: Drop>(answer: Result<A, Refusal>) -> u64
    ensures { result ≡ told answer }
{
    match answer {
        Ok(_) => 0,
        Err(refusal) => refusal.into(),
    }
}

// A refusal's figure is 0.
impl From<Result<u64, Refusal>> for Figure {
    ghost from_gives = { λ answer figure. (figure.number ≡ told answer) × (figure.figure ≡ figured answer) };

    fn from(answer: Result<u64, Refusal>) -> Figure {
        match answer {
            Ok(figure) => Figure { number: 0, figure },
            Err(refusal) => Figure {
                number: refusal.into(),
                figure: 0,
            },
        }
    }
}

impl From<Verdict> for LoadAnswer {
    ghost from_gives = { λ verdict answer. verdict ≡ record { number = answer.number; first = answer.first; second = answer.second } };

    fn from(verdict: Verdict) -> LoadAnswer {
        LoadAnswer {
            number: verdict.number,
            first: verdict.first,
            second: verdict.second,
        }
    }
}

// Checks a role file and replaces the state by its policy: 7, or the verdict on the file.
pub fn monitor_load(file: &[u8], state: &mut [u8]) -> LoadAnswer
    ensures { Loaded file.now (record { number = result.number; first = result.first; second = result.second }) state.old state.new }
{
    Verdict::from(policy::load(file, state)).into()
}

// Opens a place for a user at a label: 21, 22, 23, 25, 26.
pub fn monitor_open(state: &mut [u8], place: u64, user: u64, label: u64) -> u64
    ensures { Opens state.old place user label result state.new }
{
    number_of(sessions::open(state, place, user, label))
}

// Closes a place: 21, 22, 24.
pub fn monitor_close(state: &mut [u8], place: u64) -> u64
    ensures { Closes state.old place result state.new }
{
    number_of(sessions::close(state, place))
}

// Takes a role at a place: 21, 22, 24, 25, 27, 28.
pub fn monitor_take(state: &mut [u8], place: u64, role: u64) -> u64
    ensures { Takes state.old place role result state.new }
{
    number_of(sessions::take(state, place, role))
}

// Drops a role at a place: 21, 22, 24, 25.
pub fn monitor_drop(state: &mut [u8], place: u64, role: u64) -> u64
    ensures { Drops state.old place role result state.new }
{
    number_of(sessions::drop(state, place, role))
}

// The number of a read: 21, 22, 24, 25, 29, 30, 31.
pub fn monitor_read_number(
    state: &[u8],
    store: &[u8],
    place: u64,
    card: u64,
    offset: u64,
    count: u64,
) -> u64
    ensures { result ≡ read_number state.now store.now place card offset count }
{
    number_of(cards::part(state, Mode::Read, store.len(), place, card, offset, count))
}

// The part of the store that a read hands back: empty, at the store's start, where the number is not 0.
pub fn read<'a>(
    state: &[u8],
    store: &'a [u8],
    place: u64,
    card: u64,
    offset: u64,
    count: u64,
) -> &'a [u8]
    ensures { Reads state.now store.entry place card offset count result }
{
    cards::read(state, store, place, card, offset, count)
}

// Writes bytes into a card: 21, 22, 24, 25, 29, 30, 31.
pub fn monitor_write(
    state: &[u8],
    store: &mut [u8],
    place: u64,
    card: u64,
    offset: u64,
    bytes: &[u8],
) -> u64
    ensures { Writes state.now store.old place card offset bytes.now result store.new }
{
    number_of(cards::write(state, store, place, card, offset, bytes))
}

// Whether one role flows to another, 1 or 0: 21, 25.
pub fn monitor_flows(state: &[u8], from: u64, to: u64) -> Figure
    ensures { Flows state.now from to result.number result.figure }
{
    report::flows(state, from, to).into()
}

// The lowest role on a circle of flow, or 0: 21.
pub fn monitor_circle(state: &[u8]) -> Figure
    ensures { Circles state.now result.number result.figure }
{
    report::circle(state).into()
}

// Whether a session of the user at the label could be granted a read (mode 1) or a write (mode 2)
// of the card, 1 or 0: 21, 25, 26.
pub fn monitor_can(state: &[u8], user: u64, label: u64, card: u64, mode: u64) -> Figure
    ensures { Cans state.now user label card mode result.number result.figure }
{
    rights::can(state, user, label, card, mode).into()
}

// How many labels, roles, users and cards the state has: 21.
pub fn monitor_counts_of(state: &[u8]) -> Counts
    ensures { review.CountsOf state.now result.number result.labels result.roles result.users result.cards }
{
    review::counts(state)
}

// The session at a place, with the roles that it holds: 21, 22, 24.
pub fn monitor_session_at(state: &[u8], place: u64) -> Session
    ensures { review.SessionOf state.now place result.number result.user result.label result.low result.high }
{
    review::session(state, place)
}

// The user's clearance: 21, 25.
pub fn monitor_clearance(state: &[u8], user: u64) -> Figure
    ensures { review.ClearanceOf state.now user result.number result.figure }
{
    review::clearance(state, user).into()
}

// The card's label: 21, 25.
pub fn monitor_card_label(state: &[u8], card: u64) -> Figure
    ensures { review.CardLabelOf state.now card result.number result.figure }
{
    review::card_label(state, card).into()
}

// The role's r-level (mode 1) or w-level (mode 2), a label, 0 free or 99 undefined: 21, 25.
pub fn monitor_level(state: &[u8], role: u64, mode: u64) -> Figure
    ensures { review.LevelOf state.now role mode result.number result.figure }
{
    review::level(state, role, mode).into()
}

// Whether label a dominates label b, 1 or 0: 21, 25.
pub fn monitor_dominates(state: &[u8], a: u64, b: u64) -> Figure
    ensures { review.Dominates state.now a b result.number result.figure }
{
    review::dominates(state, a, b).into()
}

// Whether the role is a senior of the other, or the same, 1 or 0: 21, 25.
pub fn monitor_senior(state: &[u8], role: u64, other: u64) -> Figure
    ensures { review.SeniorTo state.now role other result.number result.figure }
{
    review::senior(state, role, other).into()
}

// Whether the user is assigned to the role itself, 1 or 0: 21, 25.
pub fn monitor_assigned(state: &[u8], user: u64, role: u64) -> Figure
    ensures { review.AssignedTo state.now user role result.number result.figure }
{
    review::assigned(state, user, role).into()
}

// The roles that a session of the user at the label may take: 21, 25, 26.
pub fn monitor_takable(state: &[u8], user: u64, label: u64) -> RoleSet
    ensures { review.TakableOf state.now user label result.number result.low result.high }
{
    review::takable(state, user, label)
}

// Whether a role of the set gives the read (mode 1) or the write (mode 2) of the card to a session
// at the label, 1 or 0: 21, 25.
pub fn monitor_gives(state: &[u8], low: u64, high: u64, label: u64, card: u64, mode: u64) -> Figure
    ensures { review.GivesOf state.now low high label card mode result.number result.figure }
{
    review::gives(state, low, high, label, card, mode).into()
}

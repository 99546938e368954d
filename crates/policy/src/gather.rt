// Levels: the labels that a role may read or write are gathered, and bounded.
ghost use Rattle.std.specs.Prelude.{◌≡◌, ◌+◌, ◌≤◌, ◌<◌};
ghost use Rattle.order.specs.Closure.{Agree};
ghost use Rattle.order.specs.Bound.{converse};
ghost use Rattle.order.specs.Table.{related};
ghost use Rattle.order.specs.inner.Members.{holds, Has, row_holds};
ghost use Rattle.policy.specs.Policy.{level, level_number};
ghost use Rattle.policy.specs.Tables.{readers_at, writers_at};
ghost use Rattle.policy.specs.inner.Filling.{level_of, brings, gathered, by_mode, Unites, LevelBytes};

use super::layout;
use super::layout::State;
use super::marks::Dominance;
use order::bounds::{MemberRows, Members};
use roleset::ROW_BYTES;

// A set of roles for each label.
pub type LabelRows = [u8; ROW_BYTES * layout::LABELS];

// For each label, the roles that may read a card of that label, and those that may write one.
#[derive(Drop)]
pub struct Gathered {
    pub readers: LabelRows,
    pub writers: LabelRows,
}

// Joins the readers and the writers of card o + 1 into the rows of its label.
#[tactic(auto, using(search::proofs::Truth::one_of))]
fn gather_one(g: &mut Gathered, s: &State, o: usize)
    requires { o < 512 }
    ensures readers { Unites 0 32 (λ l r. brings s.now readers_at l r (o + 1)) g.old.readers g.new.readers }
    ensures writers { Unites 0 32 (λ l r. brings s.now writers_at l r (o + 1)) g.old.writers g.new.writers }
{
    let label = s[layout::CARD_LABELS_AT + o] as usize;
    if !search::among(layout::LABELS as u64, label as u64) {
        return;
    }
    let row = ROW_BYTES * (label - 1);
    let readers = roleset::row(s, layout::READERS_AT + ROW_BYTES * o);
    roleset::unite(&mut g.readers, row, readers);
    let writers = roleset::row(s, layout::WRITERS_AT + ROW_BYTES * o);
    roleset::unite(&mut g.writers, row, writers);
}

// For each label, the roles that may read, and those that may write, one of the first n cards of that label.
pub fn gather(s: &State, n: usize) -> Gathered
    requires { n ≤ 512 }
    ensures readers { Agree 32 128 (related result.readers 0) (gathered s.now readers_at n) }
    ensures writers { Agree 32 128 (related result.writers 0) (gathered s.now writers_at n) }
{
    let mut g = Gathered {
        readers: [0u8; ROW_BYTES * layout::LABELS],
        writers: [0u8; ROW_BYTES * layout::LABELS],
    };
    for o in 0..n {
        gather_one(&mut g, s, o);
    }
    g
}

// The labels whose row has the role.
fn labels_of(g: &LabelRows, role: usize) -> Members
    ensures { Has (λ l. related g.now 0 l role) result }
{
    let mut r = 0;
    for i in 0..layout::LABELS {
        r = order::bounds::with(r, i + 1, roleset::has(g, ROW_BYTES * i, role));
    }
    r
}

// A level: a label, or none where it is no limit or where no label is its bound.
enum Level {
    Free,
    Label(u8),
    Undefined,
}

// The byte that is kept for a level.
impl From<Level> for u8 {
    ghost from_gives = { λ l b. b ≡ level_number (level_of l) };

    fn from(level: Level) -> u8 {
        match level {
            Level::Free => layout::FREE,
            Level::Label(label) => label,
            Level::Undefined => layout::UNDEFINED,
        }
    }
}

// The level of a set of labels, of which the first n count: its bound by the rows of t.
fn level_of(t: &MemberRows, n: usize, s: Members) -> Level
    requires { n ≤ 32 }
    ensures { level_of result ≡ level n (converse (row_holds t.now)) (holds s) }
{
    let all = order::bounds::first_things(n);
    let set = s & all;
    if !order::bounds::any(set) {
        return Level::Free;
    }
    match order::bounds::greatest_lower(t, all, set) {
        Some(bound) => Level::Label(bound as u8),
        None => Level::Undefined,
    }
}

// Puts in both levels of each role.
pub fn put_levels(s: &mut State, g: &Gathered, dominance: &Dominance)
    ensures { let n = dominance.now.file.now.counts in LevelBytes n.roles (λ d r. level_number (level n.labels (converse (row_holds (by_mode dominance.now.over dominance.now.under d))) (λ l. related (by_mode g.now.readers g.now.writers d) 0 l r))) s.old s.new }
{
    let n = dominance.file.counts.labels;
    for i in 0..dominance.file.counts.roles {
        let reads = labels_of(&g.readers, i + 1);
        s[layout::R_LEVELS_AT + i] = level_of(&dominance.over, n, reads).into();
        let writes = labels_of(&g.writers, i + 1);
        s[layout::W_LEVELS_AT + i] = level_of(&dominance.under, n, writes).into();
    }
}

// Tables of role sets: seniors, assigned roles, readers and writers.
ghost use Rattle.std.specs.Prelude.{◌≡◌, ℕ, ◌&&◌, eqb, MatchResult};
ghost use Rattle.search.specs.Search.{Among};
ghost use Rattle.rolefile.specs.Line.{lines};
ghost use Rattle.policy.specs.Tables.{table_of};
ghost use Rattle.policy.specs.inner.Filling.{mode_number, turned, line_grants, granted_by_lines, Related, GrantedRows};

use super::layout;
use super::layout::State;
use super::table::RowTable;
use rolefile::read;
use roleset::ROW_BYTES;

// Puts a role into the row of thing x, if it is one of the table's.
fn relate(s: &mut State, table: RowTable, x: usize, role: usize)
    ensures { Related table.at table.size (λ y r. eqb x y && eqb role r) s.old s.new }
{
    if !search::among(table.size as u64, x as u64) {
        return;
    }
    roleset::add(s, table.at + ROW_BYTES * (x - 1), role);
}

// Each line relates two things: `turn` makes of its two numbers the thing whose row it is and the role in it.
pub fn relate_lines<F: Fn(usize, usize) -> (usize, usize)>(
    s: &mut State,
    table: RowTable,
    p: &[u8],
    turn: F,
)
    requires { F.IsAlwaysCallable turn }
    ensures { (row role : ℕ → ℕ → ℕ) → ((a b : ℕ) (q : _) → F.post turn a b q → (q.0 ≡ row a b) × (q.1 ≡ role a b)) → Related table.at table.size (turned row role p.now (lines p.now)) s.old s.new }
{
    for i in 0..p.len() / read::LINE_LENGTH {
        let (x, role) = turn(read::first_number(p, i), read::second_number(p, i));
        relate(s, table, x, role);
    }
}

// What a line lets the seniors of its role do with its card. `monitor` has a mode of its own, which
// refuses another number with 25; a line with one is passed over here.
#[derive(Clone, Copy)]
enum Mode {
    Read,
    Write,
}

impl TryFrom<usize> for Mode {
    type Error = ();

    ghost try_from_gives = { λ number answer. MatchResult answer (λ mode. mode_number mode ≡ number) (λ _. Among 2 number → ⊥) };

    fn try_from(number: usize) -> Result<Mode, ()> {
        match number {
            1 => Ok(Mode::Read),
            2 => Ok(Mode::Write),
            _ => Err(()),
        }
    }
}

impl Mode {
    // Where the rows of the cards start.
    fn rows_at(self) -> usize
        ensures { result ≡ table_of (mode_number self) }
    {
        match self {
            Mode::Read => layout::READERS_AT,
            Mode::Write => layout::WRITERS_AT,
        }
    }
}

// Joins the seniors of a role into the card's row of the mode's table, if the numbers are such.
fn grant(s: &mut State, role: usize, card: usize, mode: usize)
    ensures { GrantedRows (line_grants s.old role card mode) s.old s.new }
{
    if !search::among(layout::ROLES as u64, role as u64) {
        return;
    }
    if !search::among(layout::CARDS as u64, card as u64) {
        return;
    }
    let Ok(mode) = Mode::try_from(mode) else {
        return;
    };
    let seniors = layout::SENIORS_AT + ROW_BYTES * (role - 1);
    roleset::join(s, mode.rows_at() + ROW_BYTES * (card - 1), seniors);
}

// Each line lets the seniors of its role read or write its card.
pub fn grant_lines(s: &mut State, p: &[u8])
    ensures { GrantedRows (granted_by_lines s.old p.now (lines p.now)) s.old s.new }
{
    for i in 0..p.len() / read::LINE_LENGTH {
        let role = read::first_number(p, i);
        let card = read::second_number(p, i);
        grant(s, role, card, read::third_number(p, i));
    }
}

// A policy built from a file, check by check, in the order in which a load checks.
ghost use Rattle.std.specs.Prelude.{◌≡◌, ◌+◌, ◌*◌, ◌≤◌, ◌<◌, min};
ghost use Rattle.roleset.specs.Row.{Kept};
ghost use Rattle.order.specs.Table.{mark};
ghost use Rattle.rolefile.specs.Refusal.{told};
ghost use Rattle.policy.specs.Tables.{clearances_at, r_levels_at, seniors_at, assigned_at, readers_at, writers_at, state_size, word};
ghost use Rattle.policy.specs.Settings.{settings};
ghost use Rattle.policy.specs.Image.{Labelled, Seniors};
ghost use Rattle.policy.specs.Verdict.{order_verdict};
ghost use Rattle.policy.specs.Refusal.{verdict_of};
ghost use Rattle.policy.specs.inner.Stages.{Zeros, Noting, Paths, Ranking, Granting, Counting, Finishing, Built};

use super::file::File;
use super::layout::State;
use super::marks::Dominance;
use super::{Refusal, assign, gather, labels, layout, marks, rows, table};
use order::marks::Table;

// 6, with clearances and card labels put into the state.
fn note_labels(file: &File, s: &mut State) -> Result<(), Refusal>
    requires { Zeros clearances_at r_levels_at s.old }
    ensures { Noting file.now.bytes.now (told verdict_of result) s.old s.new }
{
    labels::note_lines(s, table::CLEARANCES, file.clearances);
    labels::note_lines(s, table::CARD_LABELS, file.card_labels);
    if let Some(user) = labels::lowest_unlabelled(s, table::CLEARANCES, file.counts.users) {
        return Err(Refusal::UserLabels { user });
    }
    if let Some(card) = labels::lowest_unlabelled(s, table::CARD_LABELS, file.counts.cards) {
        return Err(Refusal::CardLabels { card });
    }
    Ok(())
}

// The paths of dominance by the D lines.
fn paths_of(file: &File) -> Table
    ensures { Paths file.now.bytes.now result }
{
    order::marks::paths(marks::marks_of(file.dominance), file.counts.labels)
}

// 11 and 12, by the paths and by their closure.
fn check_labels(paths: Table, down: Table, n: usize) -> Result<(), Refusal>
    ensures { told verdict_of result ≡ order_verdict (min n 32) (mark paths) (mark down) }
{
    if let Some(label) = order::marks::lowest_loop(paths, n) {
        return Err(Refusal::LabelCircle { label });
    }
    if let Some(pair) = order::bounds::first_pair(down, n) {
        return Err(Refusal::NoBound {
            lower: pair.lower,
            higher: pair.higher,
        });
    }
    Ok(())
}

// 13, with the seniors of each role put into the state.
fn rank_roles(file: &File, s: &mut State) -> Result<(), Refusal>
    requires { Zeros seniors_at assigned_at s.old }
    ensures { Ranking file.now.bytes.now (told verdict_of result) s.old s.new }
{
    rows::relate_lines(
        s,
        table::SENIORS,
        file.seniority,
        |senior, junior| (junior, senior),
    );
    let n = file.counts.roles;
    order::rows::paths(s, layout::SENIORS_AT, n);
    if let Some(role) = order::rows::lowest_loop(s, layout::SENIORS_AT, n) {
        return Err(Refusal::RoleCircle { role });
    }
    order::rows::reflect(s, layout::SENIORS_AT, n);
    Ok(())
}

// Dominance, readers, writers and levels, put into the state.
fn grant_all(dominance: &Dominance, s: &mut State)
    requires { let f = dominance.now.file.now.bytes.now in Labelled (settings f) s.old × Seniors (settings f) s.old × Zeros r_levels_at seniors_at s.old × Zeros readers_at (writers_at + 16 * 512) s.old }
    ensures { Granting dominance.now.file.now.bytes.now s.old s.new }
{
    let file = dominance.file;
    marks::put_table(s, dominance.marks);
    rows::grant_lines(s, file.permissions);
    let g = gather::gather(s, file.counts.cards);
    gather::put_levels(s, &g, dominance);
}

// The lower and the upper byte of a count at `at`.
fn put_word(s: &mut State, at: u16, n: u16)
    requires { at + 2 ≤ state_size }
    ensures { (word s.new at ≡ n) × Kept at (at + 2) s.old s.new }
{
    let i = at as usize;
    let [low, high] = n.to_le_bytes();
    s[i] = low;
    s[i + 1] = high;
}

// The four counts at the start of the state.
fn put_counts(file: &File, s: &mut State)
    ensures { Counting file.now.counts s.old s.new }
{
    let counts = file.counts;
    put_word(s, layout::LABEL_COUNT_AT, counts.labels as u16);
    put_word(s, layout::ROLE_COUNT_AT, counts.roles as u16);
    put_word(s, layout::USER_COUNT_AT, counts.users as u16);
    put_word(s, layout::CARD_COUNT_AT, counts.cards as u16);
}

// Assigned roles and counts, put into the state.
fn finish(file: &File, s: &mut State)
    requires { Zeros assigned_at (assigned_at + 16 * 256) s.old }
    ensures { Finishing file.now.bytes.now s.old s.new }
{
    rows::relate_lines(
        s,
        table::ASSIGNED,
        file.assignments,
        |user, role| (user, role),
    );
    put_counts(file, s);
}

// The whole check of a file, into a state of zeros.
pub fn build(f: &[u8], s: &mut State) -> Result<(), Refusal>
    requires { Zeros 0 state_size s.old }
    ensures { Built f.now (told verdict_of result) s.new }
{
    let file = File::of(f)?;
    note_labels(&file, s)?;
    let paths = paths_of(&file);
    let n = file.counts.labels;
    let down = order::marks::reflected(paths, n);
    check_labels(paths, down, n)?;
    rank_roles(&file, s)?;
    let dominance = Dominance {
        file: &file,
        marks: &down,
        under: order::bounds::rows(&down, n),
        over: order::bounds::columns(&down, n),
    };
    grant_all(&dominance, s);
    assign::check_assignments(s, &dominance)?;
    finish(&file, s);
    Ok(())
}

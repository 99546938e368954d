// The report on a role file.
ghost use Rattle.std.specs.Prelude.{◌≡◌, ◌≤◌, ◌<◌, length};
ghost use Rattle.policy.specs.Tables.{r_levels_at, w_levels_at, level_in, flows_in, role_count};
ghost use Rattle.text.specs.Added.{Adds, in_use};
ghost use Rattle.rolecheck.specs.Report.{line, role_lines, flow_line, flows_from, flow_lines, state_lines, report, IsPrefixLen};

use super::line::line;
use policy::flow;
use rolefile::Verdict;
use text::Text;

// The bytes of the longest report: 22 for each of two lines, of 128 roles, and of their flows.
pub const MOST_BYTES: usize = 22 * (2 + 128 + 128 * 128);

// Puts the line of each role of a state.
#[tactic(auto, using(text::proofs::Each::each_none, text::proofs::Each::each_next))]
fn role_lines(state: &[u8], text: &mut Text)
    ensures { Adds (role_lines (level_in state.now r_levels_at) (level_in state.now w_levels_at) (role_count state.now)) text.old text.new }
{
    let roles = flow::roles(state);
    for role in 1..=roles {
        let reads = flow::r_level(state, role);
        let writes = flow::w_level(state, role);
        line(text, b'R', &[role as u64, reads as u64, writes as u64]);
    }
}

// The line of the flow from a role to another, where there is one.
#[tactic(auto, using(text::proofs::Added::adds_nothing), unfolding(crate::specs::Report::flow_line))]
fn flow_line(state: &[u8], from: usize, to: usize, text: &mut Text)
    requires { (from < 100000) × (to < 100000) }
    ensures { Adds (flow_line (flows_in state.now) from to) text.old text.new }
{
    if flow::flows(state, from, to) {
        line(text, b'F', &[from as u64, to as u64]);
    }
}

// The lines of the flows from a role, in rising order.
#[tactic(auto, using(text::proofs::Each::each_none, text::proofs::Each::each_next))]
fn flows_from(state: &[u8], from: usize, text: &mut Text)
    requires { from < 100000 }
    ensures { Adds (flows_from (flows_in state.now) (role_count state.now) from) text.old text.new }
{
    let roles = flow::roles(state);
    for to in 1..=roles {
        flow_line(state, from, to, text);
    }
}

// The lines of all flows, in rising order.
#[tactic(auto, using(text::proofs::Each::each_none, text::proofs::Each::each_next))]
fn flow_lines(state: &[u8], text: &mut Text)
    ensures { Adds (flow_lines (flows_in state.now) (role_count state.now)) text.old text.new }
{
    let roles = flow::roles(state);
    for from in 1..=roles {
        flows_from(state, from, text);
    }
}

// Puts what a state holds: its roles, its role flow, and the lowest role on a circle of it,
// or 0, which the report writes for none.
#[tactic(auto, using(text::proofs::Added::adds_then, crate::proofs::Counted::thing_or_none, crate::proofs::Counted::few_on_circle), unfolding(crate::specs::Report::policy_lines))]
fn policy_lines(state: &[u8], text: &mut Text)
    ensures { Adds (state_lines state.now) text.old text.new }
{
    role_lines(state, text);
    flow_lines(state, text);
    let circle = flow::flow_circle(state).unwrap_or(0);
    line(text, b'C', &[circle as u64]);
}

// The line of a verdict.
fn verdict_line(verdict: Verdict, text: &mut Text)
    requires { (verdict.number < 100000) × (verdict.first < 100000) × (verdict.second < 100000) }
    ensures { Adds (line 86 3 verdict.number verdict.first verdict.second) text.old text.new }
{
    line(text, b'V', &[verdict.number, verdict.first, verdict.second]);
}

// Puts the whole report on a role file at the start of `out`, where that has room for the longest one,
// and answers it. `out` is a slice: of an array no clause could say that it is the text's buffer.
pub fn report<'a>(file: &[u8], out: &'a mut [u8]) -> Text<'a>
    ensures same_buffer { result.buffer.ghost_name ≡ out.entry.ghost_name }
    ensures prefix_len { IsPrefixLen result.used result.buffer.now }
    ensures out_after { MOST_BYTES ≤ length out.old → in_use result ≡ report file.now }
{
    let mut state = [0u8; policy::layout::STATE_SIZE];
    let loaded = policy::load(file, &mut state);
    let mut text = Text::new(out, 0);
    verdict_line(loaded.into(), &mut text);
    if loaded.is_err() {
        return text;
    }
    policy_lines(&state, &mut text);
    text
}

// The flow report.
#![tactic(auto, using(crate::proofs::Refused::never_done), unfolding(crate::specs::Calls::unless, crate::specs::Calls::if_done, crate::specs::Calls::state_number, crate::specs::Calls::flows_number))]

ghost use Rattle.std.specs.Prelude.{◌≡◌, cond, IfOk};
ghost use Rattle.policy.specs.Tables.{flows_in, circle_in};
ghost use Rattle.monitor.specs.Calls.{Flows, Circles};
ghost use Rattle.monitor.specs.Refusals.{told, figured};

use super::refusal::Refusal;
use super::state::Policy;
use policy::flow;

// Whether a role flows to another, 1 or 0: 21, 25.
pub fn flows(s: &[u8], from: u64, to: u64) -> Result<u64, Refusal>
    ensures { Flows s.now from to (told result) (figured result) }
{
    let policy = Policy::new(s)?;
    let from = policy.role(from)?;
    let to = policy.role(to)?;
    let flows = flow::flows(s, from.number as usize, to.number as usize);
    Ok(u64::from(flows))
}

// The lowest role on a circle of flow, or 0: 21.
pub fn circle(s: &[u8]) -> Result<u64, Refusal>
    ensures { Circles s.now (told result) (figured result) }
{
    Policy::new(s)?;
    Ok(flow::flow_circle(s).unwrap_or(0) as u64)
}

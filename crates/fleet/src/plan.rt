// The call plan: the velocity call on the standing records, with the neighbours that the tick's rule keeps. The
// definitions are in `specs/Plan.antt`.
ghost use Rattle.std.specs.Prelude.{◌≡◌, ◌<◌, length};
ghost use Rattle.refusals.specs.Verdict.{passed};
ghost use Rattle.records.specs.Record.{most_agents};
ghost use Rattle.fleet.specs.Plan.{fleet_after, answered_by, plan_open, plan_call, scratch_open, plan_scratch};

use super::table::refused;
use super::{Answer, Called, Fleet, Tick};
use planner::plan::reply_for;
use refusals::Refusal;
use requests::Reply;

// An answered velocity is held until the tick ends. A refusal leaves an earlier one standing.
#[tactic(auto, unfolding(crate::specs::Plan::fleet_after, crate::specs::Plan::plans_after, crate::specs::Tick::with_held))]
fn fleet_after(mut fleet: Fleet, index: usize, reply: Reply) -> Fleet
    requires { index < most_agents }
    ensures { result ≡ fleet_after fleet index reply }
{
    if let Ok(course) = reply {
        fleet.plans[index] = Some(course.velocity);
    }
    fleet
}

#[tactic(auto, unfolding(crate::specs::Plan::answered_by))]
fn answered(fleet: Fleet, index: usize, reply: Reply) -> Called
    requires { index < most_agents }
    ensures { result ≡ answered_by passed fleet index reply }
{
    Called {
        answer: Answer::Plan(reply),
        fleet: fleet_after(fleet, index, reply),
    }
}

// Plan, where the tick is open.
#[tactic(auto, unfolding(crate::specs::Table::settled, crate::specs::Plan::plan_open, crate::specs::Plan::answered_by, crate::specs::Plan::scratch_open, crate::specs::Plan::scratch_of))]
fn plan_open(fleet: Fleet, tick: Tick, index: usize, scratch: &mut [f32]) -> Called
    ensures answer { result ≡ plan_open tick fleet index (length scratch.old) }
    ensures scratch { scratch.new ≡ scratch_open tick fleet index scratch.old }
{
    if let Err(refusal) = fleet.has_agent(index) {
        return refused(fleet, refusal);
    }
    let reply = reply_for(
        tick.time_step,
        tick.rule,
        fleet.standing.as_slice(),
        index,
        scratch,
    );
    answered(fleet, index, reply)
}

impl Fleet {
    // Plans the agent at `index`, on a scratch of 12 numbers for each neighbour.
    #[tactic(auto, unfolding(crate::specs::Plan::plan_call, crate::specs::Plan::plan_in, crate::specs::Plan::plan_scratch, crate::specs::Plan::scratch_in))]
    pub fn plan(self, index: usize, scratch: &mut [f32]) -> Called
        ensures answer { result ≡ plan_call self index (length scratch.old) }
        ensures scratch { scratch.new ≡ plan_scratch self index scratch.old }
    {
        let Some(tick) = self.tick else {
            return refused(self, Refusal::NoTick);
        };
        plan_open(self, tick, index, scratch)
    }
}

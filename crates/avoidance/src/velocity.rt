// Document 01, module 7: the velocity call, `compute_avoiding_velocity` of lib.rs with its refusals. The
// definitions are in `specs/Velocity.antt`.
ghost use Rattle.std.specs.Prelude.{◌≡◌, length};
ghost use Rattle.solver.specs.Lent.{scratch_for};
ghost use Rattle.requests.specs.Lent.{agent_count};
ghost use Rattle.planes.specs.Planes.{planes_of_call};
ghost use Rattle.avoidance.specs.parts.Velocity.{Solved};
ghost use Rattle.avoidance.specs.Velocity.{answered_with, reply_of, planned_reply, planned_scratch, velocity_call, scratch_after};

use planes::writing::write_planes;
use refusals::Refusal;
use requests::checks::checks;
use requests::{AGENT_NUMBERS, Course, Reply, Request};
use solver::lent::clear;
use solver::solve::solve;
use solver::{Outcome, SCRATCH_NUMBERS, Solution};
use vectors::Vec3;

// An answer with a value as the velocity, where it is one.
#[tactic(auto, unfolding(crate::specs::Velocity::answered_with))]
fn answered_with(value: Vec3, relaxed: Option<usize>, unseen: Option<usize>) -> Reply
    ensures { result ≡ answered_with value relaxed unseen }
{
    if !value.is_finite() {
        return Err(Refusal::NoVelocity);
    }
    let velocity = value.plus_zeros();
    Ok(Course {
        velocity,
        relaxed,
        unseen,
    })
}

#[tactic(auto, unfolding(crate::specs::Velocity::reply_of, crate::specs::Velocity::outcome_reply))]
fn reply_of(solution: Solution, unseen: Option<usize>) -> Reply
    ensures { result ≡ reply_of solution unseen }
{
    let value = solution.value;
    let outcome = solution.outcome;
    match outcome {
        Outcome::Feasible(_) => answered_with(value, None, unseen),
        Outcome::Infeasible(failure) => answered_with(value, Some(failure.index), unseen),
        Outcome::BadClamp(plane) => Err(Refusal::BadClamp { plane }),
    }
}

// The call once its checks have passed, on a scratch of 12 numbers for each neighbour; refused, scratch is left dirty.
fn replied(request: Request, neighbours: &[f32], scratch: &mut [f32]) -> Reply
    requires { length scratch.old ≡ scratch_for (agent_count neighbours.now) }
    ensures answer { result ≡ planned_reply request neighbours.now }
    ensures scratch { Solved result (agent_count neighbours.now) (planes_of_call request neighbours.now) scratch.old scratch.new }
{
    let unseen = write_planes(scratch, request, neighbours)?;
    let solution = solve(scratch, request.max_speed, request.preferred);
    reply_of(solution, unseen)
}

// The same, which leaves +0 where it refuses.
#[tactic(auto, using(crate::proofs::velocity::Cleared::refused_cleared))]
fn planned(request: Request, neighbours: &[f32], scratch: &mut [f32]) -> Reply
    requires { length scratch.old ≡ scratch_for (agent_count neighbours.now) }
    ensures answer { result ≡ planned_reply request neighbours.now }
    ensures scratch { scratch.new ≡ planned_scratch result (agent_count neighbours.now) (planes_of_call request neighbours.now) scratch.old }
{
    let reply = replied(request, neighbours, scratch);
    if reply.is_err() {
        clear(scratch);
    }
    reply
}

// The velocity nearest to the preferred one that avoids the neighbours, lent as numbers, eight to each. Request, neighbours and
// scratch are lent apart, as document 01 has the call.
// Scratch is lent too, 12 numbers for each neighbour; what it holds alters no answer.
pub fn velocity(request: Request, neighbours: &[f32], scratch: &mut [f32]) -> Reply
    ensures answer { result ≡ velocity_call request neighbours.now (length scratch.old) }
    ensures scratch { scratch.new ≡ scratch_after request neighbours.now scratch.old }
{
    checks(request, neighbours, scratch.len())?;
    let needed = SCRATCH_NUMBERS * (neighbours.len() / AGENT_NUMBERS);
    planned(request, neighbours, &mut scratch[..needed])
}

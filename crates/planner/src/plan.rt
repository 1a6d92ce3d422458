// The neighbours that a rule keeps, and the velocity call on them. The definitions are in `specs/Plan.antt`.
ghost use Rattle.std.specs.Prelude.{◌≡◌, ◌+◌, ◌*◌, ◌≤◌, ◌++◌, length, take};
ghost use Rattle.arrayvec.specs.ArrayVec.{array_vec_len};
ghost use Rattle.requests.specs.Lent.{per_agent, agent_numbers};
ghost use Rattle.records.specs.Record.{most_agents};
ghost use Rattle.planner.specs.Plan.{query_distance, near_distance, keeps, kept_from, neighbour_numbers, request_for, own_record, reply_for, reply_scratch};

use super::Rule;
use arrayvec::ArrayVec;
use avoidance::velocity::velocity;
use records::{MOST_AGENTS, Record};
use requests::replies::ReplyExt;
use requests::{Agent, Reply, Request};

// Room for the numbers of as many neighbours as there can be agents.
const ROOM: usize = 512;

// The neighbours of a plan, eight numbers to each, and their indices in the table. Apart, since the velocity call is lent
// the numbers and `renamed` the indices.
#[derive(Drop)]
struct Neighbours {
    numbers: ArrayVec<f32, ROOM>,
    indices: ArrayVec<usize, MOST_AGENTS>,
}

// The source rule's q: it keeps those that are farther away.
#[tactic(auto, unfolding(crate::specs::Plan::query_distance))]
fn query_distance(own: Record) -> f32
    ensures { result ≡ query_distance own }
{
    own.max_speed() * own.horizon() + own.radius() * 2.0
}

// The near rule's q, for an agent and another: it keeps those that are no farther away. Within the horizon the two
// can come together from there.
#[tactic(auto, unfolding(crate::specs::Plan::near_distance))]
fn near_distance(own: Record, other: Record) -> f32
    ensures { result ≡ near_distance own other }
{
    let speed = own.max_speed() + other.max_speed();
    speed * own.horizon() + own.radius() + other.radius()
}

#[tactic(auto, unfolding(crate::specs::Plan::keeps))]
fn keeps(rule: Rule, own: Record, other: Record) -> bool
    ensures { result ≡ keeps rule own other }
{
    let distance_squared = own.position().distance_squared(other.position());
    match rule {
        Rule::Source => {
            let query = query_distance(own);
            distance_squared > query * query
        }
        Rule::Near => {
            let query = near_distance(own, other);
            distance_squared <= query * query
        }
    }
}

// Adds the agent's eight numbers.
#[tactic(auto, unfolding(requests::specs::Lent::agent_numbers))]
fn push_agent(numbers: &mut ArrayVec<f32, ROOM>, agent: Agent)
    requires { array_vec_len numbers.old + per_agent ≤ per_agent * most_agents }
    ensures { numbers.new.items ≡ numbers.old.items ++ agent_numbers agent }
{
    numbers.push(agent.position.x);
    numbers.push(agent.position.y);
    numbers.push(agent.position.z);
    numbers.push(agent.velocity.x);
    numbers.push(agent.velocity.y);
    numbers.push(agent.velocity.z);
    numbers.push(agent.radius);
    numbers.push(agent.responsibility);
}

// The others that the rule keeps, by rising index, each after those before it. They are written where they stay: a list
// handed on would be copied for each.
#[tactic(auto, using(crate::proofs::Kept::walk))]
fn neighbours_of(rule: Rule, own: Record, index: usize, records: &[Record]) -> Neighbours
    requires { length records.now ≤ most_agents }
    ensures indexed { result.indices.items ≡ kept_from rule own index 0 records.now }
    ensures numbered { result.numbers.items ≡ neighbour_numbers records.now (kept_from rule own index 0 records.now) }
{
    let mut kept = Neighbours {
        numbers: ArrayVec::new(),
        indices: ArrayVec::new(),
    };
    for (at, &other) in records.iter().enumerate() {
        let is_other = at != index;
        if is_other && keeps(rule, own, other) {
            push_agent(&mut kept.numbers, other.agent());
            kept.indices.push(at);
        }
    }
    kept
}

// The request for an agent that wants to go straight to its goal.
#[tactic(auto, unfolding(crate::specs::Plan::request_for))]
fn request_for(own: Record, time_step: f32) -> Request
    ensures { result ≡ request_for own time_step }
{
    Request {
        agent: own.agent(),
        preferred: own.goal().sub(own.position()),
        max_speed: own.max_speed(),
        time_step,
        horizon: own.horizon(),
        fallback: own.fallback(),
    }
}

// The record at `index`, and a blank one where there is none.
fn own_record(records: &[Record], index: usize) -> Record
    ensures { result ≡ own_record records.now index }
{
    records.get(index).copied().unwrap_or(Record::blank())
}

// The velocity call for the agent at `index`, with its neighbours by their table indices. Of more records than there can
// be agents, the first ones are the agents.
pub fn reply_for(
    time_step: f32,
    rule: Rule,
    records: &[Record],
    index: usize,
    scratch: &mut [f32],
) -> Reply
    ensures answer { result ≡ reply_for time_step rule (take most_agents records.now) index (length scratch.old) }
    ensures scratch { scratch.new ≡ reply_scratch time_step rule (take most_agents records.now) index scratch.old }
{
    let agents = &records[..MOST_AGENTS.min(records.len())];
    let own = own_record(agents, index);
    let kept = neighbours_of(rule, own, index, agents);
    let reply = velocity(request_for(own, time_step), &kept.numbers, scratch);
    reply.renamed(&kept.indices)
}

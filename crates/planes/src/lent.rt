// Vectors, agents and requests lent as numbers. The definitions are in `specs/Lent.antt`.
ghost use Rattle.std.specs.Prelude.{◌≡◌, ◌+◌, ◌*◌, ◌≤◌, ◌<◌, length, drop};
ghost use Rattle.requests.specs.Lent.{per_agent, agent_count};
ghost use Rattle.planes.specs.Lent.{vector_at, agent_at, read_request};

use requests::{
    AGENT_NUMBERS, Agent, FALLBACK_PLACE, HORIZON_PLACE, MAX_SPEED_PLACE, PREFERRED_PLACE,
    RADIUS_PLACE, REQUEST_NUMBERS, RESPONSIBILITY_PLACE, Request, TIME_STEP_PLACE, VELOCITY_PLACE,
};
use vectors::Vec3;

// The vector in the three numbers from `at` on.
#[tactic(auto, unfolding(crate::specs::Lent::vector_at))]
pub(crate) fn vector_at(numbers: &[f32], at: usize) -> Vec3
    requires { at + 3 ≤ length numbers.now }
    ensures { result ≡ vector_at (drop at numbers.now) }
{
    Vec3 {
        x: numbers[at],
        y: numbers[at + 1],
        z: numbers[at + 2],
    }
}

// The agent in the eight numbers from `at` on.
pub(crate) fn agent_at(numbers: &[f32], at: usize) -> Agent
    requires { at + per_agent ≤ length numbers.now }
    ensures { result ≡ agent_at (drop at numbers.now) }
{
    Agent {
        position: vector_at(numbers, at),
        velocity: vector_at(numbers, at + VELOCITY_PLACE),
        radius: numbers[at + RADIUS_PLACE],
        responsibility: numbers[at + RESPONSIBILITY_PLACE],
    }
}

// The agent at `index` among neighbours lent as numbers.
pub(crate) fn neighbour_at(neighbours: &[f32], index: usize) -> Agent
    requires { index < agent_count neighbours.now }
    ensures { result ≡ agent_at (drop (per_agent * index) neighbours.now) }
{
    agent_at(neighbours, AGENT_NUMBERS * index)
}

// Neighbours that stand side by side among those lent, `size` of them from `start` on: at most one for each of eight lanes.
#[derive(Clone, Copy)]
pub(crate) struct Group<'a> {
    pub neighbours: &'a [f32],
    pub start: usize,
    pub size: usize,
    ghost some: { 0 < size },
    ghost few: { size ≤ 8 },
    ghost lent: { start + size ≤ agent_count neighbours.now },
}

impl<'a> Group<'a> {
    // The neighbour that stands in `lane`: the lanes that are left are filled up with the first.
    pub(crate) fn neighbour_in(self, lane: usize) -> Agent
        ensures { lane < self.entry.size → result ≡ agent_at (drop (per_agent * (self.entry.start + lane)) self.entry.neighbours.now) }
    {
        let source = if lane < self.size { lane } else { 0 };
        neighbour_at(self.neighbours, self.start + source)
    }
}

// The request whose 17 numbers are lent, each at its place; none where they are more or fewer.
#[tactic(auto, unfolding(crate::specs::Lent::read_request, crate::specs::Lent::request_at))]
pub fn read_request(numbers: &[f32]) -> Option<Request>
    ensures { result ≡ read_request numbers.now }
{
    if numbers.len() != REQUEST_NUMBERS {
        return None;
    }
    Some(Request {
        agent: agent_at(numbers, 0),
        preferred: vector_at(numbers, PREFERRED_PLACE),
        max_speed: numbers[MAX_SPEED_PLACE],
        time_step: numbers[TIME_STEP_PLACE],
        horizon: numbers[HORIZON_PLACE],
        fallback: vector_at(numbers, FALLBACK_PLACE),
    })
}

// Document 01, module 7: what a velocity call is given and what it answers, with its checks. The types stand here, and
// what is done with them in the modules. Every public function is total, and ensures equality with a definition of
// `specs/`, which stands there under the same name.
#![tactic(auto)]

pub mod checks;
pub mod replies;
pub mod requests;

use refusals::Refusal;
use vectors::Vec3;

// At most so many neighbours.
pub const MOST_NEIGHBOURS: usize = 63;

// Scratch enough for any call: 12 numbers for each of the most neighbours.
pub const FULL_SCRATCH: usize = 756;

// The numbers of an agent, as it is lent.
pub const AGENT_NUMBERS: usize = 8;

// The numbers of a request.
pub const REQUEST_NUMBERS: usize = 17;

// The places of an agent's numbers, after its position's, and of a request's, after its agent's.
pub const VELOCITY_PLACE: usize = 3;

pub const RADIUS_PLACE: usize = 6;

pub const RESPONSIBILITY_PLACE: usize = 7;

pub const PREFERRED_PLACE: usize = 8;

pub const MAX_SPEED_PLACE: usize = 11;

pub const TIME_STEP_PLACE: usize = 12;

pub const HORIZON_PLACE: usize = 13;

pub const FALLBACK_PLACE: usize = 14;

#[derive(Debug, Clone, Copy, PartialEq)]
pub struct Agent {
    pub position: Vec3,
    pub velocity: Vec3,
    pub radius: f32,
    pub responsibility: f32,
}

#[derive(Debug, Clone, Copy, PartialEq)]
pub struct Request {
    pub agent: Agent,
    pub preferred: Vec3,
    pub max_speed: f32,
    pub time_step: f32,
    pub horizon: f32,
    pub fallback: Vec3,
}

// What a number at a place may be.
#[derive(Debug, Clone, Copy, PartialEq, Eq)]
pub enum Kind {
    Any,
    NotNegative,
    Positive,
}

// What is asked of every number: to be finite, or to be in its range. A value and no closure, since the definitions take
// it too (`bad_number`), and each of the two has a look at all numbers beside its test of one.
#[derive(Debug, Clone, Copy, PartialEq, Eq)]
pub enum Asked {
    Finite,
    InRange,
}

// The velocity to take, the plane from which it is relaxed, if it is, and the first neighbour that is
// unseen, if one is.
#[derive(Debug, Clone, Copy, PartialEq)]
pub struct Course {
    pub velocity: Vec3,
    pub relaxed: Option<usize>,
    pub unseen: Option<usize>,
}

// What a velocity call answers.
pub type Reply = Result<Course, Refusal>;

// Eight neighbours at once through the stages of their planes: no neighbour waits for another. What is known of the eight
// is kept a component at a time, each in an array with a lane for each neighbour, so that a loop over the lanes reads and
// writes whole vectors of the machine. What the functions promise each other is in `specs/parts/Groups.antt`.
ghost use Rattle.std.specs.Prelude.{◌≡◌, true, map};
ghost use Rattle.vectors.specs.Root.{root};
ghost use Rattle.planes.specs.parts.Groups.{Related, Approached, Directed, Planed, Standing};

use super::lent::Group;
use super::neighbour::{Relation, relation_of};
use super::stages::{Approach, Direction, approach_of, direction_with, plane_with};
use requests::Request;
use vectors::Vec3;
use vectors::roots::{LANES, roots};

// Eight relations, and the responsibilities of the others.
// An array of each component, and none of `Relation`: what the vector unit loads at once stands side by side.
#[derive(Clone, Copy)]
pub struct Relations {
    pub position_x: [f32; LANES],
    pub position_y: [f32; LANES],
    pub position_z: [f32; LANES],
    pub velocity_x: [f32; LANES],
    pub velocity_y: [f32; LANES],
    pub velocity_z: [f32; LANES],
    pub radius_sum: [f32; LANES],
    pub responsibility: [f32; LANES],
}

// Eight approaches: an array of each component for the vector unit, as of the relations.
#[derive(Clone, Copy)]
pub struct Approaches {
    pub center_x: [f32; LANES],
    pub center_y: [f32; LANES],
    pub center_z: [f32; LANES],
    pub radius: [f32; LANES],
    pub part: [f32; LANES],
    pub is_free: [bool; LANES],
    pub is_cone: [bool; LANES],
    pub number: [f32; LANES],
}

// Eight directions: an array of each component for the vector unit, as of the relations.
#[derive(Clone, Copy)]
pub struct Directions {
    pub x: [f32; LANES],
    pub y: [f32; LANES],
    pub z: [f32; LANES],
    pub square: [f32; LANES],
}

// Eight planes, and whether each is unseen: an array of each component for the vector unit, as of the relations.
#[derive(Clone, Copy)]
pub struct Planes {
    pub point_x: [f32; LANES],
    pub point_y: [f32; LANES],
    pub point_z: [f32; LANES],
    pub normal_x: [f32; LANES],
    pub normal_y: [f32; LANES],
    pub normal_z: [f32; LANES],
    pub unseen: [bool; LANES],
}

// The relations to the neighbours of a group.
fn relations_of(request: Request, group: Group) -> Relations
    ensures { Related request group.entry.neighbours.now group.entry.start group.entry.size result }
{
    let mut lanes = Relations {
        position_x: [0.0; LANES],
        position_y: [0.0; LANES],
        position_z: [0.0; LANES],
        velocity_x: [0.0; LANES],
        velocity_y: [0.0; LANES],
        velocity_z: [0.0; LANES],
        radius_sum: [0.0; LANES],
        responsibility: [0.0; LANES],
    };
    for lane in 0..LANES {
        let neighbour = group.neighbour_in(lane);
        let relation = relation_of(request.agent, neighbour);
        lanes.position_x[lane] = relation.position.x;
        lanes.position_y[lane] = relation.position.y;
        lanes.position_z[lane] = relation.position.z;
        lanes.velocity_x[lane] = relation.velocity.x;
        lanes.velocity_y[lane] = relation.velocity.y;
        lanes.velocity_z[lane] = relation.velocity.z;
        lanes.radius_sum[lane] = relation.radius_sum;
        lanes.responsibility[lane] = neighbour.responsibility;
    }
    lanes
}

// The first stage.
fn approaches_of(relations: Relations, own: f32, horizon: f32, time_step: f32) -> Approaches
    ensures { Approached relations own horizon time_step result }
{
    let mut lanes = Approaches {
        center_x: [0.0; LANES],
        center_y: [0.0; LANES],
        center_z: [0.0; LANES],
        radius: [0.0; LANES],
        part: [0.0; LANES],
        is_free: [false; LANES],
        is_cone: [false; LANES],
        number: [0.0; LANES],
    };
    for lane in 0..LANES {
        let relation = Relation {
            position: Vec3 {
                x: relations.position_x[lane],
                y: relations.position_y[lane],
                z: relations.position_z[lane],
            },
            velocity: Vec3 {
                x: relations.velocity_x[lane],
                y: relations.velocity_y[lane],
                z: relations.velocity_z[lane],
            },
            radius_sum: relations.radius_sum[lane],
        };
        let other = relations.responsibility[lane];
        let approach = approach_of(relation, own, other, horizon, time_step);
        lanes.center_x[lane] = approach.center.x;
        lanes.center_y[lane] = approach.center.y;
        lanes.center_z[lane] = approach.center.z;
        lanes.radius[lane] = approach.radius;
        lanes.part[lane] = approach.part;
        lanes.is_free[lane] = approach.is_free;
        lanes.is_cone[lane] = approach.is_cone;
        lanes.number[lane] = approach.number;
    }
    lanes
}

// Whether each of the numbers is a zero. Counted, and not asked by `all`, which would leave the lanes at the first other.
#[tactic(auto, using(crate::proofs::groups::Lanes::zero_root))]
fn all_zero(numbers: [f32; LANES]) -> bool
    ensures { result ≡ true → map root numbers ≡ numbers }
{
    let mut others: u32 = 0;
    for lane in 0..LANES {
        others += if numbers[lane] == 0.0 { 0 } else { 1 };
    }
    others == 0
}

// The roots of the numbers: where each is a zero, as where no neighbour is a cone, they are the numbers.
fn first_roots(numbers: [f32; LANES]) -> [f32; LANES]
    ensures { result ≡ map root numbers }
{
    if all_zero(numbers) {
        numbers
    } else {
        roots(numbers)
    }
}

// The second stage.
fn directions_with(relations: Relations, approaches: Approaches, roots: [f32; LANES]) -> Directions
    ensures { Directed relations approaches roots result }
{
    let mut lanes = Directions {
        x: [0.0; LANES],
        y: [0.0; LANES],
        z: [0.0; LANES],
        square: [0.0; LANES],
    };
    for lane in 0..LANES {
        let position = Vec3 {
            x: relations.position_x[lane],
            y: relations.position_y[lane],
            z: relations.position_z[lane],
        };
        let velocity = Vec3 {
            x: relations.velocity_x[lane],
            y: relations.velocity_y[lane],
            z: relations.velocity_z[lane],
        };
        let center = Vec3 {
            x: approaches.center_x[lane],
            y: approaches.center_y[lane],
            z: approaches.center_z[lane],
        };
        let direction = direction_with(
            position,
            velocity,
            center,
            approaches.is_cone[lane],
            roots[lane],
        );
        lanes.x[lane] = direction.vector.x;
        lanes.y[lane] = direction.vector.y;
        lanes.z[lane] = direction.vector.z;
        lanes.square[lane] = direction.square;
    }
    lanes
}

// The third stage.
fn planes_with(
    request: Request,
    relations: Relations,
    approaches: Approaches,
    directions: Directions,
    lengths: [f32; LANES],
) -> Planes
    ensures { Planed request relations approaches directions lengths result }
{
    let mut lanes = Planes {
        point_x: [0.0; LANES],
        point_y: [0.0; LANES],
        point_z: [0.0; LANES],
        normal_x: [0.0; LANES],
        normal_y: [0.0; LANES],
        normal_z: [0.0; LANES],
        unseen: [false; LANES],
    };
    for lane in 0..LANES {
        let velocity = Vec3 {
            x: relations.velocity_x[lane],
            y: relations.velocity_y[lane],
            z: relations.velocity_z[lane],
        };
        let approach = Approach {
            center: Vec3 {
                x: approaches.center_x[lane],
                y: approaches.center_y[lane],
                z: approaches.center_z[lane],
            },
            radius: approaches.radius[lane],
            part: approaches.part[lane],
            is_free: approaches.is_free[lane],
            is_cone: approaches.is_cone[lane],
            number: approaches.number[lane],
        };
        let direction = Direction {
            vector: Vec3 {
                x: directions.x[lane],
                y: directions.y[lane],
                z: directions.z[lane],
            },
            square: directions.square[lane],
        };
        let made = plane_with(
            request.agent.velocity,
            velocity,
            approach,
            direction,
            lengths[lane],
            request.fallback,
        );
        lanes.point_x[lane] = made.plane.point.x;
        lanes.point_y[lane] = made.plane.point.y;
        lanes.point_z[lane] = made.plane.point.z;
        lanes.normal_x[lane] = made.plane.normal.x;
        lanes.normal_y[lane] = made.plane.normal.y;
        lanes.normal_z[lane] = made.plane.normal.z;
        lanes.unseen[lane] = made.unseen;
    }
    lanes
}

// The planes for the neighbours of a group.
pub(crate) fn planes_of(request: Request, group: Group) -> Planes
    ensures { Standing request group.entry.neighbours.now group.entry.start group.entry.size result }
{
    let relations = relations_of(request, group);
    let approaches = approaches_of(
        relations,
        request.agent.responsibility,
        request.horizon,
        request.time_step,
    );
    let numbers = approaches.number;
    let first_roots = first_roots(numbers);
    let directions = directions_with(relations, approaches, first_roots);
    let squares = directions.square;
    let lengths = roots(squares);
    planes_with(request, relations, approaches, directions, lengths)
}

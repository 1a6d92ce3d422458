// The plane for a neighbour in three stages, with a square root after the first and another after the second, for eight
// neighbours that go through them side by side (`groups`); one alone goes by `plane_for`. The same is done for every
// neighbour, and what it needs is selected: a stage has no way out, so the compiler makes vector code of eight. The
// definitions are in `specs/parts/Stages.antt`.
ghost use Rattle.std.specs.Prelude.{◌≡◌, cond};
ghost use Rattle.planes.specs.parts.Stages.{discriminant, before_ring, approach_of, direction_with, usable, projected_with, plane_with};

use super::NeighbourPlane;
use super::neighbour::{Projection, Relation};
use solver::Plane;
use vectors::Vec3;
use vectors::number::is_finite;

// What the first stage makes of a neighbour, and the later ones go by: the cut-off sphere, at the horizon or in a
// collision at the end of the step; our part of the way; whether there is no collision; whether the relative velocity is
// projected to the cut-off shadow, a cone; and the number that is to be rooted first, which only a cone has.
// Tests beside numbers, and no enum: each lane has them all, and what it needs is selected without a branch.
#[derive(Clone, Copy)]
pub struct Approach {
    pub center: Vec3,
    pub radius: f32,
    pub part: f32,
    pub is_free: bool,
    pub is_cone: bool,
    pub number: f32,
}

// The direction of the normal, and its length squared, which is rooted next.
#[derive(Clone, Copy)]
pub struct Direction {
    pub vector: Vec3,
    pub square: f32,
}

// ---- selections

fn either<T: Copy>(test: bool, yes: T, no: T) -> T
    ensures { result ≡ cond test yes no }
{
    if test { yes } else { no }
}

// By components, and not by `either` of a whole vector: three selected numbers keep a stage without a branch.
fn either_vector(test: bool, yes: Vec3, no: Vec3) -> Vec3
    ensures { result ≡ cond test yes no }
{
    Vec3 {
        x: either(test, yes.x, no.x),
        y: either(test, yes.y, no.y),
        z: either(test, yes.z, no.z),
    }
}

// ---- the first stage

// What is rooted for the time t of a cone; `cone_time` says why.
#[tactic(auto, unfolding(crate::specs::parts::Stages::discriminant))]
pub(crate) fn discriminant(relation: Relation) -> f32
    ensures { result ≡ discriminant relation }
{
    let a = relation.position.length_squared();
    let leg_squared = a - relation.radius_sum * relation.radius_sum;
    let rays_squared = relation.position.cross(relation.velocity).length_squared();
    let b = relation.position.dot(relation.velocity);
    let c = relation.velocity.length_squared() - rays_squared / leg_squared;
    b * b - a * c
}

// Whether the relative velocity lies before the tangent ring of the cut-off sphere.
#[tactic(auto, unfolding(crate::specs::parts::Stages::before_ring))]
pub(crate) fn is_before_ring(relation: Relation, from_center: Vec3) -> bool
    ensures { result ≡ before_ring relation from_center }
{
    let along = from_center.dot(relation.position);
    let reach = relation.radius_sum * relation.radius_sum * from_center.length_squared();
    either(along < 0.0, along * along > reach, false)
}

#[tactic(auto, unfolding(crate::specs::parts::Stages::approach_of))]
pub(crate) fn approach_of(
    relation: Relation,
    own: f32,
    other: f32,
    horizon: f32,
    time_step: f32,
) -> Approach
    ensures { result ≡ approach_of relation own other horizon time_step }
{
    let distance_squared = relation.position.length_squared();
    let is_free = distance_squared > relation.radius_sum * relation.radius_sum;
    let time = either(is_free, horizon, time_step);
    let center = relation.position.div(time);
    let is_before = is_before_ring(relation, relation.velocity.sub(center));
    let is_cone = either(is_free, !is_before, false);
    let number = either(is_cone, discriminant(relation), 0.0);
    Approach {
        center,
        radius: relation.radius_sum / time,
        part: own / (own + other),
        is_free,
        is_cone,
        number,
    }
}

// ---- the second stage

// From the first root: of a cone, the relative velocity moved along the relative position for the time t.
#[tactic(auto, unfolding(crate::specs::parts::Stages::direction_with))]
pub(crate) fn direction_with(
    position: Vec3,
    velocity: Vec3,
    center: Vec3,
    is_cone: bool,
    root: f32,
) -> Direction
    ensures { result ≡ direction_with position velocity center is_cone root }
{
    let a = position.length_squared();
    let b = position.dot(velocity);
    let t = (-b - root) / a;
    let leaning = velocity.add(position.mul(t));
    let vector = either_vector(is_cone, leaning, velocity.sub(center));
    Direction {
        vector,
        square: vector.length_squared(),
    }
}

// ---- the third stage

// Whether a reciprocal length is both finite and above 0.
#[tactic(auto, unfolding(crate::specs::parts::Stages::usable))]
fn is_usable(scale: f32) -> bool
    ensures { result ≡ usable scale }
{
    either(is_finite(scale), scale > 0.0, false)
}

// From the direction's length, the second root.
#[tactic(auto, unfolding(crate::specs::parts::Stages::projected_with))]
fn projected_with(
    velocity: Vec3,
    approach: Approach,
    direction: Direction,
    length: f32,
    fallback: Vec3,
) -> Projection
    ensures { result ≡ projected_with velocity approach direction length fallback }
{
    let scale = 1.0 / length;
    let is_usable = is_usable(scale);
    let zero = Vec3::zero();
    let instead = either_vector(approach.is_free, zero, fallback);
    let normal = either_vector(is_usable, direction.vector.mul(scale), instead);
    let plane = Plane {
        point: zero,
        normal,
    };
    let distance = plane.signed_distance(velocity);
    let on_cone = velocity.sub(normal.mul(distance));
    let on_sphere = normal.mul(approach.radius).add(approach.center);
    let in_sphere = direction.square < approach.radius * approach.radius;
    let in_free = either(approach.is_cone, distance < 0.0, in_sphere);
    Projection {
        normal,
        value: either_vector(approach.is_cone, on_cone, on_sphere),
        inside: either(approach.is_free, in_free, true),
        unseen: either(is_usable, false, approach.is_free),
    }
}

// The half-space of velocities that avoid the neighbour, and whether that is unseen.
#[tactic(auto, unfolding(crate::specs::parts::Stages::plane_with))]
pub(crate) fn plane_with(
    own_velocity: Vec3,
    velocity: Vec3,
    approach: Approach,
    direction: Direction,
    length: f32,
    fallback: Vec3,
) -> NeighbourPlane
    ensures { result ≡ plane_with own_velocity velocity approach direction length fallback }
{
    let projection = projected_with(velocity, approach, direction, length, fallback);
    let part = either(projection.inside, approach.part, 1.0);
    let way = projection.value.sub(velocity).mul(part);
    let normal = projection.normal;
    let plane = Plane {
        point: own_velocity.add(way),
        normal,
    };
    let unseen = projection.unseen;
    NeighbourPlane { plane, unseen }
}

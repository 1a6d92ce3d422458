// Document 01, module 7, its first part: `get_plane_for_neighbour` of lib.rs. The definitions are in
// `specs/Neighbour.antt`.
ghost use Rattle.std.specs.Prelude.{◌≡◌};
ghost use Rattle.planes.specs.Neighbour.{relation_of, on_sphere, cone_time, on_cone, projected_free, collision_normal, projected_collision, projected, share, plane_for};

use super::NeighbourPlane;
use super::stages::{discriminant, is_before_ring};
use requests::Agent;
use solver::Plane;
use vectors::Vec3;
use vectors::number::is_finite;
use vectors::root::root;

// What both agents make of their relation: the other's place and our velocity, each as seen from the
// other agent, and the sum of the radii.
#[derive(Clone, Copy)]
pub struct Relation {
    pub position: Vec3,
    pub velocity: Vec3,
    pub radius_sum: f32,
}

// The relative velocity projected to the velocity obstacle, the obstacle's normal there, whether the
// relative velocity lies inside it, and whether there was no normal to be made.
// A flag beside the normal, and no `Option`: the normal is read either way, as zeros.
#[derive(Clone, Copy)]
pub struct Projection {
    pub normal: Vec3,
    pub value: Vec3,
    pub inside: bool,
    pub unseen: bool,
}

#[tactic(auto, unfolding(crate::specs::Neighbour::relation_of))]
pub(crate) fn relation_of(agent: Agent, neighbour: Agent) -> Relation
    ensures { result ≡ relation_of agent neighbour }
{
    Relation {
        position: neighbour.position.sub(agent.position),
        velocity: agent.velocity.sub(neighbour.velocity),
        radius_sum: agent.radius + neighbour.radius,
    }
}

// Onto the cut-off sphere.
#[tactic(auto, unfolding(crate::specs::Neighbour::on_sphere))]
fn on_sphere(relation: Relation, horizon: f32, center: Vec3, from_center: Vec3) -> Projection
    ensures { result ≡ on_sphere relation horizon center from_center }
{
    let radius = relation.radius_sum / horizon;
    let outward = from_center.normalize_or_zero();
    let normal = outward.unwrap_or(Vec3::zero());
    Projection {
        normal,
        value: normal.mul(radius).add(center),
        inside: from_center.length_squared() < radius * radius,
        unseen: outward.is_none(),
    }
}

// The time t at which the relative velocity, moved along the relative position, shows the cone's normal.
//
// Past the tangent ring the obstacle is a cone about the relative position p, with its tip at 0 and rays that graze the
// sphere of the radius sum. Of the triangle that a ray makes with p the leg along the ray has the square
// |p|^2 - radius sum^2, and the cosine of the cone's half angle is that leg / |p|.
// The normal next to the relative velocity v lies in the plane of p and v and is square to a ray: it leans away from p
// by the half angle. Let v + t * p point that way. Its distance from the axis is that of v, |p x v| / |p|, and is also
// its length times the cosine. So |v + t * p|^2 = |p x v|^2 / leg^2: a * t^2 + 2 * b * t + c = 0, with the 2 factored
// out of the solution. Of the two solutions the smaller leans away from p.
#[tactic(auto, unfolding(crate::specs::Neighbour::cone_time, crate::specs::parts::Stages::discriminant))]
fn cone_time(relation: Relation) -> f32
    ensures { result ≡ cone_time relation }
{
    let a = relation.position.length_squared();
    let b = relation.position.dot(relation.velocity);
    (-b - root(discriminant(relation))) / a
}

// Onto the cut-off shadow, a cone.
#[tactic(auto, unfolding(crate::specs::Neighbour::on_cone))]
fn on_cone(relation: Relation) -> Projection
    ensures { result ≡ on_cone relation }
{
    let t = cone_time(relation);
    let normalized = relation
        .velocity
        .add(relation.position.mul(t))
        .normalize_or_zero();
    let normal = normalized.unwrap_or(Vec3::zero());
    let plane = Plane {
        point: Vec3::zero(),
        normal,
    };
    let distance = plane.signed_distance(relation.velocity);
    Projection {
        normal,
        value: relation.velocity.sub(normal.mul(distance)),
        inside: distance < 0.0,
        unseen: normalized.is_none(),
    }
}

// No collision: onto the sphere before its tangent ring, and onto the cone past it.
#[tactic(auto, unfolding(crate::specs::Neighbour::projected_free, crate::specs::parts::Stages::before_ring))]
fn projected_free(relation: Relation, horizon: f32) -> Projection
    ensures { result ≡ projected_free relation horizon }
{
    let center = relation.position.div(horizon);
    let from_center = relation.velocity.sub(center);
    if is_before_ring(relation, from_center) {
        return on_sphere(relation, horizon, center, from_center);
    }
    on_cone(relation)
}

// The direction from the centre, or the caller's where its reciprocal length is not both finite and
// above 0.
#[tactic(auto, unfolding(crate::specs::Neighbour::collision_normal))]
fn collision_normal(from_center: Vec3, fallback: Vec3) -> Vec3
    ensures { result ≡ collision_normal from_center fallback }
{
    let scale = from_center.length_recip();
    let is_usable = is_finite(scale) && scale > 0.0;
    if is_usable {
        from_center.mul(scale)
    } else {
        fallback
    }
}

// Collision: onto the cut-off sphere at the end of the step. There is a normal, if need be the caller's.
#[tactic(auto, unfolding(crate::specs::Neighbour::projected_collision))]
fn projected_collision(relation: Relation, time_step: f32, fallback: Vec3) -> Projection
    ensures { result ≡ projected_collision relation time_step fallback }
{
    let center = relation.position.div(time_step);
    let radius = relation.radius_sum / time_step;
    let normal = collision_normal(relation.velocity.sub(center), fallback);
    Projection {
        normal,
        value: normal.mul(radius).add(center),
        inside: true,
        unseen: false,
    }
}

#[tactic(auto, unfolding(crate::specs::Neighbour::projected))]
fn projected(relation: Relation, horizon: f32, time_step: f32, fallback: Vec3) -> Projection
    ensures { result ≡ projected relation horizon time_step fallback }
{
    if relation.position.length_squared() > relation.radius_sum * relation.radius_sum {
        projected_free(relation, horizon)
    } else {
        projected_collision(relation, time_step, fallback)
    }
}

// The part of the way that is ours: all of it outside the obstacle.
#[tactic(auto, unfolding(crate::specs::Neighbour::share))]
pub(crate) fn share(own: f32, other: f32, inside: bool) -> f32
    ensures { result ≡ share own other inside }
{
    if inside { own / (own + other) } else { 1.0 }
}

// The half-space of velocities that avoid `neighbour`, and whether that is unseen.
// Horizon, time step and fallback stay apart, as in the definition, of which `ZeroNormal` is claimed.
#[tactic(auto, unfolding(crate::specs::Neighbour::plane_for))]
pub fn plane_for(
    agent: Agent,
    neighbour: Agent,
    horizon: f32,
    time_step: f32,
    fallback: Vec3,
) -> NeighbourPlane
    ensures { result ≡ plane_for agent neighbour horizon time_step fallback }
{
    let relation = relation_of(agent, neighbour);
    let projection = projected(relation, horizon, time_step, fallback);
    let part = share(
        agent.responsibility,
        neighbour.responsibility,
        projection.inside,
    );
    let way = projection.value.sub(relation.velocity).mul(part);
    let normal = projection.normal;
    let plane = Plane {
        point: agent.velocity.add(way),
        normal,
    };
    let unseen = projection.unseen;
    NeighbourPlane { plane, unseen }
}

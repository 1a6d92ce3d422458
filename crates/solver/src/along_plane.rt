// Document 01, module 4: `solve_linear_program_along_plane`. The definitions are in
// `specs/AlongPlane.antt`.
ghost use Rattle.std.specs.Prelude.{◌≡◌};
ghost use Rattle.solver.specs.Lent.{planes_in};
ghost use Rattle.solver.specs.AlongPlane.{along_plane, start_on, on_circle, line_on, by_constraint};

use super::along_line::along_line;
use super::lent::plane_at;
use super::{Line, OnLine, OnPlane, Optimum, PLANE_NUMBERS, Plane};
use vectors::Vec3;
use vectors::number::RVO_EPSILON;
use vectors::root::root;

// From `center` along `way`, as far as the circle of the squared radius reaches.
#[tactic(auto, unfolding(crate::specs::AlongPlane::on_circle))]
fn on_circle(center: Vec3, squared_radius: f32, way: Vec3, squared_length: f32) -> Vec3
    ensures { result ≡ on_circle center squared_radius way squared_length }
{
    center.add(way.mul(root(squared_radius / squared_length)))
}

// The best value on the plane within the sphere, before any constraint.
#[tactic(auto, unfolding(crate::specs::AlongPlane::start_on, crate::specs::AlongPlane::start_in_circle))]
fn start_on(plane: Plane, distance: f32, radius_squared: f32, optimum: Optimum) -> Vec3
    ensures { result ≡ start_on plane distance radius_squared optimum }
{
    let squared_radius = radius_squared - distance * distance;
    let center = plane.normal.mul(distance);
    match optimum {
        Optimum::Direction { x, y, z } => {
            let direction = Vec3 { x, y, z };
            let projected = direction.sub(plane.normal.mul(direction.dot(plane.normal)));
            let squared_length = projected.dot(projected);
            if squared_length <= RVO_EPSILON {
                center
            } else {
                on_circle(center, squared_radius, projected, squared_length)
            }
        }
        Optimum::Point { x, y, z } => {
            let point = Vec3 { x, y, z };
            let projected = point.sub(plane.normal.mul(plane.signed_distance(point)));
            if projected.dot(projected) > radius_squared {
                let relative = projected.sub(center);
                on_circle(center, squared_radius, relative, relative.dot(relative))
            } else {
                projected
            }
        }
    }
}

// The line in which a plane meets a constraint whose normals' cross product is
// `across`.
#[tactic(auto, unfolding(crate::specs::AlongPlane::line_on))]
fn line_on(plane: Plane, constraint: Plane, across: Vec3) -> Line
    ensures { result ≡ line_on plane constraint across }
{
    let direction = across.normalize();
    let line_normal = direction.cross(plane.normal);
    let along = constraint.signed_distance(plane.point) / line_normal.dot(constraint.normal);
    Line {
        point: plane.point.sub(line_normal.mul(along)),
        direction,
    }
}

// The best value once one constraint more has been met; those before it are passed.
#[tactic(auto, unfolding(crate::specs::AlongPlane::by_constraint, crate::specs::AlongPlane::by_line, crate::specs::AlongPlane::from_line))]
fn by_constraint(
    plane: Plane,
    radius: f32,
    passed: &[f32],
    constraint: Plane,
    best: Vec3,
    optimum: Optimum,
) -> OnPlane
    ensures { result ≡ by_constraint plane radius optimum (planes_in passed.now) constraint (OnPlane.Value best) }
{
    if constraint.signed_distance(best) >= 0.0 {
        return OnPlane::Value(best);
    }
    let across = constraint.normal.cross(plane.normal);
    if across.dot(across) <= RVO_EPSILON {
        return OnPlane::Infeasible;
    }
    let answer = along_line(line_on(plane, constraint, across), radius, passed, optimum);
    // A line that fails, fails the plane: its answer is taken apart at once (docs/DEFINITION.md, 4).
    if let OnLine::BadClamp = answer {
        return OnPlane::BadClamp;
    }
    let OnLine::Value(value) = answer else {
        return OnPlane::Infeasible;
    };
    OnPlane::Value(value)
}

// The best value on a plane, within the sphere of `radius` and on the valid side of every plane of
// `planes`, lent as numbers.
#[tactic(auto, using(crate::proofs::Stopped::in_turn_on_plane), unfolding(crate::specs::AlongPlane::along_plane))]
pub fn along_plane(plane: Plane, radius: f32, planes: &[f32], optimum: Optimum) -> OnPlane
    ensures { result ≡ along_plane plane radius (planes_in planes.now) optimum }
{
    let distance = plane.point.dot(plane.normal);
    let radius_squared = radius * radius;
    if distance * distance > radius_squared {
        return OnPlane::Infeasible;
    }
    let mut best = start_on(plane, distance, radius_squared, optimum);
    for index in 0..planes.len() / PLANE_NUMBERS {
        let passed = &planes[..PLANE_NUMBERS * index];
        let constraint = plane_at(planes, index);
        let answer = by_constraint(plane, radius, passed, constraint, best, optimum);
        let OnPlane::Value(value) = answer else {
            return answer;
        };
        best = value;
    }
    OnPlane::Value(best)
}

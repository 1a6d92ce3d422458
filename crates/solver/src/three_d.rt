// Document 01, module 5: `solve_linear_program_3d`. The definitions are in `specs/ThreeD.antt`.
ghost use Rattle.std.specs.Prelude.{◌≡◌};
ghost use Rattle.solver.specs.Lent.{planes_in};
ghost use Rattle.solver.specs.ThreeD.{three_d, start_in, by_plane};

use super::along_plane::along_plane;
use super::lent::plane_at;
use super::{Failure, OnPlane, Optimum, Outcome, PLANE_NUMBERS, Plane};
use vectors::Vec3;

// The best value within the sphere, before any constraint.
#[tactic(auto, unfolding(crate::specs::ThreeD::start_in))]
fn start_in(radius: f32, optimum: Optimum) -> Vec3
    ensures { result ≡ start_in radius optimum }
{
    match optimum {
        Optimum::Direction { x, y, z } => {
            let direction = Vec3 { x, y, z };
            direction.mul(radius)
        }
        Optimum::Point { x, y, z } => {
            let point = Vec3 { x, y, z };
            if point.length_squared() > radius * radius {
                point.normalize().mul(radius)
            } else {
                point
            }
        }
    }
}

// The outcome once one constraint more has been met; those before it are passed.
#[tactic(auto, using(crate::proofs::Planes::parts), unfolding(crate::specs::ThreeD::by_plane, crate::specs::ThreeD::from_plane))]
fn by_plane(radius: f32, passed: &[f32], constraint: Plane, best: Vec3, optimum: Optimum) -> Outcome
    ensures { result ≡ by_plane radius optimum (planes_in passed.now) constraint (Outcome.Feasible best) }
{
    if constraint.signed_distance(best) > 0.0 {
        return Outcome::Feasible(best);
    }
    let index = passed.len() / PLANE_NUMBERS;
    match along_plane(constraint, radius, passed, optimum) {
        OnPlane::Value(value) => Outcome::Feasible(value),
        OnPlane::Infeasible => Outcome::Infeasible(Failure { index, value: best }),
        OnPlane::BadClamp => Outcome::BadClamp(index),
    }
}

// The best value within the sphere of `radius` and on the valid side of every plane of `planes`, lent
// as numbers.
#[tactic(auto, using(crate::proofs::Stopped::in_turn_in_sphere), unfolding(crate::specs::ThreeD::three_d))]
pub fn three_d(planes: &[f32], radius: f32, optimum: Optimum) -> Outcome
    ensures { result ≡ three_d (planes_in planes.now) radius optimum }
{
    let mut best = start_in(radius, optimum);
    for index in 0..planes.len() / PLANE_NUMBERS {
        let passed = &planes[..PLANE_NUMBERS * index];
        let constraint = plane_at(planes, index);
        let outcome = by_plane(radius, passed, constraint, best, optimum);
        let Outcome::Feasible(value) = outcome else {
            return outcome;
        };
        best = value;
    }
    Outcome::Feasible(best)
}

// `solve_linear_program` of linear_programming.rs: 3D, and 4D where it fails. The definitions are in
// `specs/Solve.antt`.
ghost use Rattle.std.specs.Prelude.{◌≡◌, ◌/◌, length};
ghost use Rattle.solver.specs.Lent.{scratch_per_plane, planes_of};
ghost use Rattle.solver.specs.FourD.{half_cleared};
ghost use Rattle.solver.specs.Solve.{value_of, solve};

use super::four_d::four_d;
use super::lent::clear;
use super::three_d::three_d;
use super::{Optimum, Outcome, PLANE_NUMBERS, SCRATCH_NUMBERS, Solution};
use vectors::Vec3;

// The value that an outcome of 3D comes to. The second half of `scratch` is +0 at the end.
#[tactic(auto, using(crate::proofs::four_d::Scratch::second_cleared), unfolding(crate::specs::Solve::value_of, crate::specs::FourD::half_cleared))]
fn value_of(scratch: &mut [f32], radius: f32, outcome: Outcome) -> Vec3
    ensures value { result ≡ value_of (planes_of (length scratch.old / scratch_per_plane) scratch.old) radius outcome }
    ensures scratch { scratch.new ≡ half_cleared scratch.old }
{
    let value = match outcome {
        Outcome::Feasible(value) => value,
        Outcome::Infeasible(failure) => return four_d(scratch, radius, failure),
        Outcome::BadClamp(_) => Vec3::zero(),
    };
    let half = PLANE_NUMBERS * (scratch.len() / SCRATCH_NUMBERS);
    clear(&mut scratch[half..half + half]);
    value
}

// The value nearest to `preferred` within the sphere of `radius` and on the valid side of the planes,
// or the least penetrating one. `scratch` is SCRATCH_NUMBERS for each plane: in its first half the
// planes, lent as numbers; the second half is +0 at the end.
#[tactic(auto, using(crate::proofs::Planes::parts), unfolding(crate::specs::Solve::solve))]
pub fn solve(scratch: &mut [f32], radius: f32, preferred: Vec3) -> Solution
    ensures value { result ≡ solve (planes_of (length scratch.old / scratch_per_plane) scratch.old) radius preferred }
    ensures scratch { scratch.new ≡ half_cleared scratch.old }
{
    let nearest = Optimum::Point {
        x: preferred.x,
        y: preferred.y,
        z: preferred.z,
    };
    let end = PLANE_NUMBERS * (scratch.len() / SCRATCH_NUMBERS);
    let outcome = three_d(&scratch[..end], radius, nearest);
    let value = value_of(scratch, radius, outcome);
    Solution { outcome, value }
}

// Document 01, module 6: `solve_linear_program_4d`. The definitions are in `specs/FourD.antt`.
//
// The Rust collects the turned planes in a `Vec`. Here they are written to the second half of the
// lent scratch, whose first half holds the planes, and are solved there.
ghost use Rattle.std.specs.Prelude.{◌≡◌, ◌*◌, ◌/◌, ◌≤◌, length};
ghost use Rattle.solver.specs.Lent.{per_plane, scratch_per_plane, planes_of, planes_in};
ghost use Rattle.solver.specs.FourD.{turned_plane, turn_by, turned_all, relax_by, four_d, half_cleared};

use super::lent::{clear, plane_at, write_plane};
use super::three_d::three_d;
use super::{Failure, Optimum, Outcome, PLANE_NUMBERS, Plane, SCRATCH_NUMBERS};
use vectors::Vec3;
use vectors::number::RVO_EPSILON;

// The least penetrating value so far, and how far it lies behind the plane that asked for it.
#[derive(Debug, Clone, Copy, PartialEq)]
pub struct Relaxed {
    pub value: Vec3,
    pub penetration: f32,
}

// The plane through `point` on which both constraints are violated the same.
#[tactic(auto, unfolding(crate::specs::FourD::turned_plane))]
fn turned_plane(constraint: Plane, previous: Plane, point: Vec3) -> Plane
    ensures { result ≡ turned_plane constraint previous point }
{
    Plane {
        point,
        normal: previous.normal.sub(constraint.normal).normalize(),
    }
}

// The half-space in which `previous` is violated no more than `constraint`. Of two planes that face the
// same way there is none.
#[tactic(auto, unfolding(crate::specs::FourD::turn_by))]
fn turn_by(constraint: Plane, previous: Plane) -> Option<Plane>
    ensures { result ≡ turn_by constraint previous }
{
    let across = previous.normal.cross(constraint.normal);
    if across.dot(across) <= RVO_EPSILON {
        if constraint.normal.dot(previous.normal) > 0.0 {
            None
        } else {
            let middle = constraint.point.add(previous.point).mul(0.5);
            Some(turned_plane(constraint, previous, middle))
        }
    } else {
        let line_normal = across.cross(constraint.normal);
        let along = previous.signed_distance(constraint.point) / line_normal.dot(previous.normal);
        let point = constraint.point.sub(line_normal.mul(along));
        Some(turned_plane(constraint, previous, point))
    }
}

// Turns all planes passed, and writes those that are not left out to `turned`, one after another.
// Answers how many stand there: the buffer is lent, as long as the caller has it, so no ArrayVec holds it.
#[tactic(auto, using(std::proofs::lemmas::Grind::common_steps, crate::proofs::four_d::Scratch::turned), unfolding(crate::specs::FourD::kept, crate::specs::Lent::planes_of))]
fn turn_all(passed: &[f32], turned: &mut [f32], constraint: Plane) -> usize
    requires { length passed.now ≤ length turned.old }
    ensures few { per_plane * result ≤ length turned.new }
    ensures turned { planes_of result turned.new ≡ turned_all constraint (planes_in passed.now) }
{
    let mut kept = 0;
    for index in 0..passed.len() / PLANE_NUMBERS {
        if let Some(plane) = turn_by(constraint, plane_at(passed, index)) {
            write_plane(turned, kept, plane);
            kept += 1;
        }
    }
    kept
}

// The value that one plane more makes of the one so far; those before it are passed, and `turned` is room
// to work in.
#[tactic(auto, using(crate::proofs::Planes::parts), unfolding(crate::specs::FourD::relax_by, crate::specs::FourD::relaxed_to))]
fn relax_by(
    passed: &[f32],
    turned: &mut [f32],
    radius: f32,
    constraint: Plane,
    state: Relaxed,
) -> Relaxed
    requires { length passed.now ≤ length turned.old }
    ensures { result ≡ relax_by radius (planes_in passed.now) constraint state }
{
    if -constraint.signed_distance(state.value) <= state.penetration {
        return state;
    }
    let kept = turn_all(passed, turned, constraint);
    let normal = constraint.normal;
    let best = Optimum::Direction {
        x: normal.x,
        y: normal.y,
        z: normal.z,
    };
    match three_d(&turned[..PLANE_NUMBERS * kept], radius, best) {
        Outcome::Feasible(value) => Relaxed {
            value,
            penetration: -constraint.signed_distance(value),
        },
        Outcome::Infeasible(_) => state,
        Outcome::BadClamp(_) => state,
    }
}

// The least penetrating value within the sphere of `radius`, from the plane at which the 3D program
// failed. `scratch` is SCRATCH_NUMBERS for each plane: in its first half the planes, lent as numbers; the
// second half is worked in, and is +0 at the end.
#[tactic(auto, using(crate::proofs::Planes::parts, crate::proofs::Planes::in_turns, crate::proofs::four_d::Scratch::second_cleared), unfolding(crate::specs::FourD::four_d, crate::specs::FourD::half_cleared))]
pub fn four_d(scratch: &mut [f32], radius: f32, failure: Failure) -> Vec3
    ensures value { result ≡ four_d (planes_of (length scratch.old / scratch_per_plane) scratch.old) radius failure }
    ensures scratch { scratch.new ≡ half_cleared scratch.old }
{
    let half = PLANE_NUMBERS * (scratch.len() / SCRATCH_NUMBERS);
    let (front, rest) = scratch.split_at_mut(half);
    let planes: &[f32] = front;
    let turned = &mut rest[..half];
    let mut state = Relaxed {
        value: failure.value,
        penetration: 0.0,
    };
    for index in failure.index..planes.len() / PLANE_NUMBERS {
        let passed = &planes[..PLANE_NUMBERS * index];
        state = relax_by(passed, turned, radius, plane_at(planes, index), state);
    }
    clear(turned);
    state.value
}

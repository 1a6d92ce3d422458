// Document 01, module 3: `solve_linear_program_along_line`. The definitions are in
// `specs/AlongLine.antt`.
ghost use Rattle.std.specs.Prelude.{◌≡◌, Some};
ghost use Rattle.solver.specs.Lent.{planes_in};
ghost use Rattle.solver.specs.AlongLine.{along_line, cut_by, cut_all, open_or, point_on, best_on, between};

use super::lent::plane_at;
use super::{Line, OnLine, Optimum, PLANE_NUMBERS, Plane};
use vectors::Vec3;
use vectors::number::{RVO_EPSILON, clamp, larger_of, smaller_of};
use vectors::root::root;

// The times on a line from `left` to `right`.
#[derive(Debug, Clone, Copy, PartialEq)]
pub struct Times {
    pub left: f32,
    pub right: f32,
}

// The times between two bounds, if there are any.
#[tactic(auto, unfolding(crate::specs::AlongLine::open_or))]
fn open_or(left: f32, right: f32) -> Option<Times>
    ensures { result ≡ open_or left right }
{
    if left > right {
        None
    } else {
        Some(Times { left, right })
    }
}

// What one constraint leaves of the times from `left` to `right`.
#[tactic(auto, unfolding(crate::specs::AlongLine::cut_by))]
fn cut_by(line: Line, constraint: Plane, left: f32, right: f32) -> Option<Times>
    ensures { result ≡ cut_by line constraint (between left right) }
{
    let direction_dot = line.direction.dot(constraint.normal);
    let numerator = constraint.signed_distance(line.point);
    if direction_dot * direction_dot <= RVO_EPSILON {
        if numerator < -RVO_EPSILON {
            None
        } else {
            Some(Times { left, right })
        }
    } else {
        let t = -numerator / direction_dot;
        if direction_dot >= 0.0 {
            open_or(larger_of(left, t), right)
        } else {
            open_or(left, smaller_of(right, t))
        }
    }
}

// What all constraints leave of them.
// The bounds are two variables: one `Times` is packed into an integer at every turn, which is slower.
#[tactic(auto, using(crate::proofs::Stopped::in_turn_on_line), unfolding(crate::specs::AlongLine::cut_all))]
fn cut_all(line: Line, planes: &[f32], start: f32, end: f32) -> Option<Times>
    ensures { result ≡ cut_all line (planes_in planes.now) (between start end) }
{
    let mut left = start;
    let mut right = end;
    for index in 0..planes.len() / PLANE_NUMBERS {
        let times = cut_by(line, plane_at(planes, index), left, right)?;
        left = times.left;
        right = times.right;
    }
    Some(Times { left, right })
}

// The point of a line at a time.
#[tactic(auto, unfolding(crate::specs::AlongLine::point_on))]
fn point_on(line: Line, t: f32) -> Vec3
    ensures { result ≡ point_on line t }
{
    line.point.add(line.direction.mul(t))
}

// The best value between two times.
#[tactic(auto, unfolding(crate::specs::AlongLine::best_on, crate::specs::AlongLine::at_clamped))]
fn best_on(line: Line, optimum: Optimum, times: Times) -> OnLine
    ensures { result ≡ best_on line optimum (Some times) }
{
    match optimum {
        Optimum::Direction { x, y, z } => {
            let direction = Vec3 { x, y, z };
            if direction.dot(line.direction) > 0.0 {
                OnLine::Value(point_on(line, times.right))
            } else {
                OnLine::Value(point_on(line, times.left))
            }
        }
        Optimum::Point { x, y, z } => {
            let point = Vec3 { x, y, z };
            let t = line.direction.dot(point.sub(line.point));
            match clamp(t, times.left, times.right) {
                Some(time) => OnLine::Value(point_on(line, time)),
                None => OnLine::BadClamp,
            }
        }
    }
}

// The best value on a line, within the sphere of `radius` and on the valid side of every plane of
// `planes`, lent as numbers.
#[tactic(auto, unfolding(crate::specs::AlongLine::along_line, crate::specs::AlongLine::best_on))]
pub fn along_line(line: Line, radius: f32, planes: &[f32], optimum: Optimum) -> OnLine
    ensures { result ≡ along_line line radius (planes_in planes.now) optimum }
{
    let line_dot = line.point.dot(line.direction);
    let discriminant = line_dot * line_dot + radius * radius - line.point.dot(line.point);
    if discriminant < 0.0 {
        return OnLine::Infeasible;
    }
    let half = root(discriminant);
    match cut_all(line, planes, -line_dot - half, -line_dot + half) {
        Some(times) => best_on(line, optimum, times),
        None => OnLine::Infeasible,
    }
}

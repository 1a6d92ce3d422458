// Document 01, modules 2 to 6: planes and lines, and the four linear programs of the Rust's
// linear_programming.rs. Every public function is total, and ensures equality with a definition of
// `specs/`, which stands there under the same name.
// Radius, planes and optimum stand side by side in the signatures: the definitions and claims of the four programs take them
// so, as the Rust's functions do.
#![tactic(auto)]

use vectors::Vec3;

pub mod along_line;
pub mod along_plane;
pub mod distance;
pub mod four_d;
pub mod lent;
pub mod solve;
pub mod three_d;

// How many numbers a plane is lent as: the three of its point, then the three of its normal.
pub const PLANE_NUMBERS: usize = 6;

// How many numbers of scratch the programs take for each plane: the plane's own, and those of the
// plane turned.
pub const SCRATCH_NUMBERS: usize = 12;

// A half-space: the values on the side of `point` that `normal` shows.
#[derive(Debug, Clone, Copy, PartialEq)]
pub struct Plane {
    pub point: Vec3,
    pub normal: Vec3,
}

#[derive(Debug, Clone, Copy, PartialEq)]
pub struct Line {
    pub point: Vec3,
    pub direction: Vec3,
}

// What a program looks for: the value nearest to a point, or furthest in a direction.
// A case holds three numbers and no Vec3: the form of document 01 is two cases with their f32 components.
#[derive(Debug, Clone, Copy, PartialEq)]
pub enum Optimum {
    Point { x: f32, y: f32, z: f32 },
    Direction { x: f32, y: f32, z: f32 },
}

// What the program along a line answers. A clamp whose lower bound is not `<=` its upper is neither
// feasible nor infeasible: there Rust panics. No Result: docs/DEFINITION.md fixes an enum that is taken apart at once.
#[derive(Debug, Clone, Copy, PartialEq)]
pub enum OnLine {
    Value(Vec3),
    Infeasible,
    BadClamp,
}

// What the program along a plane answers. A bad clamp is one of a line that it was solved on.
// It is no OnLine: a line's failed answer is taken apart at once, and fails the plane (docs/DEFINITION.md, 4).
#[derive(Debug, Clone, Copy, PartialEq)]
pub enum OnPlane {
    Value(Vec3),
    Infeasible,
    BadClamp,
}

// The plane at which the program was found infeasible, and the value that the planes before it left.
#[derive(Debug, Clone, Copy, PartialEq)]
pub struct Failure {
    pub index: usize,
    pub value: Vec3,
}

// A clamp whose lower bound is not `<=` its upper is neither feasible nor infeasible: it comes with
// the index of the plane that was being solved on. No Result: docs/DEFINITION.md fixes its cases.
#[derive(Debug, Clone, Copy, PartialEq)]
pub enum Outcome {
    Feasible(Vec3),
    Infeasible(Failure),
    BadClamp(usize),
}

// The value, and how 3D came out: where that is a bad clamp, the value is three +0s.
#[derive(Debug, Clone, Copy, PartialEq)]
pub struct Solution {
    pub outcome: Outcome,
    pub value: Vec3,
}

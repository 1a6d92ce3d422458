// Document 01, module 1: numbers, the square root and vectors of three, the ground that the solver
// stands on. Every public function is total, and ensures equality with a definition of `specs/`.
#![tactic(auto)]

pub mod number;
pub mod root;
pub mod roots;
pub mod vector;

// A vector of three numbers; what is done with it is in `vector`.
#[derive(Debug, Clone, Copy, PartialEq, Default)]
pub struct Vec3 {
    pub x: f32,
    pub y: f32,
    pub z: f32,
}

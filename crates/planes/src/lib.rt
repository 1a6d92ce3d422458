// Document 01, module 7, its first part: the planes from the neighbours, from the Rust's lib.rs. Every public function is
// total, and ensures equality with a definition of `specs/`, which stands there under the same name.
#![tactic(auto)]

mod groups;
pub mod lent;
pub mod neighbour;
mod stages;
pub mod writing;

use refusals::Refusal;
use solver::Plane;

// The half-space of velocities that avoid a neighbour, and whether the neighbour is unseen: head-on past the
// tangent ring no normal can be made, it is zero, and the plane keeps no velocity out.
// A flag beside the plane, and no `Option`: the plane is written either way.
#[derive(Clone, Copy)]
pub struct NeighbourPlane {
    pub plane: Plane,
    pub unseen: bool,
}

// What making the planes came to: the first neighbour that is unseen, if one is; or the refusal of the first plane that is
// not finite.
pub type Made = Result<Option<usize>, Refusal>;

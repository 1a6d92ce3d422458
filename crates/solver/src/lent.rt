// Planes lent as numbers, six to each: point, then normal. The definitions are in `specs/Lent.antt`.
// Document 01 lends numbers with an index, so a plane is read and written number by number.
ghost use Rattle.std.specs.Prelude.{◌≡◌, ◌*◌, ◌/◌, ◌<◌, length, drop, replicate};
ghost use Rattle.vectors.specs.Number.{zero};
ghost use Rattle.solver.specs.Lent.{per_plane, plane_at, with_plane};

use super::{PLANE_NUMBERS, Plane};
use vectors::Vec3;

// The plane at `index` among planes lent as numbers.
#[tactic(auto, unfolding(crate::specs::Lent::plane_at))]
pub(crate) fn plane_at(planes: &[f32], index: usize) -> Plane
    requires { index < length planes.now / per_plane }
    ensures { result ≡ plane_at (drop (per_plane * index) planes.now) }
{
    let at = PLANE_NUMBERS * index;
    Plane {
        point: Vec3 {
            x: planes[at],
            y: planes[at + 1],
            z: planes[at + 2],
        },
        normal: Vec3 {
            x: planes[at + 3],
            y: planes[at + 4],
            z: planes[at + 5],
        },
    }
}

// Writes a plane as its six numbers, at `index` among planes lent so. Where there is no room for it,
// nothing is written.
#[tactic(auto, using(crate::proofs::Written::stores), unfolding(crate::proofs::Written::written))]
pub fn write_plane(planes: &mut [f32], index: usize, plane: Plane)
    ensures { planes.new ≡ with_plane planes.old index plane }
{
    if index < planes.len() / PLANE_NUMBERS {
        let at = PLANE_NUMBERS * index;
        planes[at] = plane.point.x;
        planes[at + 1] = plane.point.y;
        planes[at + 2] = plane.point.z;
        planes[at + 3] = plane.normal.x;
        planes[at + 4] = plane.normal.y;
        planes[at + 5] = plane.normal.z;
    }
}

// Writes +0 everywhere.
pub fn clear(numbers: &mut [f32])
    ensures { numbers.new ≡ replicate (length numbers.old) zero }
{
    numbers.fill(0.0);
}

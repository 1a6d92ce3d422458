// Document 01, module 2: how far a value lies from a plane. The definition is in `specs/Plane.antt`.
ghost use Rattle.std.specs.Prelude.{◌≡◌};
ghost use Rattle.solver.specs.Plane.{signed_distance};

use super::Plane;
use vectors::Vec3;

impl Plane {
    // How far p lies on the plane's valid side; below 0 on the other.
    #[tactic(auto, unfolding(crate::specs::Plane::signed_distance))]
    pub fn signed_distance(self, p: Vec3) -> f32
        ensures { result ≡ signed_distance self p }
    {
        p.sub(self.point).dot(self.normal)
    }
}

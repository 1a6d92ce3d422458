// Vectors of three, with each operation that the three Rust files use of glam's `Vec3`, under glam's
// names (its operators `+ - * /` are `add`, `sub`, `mul` and `div`). `plus_zeros` is not glam's, and of
// `normalize_or_zero` glam gives the vector alone.
// The definitions, in `specs/Vec3.antt`, are document 01's lines on glam.
ghost use Rattle.std.specs.Prelude.{◌≡◌};
ghost use Rattle.vectors.specs.Vec3.{zero_vec, ◌+ᵥ◌, ◌-ᵥ◌, ◌*ᵥ◌, ◌/ᵥ◌, dot, cross, length_squared, length, length_recip, normalize, normalize_or_zero, distance_squared, finite_vec, plus_zeros};

use super::Vec3;
use super::number::{is_finite, plus_zero};
use super::root::root;

impl Vec3 {
    // Three +0s.
    #[tactic(auto, unfolding(crate::specs::Vec3::zero_vec))]
    pub fn zero() -> Vec3
        ensures { result ≡ zero_vec }
    {
        Vec3 {
            x: 0.0,
            y: 0.0,
            z: 0.0,
        }
    }

    #[tactic(auto, using(crate::proofs::vector::ByComponent::by_component))]
    pub fn add(self, other: Vec3) -> Vec3
        ensures { result ≡ self +ᵥ other }
    {
        Vec3 {
            x: self.x + other.x,
            y: self.y + other.y,
            z: self.z + other.z,
        }
    }

    #[tactic(auto, using(crate::proofs::vector::ByComponent::by_component))]
    pub fn sub(self, other: Vec3) -> Vec3
        ensures { result ≡ self -ᵥ other }
    {
        Vec3 {
            x: self.x - other.x,
            y: self.y - other.y,
            z: self.z - other.z,
        }
    }

    // The product with a scalar.
    #[tactic(auto, using(crate::proofs::vector::ByComponent::by_component))]
    pub fn mul(self, factor: f32) -> Vec3
        ensures { result ≡ self *ᵥ factor }
    {
        Vec3 {
            x: self.x * factor,
            y: self.y * factor,
            z: self.z * factor,
        }
    }

    // The quotient by a scalar: three divisions.
    #[tactic(auto, using(crate::proofs::vector::ByComponent::by_component))]
    pub fn div(self, divisor: f32) -> Vec3
        ensures { result ≡ self /ᵥ divisor }
    {
        Vec3 {
            x: self.x / divisor,
            y: self.y / divisor,
            z: self.z / divisor,
        }
    }

    #[tactic(auto, unfolding(crate::specs::Vec3::dot))]
    pub fn dot(self, other: Vec3) -> f32
        ensures { result ≡ dot self other }
    {
        self.x * other.x + self.y * other.y + self.z * other.z
    }

    #[tactic(auto, unfolding(crate::specs::Vec3::cross))]
    pub fn cross(self, other: Vec3) -> Vec3
        ensures { result ≡ cross self other }
    {
        Vec3 {
            x: self.y * other.z - other.y * self.z,
            y: self.z * other.x - other.z * self.x,
            z: self.x * other.y - other.x * self.y,
        }
    }

    #[tactic(auto, unfolding(crate::specs::Vec3::length_squared))]
    pub fn length_squared(self) -> f32
        ensures { result ≡ length_squared self }
    {
        self.dot(self)
    }

    #[tactic(auto, unfolding(crate::specs::Vec3::length))]
    pub fn length(self) -> f32
        ensures { result ≡ length self }
    {
        root(self.dot(self))
    }

    #[tactic(auto, unfolding(crate::specs::Vec3::length_recip))]
    pub fn length_recip(self) -> f32
        ensures { result ≡ length_recip self }
    {
        1.0 / self.length()
    }

    #[tactic(auto, unfolding(crate::specs::Vec3::normalize))]
    pub fn normalize(self) -> Vec3
        ensures { result ≡ normalize self }
    {
        self.mul(self.length_recip())
    }

    // The vector scaled to length 1, or `None`, which stands for three +0s, where the reciprocal of its length is not
    // both finite and above 0.
    #[tactic(auto, unfolding(crate::specs::Vec3::normalize_or_zero))]
    pub fn normalize_or_zero(self) -> Option<Vec3>
        ensures { result ≡ normalize_or_zero self }
    {
        let scale = self.length_recip();
        if is_finite(scale) && scale > 0.0 {
            Some(self.mul(scale))
        } else {
            None
        }
    }

    #[tactic(auto, unfolding(crate::specs::Vec3::distance_squared))]
    pub fn distance_squared(self, other: Vec3) -> f32
        ensures { result ≡ distance_squared self other }
    {
        self.sub(other).length_squared()
    }

    // Whether every component is finite.
    #[tactic(auto, unfolding(crate::specs::Vec3::finite_vec))]
    pub fn is_finite(self) -> bool
        ensures { result ≡ finite_vec self }
    {
        is_finite(self.x) && is_finite(self.y) && is_finite(self.z)
    }

    // The vector, with a component that is a zero of either sign written as +0.
    pub fn plus_zeros(self) -> Vec3
        ensures { result ≡ plus_zeros self }
    {
        Vec3 {
            x: plus_zero(self.x),
            y: plus_zero(self.y),
            z: plus_zero(self.z),
        }
    }
}

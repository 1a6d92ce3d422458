// Whole millimetres of a component: 1000 times its exact value, nearest, ties to even. The definition is in
// `specs/Millimetres.antt`, and what these functions promise in `specs/parts/Millimetres.antt`.
//
// The product is never rounded before the end: a significand of 24 binary digits times 1000 has at most 34, and the
// exponent says how many of them lie below one millimetre.
ghost use Rattle.std.specs.Prelude.{◌≡◌, false, ◌*◌, ◌/◌, ◌≤◌};
ghost use Rattle.spacing.specs.Millimetres.{millimetres};
ghost use Rattle.spacing.specs.parts.Millimetres.{reach, size_of, from_corner};
ghost use Rattle.spacing.specs.Frame.{out_of_reach};

// How far a position may be from 0 along an axis, in millimetres: 16384 metres.
const REACH: u32 = 16_384_000;

// How many millimetres the pattern of a number from 0 to 16384 is; its exponent field is at most 141.
#[tactic(auto, using(crate::proofs::Sizes::size_steps))]
fn size(pattern: u32) -> u32
    requires { pattern / 0x80_0000 ≤ 141 }
    ensures { result ≡ size_of pattern }
{
    let exponent = pattern / 0x80_0000;
    if exponent < 116 {
        // below 2^-11 metres, which is less than half a millimetre
        return 0;
    }
    let product = 1000 * u64::from(0x80_0000 + pattern % 0x80_0000);
    let lower = 150 - exponent;
    let whole = product >> lower;
    let half = 1u64 << (lower - 1);
    // Carries into the digits above where the lower ones are over a half, or are a half and the whole is odd. No more
    // than 32 digits are left, so `try_from` would have nothing to refuse.
    ((product + (half - 1) + whole % 2) >> lower) as u32
}

// The millimetres of a component within reach, from the corner at -16384 metres on, so that they are never negative.
#[tactic(auto, using(crate::proofs::Patterns::pattern_steps))]
pub(crate) fn from_corner(x: f32) -> u32
    requires { out_of_reach x ≡ false }
    ensures value { result ≡ from_corner (millimetres x) }
    ensures near { result ≤ 2 * reach }
{
    let pattern = x.to_bits();
    let millimetres = size(pattern % 0x8000_0000);
    if pattern < 0x8000_0000 {
        REACH + millimetres
    } else {
        REACH - millimetres
    }
}

// What the solver asks of one f32: document 01's module 1 and the list under "What must change
// shape". The definitions are in `specs/Number.antt`.
ghost use Rattle.std.specs.Prelude.{◌≡◌};
ghost use Rattle.vectors.specs.Number.{finite, larger, smaller, clamped, plus_zero, of_word, to_word};

// Rust's `RVO_EPSILON`, 0x3727C5AC.
pub const RVO_EPSILON: f32 = 0.00001;

// Whether x is neither a NaN nor an infinity. Two comparisons: the toolchain's `is_finite` takes x from itself.
pub fn is_finite(x: f32) -> bool
    ensures { result ≡ finite x }
{
    let infinity = 1.0 / 0.0;
    x < infinity && -infinity < x
}

// The larger of an old bound and a new number: of a NaN and a number the number, and the old one
// where they are equal. The toolchain's `max` and `min` leave open which of two equal zeros they give.
#[tactic(auto, unfolding(crate::specs::Number::larger))]
pub fn larger_of(old: f32, new: f32) -> f32
    ensures { result ≡ larger old new }
{
    if old.is_nan() || old < new { new } else { old }
}

// The smaller of the two, by the same rules; of one comparison, which a function shared by both would have to be lent.
#[tactic(auto, unfolding(crate::specs::Number::smaller))]
pub fn smaller_of(old: f32, new: f32) -> f32
    ensures { result ≡ smaller old new }
{
    if old.is_nan() || new < old { new } else { old }
}

// x moved to the nearer of the two bounds where it lies outside them, and `None` where the lower bound is not `<=` the
// upper, where Rust panics. A NaN stays a NaN.
#[tactic(auto, unfolding(crate::specs::Number::clamped))]
pub fn clamp(x: f32, low: f32, high: f32) -> Option<f32>
    ensures { result ≡ clamped x low high }
{
    if low <= high {
        let raised = if x < low { low } else { x };
        let value = if raised > high { high } else { raised };
        Some(value)
    } else {
        None
    }
}

// x, with a zero of either sign written as +0.
#[tactic(auto, unfolding(crate::specs::Number::plus_zero))]
pub fn plus_zero(x: f32) -> f32
    ensures { result ≡ plus_zero x }
{
    if x == 0.0 { 0.0 } else { x }
}

// The float whose bit pattern is `word`; a NaN's pattern gives a NaN.
pub fn from_word(word: u32) -> f32
    ensures { result ≡ of_word word }
{
    if 0x7F80_0000 < word % 0x8000_0000 {
        0.0 / 0.0
    } else {
        f32::from_bits(word)
    }
}

// The bit pattern of x; a NaN gives 0x7FC00000.
#[tactic(auto, using(crate::proofs::NotANumber::nan_word))]
pub fn to_word(x: f32) -> u32
    ensures { result ≡ to_word x }
{
    if x.is_nan() { 0x7FC0_0000 } else { x.to_bits() }
}

// The square root: document 01's module 1, the nearest binary32. The definition is in
// `specs/Root.antt`, and what the private functions promise each other in `specs/parts/Root.antt`.
//
// A positive finite argument is written a * 4^k with a of 47 or 48 binary digits, of which the last 23 are zeros.
// The root of a is found digit by digit. From the pattern to the pattern there are shifts, sums and subtractions of
// 32-bit numbers, and no product.
ghost use Rattle.std.specs.Prelude.{◌≡◌, ◌*◌, ◌^◌, ◌<◌};
ghost use Rattle.vectors.specs.Number.{of_word};
ghost use Rattle.vectors.specs.Root.{root, nearest_root};
ghost use Rattle.vectors.specs.parts.Root.{Parts, rounded_of};

// A float as digits * 2^power * 4^-149, with 24 binary digits.
#[derive(Clone, Copy)]
pub struct Scaled {
    pub digits: u32,
    pub power: u32,
}

fn scale(word: u32) -> Scaled
    requires { (0 < word) × (word < 0x7F80_0000) }
    ensures { Parts (of_word word) result.digits result.power }
{
    let field = word >> 23;
    if field == 0 {
        let shift = u32::leading_zeros(word) - 8;
        Scaled {
            digits: word << shift,
            power: 149 - shift,
        }
    } else {
        Scaled {
            digits: 0x80_0000 + (word & 0x7F_FFFF),
            power: 148 + field,
        }
    }
}

// Half of `twice`, which is the root in whole numbers, or the next number where more is left over than the root itself.
pub(crate) fn rounded(rest: u32, twice: u32) -> u32
    requires { twice < 2 ^ 31 }
    ensures { result ≡ rounded_of rest twice }
{
    if twice < rest {
        (twice >> 1) + 1
    } else {
        twice >> 1
    }
}

// The whole number nearest to the root of m * 2^23: its 24 binary digits, and then which side of the half the root is on.
// With s the root so far and d the place of the next digit, (s + d)^2 is s^2 + (2 * s + d) * d. `rest` is what is left
// over when s^2 is taken away, divided by d: the digit is 1 where 2 * s + d can be taken from it, and as d is halved it
// is doubled.
fn nearest_root(m: u32) -> u32
    requires { m < 2 ^ 25 }
    ensures { result ≡ nearest_root (m * 2 ^ 23) }
{
    let mut rest = m;
    let mut twice: u32 = 0;
    let mut digit: u32 = 0x80_0000;
    // no index: the place of a digit is halved
    while 0 < digit {
        let trial = twice + digit;
        let digit_is_zero = rest < trial;
        if digit_is_zero {
            rest = rest << 1;
        } else {
            rest = (rest - trial) << 1;
            twice = trial + digit;
        }
        digit = digit >> 1;
    }
    rounded(rest, twice)
}

// The nearest binary32 to the root of x. A zero keeps its sign; +infinity stays; a negative number
// and a NaN give a NaN.
pub fn root(x: f32) -> f32
    ensures { result ≡ root x }
{
    if x > 0.0 {
        if x < 1.0 / 0.0 {
            let parts = scale(f32::to_bits(x));
            let power = parts.power;
            let r = nearest_root(parts.digits << (1 - (power & 1)));
            f32::from_bits((((power - 23) >> 1) << 23) + r)
        } else {
            x
        }
    } else {
        if x == 0.0 {
            return x;
        }
        0.0 / 0.0
    }
}

// Eight square roots side by side, each that of `root`. A digit of a root waits for the one before, but no root waits for
// another: a turn of the loop over the digits is one over the lanes, which the compiler makes vector code of. For that the
// same is done for every lane, and what a lane needs is selected: there is no way out.
ghost use Rattle.std.specs.Prelude.{◌≡◌, map, ◌+◌, ◌*◌, ◌^◌, ◌≤◌, ◌<◌, get_or};
ghost use Rattle.vectors.specs.Number.{of_word};
ghost use Rattle.vectors.specs.Root.{root, nearest_root};
ghost use Rattle.vectors.specs.parts.Root.{Parts, rest_after, twice_after};
ghost use Rattle.vectors.specs.parts.Roots.{Lanes, EachLane, Stands, Begins, Fits};

use super::root::{Scaled, rounded};

// The roots that are taken at once.
pub const LANES: usize = 8;

// What a lane begins with: its rest, and the exponent of its root, at its place in the pattern.
#[derive(Clone, Copy)]
struct Begun {
    rest: u32,
    high: u32,
}

// What a lane has after a digit. A type of its own beside `Begun`: each names its second number for what that is.
#[derive(Clone, Copy)]
struct Turn {
    rest: u32,
    twice: u32,
}

// The pattern of a positive finite number, and that of 1 for any other. Asked of the pattern, whether x is finite is one
// comparison in every lane; asked of x, the compiler makes it a test of x's kind, and that lane by lane. It is cast to i32,
// here and in `turned`, since the least vector unit compares signed numbers alone.
fn word_of(x: f32) -> u32
    ensures { Stands x result }
{
    let word = if x > 0.0 {
        f32::to_bits(x)
    } else {
        0x3F80_0000
    };
    if (word as i32) < 0x7F80_0000 {
        word
    } else {
        0x3F80_0000
    }
}

// What `scale` gives, by selection, which lanes side by side need; where there is one root the branch of `scale` is faster.
fn lifted(word: u32) -> Scaled
    requires { (0 < word) × (word < 0x7F80_0000) }
    ensures { Parts (of_word word) result.digits result.power }
{
    let field = word >> 23;
    let shift = if field == 0 {
        u32::leading_zeros(word) - 8
    } else {
        0
    };
    let least = if field == 0 { 1 } else { field };
    Scaled {
        digits: 0x80_0000 + ((word << shift) & 0x7F_FFFF),
        power: 148 + least - shift,
    }
}

fn begin(x: f32) -> Begun
    ensures { Begins x result.rest result.high }
{
    let parts = lifted(word_of(x));
    let power = parts.power;
    Begun {
        rest: parts.digits << (1 - (power & 1)),
        high: ((power - 23) >> 1) << 23,
    }
}

// One digit more. What can't be taken is given back: `back` is all ones then, and else 0.
fn turned(rest: u32, twice: u32, digit: u32) -> Turn
    requires { (rest < 2 ^ 26) × (twice + digit + digit ≤ 2 ^ 25) }
    ensures { (result.rest ≡ rest_after rest twice digit) × (result.twice ≡ twice_after rest twice digit) }
{
    let trial = twice + digit;
    let back = if (rest as i32) < (trial as i32) {
        0xFFFF_FFFF
    } else {
        0
    };
    Turn {
        rest: (rest + (trial & back) - trial) << 1,
        twice: trial + digit - ((digit << 1) & back),
    }
}

// `nearest_root` of each.
fn nearest_roots(m: [u32; LANES]) -> [u32; LANES]
    requires { Lanes m × EachLane (λ k. get_or m k 0 < 2 ^ 25) }
    ensures { Lanes result × EachLane (λ k. get_or result k 0 ≡ nearest_root (get_or m k 0 * 2 ^ 23)) }
{
    // an array for each number, and not one of `Turn`s: eight of a kind side by side fill a vector register
    let mut rest = m;
    let mut twice: [u32; LANES] = [0; LANES];
    let mut digit: u32 = 0x80_0000;
    // no index: the place of a digit is halved
    while 0 < digit {
        for lane in 0..LANES {
            let next = turned(rest[lane], twice[lane], digit);
            rest[lane] = next.rest;
            twice[lane] = next.twice;
        }
        digit = digit >> 1;
    }
    for lane in 0..LANES {
        twice[lane] = rounded(rest[lane], twice[lane]);
    }
    twice
}

// The number of that pattern where x is positive and finite, and elsewhere what `root` gives.
fn ended(x: f32, word: u32) -> f32
    requires { Fits x word }
    ensures { result ≡ root x }
{
    let found = f32::from_bits(word);
    let not_above = if x == 0.0 { x } else { 0.0 / 0.0 };
    let above = if x < 1.0 / 0.0 { found } else { x };
    if x > 0.0 { above } else { not_above }
}

pub fn roots(x: [f32; LANES]) -> [f32; LANES]
    ensures { result ≡ map root x }
{
    let mut rest: [u32; LANES] = [0; LANES];
    let mut high: [u32; LANES] = [0; LANES];
    for lane in 0..LANES {
        let first = begin(x[lane]);
        rest[lane] = first.rest;
        high[lane] = first.high;
    }
    let found = nearest_roots(rest);
    let mut y = x;
    for lane in 0..LANES {
        y[lane] = ended(x[lane], high[lane] + found[lane]);
    }
    y
}

// What the arguments say. One that is too long for a name is read as an empty one, which is no number and no file.
ghost use Rattle.std.specs.Prelude.{◌≤◌};

use console::arguments::{NAME_BYTES, argument};
use spacing::Tally;
use std::rt::Env;

// A tally that is begun for so many agents, and the limit in millimetres.
#[derive(Clone, Copy)]
pub(crate) struct Asked {
    pub(crate) tally: Tally,
    pub(crate) agents: usize,
    pub(crate) limit: u32,
    pub(crate) ghost few: { agents ≤ 64 },
}

// A number is decimal digits, at least one. One that does not fit is the largest: every argument has to be far smaller.
fn read_number(text: &[u8]) -> Option<usize> {
    if text.is_empty() {
        return None;
    }
    let mut value: usize = 0;
    for &byte in text {
        if !byte.is_ascii_digit() {
            return None;
        }
        value = value
            .saturating_mul(10)
            .saturating_add(usize::from(byte - b'0'));
    }
    Some(value)
}

// An argument that is not there is no number either.
pub(crate) fn number_at(env: &impl Env, index: usize) -> Option<usize> {
    let mut space = [0u8; NAME_BYTES];
    let length = argument(env, index, &mut space)?;
    read_number(&space[..length])
}

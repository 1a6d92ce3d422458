// What the arguments say. The definitions are in `specs/Arguments.antt`.
ghost use Rattle.std.specs.Prelude.{◌≡◌, IfSome};
ghost use Rattle.io.specs.Counts.{IsPrefixLen};
ghost use Rattle.console.specs.Arguments.{is_dash};

use std::env::{Env, FillError};

// The most bytes of a name.
pub const NAME_BYTES: usize = 4096;

// Whether a name is that of standard input.
#[tactic(auto, unfolding(crate::specs::Arguments::is_dash))]
pub fn is_standard_input(name: &[u8]) -> bool
    ensures { result ≡ is_dash name.now }
{
    matches!(name, b"-")
}

// The length of an argument that is put at the start of the space; 0 of one that has no room there, since no file has an
// empty name; and nothing where there are no more.
pub fn argument(env: &impl Env, index: usize, space: &mut [u8]) -> Option<usize>
    ensures { IfSome result (λ n. IsPrefixLen n space.new) }
{
    match env.arg(index, space) {
        Ok(length) => Some(length),
        Err(FillError::TooLong) => Some(0),
        Err(FillError::NotPresent) => None,
    }
}

// Whether there is an argument of that number. Argument 0 is the program's name.
pub fn is_there(env: &impl Env, index: usize) -> bool {
    let mut space = [0u8; 1];
    argument(env, index, &mut space).is_some()
}

// Whether `--help` stands anywhere among the arguments.
pub fn ask_for_help(env: &impl Env) -> bool {
    let mut space = [0u8; NAME_BYTES];
    for index in 1..usize::MAX {
        let Some(length) = argument(env, index, &mut space) else {
            return false;
        };
        if &space[..length] == b"--help".as_slice() {
            return true;
        }
    }
    false
}

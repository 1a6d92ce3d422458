// What the programs have in common: a line put together before it is written, what is said on standard output and
// standard error, inputs by name, one after another, whole or line by line, and the argument `--help`. The definitions
// are in `specs/`.
//
// No contract can say what a file, standard input or standard output gives or takes. What is not about that is promised
// whole: the text of a line, and what is read from a reader whose bytes can be known.
#![tactic(auto)]

pub mod arguments;
pub mod files;
pub mod inputs;
pub mod lists;
pub mod output;
pub mod programs;
pub mod text;

use std::io::Error;
use std::marker::Model;

// The most bytes that a line has room for.
pub const LINE_BYTES: usize = 512;

// Text that is put together to be written at once: the first `length` bytes. A byte past them is 0, so that the text
// gives the line back. No String: its text is promised whole (`with_text`), in fixed memory; and no ArrayVec, since that
// is not `Copy`.
#[derive(Clone, Copy)]
pub struct Line {
    bytes: [u8; LINE_BYTES],
    length: usize,
}

impl Model for Line {
    ghost use Rattle.std.specs.Prelude.{length as bytes_in, take};
    ghost use Rattle.console.specs.Bytes.{Bytes, filled, IsFilled, filled_back};
    ghost use Rattle.std.proofs.Common.{length-take-le};

    ghost Value = { Bytes };

    ghost view = { λ line. record { bytes = take line.length line.bytes } };

    ghost invariant = { λ line. IsFilled 512 line.length line.bytes };

    ghost inverse = { λ v. record { bytes = filled 512 v.bytes; length = bytes_in v.bytes } };

    ghost inverse_ok = { λ line h i. record {
      bytes = filled_back 512 line.length line.bytes h i;
      length = length-take-le line.length line.bytes h.0 i;
    } };
}

// What a read found: how many bytes it put at the start of the space lent to it, and why it failed, if it did so before
// the space was full and before the input ended. No Result, since a read that fails says how far it came too.
#[derive(Drop)]
pub struct Filled {
    pub bytes: usize,
    pub failure: Option<Error>,
}

// The same of an input that is read to its end, and how many bytes it has in all: more than were put in the space where
// it does not fit.
#[derive(Drop)]
pub struct Whole {
    pub bytes: usize,
    pub length: usize,
    pub failure: Option<Error>,
}

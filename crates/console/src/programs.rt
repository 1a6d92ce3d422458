// A program that takes one input after another: standard input, or the files that its arguments name.
use super::arguments::{NAME_BYTES, argument, is_there};
use super::{inputs, output};
use std::io::{Error, Input, Read, Result};
use std::rt::{Env, Files};

// What a program does with an input. Each fails where a write of standard output fails, and the program ends with that
// error.
pub trait Program {
    // What is said before what comes of an input that is named.
    fn named(&mut self, _rt: &impl Print, _name: &[u8]) -> Result<()> {
        Ok(())
    }

    fn run(&mut self, rt: &(impl Print + Eprint), input: &mut impl Read, name: &[u8]) -> Result<()>;

    // What comes of an input that can't be read.
    fn unreadable(
        &mut self,
        rt: &(impl Print + Eprint),
        name: &[u8],
        reason: &Error,
    ) -> Result<()> {
        output::say_unreadable(rt, name, reason)
    }
}

fn run_name(
    rt: &(impl Print + Eprint + Input + Files),
    name: &[u8],
    program: &mut impl Program,
) -> Result<()> {
    program.named(rt, name)?;
    match inputs::open(rt, name) {
        Ok(mut input) => program.run(rt, &mut input, name),
        Err(reason) => program.unreadable(rt, name, &reason),
    }
}

// Runs each input that an argument names, from the argument of that number on, in turn. An argument that is too long for a
// name is read as an empty one, which no file has.
fn run_named_from(
    rt: &(impl Print + Eprint + Input + Files + Env),
    first: usize,
    program: &mut impl Program,
) -> Result<()> {
    let mut space = [0u8; NAME_BYTES];
    for index in first..usize::MAX {
        let Some(length) = argument(rt, index, &mut space) else {
            return Ok(());
        };
        run_name(rt, &space[..length], program)?;
    }
    Ok(())
}

// Runs each input that is named.
pub fn run_named(
    rt: &(impl Print + Eprint + Input + Files + Env),
    program: &mut impl Program,
) -> Result<()> {
    run_named_from(rt, 1, program)
}

// The same from the argument of that number on, behind a program's own ones, or standard input where none is named.
pub fn run_inputs_from(
    rt: &(impl Print + Eprint + Input + Files + Env),
    first: usize,
    program: &mut impl Program,
) -> Result<()> {
    if is_there(rt, first) {
        run_named_from(rt, first, program)
    } else {
        program.run(rt, &mut rt.reader(), b"standard input")
    }
}

// Runs each input that is named, or standard input where none is.
pub fn run_inputs(
    rt: &(impl Print + Eprint + Input + Files + Env),
    program: &mut impl Program,
) -> Result<()> {
    run_inputs_from(rt, 1, program)
}

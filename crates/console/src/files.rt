// A program that takes each input as a fleet file, whole.
use super::programs::Program;
use super::{Whole, inputs, output};
use refusals::Refusal;
use std::io::{Read, Result};

// The bytes that there is room for: more than 64 records.
const SPACE_BYTES: usize = 65536;

// What a program does with a file.
pub trait FileProgram {
    fn run_file(&mut self, rt: &impl Print, file: &[u8]) -> Result<()>;

    // What is said before what comes of a file that is named.
    fn named(&mut self, rt: &impl Print, name: &[u8]) -> Result<()> {
        output::say_name(rt, name)
    }
}

#[derive(Drop)]
pub struct Files<P>(pub P);

impl<P: FileProgram> Program for Files<P> {
    fn named(&mut self, rt: &impl Print, name: &[u8]) -> Result<()> {
        self.0.named(rt, name)
    }

    // A file that has no room in the space is refused for its length alone.
    fn run(
        &mut self,
        rt: &(impl Print + Eprint),
        input: &mut impl Read,
        name: &[u8],
    ) -> Result<()> {
        let mut space = [0u8; SPACE_BYTES];
        let Whole {
            bytes,
            length,
            failure,
        } = inputs::read_whole(input, &mut space);
        if let Some(reason) = &failure {
            return output::say_unreadable(rt, name, reason);
        }
        if bytes < length {
            let refusal = Refusal::BadFile { bytes: length };
            return output::say_refused(rt, refusal.number(), refusal.place());
        }
        self.0.run_file(rt, &space[..bytes])
    }
}

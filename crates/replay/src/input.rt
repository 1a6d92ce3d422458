// An input: the fleet file at its start, and the calls one at a time, each with the file that follows it. Where a read
// fails, the reason is said on standard error, with the input's name.
use super::calls::{CALL_WORDS, Call};
use console::Filled;
use console::inputs::fill;
use console::output::complain_of;
use std::array;
use std::io::Read;

// The bytes of a call.
pub(crate) const CALL_BYTES: usize = 88;

// A file is passed over in pieces of so many bytes.
const PASSED_BYTES: usize = 65536;

// What stands there is no call, or a part of one, or could not be read.
#[derive(Drop)]
pub(crate) struct Unreadable;

#[derive(Drop)]
pub(crate) struct Source<'a, R, I> {
    pub rt: &'a R,
    pub input: &'a mut I,
    pub name: &'a [u8],
}

impl<'a, R: Eprint, I: Read> Source<'a, R, I> {
    // Fills the space with what comes next, as far as there is any.
    fn take(&mut self, space: &mut [u8]) -> Filled {
        let filled = fill(self.input, space);
        if let Some(reason) = &filled.failure {
            complain_of(self.rt, self.name, reason);
        }
        filled
    }

    // Whether as many bytes were left as the space takes.
    fn fills(&mut self, space: &mut [u8]) -> bool {
        let wanted = space.len();
        self.take(space).bytes == wanted
    }

    // Reads past so many bytes, and says whether they were there.
    fn passes(&mut self, length: usize) -> bool {
        let mut space = [0u8; PASSED_BYTES];
        for _ in 0..length / PASSED_BYTES {
            if !self.fills(&mut space) {
                return false;
            }
        }
        self.fills(&mut space[..length % PASSED_BYTES])
    }

    // `usize` is not `From<u32>`, so a word that counts is cast.
    // Reads a file of that length, as much of it as the space takes, and says whether it was all there.
    fn reads_file(&mut self, space: &mut [u8], length: u32) -> bool {
        let length = length as usize;
        let held = length.min(space.len());
        // nearly every file has its room: the space that passing over takes is made for none of these
        self.fills(&mut space[..held]) && (held == length || self.passes(length - held))
    }

    // The length of the fleet file at the start, which is put into the space, as far as that takes it.
    pub(crate) fn first_file(&mut self, space: &mut [u8]) -> Option<u32> {
        let mut bytes = [0u8; 4];
        if !self.fills(&mut bytes) {
            return None;
        }
        let length = u32::from_le_bytes(bytes);
        self.reads_file(space, length).then_some(length)
    }

    // The next call, if there is one more, once the file that follows it is in the space.
    pub(crate) fn next_call(&mut self, file: &mut [u8]) -> Result<Option<Call>, Unreadable> {
        let mut bytes = [0u8; CALL_BYTES];
        let taken = self.take(&mut bytes);
        if taken.failure.is_none() && taken.bytes == 0 {
            return Ok(None);
        }
        if taken.bytes < CALL_BYTES {
            return Err(Unreadable);
        }
        let call = Call::read(words_of(&bytes)).ok_or(Unreadable)?;
        if self.reads_file(file, call.file_length()) {
            Ok(Some(call))
        } else {
            Err(Unreadable)
        }
    }
}

fn words_of(bytes: &[u8; CALL_BYTES]) -> [u32; CALL_WORDS] {
    array::from_fn(|place| {
        let at = 4 * place;
        u32::from_le_bytes([bytes[at], bytes[at + 1], bytes[at + 2], bytes[at + 3]])
    })
}

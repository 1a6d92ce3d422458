// A case: the numbers of a velocity call, each at its place in document 01's list, the scratch that the
// call is lent, the planes that are to stand there where it is answered, and the neighbour that is to be named.
ghost use Rattle.std.specs.Prelude.{◌+◌, ◌≤◌, length};

use super::said::Change;
use requests::REQUEST_NUMBERS;
use vectors::number::from_word;

// There is room for the request's 17 numbers and 65 neighbours, two more than a call takes, and as much for planes.
const MOST_NUMBERS: usize = 537;

// 63 neighbours ask for 756 numbers.
pub(crate) const MOST_SCRATCH: usize = 800;

// The numbers are an array with their length, and no `ArrayVec`: numbers at a place are written over those that stand there
// and past them, in one slice.
#[derive(Clone, Copy)]
pub struct Case {
    pub numbers: [f32; MOST_NUMBERS],
    pub length: usize,
    pub scratch: usize,
    pub fill: u32,
    pub planes: [f32; MOST_NUMBERS],
    pub unseen: Option<usize>,
    ghost whole: { 17 ≤ length },
    ghost short: { length ≤ 537 },
    ghost room: { scratch ≤ 800 },
}

// Puts words at the start of the numbers, as far as there is room.
fn put(numbers: &mut [f32], words: &[u32]) {
    for (number, &word) in numbers.iter_mut().zip(words) {
        *number = from_word(word);
    }
}

impl Case {
    // A request of +0s, no neighbours and no scratch.
    pub(crate) fn empty() -> Case {
        Case {
            numbers: [0.0; MOST_NUMBERS],
            length: REQUEST_NUMBERS,
            scratch: 0,
            fill: 0,
            planes: [0.0; MOST_NUMBERS],
            unseen: None,
        }
    }

    fn with_numbers(mut self, at: usize, words: &[u32]) -> Option<Case> {
        if self.length < at || MOST_NUMBERS - at < words.len() {
            return None;
        }
        let end = at + words.len();
        put(&mut self.numbers[at..end], words);
        self.length = self.length.max(end);
        Some(self)
    }

    fn with_length(mut self, length: usize) -> Option<Case> {
        if length < REQUEST_NUMBERS || self.length < length {
            return None;
        }
        self.length = length;
        Some(self)
    }

    fn with_scratch(mut self, length: usize, fill: u32) -> Option<Case> {
        if MOST_SCRATCH < length {
            return None;
        }
        self.scratch = length;
        self.fill = fill;
        Some(self)
    }

    fn with_plane(mut self, index: usize, words: &[u32]) -> Option<Case> {
        if 64 <= index {
            return None;
        }
        put(&mut self.planes[6 * index..6 * index + 6], words);
        Some(self)
    }

    fn with_unseen(mut self, neighbour: usize) -> Case {
        self.unseen = Some(neighbour);
        self
    }

    // The case with a change, unless it can't have that.
    pub(crate) fn changed(self, change: Change<'_>) -> Option<Case> {
        match change {
            Change::Numbers { at, words } => self.with_numbers(at, words),
            Change::Length(length) => self.with_length(length),
            Change::Scratch { length, fill } => self.with_scratch(length, fill),
            Change::Plane { index, words } => self.with_plane(index, words),
            Change::Unseen(neighbour) => Some(self.with_unseen(neighbour)),
        }
    }
}

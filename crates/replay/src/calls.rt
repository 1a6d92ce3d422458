// A call: its kind, and what it takes of its 22 words. Words that a kind does not take are not looked at, but for
// the length of scratch, which is held to its limit in every call.
use planner::Rule;
use records::RECORD_WORDS;
use std::array;
use vectors::Vec3;
use vectors::number::from_word;

// The words of a call: its kind, the index, the length of scratch, and as many arguments as a record has words. A rule
// is the second argument.
pub(crate) const CALL_WORDS: usize = 22;

const KIND_WORD: usize = 0;

const INDEX_WORD: usize = 1;

const SCRATCH_WORD: usize = 2;

const ARGUMENTS: usize = 3;

const RULE_WORD: usize = 4;

// No call may lend more scratch, in numbers.
pub(crate) const MOST_SCRATCH: usize = 1024;

// Nor a longer buffer, in bytes.
pub(crate) const MOST_BUFFER: usize = 8192;

// A call, by its kind, with what it takes.
#[derive(Clone, Copy)]
pub enum Call {
    // 1: the arguments, a record's words
    Add {
        words: [u32; RECORD_WORDS],
    },
    // 2: the index; the same
    Put {
        index: usize,
        words: [u32; RECORD_WORDS],
    },
    // 3: the index
    Remove {
        index: usize,
    },
    // 4: the index
    Read {
        index: usize,
    },
    // 5: the index; three arguments, a goal's numbers
    Goal {
        index: usize,
        goal: Vec3,
    },
    // 6: the first argument, the time step; the second, 0 for the source rule and 1 for the near rule
    Open {
        time_step: f32,
        rule: Rule,
    },
    // 7: the index, the length of scratch
    Plan {
        index: usize,
        scratch: usize,
    },
    // 8
    Close,
    // 9
    Drop,
    // 10: the first argument, the length in bytes of a fleet file; the file, which follows the call
    Load {
        length: u32,
    },
    // 11: the first argument, the length in bytes of the buffer lent
    Save {
        length: usize,
    },
    // 12, a read by the reader: the index; the length of a fleet file and the file, as for a load
    Record {
        index: usize,
        length: u32,
    },
    // 13, a plan that shows its scratch: the index, the length of scratch; the first argument, the word of the first
    // number that stands there before the plan, with the next word for each number after it
    PlanShown {
        index: usize,
        scratch: usize,
        first: u32,
    },
}

impl Call {
    // `usize` is not `From<u32>`, so a word that counts is cast.
    // The call that words are, if they are one.
    pub(crate) fn read(words: [u32; CALL_WORDS]) -> Option<Call> {
        let index = words[INDEX_WORD] as usize;
        let scratch = words[SCRATCH_WORD] as usize;
        let first = words[ARGUMENTS];
        if MOST_SCRATCH < scratch {
            return None;
        }
        Some(match words[KIND_WORD] {
            1 => Call::Add {
                words: arguments(words),
            },
            2 => Call::Put {
                index,
                words: arguments(words),
            },
            3 => Call::Remove { index },
            4 => Call::Read { index },
            5 => Call::Goal {
                index,
                goal: goal(words),
            },
            6 => Call::Open {
                time_step: from_word(first),
                rule: Rule::try_from(words[RULE_WORD]).ok()?,
            },
            7 => Call::Plan { index, scratch },
            8 => Call::Close,
            9 => Call::Drop,
            10 => Call::Load { length: first },
            11 if first as usize <= MOST_BUFFER => Call::Save {
                length: first as usize,
            },
            12 => Call::Record {
                index,
                length: first,
            },
            13 => Call::PlanShown {
                index,
                scratch,
                first,
            },
            _ => return None,
        })
    }

    // The length of the file that follows the call; of none, where no file does.
    pub(crate) fn file_length(self) -> u32 {
        match self {
            Call::Load { length } | Call::Record { length, .. } => length,
            _ => 0,
        }
    }
}

// The arguments, as many as a record has words.
fn arguments(words: [u32; CALL_WORDS]) -> [u32; RECORD_WORDS] {
    array::from_fn(|place| words[ARGUMENTS + place])
}

fn goal(words: [u32; CALL_WORDS]) -> Vec3 {
    Vec3 {
        x: from_word(words[ARGUMENTS]),
        y: from_word(words[ARGUMENTS + 1]),
        z: from_word(words[ARGUMENTS + 2]),
    }
}

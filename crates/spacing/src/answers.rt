// Document 02's numbers and places for what a tally answers. The definitions are in `specs/Answers.antt`.
ghost use Rattle.std.specs.Prelude.{◌≡◌, Err};
ghost use Rattle.spacing.specs.Answers.{number, place_of};

use super::{MOST_AGENTS, MOST_FRAMES, Refusal};

impl Refusal {
    // Its number in the table of answers.
    #[tactic(auto, unfolding(crate::specs::Answers::number))]
    pub fn number(self) -> u32
        ensures { result ≡ number (Err self) }
    {
        match self {
            Refusal::TooManyAgents => 9,
            Refusal::WrongLength { numbers: _ } => 14,
            Refusal::TooManyFrames => 9,
            Refusal::OutOfReach { place: _ } => 19,
        }
    }

    // Its place there.
    #[tactic(auto, unfolding(crate::specs::Answers::place_of))]
    pub fn place(self) -> usize
        ensures { result ≡ place_of (Err self) }
    {
        match self {
            Refusal::TooManyAgents => MOST_AGENTS,
            Refusal::WrongLength { numbers } => numbers,
            Refusal::TooManyFrames => MOST_FRAMES,
            Refusal::OutOfReach { place } => place,
        }
    }
}

// What an answer says, refused or not. Beside `ReplyExt` of requests: spacing sees vectors alone, and its numbers mean other things.
pub trait AnswerExt {
    // Its number in the table of answers.
    fn number(self) -> u32;

    // Its place there.
    fn place(self) -> usize;
}

impl AnswerExt for Result<(), Refusal> {
    #[tactic(auto, unfolding(crate::specs::Answers::number))]
    fn number(self) -> u32
        ensures { result ≡ number self }
    {
        match self {
            Ok(()) => 0,
            Err(refusal) => refusal.number(),
        }
    }

    #[tactic(auto, unfolding(crate::specs::Answers::place_of))]
    fn place(self) -> usize
        ensures { result ≡ place_of self }
    {
        match self {
            Ok(()) => 0,
            Err(refusal) => refusal.place(),
        }
    }
}

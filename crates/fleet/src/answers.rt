// Document 01's numbered answers, as the table's calls give them. The definitions are in
// `specs/Answer.antt`.
ghost use Rattle.std.specs.Prelude.{◌≡◌};
ghost use Rattle.fleet.specs.Answer.{number, place_of, velocity_of};
ghost use Rattle.fleet.specs.Table.{answer_to};

use super::Answer;
use refusals::Refusal;
use requests::replies::ReplyExt;
use vectors::Vec3;

// What a call's checks come to, where nothing else is answered. No From, which would be public: `read` alone asks it.
#[tactic(auto, unfolding(crate::specs::Table::answer_to))]
pub(crate) fn answer_to(verdict: Result<(), Refusal>) -> Answer
    ensures { result ≡ answer_to verdict }
{
    match verdict {
        Ok(()) => Answer::Done,
        Err(refusal) => Answer::Refused(refusal),
    }
}

impl Answer {
    // Its number in the documents' table.
    pub fn number(self) -> u32
        ensures { result ≡ number self }
    {
        match self {
            Answer::Done => 0,
            Answer::Plan(reply) => reply.number(),
            Answer::Refused(refusal) => refusal.number(),
        }
    }

    // Its place there.
    pub fn place(self) -> usize
        ensures { result ≡ place_of self }
    {
        match self {
            Answer::Done => 0,
            Answer::Plan(reply) => reply.place(),
            Answer::Refused(refusal) => refusal.place(),
        }
    }

    // A plan's velocity: three +0s for a refusal and for any other call.
    pub fn velocity(self) -> Vec3
        ensures { result ≡ velocity_of self }
    {
        match self {
            Answer::Plan(reply) => reply.velocity(),
            _ => Vec3::zero(),
        }
    }
}

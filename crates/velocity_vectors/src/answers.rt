// What a velocity call answers, as numbers that can be compared: the velocity by its bits.
use requests::Reply;
use requests::replies::ReplyExt;
use vectors::number::to_word;

// An answer has the number and place 0, a refusal a velocity of three +0s. Numbers, since a list names a refusal by its number and
// place.
#[derive(Clone, Copy, PartialEq)]
pub struct Answer {
    pub number: usize,
    pub place: usize,
    // the plane from which the velocity is relaxed, if it is
    pub plane: Option<usize>,
    // the neighbour that is named as unseen, if one is
    pub unseen: Option<usize>,
    pub velocity: [u32; 3],
}

impl Answer {
    pub(crate) fn refused(number: usize, place: usize) -> Answer {
        Answer {
            number,
            place,
            plane: None,
            unseen: None,
            velocity: [0; 3],
        }
    }

    pub(crate) fn velocity(plane: Option<usize>, velocity: [u32; 3]) -> Answer {
        Answer {
            number: 0,
            place: 0,
            plane,
            unseen: None,
            velocity,
        }
    }
}

// No From, which would be public and have a promise to state. `usize` is not `From<u32>`, so the number is cast.
pub(crate) fn answer_of(reply: Reply) -> Answer {
    let velocity = reply.velocity();
    Answer {
        number: reply.number() as usize,
        place: reply.place(),
        plane: reply.relaxed(),
        unseen: reply.unseen(),
        velocity: [
            to_word(velocity.x),
            to_word(velocity.y),
            to_word(velocity.z),
        ],
    }
}

// What is printed, and the counts of it. A line is put together first and written at once, unless a long name stands in
// it. A line that could not be written is an error, which ends the run.
use super::answers::Answer;
use super::judgements::Difference;
use console::Line;
use console::lists::Place;
use console::output::{LONG_NAME_BYTES, say, with_name};
use std::io::Result;

#[derive(Clone, Copy, Default)]
pub struct Tally {
    pub cases: u64,
    pub different: u64,
    pub malformed: u64,
}

impl Tally {
    // A count that is full stays so: no list is that long.
    fn count(&mut self, is_same: bool) {
        self.cases = self.cases.saturating_add(1);
        if !is_same {
            self.different = self.different.saturating_add(1);
        }
    }

    // Says how the case came out whose line is begun, and counts it.
    pub(crate) fn judged(
        &mut self,
        rt: &impl Print,
        line: Line,
        difference: Option<Difference>,
    ) -> Result<()> {
        self.count(difference.is_none());
        with_difference(line, difference).say(rt)
    }

    // The same for a case with no answer, which is different.
    pub(crate) fn unanswered(&mut self, rt: &impl Print, line: Line) -> Result<()> {
        self.count(false);
        line.text(b"NO ANSWER\n").say(rt)
    }

    // Says that a line is malformed, and counts it.
    pub(crate) fn malformed(&mut self, rt: &impl Print, place: Place<'_>) -> Result<()> {
        self.malformed = self.malformed.saturating_add(1);
        let line = Line::empty()
            .text(b"malformed line ")
            .decimal(place.number as u64)
            .text(b" of ");
        with_name(rt, line, place.name, LONG_NAME_BYTES)?
            .text(b"\n")
            .say(rt)
    }
}

// `u64` is not `From<usize>`, so what is counted by a usize is cast.
fn with_number(line: Line, number: usize) -> Line {
    line.text(b" ").decimal(number as u64)
}

// The number, place, plane, unseen neighbour and velocity of an answer. Where there is no plane, or no neighbour, stands a
// number that no line can ask for.
fn with_answer(line: Line, answer: Answer) -> Line {
    let mut line = line;
    for number in [
        answer.number,
        answer.place,
        answer.plane.unwrap_or(usize::MAX),
        answer.unseen.unwrap_or(usize::MAX),
    ] {
        line = with_number(line, number);
    }
    for word in answer.velocity {
        line = line.text(b" ").word(word);
    }
    line
}

// Where the two are different: the answer that was got, and the first index at which scratch is not as wanted.
fn with_difference(line: Line, difference: Option<Difference>) -> Line {
    match difference {
        None => line.text(b"same\n"),
        Some(Difference { got, index }) => {
            with_number(with_answer(line.text(b"DIFFERENT, got"), got), index).text(b"\n")
        }
    }
}

// Where there was no case, the counts would all be 0 and look well.
pub(crate) fn say_tally(rt: &impl Print, tally: Tally) -> Result<()> {
    if tally.cases == 0 {
        return say(rt, b"NO CASES: nothing was compared\n");
    }
    Line::empty()
        .decimal(tally.cases)
        .text(b" cases, ")
        .decimal(tally.different)
        .text(b" different, ")
        .decimal(tally.malformed)
        .text(b" malformed lines\n")
        .say(rt)
}

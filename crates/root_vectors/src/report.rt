// What is printed, and the counts of it. A line is put together first and written at once, unless a name stands in it,
// which may be long. A line that could not be written is an error, which ends the run.
use console::Line;
use console::lists::Place;
use console::output::say;
use std::io::Result;

#[derive(Clone, Copy, Default)]
pub struct Tally {
    pub pairs: u64,
    pub different: u64,
}

impl Tally {
    // A count that is full stays so: no list is that long. velocity_vectors counts its cases so, in the same three lines: no
    // plainer as a type of console.
    pub(crate) fn count(&mut self, is_same: bool) {
        self.pairs = self.pairs.saturating_add(1);
        if !is_same {
            self.different = self.different.saturating_add(1);
        }
    }
}

pub(crate) fn say_pair(rt: &impl Print, argument: u32, wanted: u32, got: u32) -> Result<()> {
    let line = Line::empty()
        .word(argument)
        .text(b" ")
        .word(wanted)
        .text(b" ")
        .word(got);
    if got == wanted {
        line.text(b" same\n").say(rt)
    } else {
        line.text(b" DIFFERENT\n").say(rt)
    }
}

// `u64` is not `From<usize>`, so what is counted by a usize is cast.
pub(crate) fn say_malformed(rt: &impl Print, place: Place<'_>) -> Result<()> {
    say(rt, place.name)?;
    Line::empty()
        .text(b": no pair of words in line ")
        .decimal(place.number as u64)
        .text(b"\n")
        .say(rt)
}

// Where there was no pair, the counts would both be 0 and look well.
pub(crate) fn say_tally(rt: &impl Print, tally: Tally) -> Result<()> {
    if tally.pairs == 0 {
        return say(rt, b"NO PAIRS: nothing was compared\n");
    }
    Line::empty()
        .decimal(tally.pairs)
        .text(b" pairs, ")
        .decimal(tally.different)
        .text(b" different\n")
        .say(rt)
}

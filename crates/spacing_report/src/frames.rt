// Frames back to back, 12 bytes an agent, taken into a tally as they are read. Memory does not grow with them.
ghost use Rattle.std.specs.Prelude.{◌≤◌, ◌<◌, length};

use super::arguments::Asked;
use console::{Filled, Whole, inputs};
use spacing::{MOST_FRAMES, Refusal, Report, Tally};
use std::io::{Error, Read};
use vectors::number::from_word;

// The bytes of an agent in a frame: three numbers.
const AGENT_BYTES: usize = 12;

// Why an input has no report: the first refused frame, with its number, counted from 0, or what can't be read.
#[derive(Drop)]
pub(crate) enum NoReport {
    Refused(Refusal, usize),
    Unreadable(Error),
}

// Fills the first `size` bytes of the space, but for the end of the input. The size is apart: the space has a fixed one, and what is filled of
// it is whole frames.
fn fill(input: &mut impl Read, space: &mut [u8], size: usize) -> Filled
    requires { size ≤ length space.old }
    ensures { result.bytes ≤ size }
{
    inputs::fill(input, &mut space[0..size])
}

// Reads a frame's numbers.
fn decode(bytes: &[u8], frame: &mut [f32]) {
    let (words, _) = bytes.as_chunks::<4>();
    for (number, word) in frame.iter_mut().zip(words) {
        *number = from_word(u32::from_le_bytes(*word));
    }
}

// Takes the whole frames that stand in `bytes`, up to the first that is refused, and says why that is.
fn take(tally: &mut Tally, bytes: &[u8], agents: usize) -> Result<(), Refusal>
    requires { (0 < agents) × (agents ≤ 64) }
{
    let mut space = [0.0f32; 192];
    let frame = &mut space[..3 * agents];
    for frame_bytes in bytes.chunks_exact(AGENT_BYTES * agents) {
        decode(frame_bytes, frame);
        tally.take(frame)?;
    }
    Ok(())
}

// What comes of an input whose last bytes are no whole frame, or are none.
fn end(tally: Tally, rest: usize) -> Result<Report, NoReport> {
    let report = tally.report();
    if rest == 0 {
        return Ok(report);
    }
    Err(NoReport::Refused(Refusal::WrongLength { numbers: rest / 4 }, report.frames))
}

// With no agents every byte is one too many: all that is left to know is how many there are.
fn report_of_none(input: &mut impl Read, tally: Tally) -> Result<Report, NoReport> {
    let mut space = [0u8; 4096];
    let Whole {
        length,
        failure,
        ..
    } = inputs::read_whole(input, &mut space);
    match failure {
        Some(reason) => Err(NoReport::Unreadable(reason)),
        None => end(tally, length),
    }
}

// The bytes of as many whole frames as there is room for.
fn room(frame: usize) -> usize
    requires { 0 < frame }
    ensures { result ≤ 65536 }
{
    65536 - 65536 % frame
}

pub(crate) fn report_of(input: &mut impl Read, asked: Asked) -> Result<Report, NoReport> {
    let Asked {
        mut tally,
        agents,
        ..
    } = asked;
    if agents == 0 {
        return report_of_none(input, tally);
    }
    let mut space = [0u8; 65536];
    let size = room(AGENT_BYTES * agents);
    for _ in 0..=MOST_FRAMES {
        let Filled { bytes, failure } = fill(input, &mut space, size);
        if let Some(reason) = failure {
            return Err(NoReport::Unreadable(reason));
        }
        if let Err(refusal) = take(&mut tally, &space[0..bytes], agents) {
            return Err(NoReport::Refused(refusal, tally.report().frames));
        }
        if bytes < size {
            return end(tally, bytes % (AGENT_BYTES * agents));
        }
    }
    // a turn that comes to its end took a frame at least, so there were more than may be taken
    Err(NoReport::Refused(Refusal::TooManyFrames, MOST_FRAMES))
}

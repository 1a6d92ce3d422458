// The lines that are printed. Those of an input are put together first and written at once. Each `say` fails where its
// lines could not be written.
use console::Line;
use spacing::whole_root::whole_root;
use spacing::{Refusal, Report, Sighting};
use std::io::Result;

// `u64` is not `From<usize>`, so a place is cast.
fn with_sighting(line: Line, sighting: Sighting) -> Line {
    line.text(b"smallest ")
        .decimal(whole_root(sighting.squared))
        .text(b" mm, squared ")
        .decimal(sighting.squared)
        .text(b", frame ")
        .decimal(sighting.frame as u64)
        .text(b", agents ")
        .decimal(sighting.first as u64)
        .text(b" and ")
        .decimal(sighting.second as u64)
        .text(b"\n")
}

fn with_smallest(line: Line, smallest: Option<Sighting>) -> Line {
    match smallest {
        None => line.text(b"smallest none\n"),
        Some(sighting) => with_sighting(line, sighting),
    }
}

pub(crate) fn say_report(rt: &impl Print, report: Report, limit: u32) -> Result<()> {
    let smallest = report.smallest;
    let frames = Line::empty()
        .text(b"frames ")
        .decimal(report.frames as u64)
        .text(b"\n");
    with_smallest(frames, smallest)
        .text(b"below ")
        .decimal(u64::from(limit))
        .text(b" mm: ")
        .decimal(report.below)
        .text(b"\n")
        .say(rt)
}

// As console's `say_refused`, with the frame behind it.
pub(crate) fn say_refused_frame(rt: &impl Print, refusal: Refusal, frame: usize) -> Result<()> {
    Line::empty()
        .text(b"refused ")
        .decimal(u64::from(refusal.number()))
        .text(b" ")
        .decimal(refusal.place() as u64)
        .text(b" frame ")
        .decimal(frame as u64)
        .text(b"\n")
        .say(rt)
}

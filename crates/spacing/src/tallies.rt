// The running tally: begun, lent and updated frame by frame, and read. The definitions are in `specs/Tally.antt`.
//
// `Tally::take` is thin: what a frame does to a tally is the work of `stepped`.
ghost use Rattle.std.specs.Prelude.{◌≡◌, ◌+◌, ◌≤◌, ◌<◌, min};
ghost use Rattle.spacing.specs.Frame.{out_of_reach};
ghost use Rattle.spacing.specs.Answers.{most_agents, most_frames};
ghost use Rattle.spacing.specs.Tally.{fresh, begun, within_reach, frame_answer, fullest, report_with, stepped_by};
ghost use Rattle.spacing.specs.parts.Tally.{bound_of, smallest_after};

use super::frame::AcceptedFrame;
use super::pairs::{Running, all_pairs};
use super::{MOST_AGENTS, MOST_FRAMES, Refusal, Report, Sighting, Tallied, Tally};

#[tactic(auto, using(crate::proofs::OutOfReach::reach_tests))]
fn is_out_of_reach(x: f32) -> bool
    ensures { result ≡ out_of_reach x }
{
    16384.0 < x || x < -16384.0 || x.is_nan()
}

// Refused at the lowest index of a component that is out of reach.
#[tactic(auto, unfolding(crate::specs::Tally::within_reach))]
fn within_reach(frame: &[f32]) -> Result<(), Refusal>
    ensures { result ≡ within_reach 0 frame.now }
{
    for (place, &x) in frame.iter().enumerate() {
        if is_out_of_reach(x) {
            return Err(Refusal::OutOfReach { place });
        }
    }
    Ok(())
}

// 14, then 9, then 19.
#[tactic(auto, unfolding(crate::specs::Tally::frame_answer))]
fn frame_answer(agents: usize, frames: usize, frame: &[f32]) -> Result<(), Refusal>
    requires { agents ≤ most_agents }
    ensures { result ≡ frame_answer agents frames frame.now }
{
    if frame.len() != 3 * agents {
        return Err(Refusal::WrongLength {
            numbers: frame.len(),
        });
    }
    if MOST_FRAMES <= frames {
        return Err(Refusal::TooManyFrames);
    }
    within_reach(frame)
}

// What a squared distance has to be below to be the smallest.
#[tactic(auto, unfolding(crate::specs::parts::Tally::bound_of))]
fn bound_of(smallest: Option<Sighting>) -> u64
    ensures { result ≡ bound_of smallest }
{
    smallest.map_or(u64::MAX, |sighting| sighting.squared)
}

#[tactic(auto, unfolding(crate::specs::parts::Tally::smallest_after))]
fn smallest_after(smallest: Option<Sighting>, frame: usize, running: Running) -> Option<Sighting>
    ensures { result ≡ smallest_after smallest frame running }
{
    if running.squared < bound_of(smallest) {
        Some(Sighting {
            squared: running.squared,
            frame,
            first: running.first,
            second: running.second,
        })
    } else {
        smallest
    }
}

#[tactic(auto, using(crate::proofs::WithFrame::one_frame))]
fn report_with(report: Report, limit: u32, frame: AcceptedFrame) -> Report
    requires { report.frames < most_frames }
    ensures { result ≡ report_with limit report frame.entry.numbers.now }
{
    let smallest = report.smallest;
    let limit = u64::from(limit);
    let running = all_pairs(frame, bound_of(smallest), limit * limit);
    Report {
        frames: report.frames + 1,
        smallest: smallest_after(smallest, report.frames, running),
        // a count that is full stays so
        below: report.below.saturating_add(running.below),
    }
}

// One frame: the answer, and the tally with the frame counted, or as it was where the frame is refused.
#[tactic(auto, using(crate::proofs::WithinReach::passed_frames), unfolding(crate::specs::Tally::stepped_by, crate::specs::Tally::tally_after))]
pub fn stepped(tally: Tally, frame: &[f32]) -> Tallied
    ensures { result ≡ stepped_by tally frame.now }
{
    let report = tally.report;
    let agents = tally.agents.min(MOST_AGENTS);
    let answer = frame_answer(agents, report.frames, frame);
    let Ok(()) = answer else {
        return Tallied { answer, tally };
    };
    let frame = AcceptedFrame {
        numbers: frame,
        agents,
    };
    let tally = Tally {
        report: report_with(report, tally.limit, frame),
        ..tally
    };
    Tallied { answer, tally }
}

#[tactic(auto, unfolding(crate::specs::Tally::fresh))]
fn fresh(agents: usize, limit: u32) -> Tally
    ensures { result ≡ fresh agents limit }
{
    Tally {
        agents,
        limit,
        report: Report {
            frames: 0,
            smallest: None,
            below: 0,
        },
    }
}

impl Tally {
    // A tally for so many agents, with a limit in whole millimetres. Over 64 agents are refused, and the tally is one
    // for none.
    #[tactic(auto, unfolding(crate::specs::Tally::begun))]
    pub fn begin(agents: usize, limit: u32) -> Tallied
        ensures { result ≡ begun agents limit }
    {
        if agents <= MOST_AGENTS {
            Tallied {
                answer: Ok(()),
                tally: fresh(agents, limit),
            }
        } else {
            Tallied {
                answer: Err(Refusal::TooManyAgents),
                tally: fresh(0, limit),
            }
        }
    }

    // Takes a frame: three numbers for each agent. A refused frame leaves the tally as it was.
    pub fn take(&mut self, frame: &[f32]) -> Result<(), Refusal>
        ensures { (result ≡ (stepped_by self.old frame.now).answer)
            × (self.new ≡ (stepped_by self.old frame.now).tally) }
    {
        let Tallied { answer, tally } = stepped(*self, frame);
        *self = tally;
        answer
    }

    // The report on the frames taken so far.
    pub fn report(self) -> Report
        ensures { result ≡ self.report }
    {
        self.report
    }
}

// Document 02's request [4]: the spacing report. Frames of positions become whole millimetres, and a tally of them
// knows how many frames there were, which two agents came nearest, and how many pairs lay below a limit. The types
// stand here, and what is done with them in the modules. Every public function is total, and ensures equality with a
// definition of `specs/`.
#![tactic(auto)]

pub mod answers;
pub mod frame;
pub mod millimetres;
pub mod pairs;
pub mod spots;
pub mod tallies;
pub mod whole_root;

// At most so many agents, and so many frames.
pub const MOST_AGENTS: usize = 64;

pub const MOST_FRAMES: usize = 1_048_576;

// Why a tally is not begun as asked, or a frame is not taken.
#[derive(Debug, Clone, Copy, PartialEq, Eq)]
pub enum Refusal {
    TooManyAgents,
    WrongLength { numbers: usize },
    TooManyFrames,
    OutOfReach { place: usize },
}

// Two agents in a frame, and the square of their distance in millimetres.
#[derive(Debug, Clone, Copy, PartialEq, Eq)]
pub struct Sighting {
    pub squared: u64,
    pub frame: usize,
    pub first: usize,
    pub second: usize,
}

// How many frames, where two agents were nearest, and how many pairs in frames lay below the limit.
#[derive(Debug, Clone, Copy, PartialEq, Eq)]
pub struct Report {
    pub frames: usize,
    pub smallest: Option<Sighting>,
    pub below: u64,
}

// The running tally: for how many agents, the limit in millimetres, and the report so far. A count of agents over 64
// is read as 64.
#[derive(Debug, Clone, Copy, PartialEq, Eq)]
pub struct Tally {
    agents: usize,
    limit: u32,
    report: Report,
}

// An answer, and the tally after it, which `begun` and `stepped_by` give where it is refused too.
#[derive(Debug, Clone, Copy, PartialEq, Eq)]
pub struct Tallied {
    pub answer: Result<(), Refusal>,
    pub tally: Tally,
}

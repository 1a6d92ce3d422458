// Why a call is refused, for every crate above: the documents' table of numbered answers, one case to each number, with
// one row of number and place. Document 01 has 1 to 15, document 02 16 to 18. The definitions are in `specs/`.
#![tactic(auto)]

ghost use Rattle.std.specs.Prelude.{◌≡◌};
ghost use Rattle.refusals.specs.Refusal.{number, place_of};

// A refusal holds what its place is made of.
#[derive(Debug, Clone, Copy, PartialEq, Eq)]
pub enum Refusal {
    RaggedNeighbours,
    ShortScratch { needed: usize },
    NotFinite { place: usize },
    OutOfRange { place: usize },
    BadFallback { place: usize },
    PlaneNotFinite { neighbour: usize },
    NoVelocity,
    NoAgent { index: usize },
    Full { most: usize },
    TickOpen,
    NoTick,
    Unplanned { agent: usize },
    PositionNotFinite { agent: usize },
    BadFile { bytes: usize },
    BadMargin { place: usize },
    ShortBuffer { needed: usize },
    TooManyNeighbours { count: usize },
    BadClamp { plane: usize },
}

impl Refusal {
    // Its number in the documents' table.
    pub fn number(self) -> u32
        ensures { result ≡ number self }
    {
        match self {
            Refusal::RaggedNeighbours => 1,
            Refusal::ShortScratch { needed: _ } => 2,
            Refusal::NotFinite { place: _ } => 3,
            Refusal::OutOfRange { place: _ } => 4,
            Refusal::BadFallback { place: _ } => 5,
            Refusal::PlaneNotFinite { neighbour: _ } => 6,
            Refusal::NoVelocity => 7,
            Refusal::NoAgent { index: _ } => 8,
            Refusal::Full { most: _ } => 9,
            Refusal::TickOpen => 10,
            Refusal::NoTick => 11,
            Refusal::Unplanned { agent: _ } => 12,
            Refusal::PositionNotFinite { agent: _ } => 13,
            Refusal::BadFile { bytes: _ } => 14,
            Refusal::BadMargin { place: _ } => 15,
            Refusal::ShortBuffer { needed: _ } => 16,
            Refusal::TooManyNeighbours { count: _ } => 17,
            Refusal::BadClamp { plane: _ } => 18,
        }
    }

    // Its place there.
    pub fn place(self) -> usize
        ensures { result ≡ place_of self }
    {
        match self {
            Refusal::RaggedNeighbours => 0,
            Refusal::ShortScratch { needed } => needed,
            Refusal::NotFinite { place } => place,
            Refusal::OutOfRange { place } => place,
            Refusal::BadFallback { place } => place,
            Refusal::PlaneNotFinite { neighbour } => neighbour,
            Refusal::NoVelocity => 0,
            Refusal::NoAgent { index } => index,
            Refusal::Full { most } => most,
            Refusal::TickOpen => 0,
            Refusal::NoTick => 0,
            Refusal::Unplanned { agent } => agent,
            Refusal::PositionNotFinite { agent } => agent,
            Refusal::BadFile { bytes } => bytes,
            Refusal::BadMargin { place } => place,
            Refusal::ShortBuffer { needed } => needed,
            Refusal::TooManyNeighbours { count } => count,
            Refusal::BadClamp { plane } => plane,
        }
    }
}

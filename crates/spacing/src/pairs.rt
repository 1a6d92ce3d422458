// The pairs of a frame: their squared distances, by the first agent and then the second. The definitions are in
// `specs/Frame.antt`, and what these functions promise each other in `specs/parts/Pairs.antt`.
ghost use Rattle.std.specs.Prelude.{◌≡◌, suc, ◌+◌, ◌*◌, ◌≤◌, ◌<◌};
ghost use Rattle.spacing.specs.Answers.{most_agents};
ghost use Rattle.spacing.specs.Frame.{positions};
ghost use Rattle.spacing.specs.parts.Spots.{squares_from};
ghost use Rattle.spacing.specs.parts.Pairs.{with_square, glanced, second_of, with_row, with_pairs, start_at};

use super::frame::AcceptedFrame;
use super::spots::Spots;

// The smallest squared distance so far with its pair, and how many were below the limit. No Option: before the first pair
// the bound is the largest number, so that the loop has one comparison.
#[derive(Clone, Copy)]
pub(crate) struct Running {
    pub(crate) squared: u64,
    pub(crate) first: usize,
    pub(crate) second: usize,
    pub(crate) below: u64,
}

// The least of some squared distances and of a bound, and how many were below the limit.
#[derive(Clone, Copy)]
struct Glance {
    least: u64,
    below: u64,
}

#[tactic(auto, unfolding(crate::specs::parts::Pairs::with_square))]
fn with_square(glance: Glance, squared: u64, limit: u64) -> Glance
    requires { glance.below < 4096 }
    ensures value { result ≡ with_square limit glance squared }
    ensures few { result.below ≤ glance.below + 1 }
{
    let below = if squared < limit {
        glance.below + 1
    } else {
        glance.below
    };
    Glance {
        least: glance.least.min(squared),
        below,
    }
}

// A glance at the pairs of one agent with those after it. That `first` is an agent stands in each contract: it is a fact of the
// two together. It names no pair, so that its loop has no way but one.
#[tactic(auto, using(crate::proofs::Rows::glance_steps))]
fn glance_along(spots: &Spots, first: usize, limit: u64, start: Glance) -> Glance
    requires { (first < spots.now.agents) × (start.below ≤ most_agents * first) }
    ensures value { result ≡ glanced limit start (squares_from spots.now first (suc first)) }
    ensures few { result.below ≤ most_agents * suc first }
{
    let here = spots.at(first);
    let mut glance = start;
    for second in first + 1..spots.agents {
        glance = with_square(glance, here.squared_to(spots.at(second)), limit);
    }
    glance
}

// The first agent after `first` that is so far from it; the number of agents where none is, and no Option: it is asked only
// where there is one.
#[tactic(auto, using(crate::proofs::Rows::second_steps))]
fn second_of(spots: &Spots, first: usize, least: u64) -> usize
    requires { first < spots.now.agents }
    ensures { result ≡ second_of least (suc first) (squares_from spots.now first (suc first)) }
{
    let here = spots.at(first);
    for second in first + 1..spots.agents {
        if here.squared_to(spots.at(second)) == least {
            return second;
        }
    }
    spots.agents
}

// The pairs of one agent with those after it. Which pair is the smallest is looked for only where one is smaller than
// all before.
#[tactic(auto, using(crate::proofs::Rows::row_left))]
fn with_row(spots: &Spots, first: usize, limit: u64, start: Running) -> Running
    requires { (first < spots.now.agents) × (start.below ≤ most_agents * first) }
    ensures value { result ≡ with_row limit start first (suc first)
        (squares_from spots.now first (suc first)) }
    ensures few { result.below ≤ most_agents * suc first }
{
    let bound = Glance {
        least: start.squared,
        below: start.below,
    };
    let glance = glance_along(spots, first, limit, bound);
    if glance.least < start.squared {
        Running {
            squared: glance.least,
            first,
            second: second_of(spots, first, glance.least),
            below: glance.below,
        }
    } else {
        Running {
            below: glance.below,
            ..start
        }
    }
}

// All pairs of a frame, from a bound that only a smaller distance replaces.
#[tactic(auto, using(crate::proofs::Positions::row_steps))]
pub(crate) fn all_pairs(frame: AcceptedFrame, bound: u64, limit: u64) -> Running
    ensures { result ≡ with_pairs limit (start_at bound) 0 (positions frame.entry.numbers.now) }
{
    let spots = Spots::of(frame);
    let mut running = Running {
        squared: bound,
        first: 0,
        second: 0,
        below: 0,
    };
    for first in 0..spots.agents {
        running = with_row(&spots, first, limit, running);
    }
    running
}

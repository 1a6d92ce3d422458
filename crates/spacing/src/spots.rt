// A frame's agents as spots: each one's millimetres from the corner, and the square of its distance from there. What
// these functions promise is in `specs/parts/Spots.antt`.
ghost use Rattle.std.specs.Prelude.{◌≡◌, ◌+◌, ◌*◌, ◌≤◌, ◌<◌};
ghost use Rattle.spacing.specs.Answers.{most_agents};
ghost use Rattle.spacing.specs.parts.Millimetres.{reach};
ghost use Rattle.spacing.specs.parts.Frame.{Along, Near, Squares};

use super::MOST_AGENTS;
use super::frame::AcceptedFrame;
use super::millimetres::from_corner;

// A position in millimetres from the corner, which are never more than to the opposite one.
#[derive(Clone, Copy)]
struct FromCorner {
    x: u32,
    y: u32,
    z: u32,
    ghost near: { (x ≤ 2 * reach) × (y ≤ 2 * reach) × (z ≤ 2 * reach) },
}

// A product of two numbers of 32 binary digits.
fn product(a: u32, b: u32) -> u64
    ensures { result ≡ a * b }
{
    u64::from(a) * u64::from(b)
}

impl FromCorner {
    ghost use Rattle.spacing.specs.parts.Spots.{dot};

    // x x' + y y' + z z'
    fn dot(self, other: FromCorner) -> u64
        ensures { result ≡ dot self other }
    {
        product(self.x, other.x) + product(self.y, other.y) + product(self.z, other.z)
    }
}

// One agent's position, and the square of its distance from the corner.
#[derive(Clone, Copy)]
pub(crate) struct Spot {
    position: FromCorner,
    square: u64,
    ghost squared: { square ≡ position.x * position.x + position.y * position.y + position.z * position.z },
}

impl Spot {
    ghost use Rattle.spacing.specs.parts.Spots.{squared_between};

    // |p - q|^2 is |p|^2 + |q|^2 - 2 p.q, which has no sign to care for and one product for each axis.
    #[tactic(auto, using(crate::proofs::Squares::dot_steps))]
    pub(crate) fn squared_to(self, other: Spot) -> u64
        ensures { result ≡ squared_between self other }
    {
        self.square + other.square - 2 * self.position.dot(other.position)
    }
}

// Every agent of a frame. An array for each component: over one of spots, agent after agent, a glance takes 1.4 times as
// long.
#[derive(Clone, Copy)]
pub(crate) struct Spots {
    pub(crate) agents: usize,
    xs: [u32; MOST_AGENTS],
    ys: [u32; MOST_AGENTS],
    zs: [u32; MOST_AGENTS],
    squares: [u64; MOST_AGENTS],
    ghost few: { agents ≤ most_agents },
    ghost near: { Near agents xs × Near agents ys × Near agents zs },
    ghost squared: { Squares agents xs ys zs squares },
}

// Every agent's millimetres along one axis, into an array that is lent: one handed out by value is copied.
#[tactic(auto, using(crate::proofs::WithinReach::reached_frames))]
fn along(frame: AcceptedFrame, axis: usize, places: &mut [u32; MOST_AGENTS])
    requires { axis < 3 }
    ensures value { Along frame.entry.agents axis frame.entry.numbers.now places.new }
    ensures near { Near frame.entry.agents places.new }
{
    for agent in 0..frame.agents {
        places[agent] = from_corner(frame.numbers[3 * agent + axis]);
    }
}

// Every agent's squared distance from the corner, likewise.
fn from_corner_squared(
    xs: &[u32; MOST_AGENTS],
    ys: &[u32; MOST_AGENTS],
    zs: &[u32; MOST_AGENTS],
    agents: usize,
    squares: &mut [u64; MOST_AGENTS],
)
    requires few { agents ≤ most_agents }
    requires near { Near agents xs.now × Near agents ys.now × Near agents zs.now }
    ensures { Squares agents xs.now ys.now zs.now squares.new }
{
    for agent in 0..agents {
        let position = FromCorner {
            x: xs[agent],
            y: ys[agent],
            z: zs[agent],
        };
        squares[agent] = position.dot(position);
    }
}

impl Spots {
    ghost use Rattle.spacing.specs.parts.Spots.{SpotsOf, SpotAt};

    pub(crate) fn of(frame: AcceptedFrame) -> Spots
        ensures { SpotsOf frame.entry.numbers.now result }
    {
        let mut spots = Spots {
            agents: 0,
            xs: [0; MOST_AGENTS],
            ys: [0; MOST_AGENTS],
            zs: [0; MOST_AGENTS],
            squares: [0; MOST_AGENTS],
        };
        // the whole is lent first: fields are lent as `&` beside one as `&mut`
        let lent = &mut spots;
        along(frame, 0, &mut lent.xs);
        along(frame, 1, &mut lent.ys);
        along(frame, 2, &mut lent.zs);
        from_corner_squared(
            &lent.xs,
            &lent.ys,
            &lent.zs,
            frame.agents,
            &mut lent.squares,
        );
        lent.agents = frame.agents;
        spots
    }

    pub(crate) fn at(&self, agent: usize) -> Spot
        requires { agent < self.now.agents }
        ensures { SpotAt self.now agent result }
    {
        Spot {
            position: FromCorner {
                x: self.xs[agent],
                y: self.ys[agent],
                z: self.zs[agent],
            },
            square: self.squares[agent],
        }
    }
}

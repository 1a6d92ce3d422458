// A frame that a tally accepts. What holds of it is in `specs/parts/Frame.antt`.
ghost use Rattle.spacing.specs.parts.Frame.{FitFrame};

// Its numbers, three for each of so many agents.
#[derive(Clone, Copy)]
pub(crate) struct AcceptedFrame<'a> {
    pub(crate) numbers: &'a [f32],
    pub(crate) agents: usize,
    pub(crate) ghost fit: { FitFrame agents numbers.now },
}

// The velocity call's request, and its numbers. The definitions are in `specs/Request.antt`.
ghost use Rattle.std.specs.Prelude.{◌≡◌};
ghost use Rattle.requests.specs.Request.{request_numbers};

use super::{REQUEST_NUMBERS, Request};

impl Request {
    // Its numbers, each at its place. No From: what reads them back, `read_request`, is of planes.
    #[tactic(auto, unfolding(crate::specs::Request::request_numbers))]
    pub(crate) fn numbers(self) -> [f32; REQUEST_NUMBERS]
        ensures { result ≡ request_numbers self }
    {
        [
            self.agent.position.x,
            self.agent.position.y,
            self.agent.position.z,
            self.agent.velocity.x,
            self.agent.velocity.y,
            self.agent.velocity.z,
            self.agent.radius,
            self.agent.responsibility,
            self.preferred.x,
            self.preferred.y,
            self.preferred.z,
            self.max_speed,
            self.time_step,
            self.horizon,
            self.fallback.x,
            self.fallback.y,
            self.fallback.z,
        ]
    }
}

// A stored agent: its 19 words read as numbers, and the words that a tick changes. The definitions are in
// `specs/Record.antt`.
ghost use Rattle.std.specs.Prelude.{◌≡◌, ◌+◌, ◌<◌};
ghost use Rattle.records.specs.Record.{per_record, blank, number_at, vector_from, with_vector, position_of, radius_of, goal_of, max_speed_of, horizon_of, fallback_of, agent_of, with_goal, moved_to};

use super::{
    FALLBACK_WORD, GOAL_WORD, HORIZON_WORD, MAX_SPEED_WORD, POSITION_WORD, RADIUS_WORD,
    RECORD_WORDS, RESPONSIBILITY_WORD, Record, VELOCITY_WORD,
};
use requests::Agent;
use vectors::Vec3;
use vectors::number::{from_word, to_word};

impl Record {
    // What stands where there is no agent: the default, by the name of `blank` in the definitions.
    #[tactic(auto, unfolding(crate::specs::Record::blank))]
    pub fn blank() -> Record
        ensures { result ≡ blank }
    {
        Record {
            words: [0; RECORD_WORDS],
        }
    }

    #[tactic(auto, unfolding(crate::specs::Record::number_at, crate::specs::Record::word_at))]
    fn number(self, place: usize) -> f32
        requires { place < per_record }
        ensures { result ≡ number_at self place }
    {
        from_word(self.words[place])
    }

    // The vector whose first number is at `place`.
    #[tactic(auto, unfolding(crate::specs::Record::vector_from))]
    fn vector(self, place: usize) -> Vec3
        requires { place + 2 < per_record }
        ensures { result ≡ vector_from self place }
    {
        Vec3 {
            x: self.number(place),
            y: self.number(place + 1),
            z: self.number(place + 2),
        }
    }

    #[tactic(auto, unfolding(crate::specs::Record::with_vector))]
    fn with_vector(mut self, place: usize, v: Vec3) -> Record
        requires { place + 2 < per_record }
        ensures { result ≡ with_vector self place v }
    {
        self.words[place] = to_word(v.x);
        self.words[place + 1] = to_word(v.y);
        self.words[place + 2] = to_word(v.z);
        self
    }

    pub fn position(self) -> Vec3
        ensures { result ≡ position_of self }
    {
        self.vector(POSITION_WORD)
    }

    pub fn radius(self) -> f32
        ensures { result ≡ radius_of self }
    {
        self.number(RADIUS_WORD)
    }

    pub fn goal(self) -> Vec3
        ensures { result ≡ goal_of self }
    {
        self.vector(GOAL_WORD)
    }

    pub fn max_speed(self) -> f32
        ensures { result ≡ max_speed_of self }
    {
        self.number(MAX_SPEED_WORD)
    }

    pub fn horizon(self) -> f32
        ensures { result ≡ horizon_of self }
    {
        self.number(HORIZON_WORD)
    }

    pub fn fallback(self) -> Vec3
        ensures { result ≡ fallback_of self }
    {
        self.vector(FALLBACK_WORD)
    }

    // The agent as the velocity call takes it.
    #[tactic(auto, unfolding(crate::specs::Record::agent_of))]
    pub fn agent(self) -> Agent
        ensures { result ≡ agent_of self }
    {
        Agent {
            position: self.position(),
            velocity: self.vector(VELOCITY_WORD),
            radius: self.radius(),
            responsibility: self.number(RESPONSIBILITY_WORD),
        }
    }

    #[tactic(auto, unfolding(crate::specs::Record::with_goal))]
    pub fn with_goal(self, goal: Vec3) -> Record
        ensures { result ≡ with_goal goal self }
    {
        self.with_vector(GOAL_WORD, goal)
    }

    // The record of the agent where a velocity has taken it.
    #[tactic(auto, unfolding(crate::specs::Record::moved_to))]
    pub fn moved_to(self, position: Vec3, velocity: Vec3) -> Record
        ensures { result ≡ moved_to self position velocity }
    {
        self.with_vector(VELOCITY_WORD, velocity)
            .with_vector(POSITION_WORD, position)
    }
}

// Document 01, module 8: the fleet table, simulator.rs's `Simulator` with its refusals, and the tick. A fleet is
// a value: each call takes it and hands the new one back beside its answer. The types stand here, and what is done
// with them in the modules. Every public function is total, and ensures equality with a definition of `specs/`.
#![tactic(auto)]

pub mod answers;
pub mod loading;
pub mod plan;
pub mod saving;
pub mod table;
pub mod ticks;

use planner::Rule;
use records::{MOST_AGENTS, RECORD_WORDS, Records};
use refusals::Refusal;
use requests::Reply;
use vectors::Vec3;

// What a call on the table answers. A plan that the table does not refuse passes on what the velocity call
// answers, a refusal or a velocity.
// No Result: there are three cases, and `specs/Answer.antt` has a number and a place for each (`AnswerPlaces`).
#[derive(Debug, Clone, Copy, PartialEq)]
pub enum Answer {
    Done,
    Plan(Reply),
    Refused(Refusal),
}

// A tick as it was opened.
#[derive(Debug, Clone, Copy, PartialEq)]
pub struct Tick {
    pub time_step: f32,
    pub rule: Rule,
}

// What stands, in a tick and between ticks: the agents' records; the tick that is open, if one is; and for each agent
// the velocity planned and the last goal set in it. Only the calls make one.
// Plans and goals stand beside the records, not in them: calls outside a tick hand on records alone, and `Sound` has a clause for each.
#[derive(Clone, Copy)]
pub struct Fleet {
    standing: Records,
    tick: Option<Tick>,
    plans: [Option<Vec3>; MOST_AGENTS],
    goals: [Option<Vec3>; MOST_AGENTS],
}

// What a call hands back. Refused, it is the very fleet that was given.
// No Result: each call hands a fleet back, a refused one too (docs/DEFINITION.md, "The tick").
#[derive(Clone, Copy)]
pub struct Called {
    pub answer: Answer,
    pub fleet: Fleet,
}

// What the call save hands back: the fleet that was given, and how many bytes it wrote. Refused, none.
// No Result: each call answers by the one type whose number and place `specs/Answer.antt` defines.
#[derive(Clone, Copy)]
pub struct Saved {
    pub answer: Answer,
    pub fleet: Fleet,
    pub bytes: usize,
}

// What the call read hands back. Refused, the words are zeros.
// No Result: each call answers by the one type whose number and place `specs/Answer.antt` defines.
#[derive(Clone, Copy)]
pub struct Read {
    pub answer: Answer,
    pub words: [u32; RECORD_WORDS],
    pub fleet: Fleet,
}

// Stored agents, of document 01's module 8: a record with its checks, the fleet file that holds such records, and a
// reader over one. The types stand here, and what is done with them in the modules. Every public function is total,
// and ensures equality with a definition of `specs/`.
#![tactic(auto)]

pub mod agents;
pub mod checks;
pub mod file;
pub mod list;
pub mod reader;

use std::marker::Model;

// The words of a record, and its bytes in a file.
pub const RECORD_WORDS: usize = 19;

pub const RECORD_BYTES: usize = 76;

// At most so many agents.
pub const MOST_AGENTS: usize = 64;

// Where each of a record's numbers stands, or the first of three.
pub const POSITION_WORD: usize = 0;

pub const VELOCITY_WORD: usize = 3;

pub const RADIUS_WORD: usize = 6;

pub const RESPONSIBILITY_WORD: usize = 7;

pub const GOAL_WORD: usize = 8;

pub const MAX_SPEED_WORD: usize = 11;

pub const HORIZON_WORD: usize = 12;

pub const FALLBACK_WORD: usize = 13;

pub const MARGIN_WORD: usize = 17;

pub const DISTANCE_WORD: usize = 18;

// A stored agent. Document 01's words: 0-2 position, 3-5 velocity, 6 radius, 7 responsibility, 8-10 goal, 11 maximum
// speed, 12 time horizon, 13-15 fallback, 16 obstacle time horizon, 17 margin, 18 distance.
#[derive(Debug, Clone, Copy, PartialEq, Eq, Default)]
pub struct Record {
    pub words: [u32; RECORD_WORDS],
}

// As many records as there can be agents, or fewer: a list, as an `ArrayVec` is one, and `Copy`, which that is not.
#[derive(Debug, Clone, Copy, PartialEq, Eq)]
pub struct Records {
    count: usize,
    slots: [Record; MOST_AGENTS],
}

impl Model for Records {
    ghost use Rattle.std.specs.Prelude.{◌≡◌, ◌≤◌, length, take};
    ghost use Rattle.std.proofs.Common.{sym, ap, arith, length-append, length-take-le};
    ghost use Rattle.std.proofs.lemmas.List.{length-take, length-replicate};
    ghost use Rattle.arrayvec.specs.ArrayVec.{ArrayVec};
    ghost use Rattle.records.specs.declared.Record.{Record};
    ghost use Rattle.records.specs.Record.{most_agents};
    ghost use Rattle.records.specs.List.{filled};

    ghost Value = { ArrayVec Record };

    ghost view = { λ v. record { items = take v.count v.slots } };

    ghost invariant = { λ v. (v.count ≤ most_agents) × (v.slots ≡ filled (take v.count v.slots)) };

    ghost inverse = { λ v. record { count = length v.items; slots = filled v.items } };

    ghost inverse_ok = { λ v h i. record {
      count = length-take-le v.count v.slots (omega (arith, simp (length-append, length-replicate) at (ap length h.1), length-take v.count v.slots, h.0)) i;
      slots = sym h.1 i;
    } };
}

// A lent file, and the index of the record to hand out: document 01 fixes this form of a reader.
#[derive(Clone, Copy)]
pub struct RecordReader<'a> {
    pub file: &'a [u8],
    pub index: usize,
}

// A list of at most 64 records. The definitions are in `specs/List.antt`.
//
// Each function takes any index: past the last record there is nothing to change.
ghost use Rattle.std.specs.Prelude.{◌≡◌, ◌≤◌, [], length, set};
ghost use Rattle.records.specs.Record.{most_agents};
ghost use Rattle.records.specs.List.{with_pushed, without};

use super::{MOST_AGENTS, Record, Records};

impl Records {
    // No records.
    pub fn new() -> Records
        ensures { result ≡ record { items = [] } }
    {
        Records {
            count: 0,
            slots: [Record::blank(); MOST_AGENTS],
        }
    }

    pub fn len(&self) -> usize
        ensures count { result ≡ length self.now.items }
        ensures within { result ≤ most_agents }
    {
        self.count
    }

    pub fn as_slice(&self) -> &[Record]
        ensures items { result.now ≡ self.now.items }
        ensures within { length result.now ≤ most_agents }
    {
        &self.slots[..self.count]
    }

    // Adds a record after the others, where there is room for it.
    #[tactic(auto, using(crate::proofs::Filled::pushed), unfolding(crate::specs::List::with_pushed))]
    pub fn push(&mut self, stored: Record)
        ensures { self.new ≡ record { items = with_pushed self.old.items stored } }
    {
        if self.count < MOST_AGENTS {
            self.slots[self.count] = stored;
            self.count += 1;
        }
    }

    // Sets the record at `index`, where there is one.
    #[tactic(auto, using(crate::proofs::Filled::putting))]
    pub fn put(&mut self, index: usize, stored: Record)
        ensures { self.new ≡ record { items = set self.old.items index stored } }
    {
        if index < self.count {
            self.slots[index] = stored;
        }
    }

    // Takes the record at `index` out, where there is one: later ones move down by one.
    #[tactic(auto, using(crate::proofs::Filled::taken_out), unfolding(crate::specs::List::without))]
    pub fn remove(&mut self, index: usize)
        ensures { self.new ≡ record { items = without self.old.items index } }
    {
        if index < self.count {
            self.slots.copy_within(index + 1..self.count, index);
            self.count -= 1;
            self.slots[self.count] = Record::blank();
        }
    }
}

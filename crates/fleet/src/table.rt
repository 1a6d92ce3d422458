// The table and its calls add, put, remove and read. The definitions are in `specs/Table.antt`.
ghost use Rattle.std.specs.Prelude.{◌≡◌, ◌≤◌, ◌<◌, [], length, get_or, Err, IsOk};
ghost use Rattle.refusals.specs.Verdict.{passed};
ghost use Rattle.records.specs.Record.{most_agents, blank};
ghost use Rattle.fleet.specs.Table.{agents, holding_nothing, fleet_of, settled, shut, has_agent, room, add_verdict, added, add_call, put_verdict, with_record, put_call, remove_verdict, removed, remove_call, read_call};

use super::answers::answer_to;
use super::{Answer, Called, Fleet, Read, Tick};
use records::{MOST_AGENTS, RECORD_WORDS, Record, Records};
use refusals::Refusal;

// The fleet of these records, with nothing held.
#[tactic(auto, unfolding(crate::specs::Table::holding_nothing, crate::specs::Table::nothing_held))]
pub(crate) fn holding_nothing(tick: Option<Tick>, standing: Records) -> Fleet
    ensures { result ≡ holding_nothing tick standing.items }
{
    Fleet {
        standing,
        tick,
        plans: [None; MOST_AGENTS],
        goals: [None; MOST_AGENTS],
    }
}

#[tactic(auto, unfolding(crate::specs::Table::settled))]
pub(crate) fn done(fleet: Fleet) -> Called
    ensures { result ≡ settled passed fleet fleet }
{
    Called {
        answer: Answer::Done,
        fleet,
    }
}

#[tactic(auto, unfolding(crate::specs::Table::settled))]
pub(crate) fn refused(fleet: Fleet, refusal: Refusal) -> Called
    ensures { result ≡ settled (Err refusal) fleet fleet }
{
    Called {
        answer: Answer::Refused(refusal),
        fleet,
    }
}

// Most calls are refused in a tick.
#[tactic(auto, unfolding(crate::specs::Table::shut))]
pub(crate) fn shut(tick: Option<Tick>) -> Result<(), Refusal>
    ensures { result ≡ shut tick }
{
    match tick {
        None => Ok(()),
        Some(_) => Err(Refusal::TickOpen),
    }
}

#[tactic(auto, unfolding(crate::specs::Table::room))]
fn room(count: usize) -> Result<(), Refusal>
    ensures verdict { result ≡ room count }
    ensures within { IsOk result → count < most_agents }
{
    let has_room = count < MOST_AGENTS;
    if has_room {
        Ok(())
    } else {
        Err(Refusal::Full { most: MOST_AGENTS })
    }
}

impl Fleet {
    // A fleet with no agents.
    pub fn empty() -> Fleet
        ensures { result ≡ fleet_of [] }
    {
        holding_nothing(None, Records::new())
    }

    // How many agents there are.
    pub fn agent_count(&self) -> usize
        ensures count { result ≡ length (agents self.now) }
        ensures within { result ≤ most_agents }
    {
        self.standing.len()
    }

    // The standing record of the agent at `index`, or a blank one where there is none. One call of std's, as in `own_record` of
    // planner, which sees no fleet.
    pub(crate) fn record_at(&self, index: usize) -> Record
        ensures { result ≡ get_or (agents self.now) index blank }
    {
        self.standing
            .as_slice()
            .get(index)
            .copied()
            .unwrap_or(Record::blank())
    }

    // Whether an agent has that index.
    // Each check says again that one has: it is a fact of an index and a fleet together, and in no value's type.
    #[tactic(auto, unfolding(crate::specs::Table::has_agent))]
    pub(crate) fn has_agent(&self, index: usize) -> Result<(), Refusal>
        ensures verdict { result ≡ has_agent self.now index }
        ensures among { IsOk result → index < length (agents self.now) }
    {
        let is_there = index < self.agent_count();
        if is_there {
            Ok(())
        } else {
            Err(Refusal::NoAgent { index })
        }
    }

    // The checks of add, put and remove, in document 01's order.
    #[tactic(auto, unfolding(crate::specs::Table::add_verdict))]
    fn add_verdict(&self, stored: Record) -> Result<(), Refusal>
        ensures verdict { result ≡ add_verdict self.now.tick (length (agents self.now)) stored }
        ensures within { IsOk result → length (agents self.now) < most_agents }
    {
        shut(self.tick)?;
        room(self.agent_count())?;
        stored.verdict()
    }

    #[tactic(auto, unfolding(crate::specs::Table::put_verdict, crate::specs::Table::has_agent))]
    fn put_verdict(&self, index: usize, stored: Record) -> Result<(), Refusal>
        ensures verdict { result ≡ put_verdict self.now.tick (length (agents self.now)) index stored }
        ensures among { IsOk result → index < length (agents self.now) }
    {
        shut(self.tick)?;
        self.has_agent(index)?;
        stored.verdict()
    }

    #[tactic(auto, unfolding(crate::specs::Table::remove_verdict, crate::specs::Table::has_agent))]
    fn remove_verdict(&self, index: usize) -> Result<(), Refusal>
        ensures verdict { result ≡ remove_verdict self.now.tick (length (agents self.now)) index }
        ensures among { IsOk result → index < length (agents self.now) }
    {
        shut(self.tick)?;
        self.has_agent(index)
    }

    // The fleet outside a tick, with one agent more.
    #[tactic(auto, using(records::proofs::Filled::pushed_within), unfolding(crate::specs::Table::added))]
    fn added(mut self, stored: Record) -> Fleet
        requires { length (agents self) < most_agents }
        ensures { result ≡ added self stored }
    {
        self.standing.push(stored);
        holding_nothing(None, self.standing)
    }

    // The fleet outside a tick, with another record at `index`.
    pub(crate) fn with_record(mut self, index: usize, stored: Record) -> Fleet
        requires { index < length (agents self) }
        ensures { result ≡ with_record self index stored }
    {
        self.standing.put(index, stored);
        holding_nothing(None, self.standing)
    }

    // The fleet outside a tick, without the agent at `index`.
    #[tactic(auto, unfolding(crate::specs::Table::removed, records::specs::List::without))]
    fn removed(mut self, index: usize) -> Fleet
        requires { index < length (agents self) }
        ensures { result ≡ removed self index }
    {
        self.standing.remove(index);
        holding_nothing(None, self.standing)
    }

    // Each call ends by a match, and not by a function that takes what to do as a closure: that would have to be callable where
    // the check refused too, and `added` is not.

    // Adds an agent with these words, after the others.
    #[tactic(auto, unfolding(crate::specs::Table::add_call, crate::specs::Table::settled))]
    pub fn add(self, words: [u32; RECORD_WORDS]) -> Called
        ensures { result ≡ add_call self words }
    {
        let stored = Record { words };
        match self.add_verdict(stored) {
            Ok(()) => done(self.added(stored)),
            Err(refusal) => refused(self, refusal),
        }
    }

    // Sets all words of the agent at `index`.
    #[tactic(auto, unfolding(crate::specs::Table::put_call, crate::specs::Table::settled))]
    pub fn put(self, index: usize, words: [u32; RECORD_WORDS]) -> Called
        ensures { result ≡ put_call self index words }
    {
        let stored = Record { words };
        match self.put_verdict(index, stored) {
            Ok(()) => done(self.with_record(index, stored)),
            Err(refusal) => refused(self, refusal),
        }
    }

    // Removes the agent at `index`: later ones move down by one, all their words with them.
    #[tactic(auto, unfolding(crate::specs::Table::remove_call, crate::specs::Table::settled))]
    pub fn remove(self, index: usize) -> Called
        ensures { result ≡ remove_call self index }
    {
        match self.remove_verdict(index) {
            Ok(()) => done(self.removed(index)),
            Err(refusal) => refused(self, refusal),
        }
    }

    // The words of the standing record at `index`, in a tick too. Refused, they are zeros.
    #[tactic(auto, unfolding(crate::specs::Table::read_call))]
    pub fn read(self, index: usize) -> Read
        ensures { result ≡ read_call self index }
    {
        let stored = self.record_at(index);
        let words = stored.words;
        Read {
            answer: answer_to(self.has_agent(index)),
            words,
            fleet: self,
        }
    }
}

// The tick: the calls open, goal, close and drop. The definitions are in `specs/Tick.antt`.
ghost use Rattle.std.specs.Prelude.{◌≡◌, ◌≤◌, ◌<◌, Some, length, take, IsOk};
ghost use Rattle.refusals.specs.Conditions.{first_bad};
ghost use Rattle.fleet.specs.Table.{agents, holding_nothing};
ghost use Rattle.fleet.specs.Tick.{step_verdict, open_verdict, open_call, goal_fault, goal_verdict, hold_goal, goal_set, goal_call, goal_taken, goals_taken, ended, unplanned, arrival, arrivals, astray, moved_by, all_moved, close_verdict, close_open, close_call, drop_call};

use super::table::{done, holding_nothing, refused, shut};
use super::{Called, Fleet, Tick};
use planner::Rule;
use records::{GOAL_WORD, MOST_AGENTS, Record, Records};
use refusals::Refusal;
use requests::TIME_STEP_PLACE;
use vectors::Vec3;
use vectors::number::is_finite;

// The time step is at the velocity call's place 12.
#[tactic(auto, unfolding(crate::specs::Tick::step_verdict))]
fn step_verdict(time_step: f32) -> Result<(), Refusal>
    ensures { result ≡ step_verdict time_step }
{
    if !is_finite(time_step) {
        return Err(Refusal::NotFinite {
            place: TIME_STEP_PLACE,
        });
    }
    if time_step > 0.0 {
        Ok(())
    } else {
        Err(Refusal::OutOfRange {
            place: TIME_STEP_PLACE,
        })
    }
}

// The word of the first component that is not finite. Three tests and no `position`: the components are fields, and no list.
#[tactic(auto, unfolding(crate::specs::Tick::goal_fault))]
fn goal_fault(goal: Vec3) -> Option<usize>
    ensures { result ≡ goal_fault goal }
{
    if !is_finite(goal.x) {
        return Some(GOAL_WORD);
    }
    if !is_finite(goal.y) {
        return Some(GOAL_WORD + 1);
    }
    if is_finite(goal.z) {
        None
    } else {
        Some(GOAL_WORD + 2)
    }
}

// The record with the goal that was held for it, if one was.
#[tactic(auto, unfolding(crate::specs::Tick::goal_taken))]
fn goal_taken(stored: Record, goal: Option<Vec3>) -> Record
    ensures { result ≡ goal_taken stored goal }
{
    match goal {
        None => stored,
        Some(goal) => stored.with_goal(goal),
    }
}

// No one function with `all_moved` that is given the change: what its clause says of a closure is longer than this loop.
#[tactic(auto, using(crate::proofs::Each::changes), unfolding(crate::specs::Tick::goals_taken))]
fn goals_taken(mut records: Records, goals: [Option<Vec3>; MOST_AGENTS]) -> Records
    ensures { result.items ≡ goals_taken records.items goals }
{
    for index in 0..records.len() {
        let stored = records.as_slice()[index];
        records.put(index, goal_taken(stored, goals[index]));
    }
    records
}

// The first of so many agents that has no plan.
fn first_unplanned(plans: &[Option<Vec3>], count: usize) -> Option<usize>
    ensures { result ≡ first_bad unplanned 0 (take count plans.now) }
{
    plans.iter().take(count).position(|plan| plan.is_none())
}

// Where a plan takes an agent.
#[tactic(auto, unfolding(crate::specs::Tick::arrival))]
fn arrival(time_step: f32, stored: Record, plan: Option<Vec3>) -> Vec3
    ensures { result ≡ arrival time_step stored plan }
{
    let position = stored.position();
    match plan {
        None => position,
        Some(velocity) => position.add(velocity.mul(time_step)),
    }
}

// The first agent whose plan takes it to a position that is not finite.
fn first_astray(time_step: f32, records: &[Record], plans: &[Option<Vec3>]) -> Option<usize>
    ensures { result ≡ first_bad astray 0 (arrivals time_step records.now plans.now) }
{
    records.iter().zip(plans).position(|(stored, plan)| !arrival(
        time_step, *stored, *plan,
    ).is_finite())
}

// The record with the velocity planned for it, at the position to which that takes it.
#[tactic(auto, unfolding(crate::specs::Tick::moved_by))]
fn moved_by(time_step: f32, stored: Record, plan: Option<Vec3>) -> Record
    ensures { result ≡ moved_by time_step stored plan }
{
    match plan {
        None => stored,
        Some(velocity) => {
            let position = arrival(time_step, stored, plan);
            stored.moved_to(position, velocity)
        }
    }
}

#[tactic(auto, using(crate::proofs::Each::changes), unfolding(crate::specs::Tick::all_moved))]
fn all_moved(time_step: f32, mut records: Records, plans: [Option<Vec3>; MOST_AGENTS]) -> Records
    ensures { result.items ≡ all_moved time_step records.items plans }
{
    for index in 0..records.len() {
        let stored = records.as_slice()[index];
        records.put(index, moved_by(time_step, stored, plans[index]));
    }
    records
}

// 10, then the time step's own checks.
#[tactic(auto, unfolding(crate::specs::Tick::open_verdict))]
fn open_verdict(tick: Option<Tick>, time_step: f32) -> Result<(), Refusal>
    ensures { result ≡ open_verdict tick time_step }
{
    shut(tick)?;
    step_verdict(time_step)
}

// 12 before 13.
#[tactic(auto, unfolding(crate::specs::Tick::close_verdict))]
fn close_verdict(time_step: f32, records: &[Record], plans: &[Option<Vec3>]) -> Result<(), Refusal>
    ensures { result ≡ close_verdict time_step records.now plans.now }
{
    if let Some(agent) = first_unplanned(plans, records.len()) {
        return Err(Refusal::Unplanned { agent });
    }
    if let Some(agent) = first_astray(time_step, records, plans) {
        return Err(Refusal::PositionNotFinite { agent });
    }
    Ok(())
}

// The fleet after a tick that leaves it with these records: held goals take effect.
#[tactic(auto, unfolding(crate::specs::Tick::ended))]
fn ended(records: Records, goals: [Option<Vec3>; MOST_AGENTS]) -> Fleet
    ensures { result ≡ ended records.items goals }
{
    holding_nothing(None, goals_taken(records, goals))
}

// Close, where a tick of `time_step` is open.
#[tactic(auto, unfolding(crate::specs::Tick::close_open, crate::specs::Table::settled))]
fn close_open(fleet: Fleet, time_step: f32) -> Called
    ensures { result ≡ close_open time_step fleet }
{
    match close_verdict(time_step, fleet.standing.as_slice(), &fleet.plans) {
        Ok(()) => done(ended(
            all_moved(time_step, fleet.standing, fleet.plans),
            fleet.goals,
        )),
        Err(refusal) => refused(fleet, refusal),
    }
}

impl Fleet {
    // 8, then 3.
    #[tactic(auto, unfolding(crate::specs::Tick::goal_verdict, crate::specs::Table::has_agent))]
    fn goal_verdict(&self, index: usize, goal: Vec3) -> Result<(), Refusal>
        ensures verdict { result ≡ goal_verdict (length (agents self.now)) index goal }
        ensures among { IsOk result → index < length (agents self.now) }
    {
        self.has_agent(index)?;
        if let Some(place) = goal_fault(goal) {
            return Err(Refusal::NotFinite { place });
        }
        Ok(())
    }

    // In a tick the goal is held, in place of what was held for the agent before.
    #[tactic(auto, unfolding(crate::specs::Tick::hold_goal, crate::specs::Tick::with_held))]
    fn hold_goal(mut self, index: usize, goal: Vec3) -> Fleet
        requires { index < length (agents self) }
        ensures { result ≡ hold_goal self index goal }
    {
        self.goals[index] = Some(goal);
        self
    }

    // Outside a tick it acts at once.
    #[tactic(auto, unfolding(crate::specs::Tick::goal_set))]
    fn goal_set(self, index: usize, goal: Vec3) -> Fleet
        requires { index < length (agents self) }
        ensures { result ≡ goal_set self.tick self index goal }
    {
        if self.tick.is_some() {
            return self.hold_goal(index, goal);
        }
        let stored = self.record_at(index).with_goal(goal);
        self.with_record(index, stored)
    }

    // Opens a tick of `time_step`, in which plans keep their neighbours by `rule`.
    #[tactic(auto, unfolding(crate::specs::Tick::open_call, crate::specs::Table::settled))]
    pub fn open(self, time_step: f32, rule: Rule) -> Called
        ensures { result ≡ open_call self time_step rule }
    {
        match open_verdict(self.tick, time_step) {
            Ok(()) => done(holding_nothing(Some(Tick { time_step, rule }), self.standing)),
            Err(refusal) => refused(self, refusal),
        }
    }

    // The goal of the agent at `index`: at once outside a tick, and in one when it ends.
    #[tactic(auto, unfolding(crate::specs::Tick::goal_call, crate::specs::Table::settled))]
    pub fn goal(self, index: usize, goal: Vec3) -> Called
        ensures { result ≡ goal_call self index goal }
    {
        match self.goal_verdict(index, goal) {
            Ok(()) => done(self.goal_set(index, goal)),
            Err(refusal) => refused(self, refusal),
        }
    }

    // Ends the tick: every agent takes the velocity planned for it and moves, then held goals take effect.
    #[tactic(auto, unfolding(crate::specs::Tick::close_call, crate::specs::Tick::close_in))]
    pub fn close(self) -> Called
        ensures { result ≡ close_call self }
    {
        let Some(tick) = self.tick else {
            return refused(self, Refusal::NoTick);
        };
        close_open(self, tick.time_step)
    }

    // Ends the tick with nobody moved. Held goals take effect.
    #[tactic(auto, unfolding(crate::specs::Tick::drop_call, crate::specs::Tick::opened, crate::specs::Table::settled))]
    pub fn drop(self) -> Called
        ensures { result ≡ drop_call self }
    {
        if self.tick.is_none() {
            return refused(self, Refusal::NoTick);
        }
        done(ended(self.standing, self.goals))
    }
}

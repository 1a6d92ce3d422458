// A tick in one piece: open, plan every agent by rising index, close. Its answer is the first refused call's, and a
// tick that it opened is dropped where a call in it is refused. And ticks one after another. The definitions are in
// `specs/Tick.antt`.
#![tactic(auto)]

ghost use Rattle.std.specs.Prelude.{◌≡◌, true, false, length};
ghost use Rattle.fleet.specs.Table.{agents};
ghost use Rattle.flight.specs.Tick.{is_refused, first_planned, or_dropped, flown, one_tick, ticks_in_turn, file_flown, file_after};

// Time step and rule are passed apart, as `one_tick` and its claims have them, and as C passes them.
use fleet::{Answer, Called, Fleet};
use planner::Rule;
use requests::FULL_SCRATCH;

// By the number, as the definition has it: a plan's own refusal is one too.
#[tactic(auto, unfolding(crate::specs::Tick::is_refused))]
fn is_refused(last: &Called) -> bool
    ensures { result ≡ is_refused last.now }
{
    let answer = last.answer;
    answer.number() != 0
}

// A refused call is handed on by each that would follow it.
fn unless_refused<F: FnOnce(Fleet) -> Called>(last: Called, call: F) -> Called
    requires { F.IsAlwaysCallable call }
    ensures handed_on { is_refused last ≡ true → result ≡ last }
    ensures called { is_refused last ≡ false → F.post call last.fleet result }
{
    if is_refused(&last) {
        return last;
    }
    call(last.fleet)
}

// Every agent in turn, on one scratch: what a plan leaves in it alters no later one.
#[tactic(auto, unfolding(crate::specs::Tick::first_planned, crate::specs::Tick::unless_refused))]
fn all_planned(opened: Called) -> Called
    ensures { result ≡ first_planned (length (agents opened.fleet)) opened }
{
    let mut scratch = [0.0f32; FULL_SCRATCH];
    let count = opened.fleet.agent_count();
    let mut last = opened;
    for index in 0..count {
        last = unless_refused(last, |fleet| fleet.plan(index, &mut scratch));
    }
    last
}

// Where a call in the tick is refused, the tick is dropped.
#[tactic(auto, unfolding(crate::specs::Tick::or_dropped))]
fn or_dropped(last: Called) -> Called
    ensures { result ≡ or_dropped last }
{
    if is_refused(&last) {
        let dropped = last.fleet.drop();
        return Called {
            answer: last.answer,
            fleet: dropped.fleet,
        };
    }
    last
}

// All that follows the opening.
#[tactic(auto, unfolding(crate::specs::Tick::flown, crate::specs::Tick::unless_refused))]
fn flown(opened: Called) -> Called
    ensures { result ≡ flown opened }
{
    or_dropped(unless_refused(all_planned(opened), |fleet| fleet.close()))
}

// One tick of `time_step`, in which plans keep their neighbours by `rule`: every agent is planned and moved, or the
// answer says which call was refused first, and nobody is moved.
#[tactic(auto, unfolding(crate::specs::Tick::one_tick))]
pub fn one_tick(fleet: Fleet, time_step: f32, rule: Rule) -> Called
    ensures { result ≡ one_tick time_step rule fleet }
{
    let opened = fleet.open(time_step, rule);
    if is_refused(&opened) {
        return opened;
    }
    flown(opened)
}

// So many ticks one after another. The first that is refused ends them: its answer is handed back, and the fleet after
// the ticks before it. Not taken into `file_flown`: a file that is refused asks for none of a tick's stack.
#[inline(never)]
#[tactic(auto, using(crate::proofs::Steps::turns), unfolding(crate::specs::Tick::ticks_in_turn, crate::specs::Tick::unless_refused))]
pub fn ticks_in_turn(mut fleet: Fleet, count: usize, time_step: f32, rule: Rule) -> Called
    ensures { result ≡ ticks_in_turn count time_step rule fleet }
{
    for _ in 0..count {
        let last = one_tick(fleet, time_step, rule);
        if is_refused(&last) {
            return last;
        }
        fleet = last.fleet;
    }
    Called {
        answer: Answer::Done,
        fleet,
    }
}

// So many ticks of the fleet of a lent file. A load that is refused is handed back.
#[tactic(auto, unfolding(crate::specs::Tick::file_flown, crate::specs::Tick::unless_refused))]
pub fn file_flown(file: &[u8], ticks: usize, time_step: f32, rule: Rule) -> Called
    ensures { result ≡ file_flown file.now ticks time_step rule }
{
    unless_refused(Fleet::empty().load(file), |fleet| {
        ticks_in_turn(fleet, ticks, time_step, rule)
    })
}

// One tick in place of a lent file: its fleet is loaded, flown and saved. The answer is the first refused call's, and a
// refused one leaves every byte as it was.
#[tactic(auto, unfolding(crate::specs::Tick::file_after))]
pub fn tick_in_place(file: &mut [u8], time_step: f32, rule: Rule) -> Answer
    ensures answer { result ≡ (file_flown file.old 1 time_step rule).answer }
    ensures file { file.new ≡ file_after file.old time_step rule }
{
    let flown = file_flown(file, 1, time_step, rule);
    let answer = flown.answer;
    if is_refused(&flown) {
        return answer;
    }
    flown.fleet.save(file);
    answer
}

// Calls made on a fleet. `Call::read` lets none pass whose scratch or buffer is over its limit.
use super::calls::{Call, MOST_BUFFER, MOST_SCRATCH};
use super::report;
use fleet::{Answer, Called, Fleet};
use records::reader::read_record;
use refusals::Refusal;
use std::io::Result;
use vectors::number::from_word;

// What a buffer is filled with before a save.
const UNTOUCHED: u8 = 0xa5;

// Of a file that is longer than the program has room for, a part is lent: 65,536 bytes, which are refused for their length
// too. The length said is the whole one.
fn with_length(refusal: Refusal, length: usize) -> Refusal {
    match refusal {
        Refusal::BadFile { .. } => Refusal::BadFile { bytes: length },
        _ => refusal,
    }
}

fn answer_with_length(answer: Answer, length: usize) -> Answer {
    match answer {
        Answer::Refused(refusal) => Answer::Refused(with_length(refusal, length)),
        _ => answer,
    }
}

// A function clears the room of all its locals when it is entered, and a fleet is large: so what is done at a call stands in a function of
// its own, which is not taken into `make`.

// Says what a call answers, and keeps its fleet.
#[inline(never)]
fn told<F: FnOnce(Fleet) -> Called>(rt: &impl Print, fleet: &mut Fleet, call: F) -> Result<()>
    requires { F.IsAlwaysCallable call }
{
    let called = call(*fleet);
    report::say_answer(rt, called.answer)?;
    *fleet = called.fleet;
    Ok(())
}

// The fleet of a file of that length, as much of which stands in `file` as there is room for: the length is apart, since no slice has
// one that it doesn't hold.
fn loaded(fleet: Fleet, file: &[u8], length: usize) -> Called {
    let called = fleet.load(&file[..length.min(file.len())]);
    let answer = answer_with_length(called.answer, length);
    Called {
        answer,
        fleet: called.fleet,
    }
}

// Loads such a file, and says what that answers.
pub(crate) fn load(rt: &impl Print, fleet: &mut Fleet, file: &[u8], length: usize) -> Result<()> {
    told(rt, fleet, |fleet| loaded(fleet, file, length))
}

// Says the words of the record at `index`.
#[inline(never)]
fn say_standing(rt: &impl Print, fleet: &Fleet, index: usize) -> Result<()> {
    let standing = *fleet;
    report::say_read(rt, &standing.read(index))
}

// Reads one record of such a file, and says it.
#[inline(never)]
fn say_record(rt: &impl Print, file: &[u8], length: usize, index: usize) -> Result<()> {
    match read_record(&file[..length.min(file.len())], index) {
        Ok(stored) => report::say_words(rt, stored.words),
        Err(refusal) => report::say_refused(rt, with_length(refusal, length)),
    }
}

fn plan(fleet: Fleet, index: usize, length: usize) -> Called {
    let mut scratch = [0.0f32; MOST_SCRATCH];
    fleet.plan(index, &mut scratch[..length.min(MOST_SCRATCH)])
}

// `u32` is not `From<usize>`, nor `usize` of it: both are cast here.
// Numbers that show whether a plan touched them: the first has that word, and each the word after the one before it.
fn marked(first: u32) -> [f32; MOST_SCRATCH] {
    let mut numbers = [0.0; MOST_SCRATCH];
    for (index, number) in numbers.iter_mut().enumerate() {
        *number = from_word(first.wrapping_add(index as u32));
    }
    numbers
}

// A plan that shows its scratch.
#[inline(never)]
fn plan_shown(
    rt: &impl Print,
    fleet: &mut Fleet,
    index: usize,
    length: usize,
    first: u32,
) -> Result<()> {
    let mut numbers = marked(first);
    let scratch = &mut numbers[..length.min(MOST_SCRATCH)];
    let standing = *fleet;
    let called = standing.plan(index, scratch);
    report::say_plan(rt, called.answer, scratch)?;
    *fleet = called.fleet;
    Ok(())
}

// Saves into a buffer of that length, and says what it has then.
#[inline(never)]
fn save(rt: &impl Print, fleet: &Fleet, length: usize) -> Result<()> {
    let mut bytes = [UNTOUCHED; MOST_BUFFER];
    let buffer = &mut bytes[..length.min(MOST_BUFFER)];
    let standing = *fleet;
    let saved = standing.save(buffer);
    report::say_saved(rt, saved.answer, saved.bytes, buffer)
}

// Makes a call on the fleet, and says what it answers and shows. The file that follows the call, if one does,
// stands in `file`. `usize` is not `From<u32>`, so its length is cast.
pub(crate) fn make(rt: &impl Print, fleet: &mut Fleet, call: Call, file: &[u8]) -> Result<()> {
    match call {
        Call::Add { words } => told(rt, fleet, |fleet| fleet.add(words)),
        Call::Put { index, words } => told(rt, fleet, |fleet| fleet.put(index, words)),
        Call::Remove { index } => told(rt, fleet, |fleet| fleet.remove(index)),
        Call::Read { index } => say_standing(rt, fleet, index),
        Call::Goal { index, goal } => told(rt, fleet, |fleet| fleet.goal(index, goal)),
        Call::Open { time_step, rule } => told(rt, fleet, |fleet| fleet.open(time_step, rule)),
        Call::Plan { index, scratch } => told(rt, fleet, |fleet| plan(fleet, index, scratch)),
        Call::Close => told(rt, fleet, |fleet| fleet.close()),
        Call::Drop => told(rt, fleet, |fleet| fleet.drop()),
        Call::Load { length } => load(rt, fleet, file, length as usize),
        Call::Save { length } => save(rt, fleet, length),
        Call::Record { index, length } => say_record(rt, file, length as usize, index),
        Call::PlanShown {
            index,
            scratch,
            first,
        } => plan_shown(rt, fleet, index, scratch, first),
    }
}

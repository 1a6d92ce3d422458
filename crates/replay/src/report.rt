// The lines that are printed. Words and numbers, of a velocity and of scratch, are 8 lower-case hex digits of their bits,
// and the bytes of a buffer 2 each; a refusal's number and place, the plane from which a velocity is relaxed, the bytes
// saved and a byte of the input are decimal. A line that could not be written is an error, which ends the run.
use console::Line;
use console::output::say;
use fleet::{Answer, Fleet, Read};
use records::RECORD_WORDS;
use refusals::Refusal;
use requests::{Course, Reply};
use std::io::Result;
use vectors::Vec3;
use vectors::number::to_word;

// A line that may be longer than a `Line` is said in pieces, of so many numbers or bytes.
const NUMBERS_AT_ONCE: usize = 32;

const BYTES_AT_ONCE: usize = 128;

// `u64` is not `From<usize>`, so what is counted by a usize is cast.
// `unreadable B`
pub(crate) fn say_unreadable(rt: &impl Print, byte: usize) -> Result<()> {
    Line::empty()
        .text(b"unreadable ")
        .decimal(byte as u64)
        .text(b"\n")
        .say(rt)
}

// `refused N P`, as console's `say_refused` says it: here a longer line may begin so.
fn refused(refusal: Refusal) -> Line {
    Line::empty()
        .text(b"refused ")
        .decimal(u64::from(refusal.number()))
        .text(b" ")
        .decimal(refusal.place() as u64)
}

fn with_number(line: Line, number: f32) -> Line {
    line.text(b" ").word(to_word(number))
}

// `velocity X Y Z`
fn with_velocity(line: Line, velocity: Vec3) -> Line {
    let x = with_number(line.text(b"velocity"), velocity.x);
    let y = with_number(x, velocity.y);
    with_number(y, velocity.z)
}

// ` free` or ` relaxed K`
fn with_relaxed(line: Line, relaxed: Option<usize>) -> Line {
    match relaxed {
        None => line.text(b" free"),
        Some(plane) => line.text(b" relaxed ").decimal(plane as u64),
    }
}

// ` unseen J`, or nothing
fn with_unseen(line: Line, unseen: Option<usize>) -> Line {
    match unseen {
        None => line,
        Some(agent) => line.text(b" unseen ").decimal(agent as u64),
    }
}

// `velocity X Y Z free` or `velocity X Y Z relaxed K`, and ` unseen J` where an agent is named
fn course_line(course: Course) -> Line {
    let line = with_velocity(Line::empty(), course.velocity);
    with_unseen(with_relaxed(line, course.relaxed), course.unseen)
}

fn reply_line(reply: Reply) -> Line {
    match reply {
        Ok(course) => course_line(course),
        Err(refusal) => refused(refusal),
    }
}

// `done`, or one of those above; without its end.
fn answer_line(answer: Answer) -> Line {
    match answer {
        Answer::Done => Line::empty().text(b"done"),
        Answer::Plan(reply) => reply_line(reply),
        Answer::Refused(refusal) => refused(refusal),
    }
}

pub(crate) fn say_refused(rt: &impl Print, refusal: Refusal) -> Result<()> {
    refused(refusal).text(b"\n").say(rt)
}

pub(crate) fn say_answer(rt: &impl Print, answer: Answer) -> Result<()> {
    answer_line(answer).text(b"\n").say(rt)
}

// A plan's line, then ` scratch`, and every number of it, each after a space
pub(crate) fn say_plan(rt: &impl Print, answer: Answer, scratch: &[f32]) -> Result<()> {
    answer_line(answer).text(b" scratch").say(rt)?;
    for numbers in scratch.chunks(NUMBERS_AT_ONCE) {
        let mut line = Line::empty();
        for &number in numbers {
            line = with_number(line, number);
        }
        line.say(rt)?;
    }
    say(rt, b"\n")
}

// ` buffer`, and after a space its bytes, where it has any
fn say_buffer(rt: &impl Print, buffer: &[u8]) -> Result<()> {
    if buffer.is_empty() {
        return say(rt, b" buffer\n");
    }
    say(rt, b" buffer ")?;
    for bytes in buffer.chunks(BYTES_AT_ONCE) {
        let mut line = Line::empty();
        for &byte in bytes {
            line = line.byte(byte);
        }
        line.say(rt)?;
    }
    say(rt, b"\n")
}

// `saved N`, or a refusal's line
fn saved_line(answer: Answer, bytes: usize) -> Line {
    match answer {
        Answer::Done => Line::empty().text(b"saved ").decimal(bytes as u64),
        _ => answer_line(answer),
    }
}

pub(crate) fn say_saved(
    rt: &impl Print,
    answer: Answer,
    bytes: usize,
    buffer: &[u8],
) -> Result<()> {
    saved_line(answer, bytes).say(rt)?;
    say_buffer(rt, buffer)
}

// A record's words, with a space between them
pub(crate) fn say_words(rt: &impl Print, words: [u32; RECORD_WORDS]) -> Result<()> {
    let mut line = Line::empty().word(words[0]);
    for &word in &words[1..] {
        line = line.text(b" ").word(word);
    }
    line.text(b"\n").say(rt)
}

// An agent's words, or a refusal's line
pub(crate) fn say_read(rt: &impl Print, read: &Read) -> Result<()> {
    match read.answer {
        Answer::Done => say_words(rt, read.words),
        answer => say_answer(rt, answer),
    }
}

// `fleet`, and the words of every agent
pub(crate) fn say_fleet(rt: &impl Print, fleet: &Fleet) -> Result<()> {
    say(rt, b"fleet\n")?;
    for index in 0..fleet.agent_count() {
        let standing = *fleet;
        say_read(rt, &standing.read(index))?;
    }
    Ok(())
}

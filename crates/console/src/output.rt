// What a program says, on standard output and standard error. A text that could not be written is an error, and the
// program is to end.
use super::Line;
use std::fmt;
use std::io::{Error, Result};

// A name of so many bytes leaves no room in a `Line` for what is said with it.
pub const LONG_NAME_BYTES: usize = 257;

// A text, or the bytes of a file.
pub fn say(rt: &impl Print, text: &[u8]) -> Result<()> {
    rt.write_all(text)
}

impl Line {
    // What has been put together.
    pub fn say(self, rt: &impl Print) -> Result<()> {
        say(rt, &self.bytes[..self.length])
    }
}

// A line up to the name in it. Where the name has `long` bytes or more, that is written already, and what follows is put together alone.
pub fn with_name(rt: &impl Print, line: Line, name: &[u8], long: usize) -> Result<Line> {
    if name.len() < long {
        return Ok(line.text(name));
    }
    line.say(rt)?;
    say(rt, name)?;
    Ok(Line::empty())
}

// `file NAME`, before what comes of a file that is named.
pub fn say_name(rt: &impl Print, name: &[u8]) -> Result<()> {
    say(rt, b"file ")?;
    say(rt, name)?;
    say(rt, b"\n")
}

// `u64` is not `From<usize>`, so a place is cast.
// `refused N P`, the number and the place of a refusal.
pub fn say_refused(rt: &impl Print, number: u32, place: usize) -> Result<()> {
    Line::empty()
        .text(b"refused ")
        .decimal(u64::from(number))
        .text(b" ")
        .decimal(place as u64)
        .text(b"\n")
        .say(rt)
}

// The line `unreadable`, after the reason on standard error.
pub fn say_unreadable(rt: &(impl Print + Eprint), name: &[u8], reason: &Error) -> Result<()> {
    complain_of(rt, name, reason);
    say(rt, b"unreadable\n")
}

// The reason why a call failed on an input of that name.
pub fn complain_of(rt: &impl Eprint, name: &[u8], reason: &Error) {
    if name.is_empty() {
        complain(rt, b"a FILE is empty, or too long for a name\n");
    } else {
        let name = Shown(name);
        let _ = eprintln!(rt; "{name}: {reason}");
    }
}

// A line on standard error. Where it can't be written there is no place to say so, and the program goes on.
pub fn complain(rt: &impl Eprint, text: &[u8]) {
    let text = Shown(text);
    let _ = eprint!(rt; "{text}");
}

// Bytes that need not be text, as a file's name. What is no UTF-8 in them is shown as U+FFFD.
#[derive(Drop)]
pub(crate) struct Shown<'a>(pub(crate) &'a [u8]);

impl<'a> fmt::Display for Shown<'a> {
    fn fmt<W: fmt::Write>(&self, f: &mut fmt::Formatter<W>) -> fmt::Result {
        for chunk in self.0.utf8_chunks() {
            f.write_str(chunk.valid())?;
            if !chunk.invalid().is_empty() {
                f.write_str("\u{fffd}")?;
            }
        }
        Ok(())
    }
}

// A program that takes each input as a list of cases, line by line.
use super::output::{Shown, with_name};
use super::programs::Program;
use super::{Filled, Line, inputs, output};
use std::io::{Error, Read, Result};

// What a program does with a list.
pub trait ListProgram {
    // The most bytes that its lists may have, if that is no more than there is space for.
    const MOST_BYTES: usize;

    // What its cases are, in capitals.
    const KIND: &'static [u8];

    // A name of so many bytes is not written at once with what is said of its list: with 0 no name is.
    const LONG_NAME: usize = 0;

    // How many cases were run.
    fn cases(&self) -> u64;

    // Before the first line.
    fn begin(&mut self) {}

    // A line without its end.
    fn run_line(&mut self, rt: &impl Print, place: Place<'_>, line: &[u8]) -> Result<()>;

    // After the last one.
    fn end(&mut self, _rt: &impl Print) -> Result<()> {
        Ok(())
    }
}

// Where a line stands: the name of its list, and its number, from 1 on.
#[derive(Clone, Copy)]
pub struct Place<'a> {
    pub name: &'a [u8],
    pub number: usize,
}

// What lends the program a space for each list, of a byte more than it may have, to `run_list`: no array here has a size that is
// the program's. Apart from `ListProgram`, which `run_list` goes on to.
pub trait ListSpace: ListProgram {
    fn run_in_space(
        &mut self,
        rt: &(impl Print + Eprint),
        input: &mut impl Read,
        name: &[u8],
    ) -> Result<()>;
}

// The most bytes that a list may have in `Lists`.
const MOST_BYTES: usize = 65536;

// Runs a program's lists, of at most 65,536 bytes, in a space of its own: the program lends none.
#[derive(Drop)]
pub struct Lists<P>(pub P);

// Runs a program's lists in the space that the program lends.
#[derive(Drop)]
pub struct ListsInSpace<P>(pub P);

fn without_end(line: &[u8]) -> &[u8] {
    match line {
        [text @ .., b'\n'] => text,
        _ => line,
    }
}

fn run_text<P: ListProgram>(
    rt: &impl Print,
    name: &[u8],
    text: &[u8],
    program: &mut P,
) -> Result<()> {
    let before = program.cases();
    program.begin();
    for (index, line) in text.split_inclusive(|&byte| byte == b'\n').enumerate() {
        let place = Place {
            name,
            number: index + 1,
        };
        program.run_line(rt, place, without_end(line))?;
    }
    program.end(rt)?;
    if program.cases() == before {
        let start = Line::empty().text(b"NO ").text(P::KIND).text(b" in ");
        with_name(rt, start, name, P::LONG_NAME)?
            .text(b"\n")
            .say(rt)?;
    }
    Ok(())
}

// `u64` is not `From<usize>`, so what is counted by a usize is cast.
// The reason is said on standard error.
fn say_too_long(rt: &(impl Print + Eprint), name: &[u8], long: usize, most: usize) -> Result<()> {
    let shown = Shown(name);
    let _ = eprintln!(rt; "{shown}: has more than {most} bytes");
    with_name(rt, Line::empty().text(b"unreadable "), name, long)?
        .text(b": has more than ")
        .decimal(most as u64)
        .text(b" bytes\n")
        .say(rt)
}

fn say_unreadable(
    rt: &(impl Print + Eprint),
    name: &[u8],
    long: usize,
    reason: &Error,
) -> Result<()> {
    output::complain_of(rt, name, reason);
    with_name(rt, Line::empty().text(b"unreadable "), name, long)?
        .text(b"\n")
        .say(rt)
}

// Runs a list that has at most `P::MOST_BYTES`, or as many as the space but one if those are fewer: the last is to know a
// longer list by. Into a space of no byte nothing is read.
pub fn run_list<P: ListProgram>(
    rt: &(impl Print + Eprint),
    input: &mut impl Read,
    name: &[u8],
    space: &mut [u8],
    program: &mut P,
) -> Result<()> {
    let most = P::MOST_BYTES.min(space.len().saturating_sub(1));
    let Filled { bytes, failure } = inputs::fill(input, space);
    if let Some(reason) = &failure {
        return say_unreadable(rt, name, P::LONG_NAME, reason);
    }
    if most < bytes {
        return say_too_long(rt, name, P::LONG_NAME, most);
    }
    run_text(rt, name, &space[..bytes], program)
}

impl<P: ListProgram> Program for Lists<P> {
    fn run(
        &mut self,
        rt: &(impl Print + Eprint),
        input: &mut impl Read,
        name: &[u8],
    ) -> Result<()> {
        let most = P::MOST_BYTES.min(MOST_BYTES);
        let mut space = [0u8; MOST_BYTES + 1];
        // no more than a byte past the most is read
        run_list(rt, input, name, &mut space[..most + 1], &mut self.0)
    }

    fn unreadable(
        &mut self,
        rt: &(impl Print + Eprint),
        name: &[u8],
        reason: &Error,
    ) -> Result<()> {
        say_unreadable(rt, name, P::LONG_NAME, reason)
    }
}

impl<P: ListSpace> Program for ListsInSpace<P> {
    fn run(
        &mut self,
        rt: &(impl Print + Eprint),
        input: &mut impl Read,
        name: &[u8],
    ) -> Result<()> {
        self.0.run_in_space(rt, input, name)
    }

    fn unreadable(
        &mut self,
        rt: &(impl Print + Eprint),
        name: &[u8],
        reason: &Error,
    ) -> Result<()> {
        say_unreadable(rt, name, P::LONG_NAME, reason)
    }
}

#[cfg(test)]
mod tests {
    use super::*;
    use std::io::ErrorKind;
    use std::test::Fail;

    // Counts the lines of lists of at most eight bytes, and lends no space.
    #[derive(Drop)]
    struct Counted {
        lines: u64,
    }

    impl ListProgram for Counted {
        const MOST_BYTES: usize = 8;

        const KIND: &'static [u8] = b"LINES";

        fn cases(&self) -> u64 {
            self.lines
        }

        fn run_line(&mut self, _rt: &impl Print, _place: Place<'_>, _line: &[u8]) -> Result<()> {
            self.lines = self.lines.saturating_add(1);
            Ok(())
        }
    }

    #[test]
    fn a_program_that_lends_no_space_has_its_lists_run(
        rt: HostRuntime,
    ) -> std::result::Result<(), Fail> {
        let mut lists = Lists(Counted { lines: 0 });
        let mut input: &[u8] = b"a\nb\ncd\n";
        assert!(rt; lists.run(&rt, &mut input, b"of three lines").is_ok());
        assert_eq!(rt; lists.0.lines, 3);
        let mut longer: &[u8] = b"a\nb\ncd\nef\n";
        assert!(rt; lists.run(&rt, &mut longer, b"of ten bytes").is_ok());
        assert_eq!(rt; lists.0.lines, 3);
        // a byte past the eight was read
        assert_eq!(rt; longer.len(), 1);
        let reason = Error::from(ErrorKind::NotFound);
        assert!(rt; lists.unreadable(&rt, b"that is not there", &reason).is_ok());
        Ok(())
    }
}

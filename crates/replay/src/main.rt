// Makes any sequence of calls on a fleet, for tests, audits and other people's tools, and prints what each
// answers.
//
//     replay [FILE ..]     standard input, or each file in turn; `-` is standard input
//
// An input is words, little-endian: the fleet file's length in bytes; that file, which is loaded; then calls of 22
// words each, the kind, the index, the length of scratch in numbers, and 19 arguments. A call that is made on a file has
// it right behind. `calls.rt` has the kinds, with what each takes, and `report.rt` the lines: one for each call, the load
// at the start first, and after the last call `fleet` and a line for each agent. Where that load is refused the table is
// empty, and the calls go on. Where an input can't be read as that, the line is `unreadable B`, B the byte at which the
// bad call starts, 0 for the length and the file at the start; no call from there on is made, and the fleet follows as
// usual. Where a read failed, the reason is said on standard error too. The first write that fails is said there, and
// ends the program.
//
// Calls are read one at a time, so there may be as many as a usize counts the bytes of. `--help` (`help.rt`) says all
// this on one screen.
#![tactic(auto)]

mod calls;
mod help;
mod input;
mod making;
mod report;

use console::arguments::{ask_for_help, is_standard_input};
use console::output::{complain_of, say_name};
use console::programs::{Program, run_inputs};
use fleet::Fleet;
use input::{CALL_BYTES, Source, Unreadable};
use std::io::{Error, Read, Result};

// More than 64 records.
const FILE_BYTES: usize = 65536;

// The last byte at which a call can start, and its end, with the longest file, still be counted.
const LAST_START: usize = usize::MAX - CALL_BYTES - 0xFFFF_FFFF;

// Where no fleet could be loaded.
fn end_unread(rt: &impl Print) -> Result<()> {
    report::say_unreadable(rt, 0)?;
    report::say_fleet(rt, &Fleet::empty())
}

// Makes the calls that are left, the first of which is at the byte `start`. A `while`, and no `for`: a call and the file that
// follows it have a length of their own. `usize` is not `From<u32>`, so that is cast.
fn make_calls<R: Print + Eprint>(
    source: &mut Source<'_, R, impl Read>,
    file: &mut [u8],
    fleet: Fleet,
    start: usize,
) -> Result<()> {
    let rt = source.rt;
    let mut fleet = fleet;
    let mut at = start;
    while at <= LAST_START {
        match source.next_call(file) {
            Ok(Some(call)) => {
                making::make(rt, &mut fleet, call, file)?;
                at += CALL_BYTES + call.file_length() as usize;
            }
            Ok(None) => break,
            Err(Unreadable) => {
                report::say_unreadable(rt, at)?;
                break;
            }
        }
    }
    report::say_fleet(rt, &fleet)
}

#[derive(Drop)]
struct Replay;

impl Program for Replay {
    fn named(&mut self, rt: &impl Print, name: &[u8]) -> Result<()> {
        say_name(rt, name)
    }

    fn run(
        &mut self,
        rt: &(impl Print + Eprint),
        input: &mut impl Read,
        name: &[u8],
    ) -> Result<()> {
        let name: &[u8] = if is_standard_input(name) {
            b"standard input"
        } else {
            name
        };
        let mut source = Source { rt, input, name };
        let mut file = [0u8; FILE_BYTES];
        let Some(length) = source.first_file(&mut file) else {
            return end_unread(rt);
        };
        let length = length as usize;
        let mut fleet = Fleet::empty();
        making::load(rt, &mut fleet, &file, length)?;
        make_calls(&mut source, &mut file, fleet, 4 + length)
    }

    fn unreadable(
        &mut self,
        rt: &(impl Print + Eprint),
        name: &[u8],
        reason: &Error,
    ) -> Result<()> {
        complain_of(rt, name, reason);
        end_unread(rt)
    }
}

fn main(rt: HostRuntime) -> Result<()> {
    if ask_for_help(&rt) {
        return help::say_help(&rt);
    }
    run_inputs(&rt, &mut Replay)
}

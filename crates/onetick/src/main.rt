// Reads a fleet file, runs one tick of 0.5 by the near rule, and prints a line for each agent: its index, three
// positions and three velocities, as 8 lower-case hex digits of their bits. Where a call is refused, the one line
// is `refused N P`, of the first such call.
//
//     onetick [FILE ..]     standard input, or each file in turn; `-` is standard input
//
// The line `file NAME` stands before what comes of a file that is named. For one that can't be read the line is
// `unreadable`, with the reason on standard error, and the next one goes on. The first write that fails ends the run.
#![tactic(auto)]

mod help;

use console::arguments::ask_for_help;
use console::files::{FileProgram, Files};
use console::programs::run_inputs;
use console::{Line, output};
use fleet::Fleet;
use flight::file_flown;
use planner::Rule;
use records::RECORD_WORDS;
use std::io::Result;

// The words of a record that are printed: its position and its velocity.
const SHOWN_WORDS: usize = 6;

// Each `say` fails where a write of standard output fails, and the program ends with that error.

// `u64` is not `From<usize>`, so what is counted by a usize is cast.
fn say_agent(rt: &impl Print, index: usize, words: [u32; RECORD_WORDS]) -> Result<()> {
    let mut line = Line::empty().decimal(index as u64);
    for &word in &words[..SHOWN_WORDS] {
        line = line.text(b" ").word(word);
    }
    line.text(b"\n").say(rt)
}

fn say_fleet(rt: &impl Print, fleet: Fleet) -> Result<()> {
    let mut fleet = fleet;
    for index in 0..fleet.agent_count() {
        let read = fleet.read(index);
        say_agent(rt, index, read.words)?;
        fleet = read.fleet;
    }
    Ok(())
}

#[derive(Drop)]
struct OneTick;

// As in `tenticks`, but for what comes of a fleet: console sees none.
impl FileProgram for OneTick {
    fn run_file(&mut self, rt: &impl Print, file: &[u8]) -> Result<()> {
        let flown = file_flown(file, 1, 0.5, Rule::Near);
        let answer = flown.answer;
        if answer.number() == 0 {
            say_fleet(rt, flown.fleet)
        } else {
            output::say_refused(rt, answer.number(), answer.place())
        }
    }
}

fn main(rt: HostRuntime) -> Result<()> {
    if ask_for_help(&rt) {
        return help::say_help(&rt);
    }
    run_inputs(&rt, &mut Files(OneTick))
}

// Reads a fleet file, runs ten ticks of 0.5 by the near rule, and writes the fleet file that they come to. Where a call
// is refused, the line `refused N P` of the first such call is written, and no fleet.
//
//     tenticks [FILE ..]     standard input, or each file in turn; `-` is standard input
//
// Where several files are named, the line `file NAME` stands before what comes of each. For one that can't be read
// the line is `unreadable`, with the reason on standard error. Neither line can be taken for a fleet file: its length
// is no multiple of 76. The first write that fails ends the run.
#![tactic(auto)]

mod help;

use console::arguments::{ask_for_help, is_there};
use console::files::{FileProgram, Files};
use console::output;
use console::programs::run_inputs;
use fleet::Fleet;
use flight::file_flown;
use planner::Rule;
use records::{MOST_AGENTS, RECORD_BYTES};
use std::io::Result;

const TICKS: usize = 10;

// The bytes of as many records as a fleet may have.
const FULL_FILE: usize = MOST_AGENTS * RECORD_BYTES;

// Each `say` fails where a write of standard output fails, and the program ends with that error.

#[tactic(auto, unfolding(fleet::specs::Save::save_call, fleet::specs::Save::short_buffer))]
fn say_saved(rt: &impl Print, fleet: Fleet) -> Result<()> {
    let mut file = [0u8; FULL_FILE];
    let saved = fleet.save(&mut file);
    output::say(rt, &file[..saved.bytes])
}

// Where one file alone is named, its name is not said: what is written is then a fleet file and nothing else.
#[derive(Drop)]
struct TenTicks {
    is_only: bool,
}

// As in `onetick`, but for what comes of a fleet: console sees none.
impl FileProgram for TenTicks {
    fn named(&mut self, rt: &impl Print, name: &[u8]) -> Result<()> {
        if self.is_only {
            Ok(())
        } else {
            output::say_name(rt, name)
        }
    }

    fn run_file(&mut self, rt: &impl Print, file: &[u8]) -> Result<()> {
        let flown = file_flown(file, TICKS, 0.5, Rule::Near);
        let answer = flown.answer;
        if answer.number() == 0 {
            say_saved(rt, flown.fleet)
        } else {
            output::say_refused(rt, answer.number(), answer.place())
        }
    }
}

fn main(rt: HostRuntime) -> Result<()> {
    if ask_for_help(&rt) {
        return help::say_help(&rt);
    }
    let is_only = !is_there(&rt, 2);
    run_inputs(&rt, &mut Files(TenTicks { is_only }))
}

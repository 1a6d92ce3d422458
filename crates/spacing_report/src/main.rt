// Reads frames of positions and prints the spacing report of each input: how many frames, where two agents came
// nearest, and how many pairs lay below a limit.
//
//     spacing_report AGENTS LIMIT [FILE ..]     standard input, or each file in turn; `-` is standard input
//
// `--help` (`help.rt`) says what an input is and what is printed. For a file that can't be read the line is `unreadable`.
// Why, and an argument that is no number, is said on standard error. The first write that fails ends the run.
#![tactic(auto)]

mod arguments;
mod frames;
mod help;
mod lines;

use arguments::{Asked, number_at};
use console::arguments::{ask_for_help, is_there};
use console::output;
use console::output::complain;
use console::programs::{Program, run_inputs_from};
use frames::{NoReport, report_of};
use spacing::{Tallied, Tally};
use std::io::{Input, Read, Result};
use std::rt::{Env, Files};

// The argument that names the first input, behind AGENTS and LIMIT.
const FIRST_NAME: usize = 3;

impl Program for Asked {
    fn named(&mut self, rt: &impl Print, name: &[u8]) -> Result<()> {
        output::say_name(rt, name)
    }

    fn run(
        &mut self,
        rt: &(impl Print + Eprint),
        input: &mut impl Read,
        name: &[u8],
    ) -> Result<()> {
        match report_of(input, *self) {
            Ok(report) => lines::say_report(rt, report, self.limit),
            Err(NoReport::Refused(refusal, frame)) => lines::say_refused_frame(rt, refusal, frame),
            Err(NoReport::Unreadable(reason)) => output::say_unreadable(rt, name, &reason),
        }
    }
}

// A tally for more than 64 agents is refused, and no other.
#[tactic(auto, unfolding(spacing::specs::Tally::begun))]
fn run(rt: &(impl Print + Eprint + Input + Files + Env), agents: usize, limit: u32) -> Result<()> {
    let Tallied { answer, tally } = Tally::begin(agents, limit);
    match answer {
        Ok(()) => {
            let mut asked = Asked {
                tally,
                agents,
                limit,
            };
            run_inputs_from(rt, FIRST_NAME, &mut asked)
        }
        Err(refusal) => output::say_refused(rt, refusal.number(), refusal.place()),
    }
}

fn main(rt: HostRuntime) -> Result<()> {
    if ask_for_help(&rt) {
        return help::say_help(&rt);
    }
    if !is_there(&rt, 2) {
        complain(
            &rt,
            b"usage: spacing_report AGENTS LIMIT [FILE ..]; try --help\n",
        );
        return Ok(());
    }
    let agents = number_at(&rt, 1);
    let limit = number_at(&rt, 2).and_then(|limit| u32::try_from(limit).ok());
    if agents.is_none() {
        complain(
            &rt,
            b"spacing_report: AGENTS has to be a number in decimal digits; try --help\n",
        );
    }
    if limit.is_none() {
        complain(
            &rt,
            b"spacing_report: LIMIT has to be a number in decimal digits, up to 4294967295; try --help\n",
        );
    }
    match (agents, limit) {
        (Some(agents), Some(limit)) => run(&rt, agents, limit),
        // which of them is not as it has to be is said already
        _ => Ok(()),
    }
}

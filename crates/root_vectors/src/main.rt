// Runs stored square roots through `vectors::root` and compares. Its arguments are the lists, of `data/`: the GNU C
// Library's (root-binary32.txt) and document 01's four (document-01.txt). It prints a line for each pair,
// `argument wanted got same`, with `DIFFERENT` for `same` where the last two differ, and then how many there were. A line
// that is no pair, a list that can't be read whole, and one that has no pair (empty.txt, comments.txt) are said where
// they stand, so that nothing is passed over in silence; a run without a pair says so in the place of the counts. The
// first write that fails ends the run. `--help` (`help.rt`) says all this on one screen.
//
//     root_vectors [FILE ..]     each list in turn; `-` is standard input
#![tactic(auto)]

mod help;
mod pairs;
mod report;

use console::arguments::ask_for_help;
use console::lists::{ListProgram, ListSpace, ListsInSpace, Place, run_list};
use console::programs::run_named;
use pairs::Line;
use report::Tally;
use std::io::{Read, Result};
use vectors::number::{from_word, to_word};
use vectors::root::root;

// The most bytes of a list.
const MOST_BYTES: usize = 4096;

impl ListProgram for Tally {
    const MOST_BYTES: usize = MOST_BYTES;

    const KIND: &'static [u8] = b"PAIRS";

    // every name is written by itself, as in `say_malformed`
    const LONG_NAME: usize = 0;

    fn cases(&self) -> u64 {
        self.pairs
    }

    fn run_line(&mut self, rt: &impl Print, place: Place<'_>, line: &[u8]) -> Result<()> {
        match pairs::read_line(line) {
            Line::Pair(argument, wanted) => {
                let got = to_word(root(from_word(argument)));
                self.count(got == wanted);
                report::say_pair(rt, argument, wanted, got)
            }
            Line::Comment => Ok(()),
            Line::Malformed => report::say_malformed(rt, place),
        }
    }
}

impl ListSpace for Tally {
    fn run_in_space(
        &mut self,
        rt: &(impl Print + Eprint),
        input: &mut impl Read,
        name: &[u8],
    ) -> Result<()> {
        let mut space = [0u8; MOST_BYTES + 1];
        run_list(rt, input, name, &mut space, self)
    }
}

fn main(rt: HostRuntime) -> Result<()> {
    if ask_for_help(&rt) {
        return help::say_help(&rt);
    }
    let mut lists = ListsInSpace(Tally::default());
    run_named(&rt, &mut lists)?;
    report::say_tally(&rt, lists.0)
}

// Runs stored velocity calls and compares. Its arguments are the files, of `data/`: the worked ones, which are
// document 01's examples (document-01.txt), each branch of an answer (answers.txt), one input for each refusal
// and each rule on places (refusals.txt), as many neighbours as there may be (neighbours.txt), and neighbours that
// are unseen (unseen.txt); then what the
// published Rust gives, a file rust-KIND.txt for each kind of input, of which docs/oracle-velocity.md says how
// they were made. It prints a line for each example, its name and `same`, or `DIFFERENT` with what was got, and
// then how many there were. The answer is compared with its place and its velocity by bits, and scratch number
// by number. A line that can't be read, a file that can't be read whole, and one that has no case (empty.txt,
// comments.txt) are said where they stand, so that nothing is passed over in silence; a run without a case says so in
// the place of the counts. The first write that fails ends the run. `--help` (`help.rt`) says all this on one screen.
//
//     velocity_vectors [FILE ..]     each file in turn; `-` is standard input
//
// An example is a line `case NAME`, lines that change what stands before the first case, and the answer
// that is wanted:
//
//     at P W ..            the numbers from place P on, in document 01's list of places
//     cut N                the first N numbers only
//     scratch N W          a scratch of N numbers, which holds the words W, W + 1, ..
//     plane K W W W W W W  the plane of neighbour K, point and normal
//     unseen K             neighbour K is the first that is unseen, and is named; where there is no such line, none
//     free W W W           the velocity
//     relaxed K W W W      the velocity, relaxed from plane K
//     refused N P          the refusal N, with the place P
#![tactic(auto)]

ghost use Rattle.std.specs.Prelude.{◌≤◌, length};

mod answers;
mod cases;
mod help;
mod judgements;
mod report;
mod said;
mod scratch;

use answers::Answer;
use avoidance::velocity::velocity;
use cases::{Case, MOST_SCRATCH};
use console::Line;
use console::arguments::ask_for_help;
use console::lists::{ListProgram, ListSpace, ListsInSpace, Place, run_list};
use console::output::{LONG_NAME_BYTES, with_name};
use console::programs::run_named;
use judgements::Difference;
use planes::lent::read_request;
use report::Tally;
use said::{Change, Said};
use std::io;
use std::io::Read;

// Why a line comes to nothing: it can't be read, or what it says could not be written.
#[derive(Drop)]
enum Fault {
    Malformed,
    Unwritten(io::Error),
}

// What stands between two lines of a list.
#[derive(Drop)]
struct State {
    case: Case,
    // what every case starts from: what stands before the first of the list, once that is begun
    standard: Option<Case>,
    // the line of the case that has no answer yet, up to its name
    open: Option<Line>,
    tally: Tally,
}

#[tactic(auto, unfolding(planes::specs::Lent::read_request))]
fn call(numbers: &[f32], scratch: &mut [f32]) -> Answer
    requires { 17 ≤ length numbers.now }
{
    let Some(request) = read_request(&numbers[..17]) else {
        unreachable!()
    };
    answers::answer_of(velocity(request, &numbers[17..], scratch))
}

// Runs a case on the scratch that is lent to it.
fn run_in(scratch: &mut [f32], case: &Case, wanted: Answer) -> Option<Difference>
    requires { length scratch.old ≤ 800 }
{
    scratch::fill_with(scratch, case.fill);
    let got = call(&case.numbers[..case.length], scratch);
    judgements::judge(case, wanted, got, scratch)
}

fn run(case: &Case, wanted: Answer) -> Option<Difference> {
    let mut space = [0.0f32; MOST_SCRATCH];
    run_in(&mut space[..case.scratch], case, wanted)
}

impl State {
    fn new() -> State {
        State {
            case: Case::empty(),
            standard: None,
            open: None,
            tally: Tally::default(),
        }
    }

    // Ends a case that has no answer.
    fn close(&mut self, rt: &impl Print) -> io::Result<()> {
        match self.open.take() {
            Some(line) => self.tally.unanswered(rt, line),
            None => Ok(()),
        }
    }

    // `case NAME`: the name is kept for the line of its answer.
    fn start(&mut self, rt: &impl Print, name: &[u8]) -> io::Result<()> {
        self.close(rt)?;
        let standard = self.standard.unwrap_or(self.case);
        self.standard = Some(standard);
        self.case = standard;
        self.open = Some(with_name(rt, Line::empty(), name, LONG_NAME_BYTES)?.text(b": "));
        Ok(())
    }

    fn answer(&mut self, rt: &impl Print, mut wanted: Answer) -> Result<(), Fault> {
        let line = self.open.take().ok_or(Fault::Malformed)?;
        wanted.unseen = self.case.unseen;
        self.tally
            .judged(rt, line, run(&self.case, wanted))
            .map_err(Fault::Unwritten)
    }

    // After an answer there is nothing to change until the next case.
    fn change(&mut self, change: Change<'_>) -> Result<(), Fault> {
        if self.standard.is_some() && self.open.is_none() {
            return Err(Fault::Malformed);
        }
        self.case = self.case.changed(change).ok_or(Fault::Malformed)?;
        Ok(())
    }

    fn run(&mut self, rt: &impl Print, key: &[u8], text: &[u8]) -> Result<(), Fault> {
        if key == b"case".as_slice() {
            return self.start(rt, text).map_err(Fault::Unwritten);
        }
        let fields = lines::read_fields(text).map_err(|_| Fault::Malformed)?;
        match said::read(key, &fields).ok_or(Fault::Malformed)? {
            Said::Change(change) => self.change(change),
            Said::Wanted(wanted) => self.answer(rt, wanted),
        }
    }
}

// The most bytes of a list.
const MOST_BYTES: usize = 65536;

impl ListProgram for State {
    const MOST_BYTES: usize = MOST_BYTES;

    const KIND: &'static [u8] = b"CASES";

    const LONG_NAME: usize = LONG_NAME_BYTES;

    fn cases(&self) -> u64 {
        self.tally.cases
    }

    fn begin(&mut self) {
        self.case = Case::empty();
        self.standard = None;
    }

    fn run_line(&mut self, rt: &impl Print, place: Place<'_>, line: &[u8]) -> io::Result<()> {
        if lines::is_comment(line) {
            return Ok(());
        }
        match self.run(rt, lines::key(line), lines::after_key(line)) {
            Ok(()) => Ok(()),
            Err(Fault::Malformed) => self.tally.malformed(rt, place),
            Err(Fault::Unwritten(error)) => Err(error),
        }
    }

    fn end(&mut self, rt: &impl Print) -> io::Result<()> {
        self.close(rt)
    }
}

impl ListSpace for State {
    fn run_in_space(
        &mut self,
        rt: &(impl Print + Eprint),
        input: &mut impl Read,
        name: &[u8],
    ) -> io::Result<()> {
        let mut space = [0u8; MOST_BYTES + 1];
        run_list(rt, input, name, &mut space, self)
    }
}

fn main(rt: HostRuntime) -> io::Result<()> {
    if ask_for_help(&rt) {
        return help::say_help(&rt);
    }
    let mut lists = ListsInSpace(State::new());
    run_named(&rt, &mut lists)?;
    report::say_tally(&rt, lists.0.tally)
}

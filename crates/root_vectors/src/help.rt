// What `--help` prints: one screen, of 24 lines and 79 characters.
use console::output::say;
use std::io::Result;

pub(crate) fn say_help(rt: &impl Print) -> Result<()> {
    say(
        rt,
        b"usage: root_vectors [FILE ..]

Compares the square root of the crate \"vectors\" with stored ones, bit for bit,
those of each FILE in turn; - is standard input.

A FILE is text, of up to 4096 bytes. Each line has an argument and its root, as
the 8 lower-case hex digits of their binary32 patterns, with a space between:
    40000000 3fb504f3
A line that is empty or starts with # is passed over.

A line is printed for each pair: the argument, the root that is wanted, the
root that was got, and \"same\", or \"DIFFERENT\" where the two roots are not:
    40000000 3fb504f3 3fb504f3 same
A line that is no pair, a FILE that can't be read, one that is too long and one
that has no pair give these, where they stand:
    FILE: no pair of words in line N
    unreadable FILE
    unreadable FILE: has more than 4096 bytes
    NO PAIRS in FILE
The last line has the counts: \"49 pairs, 0 different\". Where there was none it
is \"NO PAIRS: nothing was compared\". Why a FILE can't be read is said on
standard error; so is a write that fails, which ends the run.
",
    )
}

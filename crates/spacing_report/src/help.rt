// What `--help` prints: one screen, of 24 lines and 79 characters.
use console::output::say;
use std::io::Result;

pub(crate) fn say_help(rt: &impl Print) -> Result<()> {
    say(
        rt,
        b"usage: spacing_report AGENTS LIMIT [FILE ..]

Says how near the agents of a recording came to each other, for each FILE in
turn, or for standard input where none is named; the FILE - is standard input.
AGENTS is how many agents there are, up to 64. LIMIT is a distance in whole
millimetres, up to 4294967295.

A recording is frames back to back, 12 bytes an agent: x, y and z in metres,
each a little-endian binary32. For each recording three lines are printed,
after a line \"file NAME\" where files are named:
    frames 1200
    smallest 1250 mm, squared 1562500, frame 17, agents 0 and 2
    below 1500 mm: 12
Positions count to the nearest millimetre. The smallest distance is rounded
down, its square is not, and the first frame and pair that had it are named,
counted from 0; it is \"smallest none\" where no frame has two agents. The last
line counts the pairs nearer than LIMIT in all frames.
The first frame that is refused ends its recording, with one line instead:
    refused 14 P frame F    P numbers, rounded down, are left: no whole frame
    refused 9 P frame F     a frame past the first P, 1048576
    refused 19 P frame F    number P of the frame is not from -16384 to 16384
With 0 AGENTS any byte is refused by 14; over 64 give the line \"refused 9 64\".
A file that can't be read gives the line \"unreadable\"; the reason, a bad
argument and a write that fails, which ends the run, are on standard error.
",
    )
}

// What `--help` prints: one screen, of 24 lines and 79 characters.
use console::output::say;
use std::io::Result;

pub(crate) fn say_help(rt: &impl Print) -> Result<()> {
    say(
        rt,
        b"usage: onetick [FILE ..]

Runs one tick of half a second, by the near rule, of the fleet in each FILE in
turn, or in standard input where none is named; the FILE - is standard input.

A fleet file is records of 76 bytes, 19 little-endian words each: position
(3 words), velocity (3), radius, responsibility, goal (3), maximum speed, time
horizon, fallback direction (3), obstacle time horizon, margin (0 or 1) and
distance. Lengths are in metres, times in seconds.

A line is printed for each agent, after a line \"file NAME\" where files are
named: its index, its position and its velocity after the tick, as the 8 hex
digits of their binary32 patterns:
    0 3f000000 00000000 00000000 3f800000 00000000 00000000
The first call that is refused ends the tick, with one line instead:
    refused N P    the refusal's number and its place; 4 at 25 is record 1,
                   word 6, a radius below 0
A file that can't be read gives the line \"unreadable\", and the reason on
standard error. The first write that fails ends the run, and is said there too.
",
    )
}

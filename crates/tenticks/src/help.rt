// What `--help` prints: one screen, of 24 lines and 79 characters.
use console::output::say;
use std::io::Result;

pub(crate) fn say_help(rt: &impl Print) -> Result<()> {
    say(
        rt,
        b"usage: tenticks [FILE ..]

Runs ten ticks of half a second, by the near rule, of the fleet in a file, and
writes the fleet file after them to standard output:
    tenticks < BEFORE > AFTER
    tenticks BEFORE > AFTER
With no FILE it reads standard input; the FILE - is standard input. Where
several are named, a line \"file NAME\" stands before what comes of each.

A fleet file is records of 76 bytes, 19 little-endian words each: position
(3 words), velocity (3), radius, responsibility, goal (3), maximum speed, time
horizon, fallback direction (3), obstacle time horizon, margin (0 or 1) and
distance. Lengths are in metres, times in seconds.

The first call that is refused, in any tick, ends the flight. No fleet is
written then, and one line instead:
    refused N P    the refusal's number and its place; 4 at 25 is record 1,
                   word 6, a radius below 0
A file that can't be read gives the line \"unreadable\", and the reason on
standard error. The first write that fails ends the run, and is said there too.
",
    )
}

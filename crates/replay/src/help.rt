// What `--help` prints: one screen, of 24 lines and 79 characters.
use console::output::say;
use std::io::Result;

pub(crate) fn say_help(rt: &impl Print) -> Result<()> {
    say(
        rt,
        b"usage: replay [FILE ..]

Makes calls on a fleet and prints what each answers, for each FILE in turn, or
for standard input where none is named; the FILE - is standard input. An input
is little-endian words: the length in bytes of a fleet file; that file, which
is loaded; then calls of 22 words each: the kind, an index I, a length of
scratch S (up to 1024), and 19 arguments, of which A, B and C are the first.
   1 add the 19 as a record     8 close
   2 put the same at I          9 drop
   3 remove I                  10 load a file of A bytes, which follows
   4 read I                    11 save into A bytes (up to 8192), a5 before
   5 goal of I: A B C          12 read record I of a file of A bytes, likewise
   6 open a tick: step A,      13 plan I on S numbers and show them; before
     rule B (0 source, 1 near)    they are those of the words A, A+1 and on
   7 plan I on S numbers
That load and each call print a line, after \"file NAME\" where FILEs are named:
    done     refused N P (number, place)     a record's 19 words
    velocity X Y Z, then free or relaxed K, then unseen J where one is
    11: saved N or refused 16 P, then buffer BYTES
    13: the line of 7, then scratch NUMBERS
At the end stand \"fleet\" and each agent's words. N, P, K, J and B are decimal,
the rest is hex. What can't be read as a call, a file that ends too early too,
ends the calls by \"unreadable B\", B the byte at which it starts. A read that
fails is said on standard error too; so is a write, which ends the program.
",
    )
}

// What `--help` prints: one screen, of 24 lines and 79 characters.
use console::output::say;
use std::io::Result;

pub(crate) fn say_help(rt: &impl Print) -> Result<()> {
    say(
        rt,
        b"usage: velocity_vectors [FILE ..]

Makes the velocity calls that are stored in each FILE in turn, and compares the
answer and the scratch of each with what is wanted; - is standard input.
A FILE is text, of up to 65536 bytes. A case is a line \"case NAME\", lines that
change what stands before the first case, and the answer that is wanted:
    at P W ..            the call's numbers from place P on
    cut N                the first N numbers only
    scratch N W          N numbers of scratch, the words W, W + 1 and on
    plane K W W W W W W  the plane of neighbour K, point and normal
    unseen K             neighbour K is the first that is unseen
    free W W W           the velocity
    relaxed K W W W      the velocity, relaxed from plane K
    refused N P          the number of a refusal, and its place
W is 8 lower-case hex digits, a binary32 pattern; the rest is decimal. A line
that is empty or starts with # is passed over. A line is printed for each case:
    NAME: same           NAME: NO ANSWER
    NAME: DIFFERENT, got NUMBER PLACE PLANE UNSEEN X Y Z INDEX
INDEX is where scratch first differs, or its length; for no PLANE and no UNSEEN
stands 18446744073709551615. What can't be read is said where it stands:
    malformed line N of FILE                         NO CASES in FILE
    unreadable FILE      unreadable FILE: has more than 65536 bytes
The last line counts: \"9 cases, 0 different, 0 malformed lines\". It may be \"NO
CASES: nothing was compared\". Reasons and failed writes are on standard error.
",
    )
}

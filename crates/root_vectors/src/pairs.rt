// The lists of `data/`, a line at a time. A line is a pair of words, `hhhhhhhh hhhhhhhh`, a comment, or
// malformed. The definitions are in `specs/Pairs.antt`.
ghost use Rattle.std.specs.Prelude.{◌≡◌};
ghost use Rattle.root_vectors.specs.Pairs.{line_of};

#[derive(Clone, Copy)]
pub enum Line {
    Pair(u32, u32),
    Comment,
    Malformed,
}

// What a line without its end says.
#[tactic(auto, unfolding(crate::specs::Pairs::line_of))]
pub fn read_line(text: &[u8]) -> Line
    ensures { result ≡ line_of text.now }
{
    if lines::is_comment(text) {
        return Line::Comment;
    }
    if text.len() != 17 || text[8] != b' ' {
        return Line::Malformed;
    }
    match (lines::word(&text[..8]), lines::word(&text[9..])) {
        (Some(argument), Some(wanted)) => Line::Pair(argument, wanted),
        _ => Line::Malformed,
    }
}

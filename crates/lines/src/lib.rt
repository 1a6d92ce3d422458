// Lines of a stored list, as the programs that run one read them: where a part ends, a comment, a key,
// and the fields after it, each a count or a word. The definitions are in `specs/Lines.antt`.
#![tactic(auto)]

ghost use Rattle.std.specs.Prelude.{◌≡◌, ◌≤◌, length};
ghost use Rattle.lines.specs.Lines.{digit_of, spelled_in, word_of, count_of, length_until, is_comment, key_of, after_key, with_count, with_word, with_field, no_fields, fields_of};

use std::marker::Model;

// The most counts and words of a line.
const MOST_COUNTS: usize = 2;

const MOST_WORDS: usize = 8;

// The fields of a line: the first `counted` counts, and the first `worded` words, before which all counts stand. A place
// past the last is 0, so that the lists give the fields back. No ArrayVec, since that is not `Copy`.
#[derive(Clone, Copy)]
pub struct Fields {
    pub counts: [usize; MOST_COUNTS],
    pub counted: usize,
    pub words: [u32; MOST_WORDS],
    pub worded: usize,
}

impl Model for Fields {
    ghost use Rattle.std.specs.Prelude.{take, length};
    ghost use Rattle.lines.specs.Fields.{Lists, filled, IsFilled, filled_back};
    ghost use Rattle.std.proofs.Common.{length-take-le};

    ghost Value = { Lists };

    ghost view = { λ f. record { counts = take f.counted f.counts; words = take f.worded f.words } };

    ghost invariant = { λ f. IsFilled 2 f.counted f.counts × IsFilled 8 f.worded f.words };

    ghost inverse = { λ v. record { counts = filled 2 v.counts; counted = length v.counts; words = filled 8 v.words; worded = length v.words } };

    ghost inverse_ok = { λ f h i. record {
      counts = filled_back 2 f.counted f.counts h.0 i;
      counted = length-take-le f.counted f.counts h.0.0 i;
      words = filled_back 8 f.worded f.words h.1 i;
      worded = length-take-le f.worded f.words h.1.0 i;
    } };
}

// Why a line is malformed is not said, but which of its fields can be read.
#[derive(Clone, Copy)]
pub struct Malformed {
    pub fields: Fields,
}

// How many bytes stand before the first `byte`.
pub fn length_until(text: &[u8], byte: u8) -> usize
    ensures value { result ≡ length_until byte text.now }
    ensures within { result ≤ length text.now }
{
    text.iter()
        .position(|&other| other == byte)
        .unwrap_or(text.len())
}

// Whether a line is a comment: it is empty, or starts with `#`.
#[tactic(auto, unfolding(crate::specs::Lines::is_comment))]
pub fn is_comment(line: &[u8]) -> bool
    ensures { result ≡ is_comment line.now }
{
    matches!(line, [] | [b'#', ..])
}

// The key of a line: what stands before the first space.
#[tactic(auto, unfolding(crate::specs::Lines::key_of))]
pub fn key(line: &[u8]) -> &[u8]
    ensures { result.now ≡ key_of line.now }
{
    &line[..length_until(line, b' ')]
}

// What stands after the key and its space.
#[tactic(auto, unfolding(crate::specs::Lines::after_key))]
pub fn after_key(line: &[u8]) -> &[u8]
    ensures { result.now ≡ after_key line.now }
{
    match &line[length_until(line, b' ')..] {
        [_, rest @ ..] => rest,
        [] => &[],
    }
}

// The value of a hexadecimal digit, lower-case: `to_digit` takes upper-case ones too.
#[tactic(auto, unfolding(crate::specs::Lines::digit_of))]
fn digit(byte: u8) -> Option<u32>
    ensures { result ≡ digit_of byte }
{
    match byte {
        b'0'..=b'9' => Some(u32::from(byte - b'0')),
        b'a'..=b'f' => Some(u32::from(byte - b'a') + 10),
        _ => None,
    }
}

// The number that digits spell in a base.
#[tactic(auto, using(crate::proofs::Digits::digit_by_digit))]
fn spelled(digits: &[u8], base: u32) -> Option<u32>
    requires { (base ≤ 16) × (length digits.now ≤ 8) }
    ensures { result ≡ spelled_in base 0 digits.now }
{
    let mut value = 0;
    for &byte in digits {
        let next = digit(byte)?;
        if base <= next {
            return None;
        }
        value = value * base + next;
    }
    Some(value)
}

// A word is eight hexadecimal digits, lower-case.
#[tactic(auto, unfolding(crate::specs::Lines::word_of))]
pub fn word(field: &[u8]) -> Option<u32>
    ensures { result ≡ word_of field.now }
{
    if field.len() != 8 {
        return None;
    }
    spelled(field, 16)
}

// A count is one to four decimal digits.
#[tactic(auto, unfolding(crate::specs::Lines::count_of))]
pub fn count(field: &[u8]) -> Option<u32>
    ensures { result ≡ count_of field.now }
{
    if !matches!(field.len(), 1..=4) {
        return None;
    }
    spelled(field, 10)
}

impl Fields {
    #[tactic(auto, unfolding(crate::specs::Lines::no_fields))]
    fn none() -> Fields
        ensures { result ≡ no_fields }
    {
        Fields {
            counts: [0; MOST_COUNTS],
            counted: 0,
            words: [0; MOST_WORDS],
            worded: 0,
        }
    }

    // The counts, in order.
    pub fn counts(&self) -> &[usize]
        ensures { result.now ≡ self.now.counts }
    {
        &self.counts[..self.counted]
    }

    // The words, in order.
    pub fn words(&self) -> &[u32]
        ensures { result.now ≡ self.now.words }
    {
        &self.words[..self.worded]
    }

    // `usize` is not `From<u32>`, so a word that counts is cast.
    // At most two counts, before all words.
    #[tactic(auto, unfolding(crate::specs::Lines::with_count))]
    fn with_count(mut self, count: u32) -> Option<Fields>
        ensures { result ≡ with_count self count }
    {
        if self.worded != 0 || self.counted == MOST_COUNTS {
            return None;
        }
        self.counts[self.counted] = count as usize;
        self.counted += 1;
        Some(self)
    }

    // At most eight words.
    #[tactic(auto, unfolding(crate::specs::Lines::with_word))]
    fn with_word(mut self, word: u32) -> Option<Fields>
        ensures { result ≡ with_word self word }
    {
        if self.worded == MOST_WORDS {
            return None;
        }
        self.words[self.worded] = word;
        self.worded += 1;
        Some(self)
    }

    // With one more, whose length says what it is.
    #[tactic(auto, unfolding(crate::specs::Lines::with_field))]
    fn with_field(self, field: &[u8]) -> Option<Fields>
        ensures { result ≡ with_field self field.now }
    {
        if field.len() == 8 {
            self.with_word(word(field)?)
        } else {
            self.with_count(count(field)?)
        }
    }
}

// The fields of what stands after a key, a space between two; where one of them can't be read, those that can.
#[tactic(auto, using(crate::proofs::Parts::one_by_one), unfolding(crate::specs::Lines::fields_of))]
pub fn read_fields(text: &[u8]) -> Result<Fields, Malformed>
    ensures { result ≡ fields_of text.now }
{
    let mut fields = Fields::none();
    let mut is_malformed = false;
    let mut rest = text;
    // no `split`: that has a part more behind a space at the end
    while !rest.is_empty() {
        match fields.with_field(key(rest)) {
            Some(more) => fields = more,
            None => is_malformed = true,
        }
        rest = after_key(rest);
    }
    if is_malformed {
        Err(Malformed { fields })
    } else {
        Ok(fields)
    }
}

// The record checks 15, 3, 4 and 5. The definitions are in `specs/Checks.antt`.
ghost use Rattle.std.specs.Prelude.{◌≡◌, ◌*◌, ◌≤◌, ◌<◌, IfSome};
ghost use Rattle.refusals.specs.Conditions.{first_bad};
ghost use Rattle.records.specs.Record.{per_record, most_agents};
ghost use Rattle.records.specs.Checks.{bad_margin, word_kind, bad_word, record_verdict};

use super::{
    DISTANCE_WORD, FALLBACK_WORD, HORIZON_WORD, MARGIN_WORD, MAX_SPEED_WORD, RADIUS_WORD,
    RECORD_WORDS, RESPONSIBILITY_WORD, Record,
};
use refusals::Refusal;
use requests::checks::{bad_fallback, is_outside};
use requests::{Asked, Kind};
use vectors::number::{from_word, is_finite};

#[tactic(auto, unfolding(crate::specs::Checks::bad_margin, crate::specs::Record::word_at))]
fn bad_margin(stored: Record) -> Option<usize>
    ensures found { result ≡ bad_margin stored }
    ensures within { IfSome result (λ place. place < per_record) }
{
    let margin = stored.words[MARGIN_WORD];
    let is_unknown = 1 < margin;
    if is_unknown {
        return Some(MARGIN_WORD);
    }
    if margin == 0 && stored.words[DISTANCE_WORD] != 0 {
        return Some(DISTANCE_WORD);
    }
    None
}

#[tactic(auto, unfolding(crate::specs::Checks::word_kind))]
fn word_kind(place: usize) -> Kind
    ensures { result ≡ word_kind place }
{
    match place {
        RADIUS_WORD | RESPONSIBILITY_WORD | MAX_SPEED_WORD => Kind::NotNegative,
        HORIZON_WORD => Kind::Positive,
        _ => Kind::Any,
    }
}

// The margin word is no number. What is asked is a case of `Asked`, as in `bad_word` of the definitions and in the claims.
#[tactic(auto, unfolding(crate::specs::Checks::bad_word))]
fn is_bad(asked: Asked, place: usize, word: u32) -> bool
    ensures { result ≡ bad_word asked place word }
{
    match asked {
        Asked::Finite => place != MARGIN_WORD && !is_finite(from_word(word)),
        Asked::InRange => is_outside(word_kind(place), from_word(word)),
    }
}

// The lowest place of a bad word. The velocity call has its own search: one for both would be public and take the test,
// and a function that takes a closure has to ask of its caller that it may be called, which no public one does.
#[tactic(auto, using(crate::proofs::BadSteps::bad_steps))]
fn first_bad(asked: Asked, words: [u32; RECORD_WORDS]) -> Option<usize>
    ensures found { result ≡ first_bad (bad_word asked) 0 words }
    ensures within { IfSome result (λ place. place < per_record) }
{
    for (place, &word) in words.iter().enumerate() {
        if is_bad(asked, place, word) {
            return Some(place);
        }
    }
    None
}

// Each check is finished over all its words before the next. Word 0 is at the place `start`.
#[tactic(auto, unfolding(crate::specs::Checks::record_verdict))]
pub(crate) fn record_verdict(start: usize, stored: Record) -> Result<(), Refusal>
    requires { start ≤ per_record * most_agents }
    ensures { result ≡ record_verdict start stored }
{
    let words = stored.words;
    if let Some(place) = bad_margin(stored) {
        return Err(Refusal::BadMargin {
            place: start + place,
        });
    }
    if let Some(place) = first_bad(Asked::Finite, words) {
        return Err(Refusal::NotFinite {
            place: start + place,
        });
    }
    if let Some(place) = first_bad(Asked::InRange, words) {
        return Err(Refusal::OutOfRange {
            place: start + place,
        });
    }
    if bad_fallback(stored.fallback()) {
        return Err(Refusal::BadFallback {
            place: start + FALLBACK_WORD,
        });
    }
    Ok(())
}

impl Record {
    // What the checks say of it, with places among its own words.
    pub fn verdict(self) -> Result<(), Refusal>
        ensures { result ≡ record_verdict 0 self }
    {
        record_verdict(0, self)
    }
}

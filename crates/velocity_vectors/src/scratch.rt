// What a velocity call is lent as scratch, and what it is to leave there. The definitions are in
// `specs/Scratch.antt`.
ghost use Rattle.std.specs.Prelude.{◌≡◌, ◌+◌, ◌%◌, ◌^◌, ◌<◌, ◌≤◌, length};
ghost use Rattle.velocity_vectors.specs.Scratch.{word_before, clears, wanted_word, AsWanted};

use vectors::number::{from_word, to_word};

// The word that scratch is filled with at `index`, where the first is `fill`. `u32` is not `From<usize>`, so the index is cast.
fn filled(fill: u32, index: usize) -> u32
    requires { index < 800 }
    ensures { result ≡ (fill + index) % 2 ^ 32 }
{
    fill.wrapping_add(index as u32)
}

// That scratch has no more numbers, and no index past them, stands in each contract here, and in those of who lends it: a struct
// that said so would hold one slice, and be made in one place.
pub(crate) fn fill_with(scratch: &mut [f32], fill: u32)
    requires { length scratch.old ≤ 800 }
{
    for (index, number) in scratch.iter_mut().enumerate() {
        *number = from_word(filled(fill, index));
    }
}

// The word that stands at `index` before the call.
#[tactic(auto, unfolding(crate::specs::Scratch::word_before))]
fn word_before(fill: u32, index: usize) -> u32
    requires { index < 800 }
    ensures { result ≡ word_before fill index }
{
    to_word(from_word(filled(fill, index)))
}

// Whether a refusal's number is one of those that leave +0s.
#[tactic(auto, unfolding(crate::specs::Scratch::clears))]
fn clears(number: usize) -> bool
    ensures { result ≡ clears number }
{
    matches!(number, 6 | 7 | 18)
}

// The word that is to stand at `index` after the answer `number` on `neighbours` neighbours.
#[tactic(auto, unfolding(crate::specs::Scratch::wanted_word))]
fn wanted_word(
    number: usize,
    neighbours: usize,
    planes: &[f32; 537],
    fill: u32,
    index: usize,
) -> u32
    requires { (neighbours ≤ 65) × (index < 800) }
    ensures { result ≡ wanted_word number neighbours planes.now fill index }
{
    let before = word_before(fill, index);
    if 12 * neighbours <= index {
        return before;
    }
    if number == 0 {
        if 6 * neighbours <= index {
            return 0;
        }
        return to_word(planes[index]);
    }
    if clears(number) {
        return 0;
    }
    before
}

// The first index at which scratch does not hold what it is to hold, or its length: that is what the line prints.
pub(crate) fn first_different(
    scratch: &[f32],
    number: usize,
    neighbours: usize,
    planes: &[f32; 537],
    fill: u32,
) -> usize
    requires { (length scratch.now ≤ 800) × (neighbours ≤ 65) }
    ensures within { result ≤ length scratch.now }
    ensures same { AsWanted (wanted_word number neighbours planes.now fill) scratch.now result }
{
    for (index, &found) in scratch.iter().enumerate() {
        if to_word(found) != wanted_word(number, neighbours, planes, fill, index) {
            return index;
        }
    }
    scratch.len()
}

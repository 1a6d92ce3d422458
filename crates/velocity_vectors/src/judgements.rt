// Whether a call came out as its case wants it.
ghost use Rattle.std.specs.Prelude.{◌≡◌, ◌≤◌, None, length};
ghost use Rattle.velocity_vectors.specs.Cases.{Same};

use super::answers::Answer;
use super::cases::Case;
use super::scratch::first_different;

// The answer that was got, and the index at which scratch is not as wanted, or its length where it is.
#[derive(Clone, Copy)]
pub struct Difference {
    pub got: Answer,
    pub index: usize,
}

// What is different, if anything is.
pub(crate) fn judge(case: &Case, wanted: Answer, got: Answer, scratch: &[f32]) -> Option<Difference>
    requires { length scratch.now ≤ 800 }
    ensures { result ≡ None → Same case.now wanted got scratch.now }
{
    let neighbours = (case.length - 17) / 8;
    let index = first_different(scratch, wanted.number, neighbours, &case.planes, case.fill);
    if index == scratch.len() && wanted == got {
        return None;
    }
    Some(Difference { got, index })
}

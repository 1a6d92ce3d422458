// Document 01, module 7: the velocity call's checks 1, 17, and 2 to 5. The definitions are in `specs/Checks.antt`.
ghost use Rattle.std.specs.Prelude.{◌≡◌, true, false, ℕ, ◌≤◌, None};
ghost use Rattle.vectors.specs.Number.{◌<ᶠ◌, zero};
ghost use Rattle.refusals.specs.Conditions.{first_bad};
ghost use Rattle.requests.specs.Checks.{outside, call_kind, bad_number, first_of, bad_fallback, checks};
ghost use Rattle.requests.specs.Request.{per_request, request_numbers};

use super::{
    AGENT_NUMBERS, Asked, FALLBACK_PLACE, HORIZON_PLACE, Kind, MAX_SPEED_PLACE, MOST_NEIGHBOURS,
    RADIUS_PLACE, REQUEST_NUMBERS, RESPONSIBILITY_PLACE, Request, TIME_STEP_PLACE,
};
use refusals::Refusal;
use solver::SCRATCH_NUMBERS;
use vectors::Vec3;
use vectors::number::is_finite;

// The neighbours' numbers follow the request's 17, eight to each, of which the last two are the radius
// and the responsibility.
#[tactic(auto, unfolding(crate::specs::Checks::call_kind))]
fn call_kind(place: usize) -> Kind
    ensures { result ≡ call_kind place }
{
    if REQUEST_NUMBERS <= place {
        if RADIUS_PLACE <= (place - REQUEST_NUMBERS) % AGENT_NUMBERS {
            Kind::NotNegative
        } else {
            Kind::Any
        }
    } else if place == RADIUS_PLACE {
        Kind::NotNegative
    } else if place == RESPONSIBILITY_PLACE {
        Kind::NotNegative
    } else if place == MAX_SPEED_PLACE {
        Kind::NotNegative
    } else if place == TIME_STEP_PLACE {
        Kind::Positive
    } else if place == HORIZON_PLACE {
        Kind::Positive
    } else {
        Kind::Any
    }
}

// Whether a number of that kind is out of its range, which a NaN is where it has to be above 0. A kind is a value and no closure, as
// the definitions have it (`outside`).
#[tactic(auto, unfolding(crate::specs::Checks::outside))]
pub fn is_outside(kind: Kind, x: f32) -> bool
    ensures { result ≡ outside kind x }
{
    match kind {
        Kind::Any => false,
        Kind::NotNegative => x < 0.0,
        Kind::Positive => !(x > 0.0),
    }
}

#[tactic(auto, unfolding(crate::specs::Checks::bad_number))]
fn is_bad(asked: Asked, place: usize, x: f32) -> bool
    ensures { result ≡ bad_number asked place x }
{
    match asked {
        Asked::Finite => !is_finite(x),
        Asked::InRange => is_outside(call_kind(place), x),
    }
}

// The lowest place of a bad number, where the first one is at `start`. Records have their own of words: one for both would
// be public and require that its closure may be called, and no public function here has a `requires`.
#[tactic(auto, using(crate::proofs::BadSteps::bad_steps))]
fn first_bad(asked: Asked, start: usize, numbers: &[f32]) -> Option<usize>
    requires { start ≤ per_request }
    ensures { result ≡ first_bad (bad_number asked) start numbers.now }
{
    for (index, &x) in numbers.iter().enumerate() {
        if is_bad(asked, start + index, x) {
            return Some(start + index);
        }
    }
    None
}

// Whether every number is finite. With no way out before the end, the loop looks at several at a time.
#[tactic(auto, using(crate::proofs::BadSteps::bad_steps), unfolding(crate::specs::Checks::bad_number))]
fn all_finite(numbers: &[f32]) -> bool
    ensures { (start : ℕ) → result ≡ true → first_bad (bad_number Asked.Finite) start numbers.now ≡ None }
{
    let mut all = true;
    for &x in numbers {
        if !is_finite(x) {
            all = false;
        }
    }
    all
}

fn is_negative(radius: f32, responsibility: f32) -> bool
    ensures { result ≡ false → (radius <ᶠ zero ≡ false) × (responsibility <ᶠ zero ≡ false) }
{
    radius < 0.0 || responsibility < 0.0
}

// Whether every number of the neighbours is in its range. Only two of each eight can be out of it, so the loop counts the
// eights: the invariant of `chunks_exact` speaks of what it has yielded alone.
fn all_in_range(numbers: &[f32]) -> bool
    ensures { result ≡ true → first_bad (bad_number Asked.InRange) per_request numbers.now ≡ None }
{
    if numbers.len() % AGENT_NUMBERS != 0 {
        return false;
    }
    let mut all = true;
    for index in 0..numbers.len() / AGENT_NUMBERS {
        let at = AGENT_NUMBERS * index;
        if is_negative(
            numbers[at + RADIUS_PLACE],
            numbers[at + RESPONSIBILITY_PLACE],
        ) {
            all = false;
        }
    }
    all
}

// Whether it is seen at once that none of the neighbours' numbers is bad.
fn none_bad(asked: Asked, neighbours: &[f32]) -> bool
    ensures { result ≡ true → first_bad (bad_number asked) per_request neighbours.now ≡ None }
{
    match asked {
        Asked::Finite => all_finite(neighbours),
        Asked::InRange => all_in_range(neighbours),
    }
}

// Whether every number of the request is in its range. Only five can be out of it.
fn own_in_range(request: Request) -> bool
    ensures { result ≡ true → first_bad (bad_number Asked.InRange) 0 (request_numbers request) ≡ None }
{
    if is_negative(request.agent.radius, request.agent.responsibility) {
        return false;
    }
    if request.max_speed < 0.0 {
        return false;
    }
    request.time_step > 0.0 && request.horizon > 0.0
}

// Whether it is seen at once that none of the request's numbers is bad.
fn none_own_bad(asked: Asked, request: Request) -> bool
    ensures { result ≡ true → first_bad (bad_number asked) 0 (request_numbers request) ≡ None }
{
    match asked {
        Asked::Finite => {
            let numbers = request.numbers();
            all_finite(&numbers)
        }
        Asked::InRange => own_in_range(request),
    }
}

// The lowest place of a bad number of the request. It and the neighbours' each have a quick look of their own.
fn first_own(asked: Asked, request: Request) -> Option<usize>
    ensures { result ≡ first_bad (bad_number asked) 0 (request_numbers request) }
{
    if none_own_bad(asked, request) {
        return None;
    }
    let numbers = request.numbers();
    first_bad(asked, 0, &numbers)
}

// The lowest place of a bad number of the neighbours.
fn first_lent(asked: Asked, neighbours: &[f32]) -> Option<usize>
    ensures { result ≡ first_bad (bad_number asked) per_request neighbours.now }
{
    if none_bad(asked, neighbours) {
        return None;
    }
    first_bad(asked, REQUEST_NUMBERS, neighbours)
}

#[tactic(auto, using(crate::proofs::BadSteps::in_parts))]
fn first_of(asked: Asked, request: Request, neighbours: &[f32]) -> Option<usize>
    ensures { result ≡ first_of asked request neighbours.now }
{
    match first_own(asked, request) {
        Some(place) => Some(place),
        None => first_lent(asked, neighbours),
    }
}

#[tactic(auto, unfolding(crate::specs::Checks::bad_fallback))]
pub fn bad_fallback(fallback: Vec3) -> bool
    ensures { result ≡ bad_fallback fallback }
{
    let square = fallback.dot(fallback);
    if square < 0.99999 {
        true
    } else {
        square > 1.00001
    }
}

// Each check is finished over all its numbers before the next.
#[tactic(auto, unfolding(crate::specs::Checks::checks))]
pub fn checks(request: Request, neighbours: &[f32], scratch_length: usize) -> Result<(), Refusal>
    ensures { result ≡ checks request neighbours.now scratch_length }
{
    if neighbours.len() % AGENT_NUMBERS != 0 {
        return Err(Refusal::RaggedNeighbours);
    }
    let count = neighbours.len() / AGENT_NUMBERS;
    if MOST_NEIGHBOURS < count {
        return Err(Refusal::TooManyNeighbours { count });
    }
    let needed = SCRATCH_NUMBERS * count;
    if scratch_length < needed {
        return Err(Refusal::ShortScratch { needed });
    }
    if let Some(place) = first_of(Asked::Finite, request, neighbours) {
        return Err(Refusal::NotFinite { place });
    }
    if let Some(place) = first_of(Asked::InRange, request, neighbours) {
        return Err(Refusal::OutOfRange { place });
    }
    if bad_fallback(request.fallback) {
        return Err(Refusal::BadFallback {
            place: FALLBACK_PLACE,
        });
    }
    Ok(())
}

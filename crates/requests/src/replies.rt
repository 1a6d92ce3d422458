// What a velocity call answers: document 01's number, place and velocity of each reply. The definitions are in
// `specs/Reply.antt`.
ghost use Rattle.std.specs.Prelude.{◌≡◌};
ghost use Rattle.requests.specs.Reply.{number, place_of, velocity_of, relaxed_of, unseen_of, name_of, renamed_unseen, renamed_course, renamed_refusal, renamed};

use super::{Course, Reply};
use refusals::Refusal;
use vectors::Vec3;

// The name that stands in the list for a neighbour.
#[tactic(auto, unfolding(crate::specs::Reply::name_of))]
fn name_of(names: &[usize], neighbour: usize) -> usize
    ensures { result ≡ name_of names.now neighbour }
{
    names.get(neighbour).copied().unwrap_or(0)
}

// The neighbour that is unseen, by its name.
fn renamed_unseen(unseen: Option<usize>, names: &[usize]) -> Option<usize>
    ensures { result ≡ renamed_unseen names.now unseen }
{
    unseen.map(|neighbour| name_of(names, neighbour))
}

#[tactic(auto, unfolding(crate::specs::Reply::renamed_course))]
fn renamed_course(course: Course, names: &[usize]) -> Course
    ensures { result ≡ renamed_course names.now course }
{
    Course {
        unseen: renamed_unseen(course.unseen, names),
        ..course
    }
}

// A refusal that names a neighbour, with the name that stands in the list for it.
#[tactic(auto, unfolding(crate::specs::Reply::renamed_refusal))]
fn renamed_refusal(refusal: Refusal, names: &[usize]) -> Refusal
    ensures { result ≡ renamed_refusal names.now refusal }
{
    match refusal {
        Refusal::PlaneNotFinite { neighbour } => Refusal::PlaneNotFinite {
            neighbour: name_of(names, neighbour),
        },
        _ => refusal,
    }
}

// What a reply says, refused or not.
pub trait ReplyExt {
    // Its number in the documents' table.
    fn number(self) -> u32;

    // Its place there.
    fn place(self) -> usize;

    // Its velocity: three +0s for a refusal.
    fn velocity(self) -> Vec3;

    // The plane from which its velocity is relaxed, if it is.
    fn relaxed(self) -> Option<usize>;

    // The first neighbour that is unseen, if one is.
    fn unseen(self) -> Option<usize>;

    // The reply with its neighbours by other names: those that stand in the list for them.
    fn renamed(self, names: &[usize]) -> Self;
}

impl ReplyExt for Reply {
    fn number(self) -> u32
        ensures { result ≡ number self }
    {
        match self {
            Ok(_) => 0,
            Err(refusal) => refusal.number(),
        }
    }

    fn place(self) -> usize
        ensures { result ≡ place_of self }
    {
        match self {
            Ok(_) => 0,
            Err(refusal) => refusal.place(),
        }
    }

    fn velocity(self) -> Vec3
        ensures { result ≡ velocity_of self }
    {
        match self {
            Ok(course) => course.velocity,
            Err(_) => Vec3::zero(),
        }
    }

    fn relaxed(self) -> Option<usize>
        ensures { result ≡ relaxed_of self }
    {
        self.ok().and_then(|course| course.relaxed)
    }

    fn unseen(self) -> Option<usize>
        ensures { result ≡ unseen_of self }
    {
        self.ok().and_then(|course| course.unseen)
    }

    #[tactic(auto, unfolding(crate::specs::Reply::renamed))]
    fn renamed(self, names: &[usize]) -> Self
        ensures { result ≡ renamed names.now self }
    {
        match self {
            Ok(course) => Ok(renamed_course(course, names)),
            Err(refusal) => Err(renamed_refusal(refusal, names)),
        }
    }
}

// The static library for C and Rust: thin exported functions, each over one public function of the
// crates below, with that function's promise. include/guineacrumb.h declares them for C.
#![tactic(auto)]

ghost use Rattle.std.specs.Prelude.{◌≡◌, map, length};
ghost use Rattle.vectors.specs.Root.{root};
ghost use Rattle.fleet.specs.Answer.{number, place_of};
ghost use Rattle.flight.specs.Tick.{file_flown, file_after};
ghost use Rattle.guineacrumb.specs.Version.{version};
ghost use Rattle.guineacrumb.specs.Tick.{tick_answer, file_left, tick_place_left};
ghost use Rattle.guineacrumb.specs.Velocity.{components_of, or_none, answer, scratch_left, velocity_left, place_left, relaxed_left, unseen_left};

use planes::lent::read_request;
use planner::Rule;
use requests::replies::ReplyExt;
use vectors::Vec3;

// The answer to arguments that do not fit: lengths, or a rule that there is not. A number, since C has no Result.
const UNFIT: u32 = 255;

// The version of the library, a byte each for its three numbers.
const VERSION: u32 = 0x00_02_00;

// `u64` is not `From<usize>`, so places and indices are cast below.

// The numbers of a velocity.
const VELOCITY_NUMBERS: usize = 3;

// What stands for no plane, and for no neighbour: C has no Option.
const NONE: u64 = 0xFFFF_FFFF_FFFF_FFFF;

// The version that include/guineacrumb.h names.
#[unsafe(no_mangle)]
pub extern "C" fn guineacrumb_version() -> u32
    ensures { result ≡ version }
{
    VERSION
}

// The nearest binary32 to the root of x.
#[unsafe(no_mangle)]
pub extern "C" fn guineacrumb_root(x: f32) -> f32
    ensures { result ≡ root x }
{
    vectors::root::root(x)
}

// Of each of eight numbers, the nearest binary32 to its root, in place.
#[unsafe(no_mangle)]
pub extern "C" fn guineacrumb_roots(numbers: &mut [f32; 8])
    ensures { numbers.new ≡ map root numbers.old }
{
    *numbers = vectors::roots::roots(*numbers);
}

fn or_none(found: Option<usize>) -> u64
    ensures { result ≡ or_none found }
{
    found.map_or(NONE, |index| index as u64)
}

fn write(vector: &mut [f32], v: Vec3)
    requires { length vector.old ≡ 3 }
    ensures { vector.new ≡ components_of v }
{
    vector[0] = v.x;
    vector[1] = v.y;
    vector[2] = v.z;
}

// The velocity nearest to the preferred one that avoids the neighbours, with its place, the plane from which
// it is relaxed and the first neighbour that is unseen. The request's numbers stand at document 01's places.
#[unsafe(no_mangle)]
pub extern "C" fn guineacrumb_velocity(
    request: &[f32],
    neighbours: &[f32],
    scratch: &mut [f32],
    velocity: &mut [f32],
    place: &mut u64,
    relaxed: &mut u64,
    unseen: &mut u64,
) -> u32
    ensures answer { result ≡ answer request.now neighbours.now scratch.old velocity.old }
    ensures scratch { scratch.new ≡ scratch_left request.now neighbours.now scratch.old velocity.old }
    ensures velocity { velocity.new ≡ velocity_left request.now neighbours.now scratch.old velocity.old }
    ensures place { place.new ≡ place_left request.now neighbours.now scratch.old velocity.old place.old }
    ensures relaxed { relaxed.new ≡ relaxed_left request.now neighbours.now scratch.old velocity.old relaxed.old }
    ensures unseen { unseen.new ≡ unseen_left request.now neighbours.now scratch.old velocity.old unseen.old }
{
    if velocity.len() != VELOCITY_NUMBERS {
        return UNFIT;
    }
    let Some(asked) = read_request(request) else {
        return UNFIT;
    };
    let reply = avoidance::velocity::velocity(asked, neighbours, scratch);
    write(velocity, reply.velocity());
    *place = reply.place() as u64;
    *relaxed = or_none(reply.relaxed());
    *unseen = or_none(reply.unseen());
    reply.number()
}

// Not taken into `guineacrumb_tick`, which would then ask for all the stack of a tick where the rule is none.
#[inline(never)]
fn ticked(file: &mut [u8], time_step: f32, rule: Rule, place: &mut u64) -> u32
    ensures answer { result ≡ number (file_flown file.old 1 time_step rule).answer }
    ensures file { file.new ≡ file_after file.old time_step rule }
    ensures place { place.new ≡ place_of (file_flown file.old 1 time_step rule).answer }
{
    let answer = flight::tick_in_place(file, time_step, rule);
    *place = answer.place() as u64;
    answer.number()
}

// One whole tick in place of a lent fleet file, by the source rule, 0, or the near rule, 1. The answer is the first
// refused call's, and a refused one leaves every byte as it was.
#[unsafe(no_mangle)]
pub extern "C" fn guineacrumb_tick(
    file: &mut [u8],
    time_step: f32,
    rule: u32,
    place: &mut u64,
) -> u32
    ensures answer { result ≡ tick_answer file.old time_step rule }
    ensures file { file.new ≡ file_left file.old time_step rule }
    ensures place { place.new ≡ tick_place_left file.old time_step rule place.old }
{
    let Ok(rule) = Rule::try_from(rule) else {
        return UNFIT;
    };
    ticked(file, time_step, rule, place)
}

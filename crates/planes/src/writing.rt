// The planes for the neighbours of a call, written to lent scratch. The definitions are in `specs/Planes.antt`.
ghost use Rattle.std.specs.Prelude.{◌≡◌, ◌+◌, ◌*◌, ◌<◌, drop};
ghost use Rattle.requests.specs.Lent.{per_agent, agent_count};
ghost use Rattle.planes.specs.Planes.{plane_of, planes_of_call, finite_plane, planes_made, planes_written};
ghost use Rattle.planes.specs.parts.Writing.{noted, MadeWritten, Passed};

use super::groups::planes_of;
use super::lent::{Group, neighbour_at};
use super::neighbour::plane_for;
use super::{Made, NeighbourPlane};
use refusals::Refusal;
use requests::{AGENT_NUMBERS, Request};
use solver::Plane;
use solver::lent::write_plane;
use vectors::Vec3;
use vectors::roots::LANES;

// A finite number times 0 is a zero, and any other is a NaN, which no sum loses: one test tells it of all six.
fn is_finite_plane(plane: Plane) -> bool
    ensures { result ≡ finite_plane plane }
{
    let point = plane.point.x * 0.0 + plane.point.y * 0.0 + plane.point.z * 0.0;
    let normal = plane.normal.x * 0.0 + plane.normal.y * 0.0 + plane.normal.z * 0.0;
    point + normal == 0.0
}

// The plane for the neighbour at `index`.
#[tactic(auto, unfolding(crate::specs::Planes::plane_of))]
fn plane_of(request: Request, neighbours: &[f32], index: usize) -> NeighbourPlane
    requires { index < agent_count neighbours.now }
    ensures { result ≡ plane_of request (drop (per_agent * index) neighbours.now) }
{
    let neighbour = neighbour_at(neighbours, index);
    plane_for(
        request.agent,
        neighbour,
        request.horizon,
        request.time_step,
        request.fallback,
    )
}

// What was found before, or else the neighbour at `index`, where it is unseen.
fn noted(found: Option<usize>, unseen: bool, index: usize) -> Option<usize>
    ensures { result ≡ noted found unseen index }
{
    found.or(unseen.then_some(index))
}

// Writes the plane for the neighbour at `index`, where it is finite, and notes whether the neighbour is unseen.
fn write_made(
    scratch: &mut [f32],
    index: usize,
    made: NeighbourPlane,
    unseen: Option<usize>,
) -> Made
    ensures { MadeWritten index made unseen scratch.old scratch.new result }
{
    if !is_finite_plane(made.plane) {
        return Err(Refusal::PlaneNotFinite { neighbour: index });
    }
    write_plane(scratch, index, made.plane);
    Ok(noted(unseen, made.unseen, index))
}

// Writes the planes for the neighbours of a group up to the first that is not finite. One alone has nobody to share its
// roots with.
fn write_group(scratch: &mut [f32], request: Request, group: Group, unseen: Option<usize>) -> Made
    ensures { Passed request group.entry.neighbours.now group.entry.start (group.entry.start + group.entry.size) unseen scratch.old scratch.new result }
{
    if group.size == 1 {
        let made = plane_of(request, group.neighbours, group.start);
        return write_made(scratch, group.start, made, unseen);
    }
    let planes = planes_of(request, group);
    let mut unseen = unseen;
    for lane in 0..group.size {
        let plane = Plane {
            point: Vec3 {
                x: planes.point_x[lane],
                y: planes.point_y[lane],
                z: planes.point_z[lane],
            },
            normal: Vec3 {
                x: planes.normal_x[lane],
                y: planes.normal_y[lane],
                z: planes.normal_z[lane],
            },
        };
        let made = NeighbourPlane {
            plane,
            unseen: planes.unseen[lane],
        };
        unseen = write_made(scratch, group.start + lane, made, unseen)?;
    }
    Ok(unseen)
}

// Request, neighbours and scratch are lent apart, as the velocity call is lent them.
// Writes the plane for each neighbour to the beginning of scratch, each at its place, up to the first that is not finite. A
// plane for which scratch has no room is not written.
pub fn write_planes(scratch: &mut [f32], request: Request, neighbours: &[f32]) -> Made
    ensures made { result ≡ planes_made request neighbours.now }
    ensures scratch { scratch.new ≡ planes_written (planes_of_call request neighbours.now) scratch.old }
{
    let count = neighbours.len() / AGENT_NUMBERS;
    let mut unseen = None;
    for start in (0..count).step_by(LANES) {
        let size = (count - start).min(LANES);
        let group = Group {
            neighbours,
            start,
            size,
        };
        unseen = write_group(scratch, request, group, unseen)?;
    }
    Ok(unseen)
}

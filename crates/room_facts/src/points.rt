// The light at the points of a check, and what the check is answered by it.
ghost use Rattle.std.specs.Prelude.{◌≡◌, ◌≤◌, ◌<◌, ◌+◌, ◌*◌, ◌^◌, All, length, IfOk};
ghost use Rattle.compliance.specs.Verdict.{HasLimits, AreIntervals};
ghost use Rattle.flux_system.specs.System.{patches};
ghost use Rattle.grids.specs.Grids.{grid_of, count};
ghost use Rattle.lit_room.specs.LitRooms.{system_of};
ghost use Rattle.room_facts.specs.RoomFacts.{point_intervals, answer_by};
ghost use Rattle.room_facts.specs.Shapes.{EnclosePoints};
ghost use Rattle.room_facts.specs.Truth.{EncloseFlux, IsTrueCheck};

use compliance::{CheckSpec, Judged, judge};
use grids::{Grid, direct_points};
use lit_room::LitRoom;
use std::alloc::{AllocError, Global};

// The interval of the light at each point of a grid of the room, in nanolux, by the interval of the flux of each patch, in
// nanolumens.
fn point_intervals(
    alloc: Global,
    lit_room: &LitRoom,
    grid: &Grid,
    bounds: &[(u64, u64)],
) -> Result<Vec<(u128, u128)>, AllocError>
    requires room { grid.now.room ≡ lit_room.now.project.room }
    requires patches { length bounds.now ≡ patches (system_of lit_room.now) }
    requires order { All (λ ends. ends.0 ≤ ends.1) bounds.now }
    requires limited { All (λ ends. ends.1 ≤ 4 * 10 ^ 17 + 10 ^ 13) bounds.now }
    ensures value { IfOk result (λ points. points.items ≡ point_intervals lit_room.now bounds.now grid.now) }
    ensures intervals { IfOk result (λ points. AreIntervals points.items) }
    ensures many { IfOk result (λ points. length points.items ≡ count grid.now) }
    ensures enclose { IfOk result (λ points. EnclosePoints lit_room.now grid.now bounds.now points.items) }
{
    let direct = direct_points(alloc, grid, lit_room.fixtures(), lit_room.webs())?;
    let mut points = Vec::with_capacity(alloc, grid.len())?;
    for g in 0..grid.len() {
        points.push(grid.point_interval(lit_room.room(), &direct, bounds, g))?;
    }
    Ok(points)
}

/// The interval of the light at each point of a check of the room, and what the check is answered by these.
pub(crate) fn judge_check(
    alloc: Global,
    lit_room: &LitRoom,
    grid: &Grid,
    check: &CheckSpec,
    bounds: &[(u64, u64)],
) -> Result<(Vec<(u128, u128)>, Judged), AllocError>
    requires grid { grid.now ≡ grid_of lit_room.now.project.room check.now }
    requires limits { HasLimits check.now }
    requires patches { length bounds.now ≡ patches (system_of lit_room.now) }
    requires order { All (λ ends. ends.0 ≤ ends.1) bounds.now }
    requires limited { All (λ ends. ends.1 ≤ 4 * 10 ^ 17 + 10 ^ 13) bounds.now }
    requires enclose { EncloseFlux lit_room.now bounds.now }
    ensures points { IfOk result (λ r. r.0.items ≡ point_intervals lit_room.now bounds.now grid.now) }
    ensures judged { IfOk result (λ r. r.1 ≡ answer_by check.now r.0.items) }
    ensures true_check { IfOk result (λ r. IsTrueCheck lit_room.now check.now r.0.items r.1) }
{
    let points = point_intervals(alloc, lit_room, grid, bounds)?;
    let judged = judge(check, &points);
    Ok((points, judged))
}

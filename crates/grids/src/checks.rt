// The tests that a grid passes.
ghost use Rattle.std.specs.Prelude.{◌≡◌};
ghost use Rattle.duties.specs.Duties.{first, each};
ghost use Rattle.room_patches.specs.Validity.{IsRoom};
ghost use Rattle.grids.specs.Grids.{count};
ghost use Rattle.grids.specs.Validity.{IsLaid, has_rectangle, has_counts, point_duty, grid_duties};

use crate::sight::first_too_near;
use crate::{GridFault, GridSpec, MOST_ALONG, MOST_POINTS};
use room_patches::Room;

// Why there is no such grid, if there isn't.
#[tactic(auto, using(duties::proofs::Orders::steps, duties::proofs::Orders::last_decides), unfolding(crate::specs::Validity::grid_duties))]
pub(crate) fn grid_fault(grid: GridSpec, room: &Room) -> Option<GridFault>
    requires room { grid.room ≡ room.now.spec }
    requires valid { IsRoom grid.room }
    ensures { result ≡ first (grid_duties grid) }
{
    if !has_rectangle(grid) {
        return Some(GridFault::Rectangle);
    }
    if !has_counts(grid) {
        return Some(GridFault::Counts);
    }
    nearness_fault(grid, room)
}

// Whether the rectangle isn't empty, and lies within the room and below its ceiling.
fn has_rectangle(grid: GridSpec) -> bool
    ensures { result ≡ has_rectangle grid }
{
    grid.x0 < grid.x1
        && grid.x1 <= grid.room.width
        && grid.y0 < grid.y1
        && grid.y1 <= grid.room.depth
        && grid.z < grid.room.height
}

// Whether enough and not too many points stand along each side, and in all.
fn has_counts(grid: GridSpec) -> bool
    ensures { result ≡ has_counts grid }
{
    let limits = 1..=MOST_ALONG;
    limits.contains(&grid.px) && limits.contains(&grid.py) && grid.px * grid.py <= MOST_POINTS
}

// The first point that is too near to a patch, with the first such patch.
#[tactic(auto, using(crate::proofs::Regions::first_near, duties::proofs::Orders::each_none, duties::proofs::Orders::each_more, duties::proofs::Orders::each_fails), unfolding(crate::specs::Validity::point_duty))]
fn nearness_fault(grid: GridSpec, room: &Room) -> Option<GridFault>
    requires room { grid.room ≡ room.now.spec }
    requires laid { IsLaid grid }
    ensures { result ≡ each (count grid) (point_duty grid) }
{
    for g in 0..grid.count() {
        if let Some(patch) = first_too_near(grid.point_at(g), room.patches()) {
            return Some(GridFault::TooNear {
                point: g,
                patch: patch as u32,
            });
        }
    }
    None
}

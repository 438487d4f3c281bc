// What a grid is asked for by.
ghost use Rattle.std.specs.Prelude.{◌≡◌, ◌*◌, ◌<◌, ◌≤◌};
ghost use Rattle.room_patches.specs.Places.{IsPlace};
ghost use Rattle.grids.specs.Grids.{middle_of_cell};

use compliance::CheckSpec;
use room_patches::RoomSpec;

/// What a grid is asked for by: a room, a level rectangle in it, and how many points stand along each of its sides. Lengths
/// are in millimetres.
#[derive(Clone, Copy, Debug, PartialEq, Eq)]
pub struct GridSpec {
    /// The room.
    pub room: RoomSpec,
    /// From here on the x axis.
    pub x0: u32,
    /// To here on the x axis.
    pub x1: u32,
    /// From here on the y axis.
    pub y0: u32,
    /// To here on the y axis.
    pub y1: u32,
    /// The height of the rectangle.
    pub z: u32,
    /// How many points stand side by side on the x axis.
    pub px: u32,
    /// How many on the y axis.
    pub py: u32,
}

impl GridSpec {
    ghost use Rattle.grids.specs.Grids.{grid_of, count, point_at};
    ghost use Rattle.grids.specs.Validity.{IsLaid};

    // The grid that a check asks for in a room.
    pub(crate) fn of(room: RoomSpec, check: &CheckSpec) -> GridSpec
        ensures { result ≡ grid_of room check.now }
    {
        GridSpec {
            room,
            x0: check.x0,
            x1: check.x1,
            y0: check.y0,
            y1: check.y1,
            z: check.z,
            px: check.px,
            py: check.py,
        }
    }

    // How many points it has.
    pub(crate) fn count(self) -> u32
        requires { IsLaid self }
        ensures { result ≡ count self }
    {
        self.px * self.py
    }

    // Point `g`, in half-millimetres.
    #[tactic(auto, unfolding(crate::specs::Grids::point_at))]
    pub(crate) fn point_at(self, g: u32) -> [i32; 3]
        requires laid { IsLaid self }
        requires point { g < count self }
        ensures value { result ≡ point_at self g }
        ensures place { IsPlace result }
    {
        [
            middle_of_cell(self.x0, self.x1, self.px, g % self.px) as i32,
            middle_of_cell(self.y0, self.y1, self.py, g / self.px) as i32,
            2 * self.z as i32,
        ]
    }
}

// The middle of cell `k` of a stretch in millimetres that is cut into equal cells, in half-millimetres.
fn middle_of_cell(from: u32, to: u32, cells: u32, k: u32) -> u32
    requires stretch { from ≤ to }
    requires short { to ≤ 100000 }
    requires few { cells ≤ 64 }
    requires inside { k < cells }
    ensures value { result ≡ middle_of_cell from to cells k }
    ensures within { result ≤ 2 * to }
{
    2 * from + (2 * k + 1) * (to - from) / cells
}

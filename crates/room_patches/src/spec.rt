// What a room is asked for by.
ghost use Rattle.std.specs.Prelude.{◌≡◌};

use crate::cut::Cut;

/// A rectangular room: its lengths in millimetres, how many parts each of them is cut into, and the reflectances of its
/// surfaces in per mille.
#[derive(Clone, Copy, Debug, PartialEq, Eq)]
pub struct RoomSpec {
    /// The length along x.
    pub width: u32,
    /// The length along y.
    pub depth: u32,
    /// The length along z.
    pub height: u32,
    /// How many parts the width is cut into.
    pub nx: u32,
    /// How many parts the depth is cut into.
    pub ny: u32,
    /// How many parts the height is cut into.
    pub nz: u32,
    /// The reflectance of the floor.
    pub floor: u32,
    /// The reflectance of the ceiling.
    pub ceiling: u32,
    /// The reflectances of the walls at x = 0, at the width, at y = 0 and at the depth.
    pub walls: [u32; 4],
}

impl RoomSpec {
    ghost use Rattle.room_patches.specs.Patches.{along_x, along_y, along_z};

    pub(crate) fn along_x(self) -> Cut
        ensures { result ≡ along_x self }
    {
        Cut {
            whole: self.width,
            parts: self.nx,
        }
    }

    pub(crate) fn along_y(self) -> Cut
        ensures { result ≡ along_y self }
    {
        Cut {
            whole: self.depth,
            parts: self.ny,
        }
    }

    pub(crate) fn along_z(self) -> Cut
        ensures { result ≡ along_z self }
    {
        Cut {
            whole: self.height,
            parts: self.nz,
        }
    }
}

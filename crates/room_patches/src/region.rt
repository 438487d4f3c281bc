// A part of a surface with a reflectance of its own.
ghost use Rattle.std.specs.Prelude.{◌≡◌};
ghost use Rattle.room_patches.specs.Surfaces.{contains};

/// A rectangle of one of a room's surfaces with a reflectance of its own, such as a board or a window. Of the regions
/// that contain a patch's centre, the last one in the list gives the patch its reflectance.
#[derive(Clone, Copy, Debug, PartialEq, Eq)]
pub struct Region {
    /// The surface, in the order of patches: 0 is the floor, 1 the ceiling, and 2 to 5 are the walls at x = 0, at the
    /// width, at y = 0 and at the depth.
    pub surface: u32,
    /// Where the region begins, in millimetres along x on the floor, the ceiling and the walls at y = 0 and at the depth,
    /// and along y on the other two.
    pub u0: u32,
    /// Where it ends along the same axis; above `u0`, and no more than the room's length.
    pub u1: u32,
    /// Where it begins, in millimetres along y on the floor and the ceiling, and along z on the walls.
    pub v0: u32,
    /// Where it ends along the same axis; above `v0`, and no more than the room's length.
    pub v1: u32,
    /// The reflectance in per mille.
    pub reflectance: u32,
}

impl Region {
    // Whether it contains the place of its surface with these coordinates in half-millimetres.
    pub(crate) fn contains(&self, u: u32, v: u32) -> bool
        ensures { result ≡ contains self.now u v }
    {
        let u = u64::from(u);
        let v = u64::from(v);
        2 * u64::from(self.u0) <= u
            && u < 2 * u64::from(self.u1)
            && 2 * u64::from(self.v0) <= v
            && v < 2 * u64::from(self.v1)
    }
}

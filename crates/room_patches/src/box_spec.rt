// What a piece of furniture is asked for by.

/// A box with faces along the axes, such as a desk or a cupboard: where it begins and ends along each axis, in millimetres
/// from the room's corner, how many parts each of its lengths is cut into, and the reflectance of its six faces.
#[derive(Clone, Copy, Debug, PartialEq, Eq)]
pub struct BoxSpec {
    /// Where it begins along x.
    pub x0: u32,
    /// Where it ends along x; above `x0`, and no more than the room's width.
    pub x1: u32,
    /// Where it begins along y.
    pub y0: u32,
    /// Where it ends along y; above `y0`, and no more than the room's depth.
    pub y1: u32,
    /// Where it begins along z.
    pub z0: u32,
    /// Where it ends along z; above `z0`, and no more than the room's height.
    pub z1: u32,
    /// How many parts its length along x is cut into, 1 to `MOST_PARTS`.
    pub nx: u32,
    /// How many parts its length along y is cut into.
    pub ny: u32,
    /// How many parts its length along z is cut into.
    pub nz: u32,
    /// The reflectance of its faces in per mille, at most `MOST_REFLECTANCE`.
    pub reflectance: u32,
}

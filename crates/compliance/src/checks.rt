// What a check asks of the light on a rectangle.
use lux_io::Name;

/// A check: a level rectangle in the room, how its points are laid, and what the light there has to reach. Lengths are in
/// millimetres. The ranges below are those of a check that can be judged; where the rectangle lies is tested when its
/// grid is laid.
#[derive(Debug, Drop)]
pub struct CheckSpec {
    /// The name that a report prints.
    pub name: Name,
    /// From here on the x axis, below `x1`.
    pub x0: u32,
    /// To here on the x axis, at most the room's width.
    pub x1: u32,
    /// From here on the y axis, below `y1`.
    pub y0: u32,
    /// To here on the y axis, at most the room's depth.
    pub y1: u32,
    /// The height of the rectangle, below the room's.
    pub z: u32,
    /// How many points stand side by side on the x axis, 1 to 64.
    pub px: u32,
    /// How many on the y axis, 1 to 64, and no more than 1,024 points in all.
    pub py: u32,
    /// The maintenance factor in per mille, 1 to 1,000.
    pub maintenance: u32,
    /// The least average of the maintained illuminance, in lux, 0 to 100,000.
    pub average: u32,
    /// The least uniformity in per mille, 0 to 1,000.
    pub uniformity: u32,
}

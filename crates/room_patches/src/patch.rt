// One patch, and distances from it.
ghost use Rattle.std.specs.Prelude.{◌≡◌, ◌≤◌, pos, negsuc, ◌*◌, ◌≤ℤ◌};
ghost use Rattle.room_patches.specs.Places.{IsPlace, gap, squared_distance};
ghost use Rattle.room_patches.specs.Patches.{IsPatch, distance_before, in_front};

/// A rectangle of a room's surface: the place of its middle in half-millimetres, the axis that its normal follows (0 x,
/// 1 y, 2 z), whether the normal that points into the room goes to greater coordinates, its area in square millimetres
/// and its reflectance in per mille.
#[derive(Clone, Copy, Debug, PartialEq, Eq)]
pub struct Patch {
    pub centre: [i32; 3],
    pub axis: u8,
    pub rising: bool,
    pub area: u64,
    pub reflectance: u32,
}

impl Patch {
    /// How far a place lies before the patch's plane, in half-millimetres; negative behind it.
    #[tactic(auto, unfolding(crate::specs::Patches::distance_before))]
    pub fn distance_of(&self, place: [i32; 3]) -> i32
        requires patch { IsPatch self.now }
        requires place { IsPlace place }
        ensures value { result ≡ distance_before self.now place }
        ensures least { negsuc 199999 ≤ℤ result }
        ensures most { result ≤ℤ pos 200000 }
    {
        let axis = usize::from(self.axis);
        if self.rising {
            place[axis] - self.centre[axis]
        } else {
            self.centre[axis] - place[axis]
        }
    }

    /// How far a place lies in front of the patch, in half-millimetres: 0 in its plane and behind it. Never farther than
    /// the patch's centre.
    #[tactic(auto, using(crate::proofs::Distances::in_front_squared_le), unfolding(crate::specs::Patches::in_front))]
    pub fn in_front(&self, place: [i32; 3]) -> u32
        requires patch { IsPatch self.now }
        requires place { IsPlace place }
        ensures value { result ≡ in_front self.now place }
        ensures most { result ≤ 200000 }
        ensures no_farther { result * result ≤ squared_distance self.now.centre place }
    {
        self.distance_of(place).max(0).unsigned_abs()
    }
}

/// The square of the distance of two places, in square half-millimetres.
#[tactic(auto, using(crate::proofs::Distances::squares_le), unfolding(crate::specs::Places::squared_distance))]
pub fn squared_distance(from: [i32; 3], to: [i32; 3]) -> u64
    requires from { IsPlace from }
    requires to { IsPlace to }
    ensures value { result ≡ squared_distance from to }
    ensures most { result ≤ 120000000000 }
{
    let x = gap(from, to, 0);
    let y = gap(from, to, 1);
    let z = gap(from, to, 2);
    x * x + y * y + z * z
}

// How far two places lie apart along an axis.
fn gap(from: [i32; 3], to: [i32; 3], axis: usize) -> u64
    requires from { IsPlace from }
    requires to { IsPlace to }
    requires axis { axis ≤ 2 }
    ensures value { result ≡ gap from to axis }
    ensures most { result ≤ 200000 }
{
    u64::from(to[axis].abs_diff(from[axis]))
}

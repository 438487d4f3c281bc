// Where an angle lies between two neighbours among rising angles.
ghost use Rattle.std.specs.Prelude.{◌≡◌, ◌+◌, ◌<◌, ◌≤◌, length, slice_index};
ghost use Rattle.std.specs.List.Sorted.{IsStrictlyIncreasing};
ghost use Rattle.intensity.specs.Intensity.{last_up_to, stretch_from, IsWithin};

// A stretch from one angle to the next, and how far past its beginning another angle lies.
#[derive(Clone, Copy)]
pub(crate) struct Stretch {
    // The place of the angle where it begins.
    pub place: usize,
    // How far past its beginning, in millidegrees.
    pub past: u64,
    // From its beginning to its end, in millidegrees.
    pub width: u64,
}

// The stretch that begins at a place of some rising angles, where another angle lies within it.
pub(crate) fn stretch_from(angles: &[u32], place: usize, angle: u32) -> Stretch
    requires rising { IsStrictlyIncreasing angles.now }
    requires inside { place + 1 < length angles.now }
    requires begins { slice_index angles.now place ≤ angle }
    requires ends { angle ≤ slice_index angles.now (place + 1) }
    requires limited { slice_index angles.now (place + 1) ≤ 360000 }
    ensures value { result ≡ stretch_from angles.now place angle }
    ensures within { IsWithin angles.now result }
{
    let begins = angles[place];
    Stretch {
        place,
        past: (angle - begins) as u64,
        width: (angles[place + 1] - begins) as u64,
    }
}

// The place of the last of some rising angles that is at or below another.
pub(crate) fn last_up_to(angles: &[u32], angle: u32) -> usize
    requires rising { IsStrictlyIncreasing angles.now }
    requires some { 0 < length angles.now }
    requires first { slice_index angles.now 0 ≤ angle }
    ensures value { result ≡ last_up_to angle angles.now }
    ensures inside { result < length angles.now }
    ensures below { slice_index angles.now result ≤ angle }
    ensures next_above { result + 1 < length angles.now → angle < slice_index angles.now (result + 1) }
{
    angles.partition_point(|other| *other <= angle) - 1
}

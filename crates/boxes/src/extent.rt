// What a box takes up of an axis.
ghost use Rattle.std.specs.Prelude.{◌≡◌, ◌<◌, ◌≤◌};
ghost use Rattle.boxes.specs.Boxes.{extent_of, middle_of};
ghost use Rattle.boxes.specs.Shapes.{IsExtent};

use room_patches::Cut;

// A length of a box: where it begins, in millimetres from the room's corner, and how it is cut.
#[derive(Clone, Copy)]
pub(crate) struct Extent {
    pub(crate) start: u32,
    pub(crate) cut: Cut,
}

impl Extent {
    // The length between two places of an axis.
    pub(crate) fn new(from: u32, to: u32, parts: u32) -> Extent
        requires { from ≤ to }
        ensures { result ≡ extent_of from to parts }
    {
        Extent {
            start: from,
            cut: Cut {
                whole: to - from,
                parts,
            },
        }
    }

    // The middle of part `k`, in half-millimetres from the room's corner.
    pub(crate) fn middle(self, k: u32) -> u32
        requires extent { IsExtent self }
        requires inside { k < self.cut.parts }
        ensures value { result ≡ middle_of self k }
        ensures limited { result ≤ 200000 }
    {
        2 * self.start + self.cut.middle(k)
    }
}

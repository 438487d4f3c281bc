// What a box takes up of the way from one place to another, along one axis.
ghost use Rattle.std.specs.Prelude.{◌≡◌};
ghost use Rattle.visibility.specs.Shapes.{IsBounded};
ghost use Rattle.visibility.specs.Stretches.{all_meet};

/// The stretch of the way that lies between two faces of a box, along one axis and in half-millimetres from the first
/// place: from `low` to `high`, which may lie before the way starts or after it ends, where it has gone `whole`.
#[derive(Clone, Copy)]
pub(crate) struct Stretch {
    low: i64,
    high: i64,
    whole: u32,
}

impl Stretch {
    ghost use Rattle.std.specs.Prelude.{◌≡◌};
    ghost use Rattle.room_patches.specs.Places.{IsCoordinate};
    ghost use Rattle.visibility.specs.Shapes.{IsBounded};
    ghost use Rattle.visibility.specs.Stretches.{begins_before_end, meets, stretch};

    // The stretch between the faces at `low` and `high` millimetres.
    pub(crate) fn along(low: u32, high: u32, from: i32, to: i32) -> Stretch
        requires from { IsCoordinate from }
        requires to { IsCoordinate to }
        ensures value { result ≡ stretch low high from to }
        ensures bounded { IsBounded result }
    {
        let low = 2 * i64::from(low);
        let high = 2 * i64::from(high);
        let start = i64::from(from);
        let whole = to.abs_diff(from);
        if from <= to {
            Stretch {
                low: low - start,
                high: high - start,
                whole,
            }
        } else {
            Stretch {
                low: start - high,
                high: start - low,
                whole,
            }
        }
    }

    // Whether the way is within both stretches at once, where it comes to each of them.
    #[tactic(auto, unfolding(crate::specs::Stretches::meets))]
    fn meets(self, other: Stretch) -> bool
        requires own { IsBounded self }
        requires other { IsBounded other }
        ensures { result ≡ meets self other }
    {
        self.whole == 0
            || other.whole == 0
            || self.begins_before_end(other) && other.begins_before_end(self)
    }

    // Whether the way comes to this stretch before it has left the other.
    fn begins_before_end(self, other: Stretch) -> bool
        requires own { IsBounded self }
        requires other { IsBounded other }
        ensures { result ≡ begins_before_end self other }
    {
        self.low * i64::from(other.whole) < other.high * i64::from(self.whole)
    }
}

// Whether the way is within three stretches at once, as it is where it is so within each two of them.
pub(crate) fn all_meet(x: Stretch, y: Stretch, z: Stretch) -> bool
    requires x { IsBounded x }
    requires y { IsBounded y }
    requires z { IsBounded z }
    ensures { result ≡ all_meet x y z }
{
    x.meets(y) && x.meets(z) && y.meets(z)
}

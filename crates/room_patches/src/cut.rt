// A length that is cut into parts.
ghost use Rattle.std.specs.Prelude.{◌≡◌, ◌*◌, ◌<◌, ◌≤◌};
ghost use Rattle.room_patches.specs.Cuts.{IsCut, bound, middle, part};

/// A length in millimetres, and how many parts it is cut into.
#[derive(Clone, Copy, Debug, PartialEq, Eq)]
pub struct Cut {
    /// The length, at most `MOST_LENGTH`.
    pub whole: u32,
    /// The number of parts, 1 to `MOST_PARTS`.
    pub parts: u32,
}

impl Cut {
    // The bound before part `k`, or after the last part.
    fn bound(self, k: u32) -> u32
        requires cut { IsCut self }
        requires inside { k ≤ self.parts }
        ensures value { result ≡ bound self k }
        ensures limited { result ≤ self.whole }
    {
        k * self.whole / self.parts
    }

    /// The middle of part `k` in half-millimetres, from where the length begins.
    pub fn middle(self, k: u32) -> u32
        requires cut { IsCut self }
        requires inside { k < self.parts }
        ensures value { result ≡ middle self k }
        ensures limited { result ≤ 2 * self.whole }
    {
        self.bound(k) + self.bound(k + 1)
    }

    /// The length of part `k` in millimetres: 0 where the parts are more than the millimetres and this one has none.
    pub fn part(self, k: u32) -> u32
        requires cut { IsCut self }
        requires inside { k < self.parts }
        ensures value { result ≡ part self k }
        ensures limited { result ≤ self.whole }
    {
        self.bound(k + 1) - self.bound(k)
    }
}

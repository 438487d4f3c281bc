// Fractions, which are compared with no division.
ghost use Rattle.std.specs.Prelude.{◌≡◌, ℕ, ◌<◌, max};

// So many parts of a whole.
#[derive(Clone, Copy)]
pub struct Fraction {
    pub parts: u64,
    pub whole: u64,
}

impl Fraction {
    ghost use Rattle.enclosure.specs.Shapes.{part_of};

    // The greater of two fractions: it takes no less of any amount than the other, also where that is rounded up.
    #[inline]
    pub fn greater(self, other: Fraction) -> Fraction
        requires one { 0 < self.whole }
        requires two { 0 < other.whole }
        ensures whole { 0 < result.whole }
        ensures greatest { (amount : ℕ) → part_of result amount ≡ max (part_of self amount) (part_of other amount) }
    {
        let left = u128::from(self.parts) * u128::from(other.whole);
        let right = u128::from(other.parts) * u128::from(self.whole);
        if left < right { raised(other) } else { self }
    }

    // So much of an amount, rounded up.
    pub fn of(self, amount: u64) -> u128
        requires { 0 < self.whole }
        ensures { result ≡ part_of self amount }
    {
        (u128::from(self.parts) * u128::from(amount)).div_ceil(u128::from(self.whole))
    }
}

// The greater fraction, where it is a new one. Few are, so the way on with the old one is laid out as the straight one.
#[cold]
#[inline(never)]
fn raised(fraction: Fraction) -> Fraction
    ensures { result ≡ fraction }
{
    fraction
}

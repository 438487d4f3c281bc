// Who meets in a tournament.
ghost use Rattle.std.specs.Prelude.{◌≡◌, ◌+◌, ◌*◌, ◌^◌};
ghost use Rattle.picker.specs.Shapes.{better};

// How many numbers a word has.
const WORD: u128 = 1 << 64;

// A place with its value.
#[derive(Clone, Copy, Debug, PartialEq, Eq)]
pub struct Contender {
    pub value: u64,
    pub place: usize,
}

// A value, and behind it the number that decides where values are equal.
#[inline]
fn with_tie(value: u64, tie: usize) -> u128
    ensures { result ≡ value * 2 ^ 64 + tie }
{
    u128::from(value) * WORD + tie as u128
}

// The one of the greater value, and of equal values the one of the lower place.
#[inline]
pub fn better(one: Contender, other: Contender) -> Contender
    ensures { result ≡ better one other }
{
    // One comparison of two numbers, each with the place of the other behind its value, so that no branch is built.
    if with_tie(other.value, one.place) < with_tie(one.value, other.place) {
        one
    } else {
        other
    }
}

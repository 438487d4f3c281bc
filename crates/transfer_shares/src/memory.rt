// A memory of weights. Where the lengths of a room divide evenly, the same distances and areas come again and again.
ghost use Rattle.std.specs.Prelude.{◌≡◌, ◌*◌, ◌/◌, ◌^◌, ◌<◌, ◌≤◌, length};

use crate::quotient::scaled_quotient;

/// How many weights are remembered: what a processor keeps near.
pub(crate) const SLOTS: usize = 8_192;

/// A weight with the two numbers that it follows from.
#[derive(Clone, Copy)]
pub(crate) struct Remembered {
    top: u64,
    square: u64,
    weight: u64,
    ghost holds: { weight ≡ 10 ^ 15 * top / (square * square) },
}

impl Remembered {
    // What stands in a slot that nothing was stored in yet.
    pub(crate) fn nothing() -> Remembered {
        Remembered {
            top: 0,
            square: 1,
            weight: 0,
        }
    }
}

// 10^15 times `top`, over the square of `square`, cut: from the memory, which remembers it from then on.
pub(crate) fn remembered_quotient(memory: &mut [Remembered], top: u64, square: u64) -> u128
    requires slots { length memory.old ≡ SLOTS }
    requires some { 0 < square }
    requires near { square ≤ 120000000000 }
    ensures { result ≡ 10 ^ 15 * top / (square * square) }
{
    let at = slot_of(top, square);
    let slot = memory[at];
    if slot.top == top && slot.square == square {
        return u128::from(slot.weight);
    }
    let weight = scaled_quotient(top, square);
    if let Ok(narrow) = u64::try_from(weight) {
        memory[at] = Remembered {
            top,
            square,
            weight: narrow,
        };
    }
    weight
}

// The slot of two numbers: the upper 13 bits of a mixture of them.
fn slot_of(top: u64, square: u64) -> usize
    ensures { result < SLOTS }
{
    let mixed = square.wrapping_mul(0x9E37_79B9_7F4A_7C15).wrapping_add(top);
    (mixed.wrapping_mul(0xD6E8_FEB8_6659_FD93) >> 51) as usize
}

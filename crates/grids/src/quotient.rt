// The quotient that a coefficient is, with one short division in place of a long one.
ghost use Rattle.std.specs.Prelude.{◌≡◌, ◌*◌, ◌/◌, ◌^◌, ◌<◌, ◌≤◌};

/// What coefficients are counted in, over pi.
const SCALE: u64 = 1_273_239_544_000_000_000;

// `SCALE` times `top`, over the square of `square`, cut.
pub(crate) fn scaled_quotient(top: u64, square: u64) -> u64
    requires some { 0 < square }
    requires top { top ≤ square }
    requires near { square ≤ 120000000000 }
    ensures { result ≡ SCALE * top / (square * square) }
{
    let whole = u128::from(SCALE) * u128::from(top);
    let divisor = u128::from(square) * u128::from(square);
    let mut quotient = quotient_below(top, square);
    let mut rest = whole - u128::from(quotient) * divisor;
    while rest >= divisor {
        quotient += 1;
        rest -= divisor;
    }
    quotient
}

// A number that is at most that quotient, and less by one at most: by the reciprocal of `square`, in parts of 2^64.
fn quotient_below(top: u64, square: u64) -> u64
    requires some { 0 < square }
    requires top { top ≤ square }
    ensures { result * (square * square) ≤ SCALE * top }
{
    let reciprocal = u64::MAX / square;
    upper_half(upper_half(top * reciprocal, 8 * SCALE), reciprocal) / 8
}

// The upper 64 bits of a product.
fn upper_half(a: u64, b: u64) -> u64
    ensures { result ≡ a * b / 2 ^ 64 }
{
    ((u128::from(a) * u128::from(b)) >> 64) as u64
}

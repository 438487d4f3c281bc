// The quotient that a weight is, without a division of 128 bits wherever an estimate of it passes a test.
ghost use Rattle.std.specs.Prelude.{◌≡◌, ◌+◌, ◌*◌, ◌/◌, ◌^◌, ◌<◌, ◌≤◌};

/// What weights are counted in.
const SCALE: u64 = 1_000_000_000_000_000;

/// Estimates from here on are not tested.
const MOST_ESTIMATE: u64 = 1 << 50;

// 10^15 times `top`, over the square of `square`, cut.
pub(crate) fn scaled_quotient(top: u64, square: u64) -> u128
    requires some { 0 < square }
    requires near { square ≤ 120000000000 }
    ensures { result ≡ 10 ^ 15 * top / (square * square) }
{
    let whole = u128::from(SCALE) * u128::from(top);
    let divisor = u128::from(square) * u128::from(square);
    quotient_near(whole, divisor, estimate(top, square))
}

// The quotient of two numbers, which is quickly found where the estimate is right or one too low. Others do no harm.
fn quotient_near(whole: u128, divisor: u128, estimate: u64) -> u128
    requires some { 0 < divisor }
    requires limited { divisor ≤ 2 ^ 76 }
    ensures { result ≡ whole / divisor }
{
    if estimate < MOST_ESTIMATE {
        let estimate = u128::from(estimate);
        let part = estimate * divisor;
        if part <= whole && whole - part < divisor {
            return estimate;
        }
        if part + divisor <= whole && whole - part - divisor < divisor {
            return estimate + 1;
        }
    }
    whole / divisor
}

// About 10^15 times `top`, over the square of `square`: the reciprocal of `square`, scaled to 64 bits, by a short quotient
// and two of Newton's steps, each of which doubles the bits that are right. Nothing is proved of it but that it ends, since
// it is tested before it is used.
fn estimate(top: u64, square: u64) -> u64 {
    let square_shift = square.leading_zeros();
    let scaled = square.wrapping_shl(square_shift);
    let short = u32::MAX / ((scaled >> 48) as u32).max(1);
    let reciprocal = refined(scaled, refined(scaled, u64::from(short) << 46));
    let top_shift = top.leading_zeros();
    let weighed = upper_half(top.wrapping_shl(top_shift), SCALE << 14);
    let quotient = upper_half(upper_half(weighed, reciprocal), reciprocal);
    quotient.wrapping_shr(
        top_shift
            .wrapping_add(74)
            .wrapping_sub(square_shift.wrapping_mul(2)),
    )
}

// A step of Newton's towards 2^126 over a number.
fn refined(number: u64, reciprocal: u64) -> u64 {
    let error = (1u64 << 63).wrapping_sub(upper_half(number, reciprocal));
    upper_half(reciprocal, error) << 2
}

// The upper 64 bits of a product.
fn upper_half(a: u64, b: u64) -> u64
    ensures { result ≡ a * b / 2 ^ 64 }
{
    ((u128::from(a) * u128::from(b)) >> 64) as u64
}

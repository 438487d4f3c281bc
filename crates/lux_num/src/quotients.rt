// Quotients of products, and square roots.
ghost use Rattle.std.specs.Prelude.{◌≡◌, ◌+◌, ◌*◌, ◌<◌, ◌≤◌};
ghost use Rattle.lux_num.specs.Quotients.{quotient_down, quotient_up, root};

/// `a` times `b`, divided by `divisor` and cut. `None` exactly where `divisor` is 0 or the product passes 128 bits.
pub fn mul_div_floor(a: u128, b: u128, divisor: u128) -> Option<u128>
    ensures { result ≡ quotient_down a b divisor }
{
    a.checked_mul(b)?.checked_div(divisor)
}

/// `a` times `b`, divided by `divisor` and rounded up. `None` exactly where `divisor` is 0, or the product or the
/// rounded result passes 128 bits.
pub fn mul_div_ceil(a: u128, b: u128, divisor: u128) -> Option<u128>
    ensures { result ≡ quotient_up a b divisor }
{
    let product = a.checked_mul(b)?;
    let quotient = product.checked_div(divisor)?;
    if quotient * divisor == product {
        Some(quotient)
    } else {
        Some(quotient + 1)
    }
}

/// The greatest whole number whose square is at most `x`.
pub fn isqrt(x: u128) -> u64
    ensures value { result ≡ root x }
    ensures square { result * result ≤ x }
    ensures next_square { x < (result + 1) * (result + 1) }
{
    match u64::try_from(x) {
        Ok(small) => root_by_steps(small),
        Err(_) => x.isqrt() as u64,
    }
}

// The same of a number of 64 bits, by Newton's steps from above.
fn root_by_steps(x: u64) -> u64
    ensures value { result ≡ root x }
    ensures square { result * result ≤ x }
    ensures next_square { x < (result + 1) * (result + 1) }
{
    if x == 0 {
        return 0;
    }
    let mut root = 1u64 << (x.ilog2() / 2 + 1);
    loop {
        let next = (root + x / root) / 2;
        if next >= root {
            return root;
        }
        root = next;
    }
}

// A whole number times a power of ten.
ghost use Rattle.std.specs.Prelude.{◌≡◌, ◌*◌, ◌/◌, ◌^◌, ◌==◌, ◌%◌, ◌&&◌, nat_le, if◌then◌else◌, Some, None};
ghost use Rattle.lux_num.specs.Scaled.{scaled_value, is_scaled_within, is_scaled_whole};

use crate::powers::power_of_ten;

/// The number times ten to a power, cut. `None` exactly where it exceeds 10^38 uncut.
#[tactic(auto, unfolding(crate::specs::Scaled::scaled_value, crate::specs::Scaled::is_scaled_within))]
pub fn scaled_value(number: u128, power: i64) -> Option<u128>
    ensures { result ≡ (if is_scaled_within (10 ^ 38) number power then Some (scaled_value number power) else None) }
{
    if power < 0 {
        Some(quotient_by_power(number, power.unsigned_abs()))
    } else {
        product_with_power(number, power as u64)
    }
}

/// The number times ten to a power, where that is whole and at most 10^38.
#[tactic(auto, unfolding(crate::specs::Scaled::scaled_value, crate::specs::Scaled::is_scaled_within, crate::specs::Scaled::is_scaled_whole))]
pub fn whole_value(number: u128, power: i64) -> Option<u128>
    ensures { result ≡ (if is_scaled_whole number power && is_scaled_within (10 ^ 38) number power then Some (scaled_value number power) else None) }
{
    if power < 0 {
        exact_quotient(number, power.unsigned_abs())
    } else {
        product_with_power(number, power as u64)
    }
}

/// Whether the number times ten to a power is at most `most`, uncut.
#[tactic(auto, unfolding(crate::specs::Scaled::is_scaled_within))]
pub fn is_within(most: u64, number: u128, power: i64) -> bool
    ensures { result ≡ is_scaled_within most number power }
{
    if power < 0 {
        is_quotient_within(most, number, power.unsigned_abs())
    } else {
        match product_with_power(number, power as u64) {
            Some(product) => product <= u128::from(most),
            None => false,
        }
    }
}

// The number times ten to a power, where that is at most 10^38.
fn product_with_power(number: u128, power: u64) -> Option<u128>
    ensures { result ≡ (if nat_le (number * 10 ^ power) (10 ^ 38) then Some (number * 10 ^ power) else None) }
{
    if number == 0 {
        return Some(0);
    }
    if power > 38 || number > power_of_ten(38 - power) {
        return None;
    }
    Some(number * power_of_ten(power))
}

// The number over ten to a power, cut.
fn quotient_by_power(number: u128, power: u64) -> u128
    ensures { result ≡ number / 10 ^ power }
{
    if power > 38 {
        0
    } else {
        number / power_of_ten(power)
    }
}

// The number over ten to a power, where that is whole.
fn exact_quotient(number: u128, power: u64) -> Option<u128>
    ensures { result ≡ (if number % 10 ^ power == 0 then Some (number / 10 ^ power) else None) }
{
    if power > 38 {
        return if number == 0 { Some(0) } else { None };
    }
    let divisor = power_of_ten(power);
    let quotient = number / divisor;
    if quotient * divisor == number {
        Some(quotient)
    } else {
        None
    }
}

// Whether the number over ten to a power is at most `most`, uncut.
fn is_quotient_within(most: u64, number: u128, power: u64) -> bool
    ensures { result ≡ nat_le number (most * 10 ^ power) }
{
    if power > 38 {
        return number == 0 || most != 0;
    }
    match u128::from(most).checked_mul(power_of_ten(power)) {
        Some(limit) => number <= limit,
        None => true,
    }
}

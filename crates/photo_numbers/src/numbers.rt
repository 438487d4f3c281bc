// Counts and angles.
ghost use Rattle.std.specs.Prelude.{◌≡◌, ◌≤◌, IfSome, is_some};
ghost use Rattle.photo_numbers.specs.Numbers.{count_of, is_whole_within, angle_of, is_angle};

use lux_num::Decimal;

/// The number, where it is whole, not negative and from `low` to `high`; by its value, so `1.0` is 1.
#[tactic(auto, using(std::proofs::lemmas::Bool::Decides::nat_tests))]
pub fn whole_within(number: &Decimal, low: u32, high: u32) -> Option<u32>
    ensures exactly { is_some result ≡ is_whole_within low high number.now }
    ensures value { IfSome result (λ whole. whole ≡ count_of number.now) }
    ensures within { IfSome result (λ whole. (low ≤ whole) × (whole ≤ high)) }
{
    let whole = number.to_whole()?;
    if number.is_negative() || whole < u128::from(low) || u128::from(high) < whole {
        return None;
    }
    Some(whole as u32)
}

/// The number of degrees as an angle in thousandths of a degree, cut, where it isn't negative and the cut angle is from
/// `least` to `most`.
#[tactic(auto, using(std::proofs::lemmas::Bool::Decides::nat_tests))]
pub fn angle_within(number: &Decimal, least: u32, most: u32) -> Option<u32>
    ensures exactly { is_some result ≡ is_angle least most number.now }
    ensures value { IfSome result (λ angle. angle ≡ angle_of number.now) }
    ensures within { IfSome result (λ angle. (least ≤ angle) × (angle ≤ most)) }
{
    if number.is_negative() {
        return None;
    }
    let angle = number.to_fixed(3)?;
    if angle < u128::from(least) || u128::from(most) < angle {
        return None;
    }
    Some(angle as u32)
}

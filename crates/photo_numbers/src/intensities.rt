// Intensities.
ghost use Rattle.std.specs.Prelude.{◌≡◌, ◌≤◌, ◌^◌, IfSome, is_some};
ghost use Rattle.photo_numbers.specs.Intensities.{intensity_of, is_intensity};

use lux_num::Decimal;
use photo_web::MOST_INTENSITY;

/// The intensity in microcandela of a value (candela) times a factor of which `units` are 1, cut, where the value is
/// from 0 to `most` and the intensity at most 10^15.
#[tactic(auto, using(std::proofs::lemmas::Bool::Decides::nat_tests))]
pub fn intensity_within(number: &Decimal, most: u64, units: u64, factor: u128) -> Option<u64>
    requires most { most ≤ 10 ^ 9 }
    requires some_units { 1 ≤ units }
    requires few_units { units ≤ 10 ^ 12 }
    requires factor { factor ≤ 10 ^ 20 }
    ensures exactly { is_some result ≡ is_intensity most units factor number.now }
    ensures value { IfSome result (λ intensity. intensity ≡ intensity_of units factor number.now) }
    ensures limited { IfSome result (λ intensity. intensity ≤ 10 ^ 15) }
{
    let value = number.cut_within(9, most)?;
    let intensity = value * factor / u128::from(1_000 * units);
    if intensity > u128::from(MOST_INTENSITY) {
        return None;
    }
    Some(intensity as u64)
}

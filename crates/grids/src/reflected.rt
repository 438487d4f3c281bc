// What patches reflect to a point.
ghost use Rattle.std.specs.Prelude.{◌≡◌, ◌+◌, ◌*◌, ◌≤◌, ◌^◌, false, All, length};
ghost use Rattle.room_patches.specs.Places.{IsPlace};
ghost use Rattle.room_patches.specs.Patches.{IsPatch};
ghost use Rattle.grids.specs.GridPoint.{coefficient, reflected_light, low_end, high_end};
ghost use Rattle.grids.specs.Validity.{is_too_near};

use crate::coefficients::coefficient;
use room_patches::{MOST_PATCHES, Patch};

// What a patch weighs at a point.
fn weight(patch: &Patch, point: [i32; 3]) -> u64
    requires patch { IsPatch patch.now }
    requires point { IsPlace point }
    requires apart { is_too_near point patch.now ≡ false }
    ensures value { result ≡ patch.now.reflectance * coefficient patch.now point }
    ensures most { result ≤ 950 * (318309886 * 10 ^ 5) }
{
    u64::from(patch.reflectance) * coefficient(patch, point)
}

// What patches reflect to a point in parts of 10^15 of a nanolux, where the flux of each is at the low end of its interval,
// and where it is at the high end.
pub(crate) fn reflected_ends(
    patches: &[Patch],
    point: [i32; 3],
    bounds: &[(u64, u64)],
) -> (u128, u128)
    requires patches { All IsPatch patches.now }
    requires few { length patches.now ≤ MOST_PATCHES }
    requires point { IsPlace point }
    requires apart { All (λ patch. is_too_near point patch ≡ false) patches.now }
    requires places { length bounds.now ≡ length patches.now }
    requires order { All (λ ends. ends.0 ≤ ends.1) bounds.now }
    requires limited { All (λ ends. ends.1 ≤ 4 * 10 ^ 17 + 10 ^ 13) bounds.now }
    ensures low { result.0 ≡ reflected_light patches.now point (low_end bounds.now) }
    ensures high { result.1 ≡ reflected_light patches.now point (high_end bounds.now) }
    ensures order { result.0 ≤ result.1 }
    ensures limited { result.1 ≤ 10 ^ 38 }
{
    let mut low = 0;
    let mut high = 0;
    for (i, patch) in patches.iter().enumerate() {
        let weight = u128::from(weight(patch, point));
        let (least, most) = bounds[i];
        low += weight * u128::from(least);
        high += weight * u128::from(most);
    }
    (low, high)
}

// Angles within the first quadrant, and bearings all round.
ghost use Rattle.std.specs.Prelude.{◌≡◌, ◌≤◌, ◌<◌};
ghost use Rattle.direction_table.specs.Directions.{angle, bearing};

use crate::degrees::{degree_at, last_degree};

/// The angle from the x axis to (x, y), in thousandths of a degree, cut; 0 at the origin.
#[tactic(auto, using(crate::proofs::Between::places), unfolding(crate::specs::Directions::angle))]
pub fn angle(x: u32, y: u32) -> u32
    ensures meaning { result ≡ angle x y }
    ensures within { result ≤ 90000 }
    ensures short_of_the_y_axis { 0 < x → result < 90000 }
{
    if x == 0 && y == 0 {
        return 0;
    }
    let degrees = last_degree(x, y);
    let low = degree_at(degrees);
    let high = degree_at(degrees + 1);
    let (across, along) = (u128::from(x), u128::from(y));
    let past = along * u128::from(low.cosine) - across * u128::from(low.sine);
    let short = across * u128::from(high.sine) - along * u128::from(high.cosine);
    1000 * degrees as u32 + (1000 * past / (past + short)) as u32
}

/// The angle from the x axis all round to (x, y), in thousandths of a degree, cut; 0 at the origin.
#[tactic(auto, using(std::proofs::lemmas::Int::ints), unfolding(crate::specs::Directions::bearing))]
pub fn bearing(x: i32, y: i32) -> u32
    ensures meaning { result ≡ bearing x y }
    ensures within { result < 360000 }
{
    let (across, along) = (x.unsigned_abs(), y.unsigned_abs());
    if 0 < x && 0 <= y {
        angle(across, along)
    } else if x <= 0 && 0 < y {
        90_000 + angle(along, across)
    } else if x < 0 && y <= 0 {
        180_000 + angle(across, along)
    } else if 0 <= x && y < 0 {
        270_000 + angle(along, across)
    } else {
        0
    }
}

// Whether boxes hide two places from each other.
ghost use Rattle.std.specs.Prelude.{◌≡◌, ◌↔◌, IsTrue};
ghost use Rattle.room_patches.specs.Places.{IsPlace};
ghost use Rattle.visibility.specs.Hidden.{AreHidden};
ghost use Rattle.visibility.specs.Stretches.{comes_between, hidden, hides, is_pierced};

use crate::stretch::{Stretch, all_meet};
use room_patches::BoxSpec;

/// Whether one of some boxes hides two places from each other: whether some point of the segment between them, its ends
/// included, lies strictly inside the box. To touch a face, an edge or a corner hides nothing. Places are in
/// half-millimetres.
#[tactic(auto, unfolding(crate::specs::Stretches::hidden))]
pub fn are_hidden(boxes: &[BoxSpec], from: [i32; 3], to: [i32; 3]) -> bool
    requires from { IsPlace from }
    requires to { IsPlace to }
    ensures value { result ≡ hidden boxes.now from to }
    ensures hidden { IsTrue result ↔ AreHidden boxes.now from to }
{
    boxes.iter().any(|obstacle| hides(obstacle, from, to))
}

// Whether one box does.
#[tactic(auto, unfolding(crate::specs::Stretches::hides))]
fn hides(obstacle: &BoxSpec, from: [i32; 3], to: [i32; 3]) -> bool
    requires from { IsPlace from }
    requires to { IsPlace to }
    ensures { result ≡ hides obstacle.now from to }
{
    // Most furniture is low, so that the height is tried first.
    comes_between(obstacle.z0, obstacle.z1, from[2], to[2])
        && comes_between(obstacle.x0, obstacle.x1, from[0], to[0])
        && comes_between(obstacle.y0, obstacle.y1, from[1], to[1])
        && is_pierced(obstacle, from, to)
}

// Whether some of the way along one axis lies strictly between two faces.
#[tactic(auto, unfolding(crate::specs::Stretches::comes_between))]
fn comes_between(low: u32, high: u32, from: i32, to: i32) -> bool
    ensures { result ≡ comes_between low high from to }
{
    2 * i64::from(low) < i64::from(from.max(to))
        && i64::from(from.min(to)) < 2 * i64::from(high)
        && low < high
}

// Whether the way is between the faces along all three axes at once, where it is along each of them.
#[tactic(auto, unfolding(crate::specs::Stretches::is_pierced))]
fn is_pierced(obstacle: &BoxSpec, from: [i32; 3], to: [i32; 3]) -> bool
    requires from { IsPlace from }
    requires to { IsPlace to }
    ensures { result ≡ is_pierced obstacle.now from to }
{
    all_meet(
        Stretch::along(obstacle.x0, obstacle.x1, from[0], to[0]),
        Stretch::along(obstacle.y0, obstacle.y1, from[1], to[1]),
        Stretch::along(obstacle.z0, obstacle.z1, from[2], to[2]),
    )
}

// How many shooters a run has.
ghost use Rattle.std.specs.Prelude.{◌≡◌, ◌≤◌, is_some, IfSome};
ghost use Rattle.flux_system.specs.declared.TheConstants.{MOST_SEATS};
ghost use Rattle.run_words.specs.ShooterCounts.{is_shooter_count, default_shooters};

use flux_system::MOST_SEATS;
use std::marker::Model;

/// How many shooters a run has: 1 to `MOST_SEATS`, and 4 by default. Contracts see the number.
#[derive(Clone, Copy, Debug)]
pub struct ShooterCount {
    count: u32,
}

impl Model for ShooterCount {
    ghost use Rattle.std.specs.Prelude.{ℕ, ◌≤◌};
    ghost use Rattle.flux_system.specs.declared.TheConstants.{MOST_SEATS};

    ghost Value = { ℕ };

    ghost view = { λ s. s.count };

    ghost invariant = { λ s. (1 ≤ s.count) × (s.count ≤ MOST_SEATS) };

    ghost inverse = { λ count. record { count = count } };
}

impl ShooterCount {
    /// That many shooters, where they are 1 to `MOST_SEATS`.
    pub fn new(count: u64) -> Option<ShooterCount>
        ensures exactly { is_some result ≡ is_shooter_count count }
        ensures value { IfSome result (λ shooters. shooters ≡ count) }
    {
        if 1 <= count && count <= u64::from(MOST_SEATS) {
            Some(ShooterCount {
                count: count as u32,
            })
        } else {
            None
        }
    }

    /// The number.
    pub fn get(self) -> u32
        ensures value { result ≡ self }
        ensures range { (1 ≤ result) × (result ≤ MOST_SEATS) }
    {
        self.count
    }
}

impl Default for ShooterCount {
    ghost is_default = { λ shooters. shooters ≡ default_shooters };

    fn default() -> ShooterCount {
        ShooterCount { count: 4 }
    }
}

// What is computed from the ledger of a run.
ghost use Rattle.std.specs.Prelude.{◌≡◌, ◌<◌, [], length, slice_index_or};
ghost use Rattle.lux_report.specs.Facts.{Facts, lists_of};

use compliance::Judged;
use std::marker::Model;

/// How many shooters a run had, and the intervals that are computed from its ledger: of the flux of each patch, of the
/// light at the points of each check, and what each check is answered. Contracts see it as the record of these.
#[derive(Debug, Drop)]
pub struct Facts {
    shooters: u32,
    bounds: Vec<(u64, u64)>,
    points: Vec<Vec<(u128, u128)>>,
    judged: Vec<Judged>,
}

impl Model for Facts {
    ghost use Rattle.lux_report.specs.Facts.{Facts, lists_of};

    ghost Value = { Facts };

    ghost view = { λ f. record { shooters = f.shooters; bounds = f.bounds.items; points = lists_of f.points.items; judged = f.judged.items } };
}

impl Facts {
    /// The facts of these parts: intervals in nanolumens for the patches, and in nanolux for the points of each check.
    /// Takes no memory.
    pub fn new(
        shooters: u32,
        bounds: Vec<(u64, u64)>,
        points: Vec<Vec<(u128, u128)>>,
        judged: Vec<Judged>,
    ) -> Facts
        ensures { result ≡ record { shooters = shooters; bounds = bounds.items; points = lists_of points.items; judged = judged.items } }
    {
        Facts {
            shooters,
            bounds,
            points,
            judged,
        }
    }

    /// How many shooters the run had.
    pub fn shooters(&self) -> u32
        ensures { result ≡ self.now.shooters }
    {
        self.shooters
    }

    /// The ends of the flux of each patch, in nanolumens.
    pub fn bounds(&self) -> &[(u64, u64)]
        ensures { result.now ≡ self.now.bounds }
    {
        self.bounds.as_slice()
    }

    /// The ends of the light at each point of a check, in nanolux.
    pub fn points(&self, check: usize) -> &[(u128, u128)]
        requires { check < length self.now.points }
        ensures { result.now ≡ slice_index_or self.now.points check [] }
    {
        self.points[check].as_slice()
    }

    /// What each check is answered.
    pub fn judged(&self) -> &[Judged]
        ensures { result.now ≡ self.now.judged }
    {
        self.judged.as_slice()
    }
}

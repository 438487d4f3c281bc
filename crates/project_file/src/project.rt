// A project.
ghost use Rattle.std.specs.Prelude.{◌≡◌, ◌≤◌, ◌<◌, ◌^◌, length};
ghost use Rattle.std.specs.List.{All};
ghost use Rattle.project_file.specs.Projects.{IsProject, IsCheck};

use compliance::CheckSpec;
use fixtures::FixtureSpec;
use lux_io::Name;
use room_patches::{Region, RoomSpec};
use std::marker::Model;

/// A room to light and the regions of its surfaces, the residual flux at which the solver stops, the files of the
/// photometries, the luminaires, each of which has the number of its file as its web, and the checks of its light.
/// Contracts see it as the record of these.
#[derive(Debug, Drop)]
pub struct Project {
    room: RoomSpec,
    regions: Vec<Region>,
    threshold: u64,
    files: Vec<Name>,
    fixtures: Vec<FixtureSpec>,
    checks: Vec<CheckSpec>,
}

impl Model for Project {
    ghost use Rattle.project_file.specs.Projects.{Project, IsProject};

    ghost Value = { Project };

    ghost view = { λ p. record { room = p.room; regions = p.regions.items; threshold = p.threshold; files = p.files.items; fixtures = p.fixtures.items; checks = p.checks.items } };

    ghost invariant = { λ p. IsProject p.regions.items p.threshold p.files.items p.fixtures.items p.checks.items };
}

impl Project {
    /// A project of these parts.
    pub fn new(
        room: RoomSpec,
        regions: Vec<Region>,
        threshold: u64,
        files: Vec<Name>,
        fixtures: Vec<FixtureSpec>,
        checks: Vec<CheckSpec>,
    ) -> Project
        requires { IsProject regions.items threshold files.items fixtures.items checks.items }
        ensures { result ≡ record { room = room; regions = regions.items; threshold = threshold; files = files.items; fixtures = fixtures.items; checks = checks.items } }
    {
        Project {
            room,
            regions,
            threshold,
            files,
            fixtures,
            checks,
        }
    }

    /// The room.
    pub fn room(&self) -> RoomSpec
        ensures { result ≡ self.now.room }
    {
        self.room
    }

    /// The regions of its surfaces, in their order.
    pub fn regions(&self) -> &[Region]
        ensures value { result.now ≡ self.now.regions }
        ensures few { length result.now ≤ 16 }
    {
        self.regions.as_slice()
    }

    /// The residual flux in nanolumens at which the solver stops.
    pub fn threshold(&self) -> u64
        ensures value { result ≡ self.now.threshold }
        ensures some { 1 ≤ result }
        ensures low { result ≤ 10 ^ 16 }
    {
        self.threshold
    }

    /// The names of the files of photometry, in the order in which they are numbered.
    pub fn files(&self) -> &[Name]
        ensures value { result.now ≡ self.now.files }
        ensures few { length result.now ≤ 32 }
    {
        self.files.as_slice()
    }

    /// The luminaires.
    pub fn fixtures(&self) -> &[FixtureSpec]
        ensures value { result.now ≡ self.now.fixtures }
        ensures few { length result.now ≤ 256 }
        ensures webs { All (λ f. f.web < length self.now.files) result.now }
    {
        self.fixtures.as_slice()
    }

    /// The checks: what the light on rectangles has to reach.
    pub fn checks(&self) -> &[CheckSpec]
        ensures value { result.now ≡ self.now.checks }
        ensures few { length result.now ≤ 32 }
        ensures checks { All IsCheck result.now }
    {
        self.checks.as_slice()
    }
}

// The parts of a lit room, each made once from those before it.
ghost use Rattle.std.specs.Prelude.{◌≡◌, ◌≢◌, ◌≤◌, ◌<◌, ◌^◌, Some, All, length, map, IfOk, IfErr};
ghost use Rattle.std.specs.Option.{option_map};
ghost use Rattle.std.specs.Thread.{IsSync};
ghost use Rattle.direct_flux.specs.DirectFlux.{direct_flux};
ghost use Rattle.duties.specs.Duties.{first, Answers};
ghost use Rattle.grids.specs.Grids.{grid_of};
ghost use Rattle.grids.specs.Validity.{grid_duties};
ghost use Rattle.fixtures.specs.Fixtures.{fixture_of, IsPlaced};
ghost use Rattle.fixtures.specs.Placing.{placing_duty};
ghost use Rattle.flux_system.specs.System.{FluxSystem, patches};
ghost use Rattle.flux_system.specs.Limits.{limit_duties};
ghost use Rattle.room_patches.specs.Validity.{room_duties};
ghost use Rattle.transfer_shares.specs.Shares.{room_system};
ghost use Rattle.lit_room.specs.LitRooms.{checks_duty};
ghost use Rattle.lit_room.specs.declared.faults.LightFault.TheVariants as fault;

use crate::LightFault;
use compliance::CheckSpec;
use direct_flux::{DirectFault, direct};
use fixtures::{Fixture, FixtureFault, FixtureSpec, place};
use flux_system::{LimitFault, System};
use grids::{Grid, GridFault};
use photo_web::Web;
use rayon::join;
use room_patches::{Region, Room, RoomFault, RoomSpec};
use std::alloc::Global;
use std::thread::Threads;
use transfer_shares::{all_rows, reflectances};

/// The room, where it is valid.
pub(crate) fn make_room(
    alloc: Global,
    spec: RoomSpec,
    regions: &[Region],
) -> Result<Room, LightFault>
    requires { length regions.now ≤ 16 }
    ensures room { IfOk result (λ room. room ≡ record { spec = spec; regions = regions.now }) }
    ensures answer { Answers fault.Memory (option_map fault.Room (first (room_duties (record { spec = spec; regions = regions.now })))) result }
{
    match Room::new(alloc, spec, regions) {
        Ok(room) => Ok(room),
        Err(RoomFault::Memory) => Err(LightFault::Memory),
        Err(fault) => Err(LightFault::Room(fault)),
    }
}

/// The luminaires, where they can be placed in the room.
pub(crate) fn place_all(
    alloc: Global,
    room: &Room,
    specs: &[FixtureSpec],
) -> Result<Vec<Fixture>, LightFault>
    requires { length specs.now ≤ 256 }
    ensures fixtures { IfOk result (λ fixtures. fixtures.items ≡ map fixture_of specs.now) }
    ensures placed { IfOk result (λ fixtures. All IsPlaced fixtures.items) }
    ensures answer { Answers fault.Memory (option_map fault.Fixture (placing_duty room.now.spec specs.now)) result }
{
    match place(alloc, room, specs) {
        Ok(fixtures) => Ok(fixtures),
        Err(FixtureFault::Memory) => Err(LightFault::Memory),
        Err(fault) => Err(LightFault::Fixture(fault)),
    }
}

// The direct flux of each patch. One that is too large is past the first limit, whatever the system is.
fn light_patches(
    alloc: Global,
    room: &Room,
    fixtures: &[Fixture],
    webs: &[Web],
) -> Result<Vec<u64>, LightFault>
    requires placed { All IsPlaced fixtures.now }
    requires webs { All (λ fixture. fixture.web < length webs.now) fixtures.now }
    requires few { length fixtures.now ≤ 256 }
    ensures flux { IfOk result (λ flux. flux.items ≡ direct_flux room.now fixtures.now webs.now) }
    ensures fault { IfErr result (λ answer. answer ≢ fault.Memory → (system : FluxSystem) → option_map fault.Limits (first (limit_duties system (direct_flux room.now fixtures.now webs.now))) ≡ Some answer) }
{
    match direct(alloc, room, fixtures, webs) {
        Ok(flux) => Ok(flux),
        Err(DirectFault::Memory) => Err(LightFault::Memory),
        Err(DirectFault::FluxTooLarge { sum }) => {
            Err(LightFault::Limits(LimitFault::FluxTooLarge { sum }))
        }
    }
}

// The flux system of a room, which is always accepted. Its shares are made in threads.
fn make_system(
    rt: &(impl Threads + Sync),
    alloc: Global,
    room: &Room,
    threshold: u64,
) -> Result<System, LightFault>
    requires some { 1 ≤ threshold }
    requires limited { threshold ≤ 10 ^ 16 }
    ensures system { IfOk result (λ system. system ≡ room_system room.now threshold) }
    ensures fault { IfErr result (λ answer. answer ≡ fault.Memory) }
{
    let Ok(shares) = all_rows(rt, alloc, room) else {
        return Err(LightFault::Memory);
    };
    let Ok(reflectance) = reflectances(alloc, room) else {
        return Err(LightFault::Memory);
    };
    match System::from_vecs_in_threads(rt, alloc, reflectance, shares, threshold) {
        Ok(system) => Ok(system),
        Err(_) => Err(LightFault::Memory),
    }
}

/// The direct flux of each patch and the flux system of the room, side by side. Only the flux can be refused.
pub(crate) fn light_room<R: Threads + Sync>(
    rt: &R,
    alloc: Global,
    room: &Room,
    fixtures: &[Fixture],
    webs: &[Web],
    threshold: u64,
) -> Result<(Vec<u64>, System), LightFault>
    requires placed { All IsPlaced fixtures.now }
    requires webs { All (λ fixture. fixture.web < length webs.now) fixtures.now }
    requires few { length fixtures.now ≤ 256 }
    requires some { 1 ≤ threshold }
    requires limited { threshold ≤ 10 ^ 16 }
    ensures flux { IfOk result (λ parts. parts.0.items ≡ direct_flux room.now fixtures.now webs.now) }
    ensures system { IfOk result (λ parts. parts.1 ≡ room_system room.now threshold) }
    ensures fault { IfErr result (λ answer. answer ≢ fault.Memory → (system : FluxSystem) → option_map fault.Limits (first (limit_duties system (direct_flux room.now fixtures.now webs.now))) ≡ Some answer) }
{
    let (flux, system) = join(
        rt,
        || -> Result<Vec<u64>, LightFault>
            requires { All IsPlaced fixtures.now × All (λ fixture. fixture.web < length webs.now) fixtures.now × (length fixtures.now ≤ 256) }
            ensures flux { IfOk result (λ flux. flux.items ≡ direct_flux room.entry.now fixtures.entry.now webs.entry.now) }
            ensures fault { IfErr result (λ answer. answer ≢ fault.Memory → (system : FluxSystem) → option_map fault.Limits (first (limit_duties system (direct_flux room.entry.now fixtures.entry.now webs.entry.now))) ≡ Some answer) }
        { light_patches(alloc, room, fixtures, webs) },
        || -> Result<System, LightFault>
            requires { IsSync R.row × (1 ≤ threshold) × (threshold ≤ 10 ^ 16) }
            ensures system { IfOk result (λ system. system ≡ room_system room.entry.now threshold) }
            ensures fault { IfErr result (λ answer. answer ≡ fault.Memory) }
        { make_system(rt, alloc, room, threshold) },
    );
    let flux = match flux {
        Ok(flux) => flux,
        Err(fault) => return Err(fault),
    };
    let system = match system {
        Ok(system) => system,
        Err(fault) => return Err(fault),
    };
    Ok((flux, system))
}

/// Whether the direct flux is within the limits of the system.
pub(crate) fn test_limits(system: &System, flux: &[u64]) -> Result<(), LightFault>
    requires { length flux.now ≡ patches system.now }
    ensures { Answers fault.Memory (option_map fault.Limits (first (limit_duties system.now flux.now))) result }
{
    match system.takes_bound(flux) {
        Ok(_) => Ok(()),
        Err(fault) => Err(LightFault::Limits(fault)),
    }
}

/// The grids of the checks, where each can be laid in the room. The first check that fails a test gives the error.
pub(crate) fn lay_grids(
    alloc: Global,
    room: &Room,
    checks: &[CheckSpec],
) -> Result<Vec<Grid>, LightFault>
    requires { length checks.now ≤ 32 }
    ensures grids { IfOk result (λ grids. grids.items ≡ map (grid_of room.now.spec) checks.now) }
    ensures answer { Answers fault.Memory (checks_duty room.now.spec checks.now) result }
{
    let mut grids = Vec::with_capacity(alloc, checks.len())?;
    for (at, check) in checks.iter().enumerate() {
        grids.push(lay_grid(alloc, room, at as u32, check)?)?;
    }
    Ok(grids)
}

// The grid of a check, where it can be laid in the room.
fn lay_grid(alloc: Global, room: &Room, at: u32, check: &CheckSpec) -> Result<Grid, LightFault>
    ensures grid { IfOk result (λ grid. grid ≡ grid_of room.now.spec check.now) }
    ensures answer { Answers fault.Memory (option_map (fault.Grid at) (first (grid_duties (grid_of room.now.spec check.now)))) result }
{
    match Grid::new(alloc, room, check) {
        Ok(grid) => Ok(grid),
        Err(GridFault::Memory) => Err(LightFault::Memory),
        Err(fault) => Err(LightFault::Grid { check: at, fault }),
    }
}

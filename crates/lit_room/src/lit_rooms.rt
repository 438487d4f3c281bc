// A lit room.
ghost use Rattle.std.specs.Prelude.{◌≡◌, ◌≢◌, ◌≤◌, ◌<◌, None, All, length, IfOk, IfErr, Ok, Err};
ghost use Rattle.duties.specs.Duties.{first};
ghost use Rattle.fixtures.specs.Fixtures.{IsPlaced};
ghost use Rattle.flux_system.specs.Limits.{limit_duties};
ghost use Rattle.flux_system.specs.System.{patches};
ghost use Rattle.project_file.specs.Projects.{project_room};
ghost use Rattle.lit_room.specs.LitRooms.{Lighting, fixtures_of, system_of, flux_of, grids_of, lit_room_of};
ghost use Rattle.lit_room.specs.declared.faults.LightFault.TheVariants as fault;

use crate::LightFault;
use crate::parts::{lay_grids, light_room, make_room, place_all, test_limits};
use fixtures::Fixture;
use flux_system::System;
use grids::Grid;
use photo_web::Web;
use project_file::Project;
use room_patches::Room;
use std::alloc::Global;
use std::marker::Model;
use std::thread::Threads;

/// A project with the webs of its files, its room, its placed luminaires, the flux system of the room, the direct flux of
/// the luminaires, and the grids of the checks. Contracts see it as the project and the webs, from which all else follows.
#[derive(Drop)]
pub struct LitRoom {
    project: Project,
    webs: Vec<Web>,
    room: Room,
    fixtures: Vec<Fixture>,
    system: System,
    flux: Vec<u64>,
    grids: Vec<Grid>,
}

impl Model for LitRoom {
    ghost use Rattle.lit_room.specs.LitRooms.{Lighting};
    ghost use Rattle.lit_room.specs.Shapes.{HasParts};

    ghost Value = { Lighting };

    ghost view = { λ l. record { project = l.project; webs = l.webs.items } };

    ghost invariant = { λ l. HasParts (record { project = l.project; webs = l.webs.items }) l.room l.fixtures.items l.system l.flux.items l.grids.items };
}

impl LitRoom {
    /// The lit room of a project and of a web for each of its files, in their order. It is refused by the first test that
    /// fails: of the room, of the luminaires, of the direct flux and the bound of takes, of the grids. The shares of a large
    /// room are made in threads.
    pub fn new(
        rt: &(impl Threads + Sync),
        alloc: Global,
        project: Project,
        webs: Vec<Web>,
    ) -> Result<LitRoom, LightFault>
        requires { length webs.items ≡ length project.files }
        ensures ok { IfOk result (λ lit_room. lit_room_of (record { project = project; webs = webs.items }) ≡ Ok lit_room) }
        ensures fault { IfErr result (λ answer. answer ≢ fault.Memory → lit_room_of (record { project = project; webs = webs.items }) ≡ Err answer) }
    {
        let room = match make_room(alloc, project.room(), project.regions()) {
            Ok(room) => room,
            Err(fault) => return Err(fault),
        };
        let fixtures = match place_all(alloc, &room, project.fixtures()) {
            Ok(fixtures) => fixtures,
            Err(fault) => return Err(fault),
        };
        let (flux, system) = match light_room(
            rt,
            alloc,
            &room,
            &fixtures,
            &webs,
            project.threshold(),
        ) {
            Ok(parts) => parts,
            Err(fault) => return Err(fault),
        };
        match test_limits(&system, &flux) {
            Ok(()) => (),
            Err(fault) => return Err(fault),
        }
        let grids = match lay_grids(alloc, &room, project.checks()) {
            Ok(grids) => grids,
            Err(fault) => return Err(fault),
        };
        Ok(LitRoom {
            project,
            webs,
            room,
            fixtures,
            system,
            flux,
            grids,
        })
    }

    /// The project.
    pub fn project(&self) -> &Project
        ensures { result.now ≡ self.now.project }
    {
        &self.project
    }

    /// The webs of the project's files, in their order.
    pub fn webs(&self) -> &[Web]
        ensures value { result.now ≡ self.now.webs }
        ensures count { length result.now ≡ length self.now.project.files }
    {
        self.webs.as_slice()
    }

    /// The room.
    pub fn room(&self) -> &Room
        ensures { result.now ≡ project_room self.now.project }
    {
        &self.room
    }

    /// The luminaires as they are placed in the room, each with the number of its web.
    pub fn fixtures(&self) -> &[Fixture]
        ensures value { result.now ≡ fixtures_of self.now }
        ensures placed { All IsPlaced result.now }
        ensures webs { All (λ fixture. fixture.web < length self.now.webs) result.now }
        ensures few { length result.now ≤ 256 }
    {
        self.fixtures.as_slice()
    }

    /// The flux system of the room, with the project's threshold.
    pub fn system(&self) -> &System
        ensures { result.now ≡ system_of self.now }
    {
        &self.system
    }

    /// The direct flux of each patch, in nanolumens, which is within the limits.
    pub fn flux(&self) -> &[u64]
        ensures value { result.now ≡ flux_of self.now }
        ensures count { length result.now ≡ patches (system_of self.now) }
        ensures limited { first (limit_duties (system_of self.now) (flux_of self.now)) ≡ None }
    {
        self.flux.as_slice()
    }

    /// The grids of the project's checks, in their order.
    pub fn grids(&self) -> &[Grid]
        ensures { result.now ≡ grids_of self.now }
    {
        self.grids.as_slice()
    }
}

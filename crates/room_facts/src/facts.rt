// The facts of a lit room.
ghost use Rattle.std.specs.Prelude.{◌≡◌, IfOk};
ghost use Rattle.enclosure.specs.Interval.{IsDone, EnclosesAll};
ghost use Rattle.lit_room.specs.LitRooms.{system_of, flux_of};
ghost use Rattle.lux_report.specs.Facts.{AreWhole};
ghost use Rattle.room_facts.specs.RoomFacts.{facts_of};
ghost use Rattle.room_facts.specs.Truth.{AreTrue};

use crate::points::judge_check;
use enclosure::all;
use flux_ledger::Ledger;
use lit_room::LitRoom;
use lux_report::Facts;
use std::alloc::{AllocError, Global};

/// What a finished ledger of a lit room says of it, which so many shooters left: the interval of each patch and of each point
/// of its checks, and what each check is answered. All of it is true of the room's exact light.
pub fn find_facts(
    alloc: Global,
    lit_room: &LitRoom,
    shooters: u32,
    ledger: &Ledger,
) -> Result<Facts, AllocError>
    requires done { IsDone (system_of lit_room.now) ledger.now }
    requires flux { ledger.now.direct ≡ flux_of lit_room.now }
    ensures facts { IfOk result (λ facts. facts ≡ facts_of lit_room.now shooters ledger.now) }
    ensures whole { IfOk result (AreWhole lit_room.now.project ledger.now) }
    ensures true_facts { IfOk result (AreTrue lit_room.now) }
    ensures encloses { IfOk result (λ _. EnclosesAll (system_of lit_room.now) ledger.now) }
{
    let bounds = all(alloc, lit_room.system(), ledger)?;
    let checks = lit_room.project().checks();
    let grids = lit_room.grids();
    let mut points = Vec::with_capacity(alloc, checks.len())?;
    let mut judged = Vec::with_capacity(alloc, checks.len())?;
    for (i, check) in checks.iter().enumerate() {
        let (light, answer) = judge_check(alloc, lit_room, &grids[i], check, &bounds)?;
        points.push(light)?;
        judged.push(answer)?;
    }
    Ok(Facts::new(shooters, bounds, points, judged))
}

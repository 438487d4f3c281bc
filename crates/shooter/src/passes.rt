// The turns of a pass.
ghost use Rattle.std.specs.Prelude.{◌≡◌, ◌<◌, length};
ghost use Rattle.flux_system.specs.System.{patches};
ghost use Rattle.flux_accounts.specs.Banks.{IsSeatOf, HasEmptyHand};
ghost use Rattle.shooter.specs.Shooters.{IsPass};

use crate::reports::PassReport;
use crate::turns::{give_all, take};
use flux_accounts::{Bank, Seat, Take};
use flux_ledger::Amounts;
use flux_system::System;
use lux_io::Gate;
use picker::Picker;

// A pass takes up to so many patches before it gives.
const GROUP: usize = 8;

// All turns of a pass: as many as there are patches, in groups. A turn takes the patch that the picker chooses by what is
// remembered, or where it chooses none that of the cursor, which moves on by one.
pub(crate) fn make_turns<G: Gate>(
    bank: &Bank,
    system: &System,
    seat: &mut Seat,
    remembered: &mut Amounts,
    cursor: usize,
    picker: &Picker,
    gate: &G,
) -> PassReport
    requires seat { IsSeatOf bank.now seat.old }
    requires system { system.now ≡ bank.now.system }
    requires lengths { length remembered.old ≡ patches system.now }
    requires cursor { cursor < patches system.now }
    requires empty { HasEmptyHand seat.old }
    ensures of { IsSeatOf bank.now seat.new }
    ensures lengths { length remembered.new ≡ patches system.now }
    ensures pass { IsPass system.now (record { seat = seat.old; remembered = remembered.old; cursor = cursor }) result (record { seat = seat.new; remembered = remembered.new; cursor = cursor }) }
{
    let n = system.len();
    let mut report = PassReport {
        passes: 1,
        won: 0,
        low: 0,
        lost: 0,
    };
    let mut at = cursor;
    for turn in 0..n {
        gate.at(seat.number(), turn as u64, report.won);
        let choice = picker.pick(remembered.as_slice(), system.threshold());
        let patch = choice.unwrap_or(at);
        match take(bank, system, seat, remembered, patch) {
            Take::Won { t: _ } => report.won += 1,
            Take::Low { seen: _ } => report.low += 1,
            Take::Lost { seen: _, found: _ } => report.lost += 1,
        }
        at = (at + 1) % n;
        if (turn + 1) % GROUP == 0 || turn + 1 == n {
            give_all(bank, system, seat, remembered);
        }
    }
    report
}

// Takes and gives of a seat, and what is remembered of them.
ghost use Rattle.std.specs.Prelude.{◌≡◌, ◌<◌, length, slice_set};
ghost use Rattle.flux_system.specs.System.{patches};
ghost use Rattle.flux_accounts.specs.Banks.{IsSeatOf, HasEmptyHand};
ghost use Rattle.flux_accounts.specs.Answers.{IsTake};
ghost use Rattle.shooter.specs.Layouts.{value_left, IsGiving};

use flux_accounts::{Bank, Seat, Take};
use flux_ledger::Amounts;
use flux_system::System;

// A take of a patch, of which the last value that it learnt is remembered.
pub(crate) fn take(
    bank: &Bank,
    system: &System,
    seat: &mut Seat,
    remembered: &mut Amounts,
    patch: usize,
) -> Take
    requires seat { IsSeatOf bank.now seat.old }
    requires system { system.now ≡ bank.now.system }
    requires patch { patch < patches system.now }
    requires lengths { length remembered.old ≡ patches system.now }
    ensures of { IsSeatOf bank.now seat.new }
    ensures number { seat.new.number ≡ seat.old.number }
    ensures steps { IsTake system.now.threshold seat.old.history patch result seat.new.history }
    ensures remembered { remembered.new ≡ slice_set remembered.old patch (value_left result) }
{
    let answer = bank.take(system, seat, patch);
    let value = match answer {
        Take::Won { t: _ } => 0,
        Take::Low { seen } => seen,
        Take::Lost { seen: _, found } => found,
    };
    remembered.set(patch, value);
    answer
}

// Gives to every patch, in order, and remembers what the words have then.
pub(crate) fn give_all(bank: &Bank, system: &System, seat: &mut Seat, remembered: &mut Amounts)
    requires seat { IsSeatOf bank.now seat.old }
    requires system { system.now ≡ bank.now.system }
    requires lengths { length remembered.old ≡ patches system.now }
    ensures of { IsSeatOf bank.now seat.new }
    ensures gives { IsGiving (patches system.now) system.now.threshold seat.old remembered.old seat.new remembered.new }
    ensures lengths { length remembered.new ≡ length remembered.old }
    ensures empty { HasEmptyHand seat.new }
{
    for target in 0..system.len() {
        if let Some(given) = bank.give(seat, target) {
            remembered.set(target, given.after);
        }
    }
}

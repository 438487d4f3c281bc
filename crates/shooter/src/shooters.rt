// What a shooter is.
ghost use Rattle.std.specs.Prelude.{◌≡◌, ◌<◌, length};
ghost use Rattle.flux_system.specs.System.{patches};
ghost use Rattle.flux_accounts.specs.Banks.{HasEmptyHand};

use flux_accounts::Seat;
use flux_ledger::Amounts;
use picker::Picker;

/// One that takes patches of a bank and gives what they pass on. It remembers a value for each patch, and its hand is
/// always empty.
#[derive(Drop)]
pub struct Shooter {
    pub(crate) seat: Seat,
    pub(crate) remembered: Amounts,
    pub(crate) cursor: usize,
    pub(crate) picker: Picker,
    ghost lengths: { length remembered ≡ patches seat.history.account.system },
    ghost inside: { cursor < length remembered },
    ghost empty: { HasEmptyHand seat },
}

// What a ledger file says.
ghost use Rattle.std.specs.Prelude.{◌≡◌, ◌<◌, ◌^◌, length, IfOk, IfSome};
ghost use Rattle.flux_ledger.specs.Balance.{HasPatches};
ghost use Rattle.lux_plans.specs.Plans.{Takes, Gives};
ghost use Rattle.lux_top.specs.LedgerFiles.{ledger_file, ledger_text};

use ledger_file::{LedgerFault, LedgerFile, read_ledger};
use lux_answers::Answer;
use lux_io::{Name, Shelf};
use lux_plans::read_file;
use std::alloc::Global;

/// The most bytes of a ledger text.
const LEDGER_LIMIT: usize = 16_777_216;

/// The ledger of a file, whose lists have one length, and its intervals, where it has some: as many.
pub(crate) fn read_ledger_file<S: Shelf>(
    alloc: Global,
    name: &Name,
    shelf: &mut S,
) -> Result<LedgerFile, Answer>
    ensures taken { Takes (ledger_file name.now) (S.state shelf.old) (S.state shelf.new) result }
    ensures lengths { IfOk result (λ file. HasPatches (length file.ledger.direct) file.ledger) }
    ensures intervals { IfOk result (λ file. IfSome file.intervals (λ ends. length ends ≡ length file.ledger.direct)) }
{
    match read_file(alloc, name, LEDGER_LIMIT, shelf) {
        Ok(text) => accept_text(alloc, text),
        Err(answer) => Err(answer),
    }
}

// What a text says.
fn accept_text(alloc: Global, text: Vec<u8>) -> Result<LedgerFile, Answer>
    requires { length text.items < 2 ^ 31 }
    ensures given { Gives (ledger_text text.items) result }
    ensures lengths { IfOk result (λ file. HasPatches (length file.ledger.direct) file.ledger) }
    ensures intervals { IfOk result (λ file. IfSome file.intervals (λ ends. length ends ≡ length file.ledger.direct)) }
{
    match read_ledger(alloc, &text) {
        Ok(file) => Ok(file),
        Err(LedgerFault::Memory) => Err(Answer::Memory),
        Err(fault) => Err(Answer::LedgerText(fault)),
    }
}

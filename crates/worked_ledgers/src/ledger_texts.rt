// Ledger texts of the fewest and of the most patches, and past both.
ghost use Rattle.std.specs.Prelude.{◌≡◌, IfOk, length};
ghost use Rattle.flux_ledger.specs.Balance.{HasPatches};

use flux_ledger::{Amounts, Ledger, ledger_text};
use ledger_file::{LedgerFault, read_ledger};
use std::alloc::{AllocError, Global};
use std::test::Fail;

// The bytes that a test reads at most.
const MOST_BYTES: usize = 1_000_000;

// So many zeros.
fn zeros(alloc: Global, number: usize) -> Result<Amounts, AllocError>
    ensures { IfOk result (λ list. length list ≡ number) }
{
    Ok(Amounts::from_vec(Vec::from_elem(alloc, 0, number)?))
}

// A ledger of so many patches where nothing is.
fn dark_ledger(alloc: Global, patches: usize) -> Result<Ledger, AllocError>
    ensures { IfOk result (λ ledger. HasPatches (length ledger.direct) ledger) }
{
    Ok(Ledger {
        direct: zeros(alloc, patches)?,
        taken: zeros(alloc, patches)?,
        residual: zeros(alloc, patches)?,
        err: zeros(alloc, patches)?,
        parts: 1,
        wins: 0,
    })
}

#[test]
fn a_text_has_1_to_4096_patches(rt: HostRuntime) -> Result<(), Fail> {
    let alloc = rt.alloc();
    for (patches, is_read) in [(0, false), (1, true), (4_096, true), (4_097, false)] {
        let text = ledger_text(alloc, &dark_ledger(alloc, patches)?)?;
        assert!(rt; text.len() <= MOST_BYTES);
        match read_ledger(alloc, text.as_slice()) {
            Ok(file) => {
                assert!(rt; is_read);
                assert_eq!(rt; file.ledger.direct.len(), patches);
                assert!(rt; file.intervals.is_none());
            }
            Err(fault) => {
                assert!(rt; !is_read);
                assert_eq!(rt; fault, LedgerFault::Size { n: patches as u64 });
            }
        }
    }
    Ok(())
}

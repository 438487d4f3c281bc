// The ledger text.
ghost use Rattle.std.specs.Prelude.{◌≡◌, ◌++◌, ◌<◌, OnOk, IfOk, length};
ghost use Rattle.flux_ledger.specs.Balance.{HasPatches};
ghost use Rattle.flux_ledger.specs.LedgerText.{head_lines, patch_line, ledger_text};

use crate::Ledger;
use lux_texts::push_number;
use std::alloc::{AllocError, Global};

// No line of a ledger with fewer than 10,000,000 patches is longer.
const MOST_LINE_BYTES: usize = 128;

// Appends the lines before those of the patches.
fn push_head(text: &mut Vec<u8>, ledger: &Ledger) -> Result<(), AllocError>
    ensures { OnOk result (text.new.items ≡ text.old.items ++ head_lines ledger.now) }
{
    let direct = ledger.direct.as_slice();
    push_number(text, b"lux-ledger 1\npatches ", direct.len())?;
    push_number(text, b"\nwins ", ledger.wins)?;
    push_number(text, b"\nparts ", ledger.parts)?;
    text.extend_from_slice(b"\n")?;
    Ok(())
}

// Appends the line of one patch.
fn push_patch(text: &mut Vec<u8>, ledger: &Ledger, patch: usize) -> Result<(), AllocError>
    requires lengths { HasPatches (length ledger.now.direct) ledger.now }
    requires patch { patch < length ledger.now.direct }
    ensures { OnOk result (text.new.items ≡ text.old.items ++ patch_line ledger.now patch) }
{
    push_number(text, b"patch ", patch)?;
    push_number(text, b" direct ", ledger.direct.as_slice()[patch])?;
    push_number(text, b" taken ", ledger.taken.as_slice()[patch])?;
    push_number(text, b" residual ", ledger.residual.as_slice()[patch])?;
    push_number(text, b" err ", ledger.err.as_slice()[patch])?;
    text.extend_from_slice(b"\n")
}

/// The text of a ledger, whose lists have one length.
pub fn ledger_text(alloc: Global, ledger: &Ledger) -> Result<Vec<u8>, AllocError>
    requires { HasPatches (length ledger.now.direct) ledger.now }
    ensures { IfOk result (λ text. text.items ≡ ledger_text ledger.now) }
{
    let patches = ledger.direct.as_slice().len();
    let room = patches.saturating_add(1).saturating_mul(MOST_LINE_BYTES);
    let mut text = Vec::with_capacity(alloc, room)?;
    push_head(&mut text, ledger)?;
    for patch in 0..patches {
        push_patch(&mut text, ledger, patch)?;
    }
    Ok(text)
}

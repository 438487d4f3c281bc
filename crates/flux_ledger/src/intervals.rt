// The interval lines behind a ledger's text.
ghost use Rattle.std.specs.Prelude.{◌≡◌, ◌++◌, ◌<◌, length, OnOk};
ghost use Rattle.flux_ledger.specs.IntervalLines.{interval_line, interval_lines};

use lux_texts::push_number;
use std::alloc::AllocError;

// Appends the line of one patch.
fn push_interval(text: &mut Vec<u8>, ends: &[(u64, u64)], patch: usize) -> Result<(), AllocError>
    requires { patch < length ends.now }
    ensures { OnOk result (text.new.items ≡ text.old.items ++ interval_line ends.now patch) }
{
    let (low, high) = ends[patch];
    push_number(text, b"interval ", patch)?;
    push_number(text, b" ", low)?;
    push_number(text, b" ", high)?;
    text.extend_from_slice(b"\n")
}

/// Appends a line for each patch, with the ends of its interval in nanolumens.
pub fn push_intervals(text: &mut Vec<u8>, ends: &[(u64, u64)]) -> Result<(), AllocError>
    ensures { OnOk result (text.new.items ≡ text.old.items ++ interval_lines ends.now) }
{
    for patch in 0..ends.len() {
        push_interval(text, ends, patch)?;
    }
    Ok(())
}

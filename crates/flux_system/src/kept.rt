// The tests that a flux system passes, and what its patches keep, in one pass over the shares.
ghost use Rattle.std.specs.Prelude.{◌≡◌, ℕ, ◌<◌, ◌≤◌, ◌*◌, ◌+◌, [], IfOk, OnOk, length, slice_index, map, sum};
ghost use Rattle.duties.specs.Duties.{first, each, Answers};
ghost use Rattle.std.specs.List.{range_with_len};
ghost use Rattle.flux_system.specs.System.{kept_parts};
ghost use Rattle.flux_system.specs.Validity.{IsSystem, system_duties, reflectance_duty, row_duty};
ghost use Rattle.flux_system.specs.Shapes.{system_without_threshold};

use crate::{MOST_PATCHES, SystemFault};
use std::alloc::Global;

/// What one nanolumen is counted in.
pub(crate) const SCALE: u64 = 1_000_000_000_000;

const MOST_THRESHOLD: u64 = 10_000_000_000_000_000;

const MOST_REFLECTANCE: u32 = 950;

const WHOLE_ROW: u64 = 1_000_000_000;

// What each patch keeps of a nanolumen, where all tests are passed.
pub(crate) fn kept_parts(
    alloc: Global,
    reflectance: &[u32],
    shares: &[u32],
    threshold: u64,
) -> Result<Vec<u64>, SystemFault>
    ensures kept { IfOk result (λ kept. kept.items ≡ kept_parts (record { threshold = threshold; reflectance = reflectance.now; shares = shares.now })) }
    ensures valid { OnOk result (IsSystem (record { threshold = threshold; reflectance = reflectance.now; shares = shares.now })) }
    ensures answer { Answers SystemFault.Memory (first (system_duties (record { threshold = threshold; reflectance = reflectance.now; shares = shares.now }))) result }
{
    let n = reflectance.len();
    if n < 1 || n > MOST_PATCHES || shares.len() != n * n {
        return Err(SystemFault::Size { n: n as u64 });
    }
    if threshold < 1 || threshold > MOST_THRESHOLD {
        return Err(SystemFault::Threshold);
    }
    if let Some(fault) = reflectance_fault(reflectance) {
        return Err(fault);
    }
    kept_rows(alloc, reflectance, shares)
}

// The refusal of the first reflectance that is too high.
fn reflectance_fault(reflectance: &[u32]) -> Option<SystemFault>
    requires { length reflectance.now ≤ MOST_PATCHES }
    ensures { result ≡ each (length reflectance.now) (reflectance_duty (system_without_threshold reflectance.now [])) }
{
    for (patch, value) in reflectance.iter().enumerate() {
        if *value > MOST_REFLECTANCE {
            return Some(SystemFault::Reflectance {
                patch: patch as u32,
            });
        }
    }
    None
}

// What each patch keeps of a nanolumen, unless some row of shares is too full.
fn kept_rows(alloc: Global, reflectance: &[u32], shares: &[u32]) -> Result<Vec<u64>, SystemFault>
    requires few { length reflectance.now ≤ MOST_PATCHES }
    requires square { length shares.now ≡ length reflectance.now * length reflectance.now }
    requires limited { (i : ℕ) → i < length reflectance.now → slice_index reflectance.now i ≤ 950 }
    ensures kept { IfOk result (λ kept. kept.items ≡ kept_parts (system_without_threshold reflectance.now shares.now)) }
    ensures answer { Answers SystemFault.Memory (each (length reflectance.now) (row_duty (system_without_threshold reflectance.now shares.now))) result }
{
    let n = reflectance.len();
    let mut kept = Vec::with_capacity(alloc, n)?;
    for (patch, value) in reflectance.iter().enumerate() {
        let total = total_of(row_at(shares, n, patch));
        if total >= WHOLE_ROW {
            return Err(SystemFault::RowTotal {
                patch: patch as u32,
            });
        }
        kept.push(SCALE - u64::from(*value) * total)?;
    }
    Ok(kept)
}

// Row i of some shares.
pub(crate) fn row_at(shares: &[u32], n: usize, i: usize) -> &[u32]
    requires few { n ≤ MOST_PATCHES }
    requires square { length shares.now ≡ n * n }
    requires row { i < n }
    ensures { result.now ≡ map (λ j. slice_index shares.now (i * n + j)) (range_with_len 0 n) }
{
    &shares[i * n..(i + 1) * n]
}

// The sum of a row.
fn total_of(row: &[u32]) -> u64
    requires { length row.now ≤ MOST_PATCHES }
    ensures { result ≡ sum row.now }
{
    row.iter().map(|share| u64::from(*share)).sum()
}

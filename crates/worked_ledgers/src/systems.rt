// Systems that the tests of several modules use.
ghost use Rattle.std.specs.Prelude.{◌≡◌, IfOk};
ghost use Rattle.flux_system.specs.System.{patches};

use flux_system::System;
use std::alloc::Global;
use std::test::Fail;

// A system of these numbers. Why they could be refused is left out, as proofs of tests would compute it.
pub fn system_of(
    alloc: Global,
    reflectance: &[u32],
    shares: &[u32],
    threshold: u64,
) -> Result<System, Fail>
    ensures { IfOk result (λ system. system ≡ record { threshold = threshold; reflectance = reflectance.now; shares = shares.now }) }
{
    Ok(System::new(alloc, reflectance, shares, threshold)?)
}

// Two patches: half of what leaves the first falls on the second, and of what leaves the second this share, in parts of
// 10^9, on the first. Tests know their number alone.
pub fn two_patches(alloc: Global, back: u32) -> Result<System, Fail>
    ensures { IfOk result (λ system. patches system ≡ 2) }
{
    let shares = [0, 500_000_000, back, 0];
    system_of(alloc, &[500, 500], &shares, 10)
}

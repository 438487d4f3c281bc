// The web of generated luminaires.
ghost use Rattle.std.specs.Prelude.{◌≡◌, IfOk};
ghost use Rattle.workload.specs.Generator.{generated_web};

use photo_web::{SymKind, Web};
use std::alloc::{AllocError, Global};
use symmetry::expand;

/// The gammas in millidegrees.
const GAMMAS: [u32; 4] = [0, 30_000, 60_000, 90_000];

/// The intensities at these gammas in microcandela.
const INTENSITIES: [u64; 4] = [1_000_000_000, 866_025_404, 500_000_000, 0];

/// The web of all generated luminaires: the same in each plane.
#[tactic(auto, unfolding(crate::specs::Generator::generated_web))]
pub(crate) fn generate_web(alloc: Global) -> Result<Web, AllocError>
    ensures { IfOk result (λ web. web ≡ generated_web) }
{
    expand(alloc, SymKind::Axis, &[0], &GAMMAS, &INTENSITIES)
}

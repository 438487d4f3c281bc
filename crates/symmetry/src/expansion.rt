// The expansion of stored planes.
ghost use Rattle.std.specs.Prelude.{◌≡◌, ◌*◌, ◌≤◌, ◌^◌, All, IfOk, IsTrue, length};
ghost use Rattle.std.specs.List.Sorted.{IsStrictlyIncreasing};
ghost use Rattle.photo_web.specs.Validity.{AreGammas};
ghost use Rattle.symmetry.specs.Images.{has_span, expansion};

use crate::growing::{GrowingWeb, StoredPlanes};
use crate::kinds::{grow, most_planes};
use photo_web::{SymKind, Web};
use std::alloc::{AllocError, Global};

/// The web of stored planes and gammas (millidegrees) with a row of values (microcandela, one for each gamma) for each
/// stored plane. The stored planes are 1 to 361 that have the span of the symmetry. The error is want of memory.
pub fn expand(
    alloc: Global,
    sym: SymKind,
    planes: &[u32],
    gammas: &[u32],
    rows: &[u64],
) -> Result<Web, AllocError>
    requires some { 1 ≤ length planes.now }
    requires few { length planes.now ≤ 361 }
    requires rising { IsStrictlyIncreasing planes.now }
    requires span { IsTrue (has_span sym planes.now) }
    requires gammas { AreGammas gammas.now }
    requires count { length rows.now ≡ length planes.now * length gammas.now }
    requires limited { All (λ value. value ≤ 10 ^ 15) rows.now }
    ensures { IfOk result (λ web. web ≡ expansion sym planes.now gammas.now rows.now) }
{
    let width = gammas.len();
    let stored = StoredPlanes {
        planes,
        rows,
        width,
    };
    let most = most_planes(sym, planes.len());
    let mut grown = GrowingWeb::new(alloc, most, most * width)?;
    grow(sym, &stored, &mut grown)?;
    let gammas = Vec::from_slice(alloc, gammas)?;
    Ok(Web::from_vecs(grown.planes, gammas, grown.values))
}

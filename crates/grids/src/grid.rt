// A grid of points.
ghost use Rattle.std.specs.Prelude.{◌≡◌, ◌+◌, ◌*◌, ◌<◌, ◌≤◌, ◌^◌, false, All, length, IfOk};
ghost use Rattle.duties.specs.Duties.{first, Answers};
ghost use Rattle.room_patches.specs.Rooms.{plain_room};
ghost use Rattle.room_patches.specs.Patches.{patches};
ghost use Rattle.room_patches.specs.Places.{IsPlace};
ghost use Rattle.grids.specs.GridPoint.{coefficient_of, light_between, EnclosesLight};
ghost use Rattle.grids.specs.Grids.{grid_of, count, point_at, points};
ghost use Rattle.grids.specs.Validity.{IsLaid, is_too_near, grid_duties};

use crate::checks::grid_fault;
use crate::coefficients::coefficient;
use crate::reflected::reflected_ends;
use crate::{GridFault, GridSpec, MOST_POINTS};
use compliance::CheckSpec;
use room_patches::Room;
use std::alloc::{AllocError, Global};
use std::marker::Model;

/// The parts of a nanolux that reflected light is counted in.
const SCALE: u128 = 1_000_000_000_000_000;

/// A grid of points on a level rectangle of a room. Contracts see what it was asked for by.
#[derive(Debug, Drop)]
pub struct Grid {
    spec: GridSpec,
    points: Vec<[i32; 3]>,
}

impl Model for Grid {
    ghost use Rattle.grids.specs.declared.spec.GridSpec.{GridSpec};
    ghost use Rattle.grids.specs.Shapes.{IsGridWithPoints};

    ghost Value = { GridSpec };

    ghost view = { λ g. g.spec };

    ghost invariant = { λ g. IsGridWithPoints g.spec g.points.items };
}

impl Grid {
    /// The grid that a check asks for in a room. The first test that fails gives the error; `Memory` may come in the place
    /// of any.
    pub fn new(alloc: Global, room: &Room, check: &CheckSpec) -> Result<Grid, GridFault>
        ensures grid { IfOk result (λ grid. grid ≡ grid_of room.now.spec check.now) }
        ensures answer { Answers GridFault.Memory (first (grid_duties (grid_of room.now.spec check.now))) result }
    {
        let spec = GridSpec::of(room.spec(), check);
        if let Some(fault) = grid_fault(spec, room) {
            return Err(fault);
        }
        let points = all_points(alloc, spec)?;
        Ok(Grid { spec, points })
    }

    /// The number of points, 1 to `MOST_POINTS`.
    pub fn len(&self) -> usize
        ensures value { result ≡ count self.now }
        ensures some { 1 ≤ result }
        ensures few { result ≤ MOST_POINTS }
    {
        self.points.len()
    }

    /// Point `g`, in half-millimetres. No patch of the grid's room is too near to it.
    pub fn point(&self, g: usize) -> [i32; 3]
        requires { g < count self.now }
        ensures value { result ≡ point_at self.now g }
        ensures place { IsPlace result }
        ensures apart { All (λ patch. is_too_near result patch ≡ false) (patches (plain_room self.now.room)) }
    {
        self.points[g]
    }

    /// The illuminance at point `g` for each lumen that leaves a patch of the grid's room, in parts of 10^12 of a lux. At
    /// most 3.2 * 10^13.
    #[tactic(auto, using(crate::proofs::Regions::all_apart))]
    pub fn coef(&self, room: &Room, patch: usize, g: usize) -> u64
        requires room { room.now.spec ≡ self.now.room }
        requires patch { patch < length (patches room.now) }
        requires point { g < count self.now }
        ensures value { result ≡ coefficient_of room.now self.now patch g }
        ensures most { result ≤ 318309886 * 10 ^ 5 }
    {
        coefficient(&room.patches()[patch], self.point(g))
    }

    /// The interval of the illuminance at point `g` in nanolux, from the direct illuminance at each point and the interval of
    /// each patch of the grid's room, in nanolumens. Whatever flux within its interval each patch has, the light at the point
    /// lies in it.
    #[tactic(auto, using(crate::proofs::Regions::all_apart))]
    pub fn point_interval(
        &self,
        room: &Room,
        direct: &[u128],
        bounds: &[(u64, u64)],
        g: usize,
    ) -> (u128, u128)
        requires room { room.now.spec ≡ self.now.room }
        requires points { length direct.now ≡ count self.now }
        requires direct { All (λ light. light ≤ 2 * 10 ^ 27) direct.now }
        requires patches { length bounds.now ≡ length (patches room.now) }
        requires order { All (λ ends. ends.0 ≤ ends.1) bounds.now }
        requires limited { All (λ ends. ends.1 ≤ 4 * 10 ^ 17 + 10 ^ 13) bounds.now }
        requires point { g < count self.now }
        ensures value { result ≡ light_between room.now self.now direct.now bounds.now g }
        ensures order { result.0 ≤ result.1 }
        ensures limited { result.1 ≤ 10 ^ 28 }
        ensures encloses { EnclosesLight room.now self.now direct.now bounds.now g result }
    {
        prove_eq!(bounds.len(), room.len());
        let (low, high) = reflected_ends(room.patches(), self.point(g), bounds);
        let direct = direct[g];
        (direct + low / SCALE, direct + high.div_ceil(SCALE))
    }
}

// All points of a grid, in order.
fn all_points(alloc: Global, grid: GridSpec) -> Result<Vec<[i32; 3]>, AllocError>
    requires { IsLaid grid }
    ensures { IfOk result (λ all. all.items ≡ points grid) }
{
    let mut all = Vec::with_capacity(alloc, grid.count() as usize)?;
    for g in 0..grid.count() {
        all.push(grid.point_at(g))?;
    }
    Ok(all)
}

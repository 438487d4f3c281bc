// A web that grows plane by plane from stored planes.
ghost use Rattle.std.specs.Prelude.{◌≡◌, ℕ, ◌+◌, ◌-◌, ◌*◌, ◌<◌, ◌≤◌, [], ◌∷◌, ◌++◌, IfOk, OnOk, length, slice_index, map, vec_len};
ghost use Rattle.std.specs.List.{range_with_len, flat_map};
ghost use Rattle.photo_web.specs.Web.{row_values};

use std::alloc::{AllocError, Global};

// Stored planes in millidegrees, with a row of values for each.
#[derive(Drop)]
pub(crate) struct StoredPlanes<'a> {
    pub(crate) planes: &'a [u32],
    pub(crate) rows: &'a [u64],
    pub(crate) width: usize,
    ghost whole: { length rows.now ≡ length planes.now * width },
}

// The planes and the values of a web that grows.
#[derive(Drop)]
pub(crate) struct GrowingWeb {
    pub(crate) planes: Vec<u32>,
    pub(crate) values: Vec<u64>,
}

impl GrowingWeb {
    // No planes, with memory for some.
    pub(crate) fn new(alloc: Global, planes: usize, values: usize) -> Result<GrowingWeb, AllocError>
        ensures planes { IfOk result (λ grown. grown.planes.items ≡ []) }
        ensures values { IfOk result (λ grown. grown.values.items ≡ []) }
    {
        Ok(GrowingWeb {
            planes: Vec::with_capacity(alloc, planes)?,
            values: Vec::with_capacity(alloc, values)?,
        })
    }

    // Appends the stored plane of a place at an angle.
    pub(crate) fn append(
        &mut self,
        stored: &StoredPlanes,
        place: usize,
        angle: u32,
    ) -> Result<(), AllocError>
        requires { place < length stored.now.planes.now }
        ensures planes { OnOk result (self.new.planes.items ≡ self.old.planes.items ++ angle ∷ []) }
        ensures values { OnOk result (self.new.values.items ≡ self.old.values.items ++ row_values stored.now.width stored.now.rows.now place) }
        ensures count { OnOk result (vec_len self.new.planes ≡ vec_len self.old.planes + 1) }
    {
        let row = &stored.rows[place * stored.width..(place + 1) * stored.width];
        self.planes.push(angle)?;
        self.values.extend_from_slice(row)?;
        Ok(())
    }

    // Appends the stored planes from one place to before another, each turned.
    pub(crate) fn rise(
        &mut self,
        stored: &StoredPlanes,
        from: usize,
        to: usize,
        turn: u32,
    ) -> Result<(), AllocError>
        requires places { from ≤ to }
        requires inside { to ≤ length stored.now.planes.now }
        requires fits { (k : ℕ) → k < to → turn + slice_index stored.now.planes.now k ≤ 360000 }
        ensures planes { OnOk result (self.new.planes.items ≡ self.old.planes.items
            ++ map (λ i. turn + slice_index stored.now.planes.now (from + i)) (range_with_len 0 (to - from))) }
        ensures values { OnOk result (self.new.values.items ≡ self.old.values.items
            ++ flat_map (λ i. row_values stored.now.width stored.now.rows.now (from + i)) (range_with_len 0 (to - from))) }
        ensures count { OnOk result (vec_len self.new.planes ≡ vec_len self.old.planes + (to - from)) }
    {
        for place in from..to {
            self.append(stored, place, turn + stored.planes[place])?;
        }
        Ok(())
    }

    // Appends the stored planes from before one place back to another, each mirrored: an angle and its image have a sum.
    pub(crate) fn fall(
        &mut self,
        stored: &StoredPlanes,
        from: usize,
        to: usize,
        sum: u32,
    ) -> Result<(), AllocError>
        requires places { from ≤ to }
        requires inside { to ≤ length stored.now.planes.now }
        requires fits { (k : ℕ) → k < to → slice_index stored.now.planes.now k ≤ sum }
        ensures planes { OnOk result (self.new.planes.items ≡ self.old.planes.items
            ++ map (λ i. sum - slice_index stored.now.planes.now (to - 1 - i)) (range_with_len 0 (to - from))) }
        ensures values { OnOk result (self.new.values.items ≡ self.old.values.items
            ++ flat_map (λ i. row_values stored.now.width stored.now.rows.now (to - 1 - i)) (range_with_len 0 (to - from))) }
        ensures count { OnOk result (vec_len self.new.planes ≡ vec_len self.old.planes + (to - from)) }
    {
        for place in (from..to).rev() {
            self.append(stored, place, sum - stored.planes[place])?;
        }
        Ok(())
    }
}

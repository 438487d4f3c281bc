// The six faces of a box.
ghost use Rattle.std.specs.Prelude.{◌≡◌, ◌<◌, ◌≤◌};
ghost use Rattle.boxes.specs.Boxes.{along_x, along_y, along_z, across, upward, place_on, axis_of, rises, patch_at};
ghost use Rattle.boxes.specs.Shapes.{HasExtents};

use crate::extent::Extent;
use room_patches::{BoxSpec, Patch};

// A face of a box: at the least and the greatest z, the least and the greatest x, and the least and the greatest y.
#[derive(Clone, Copy)]
pub(crate) enum Face {
    Bottom,
    Top,
    Left,
    Right,
    Front,
    Back,
}

// The faces in the order of patches.
pub(crate) const FACES: [Face; 6] = [
    Face::Bottom,
    Face::Top,
    Face::Left,
    Face::Right,
    Face::Front,
    Face::Back,
];

impl Face {
    // The extent along which the patches of a row follow one another.
    pub(crate) fn across(self, spec: BoxSpec) -> Extent
        requires { HasExtents spec }
        ensures { result ≡ across spec self }
    {
        match self {
            Face::Bottom | Face::Top | Face::Front | Face::Back => along_x(spec),
            Face::Left | Face::Right => along_y(spec),
        }
    }

    // The extent along which the rows follow one another.
    pub(crate) fn upward(self, spec: BoxSpec) -> Extent
        requires { HasExtents spec }
        ensures { result ≡ upward spec self }
    {
        match self {
            Face::Bottom | Face::Top => along_y(spec),
            Face::Left | Face::Right | Face::Front | Face::Back => along_z(spec),
        }
    }

    // The patch at a column of a row.
    #[tactic(auto, using(crate::proofs::Extents::across_valid, crate::proofs::Extents::upward_valid), unfolding(crate::specs::Boxes::patch_at))]
    pub(crate) fn patch_at(self, spec: BoxSpec, column: u32, row: u32) -> Patch
        requires spec { HasExtents spec }
        requires column { column < (across spec self).cut.parts }
        requires row { row < (upward spec self).cut.parts }
        ensures { result ≡ patch_at spec self column row }
    {
        let across = self.across(spec);
        let upward = self.upward(spec);
        Patch {
            centre: self.place_on(spec, across.middle(column), upward.middle(row)),
            axis: self.axis(),
            rising: self.rises(),
            area: u64::from(across.cut.part(column)) * u64::from(upward.cut.part(row)),
            reflectance: spec.reflectance,
        }
    }

    // The place that has these coordinates along the two axes.
    fn place_on(self, spec: BoxSpec, u: u32, v: u32) -> [i32; 3]
        requires spec { HasExtents spec }
        requires u { u ≤ 200000 }
        requires v { v ≤ 200000 }
        ensures { result ≡ place_on spec self u v }
    {
        let u = u as i32;
        let v = v as i32;
        match self {
            Face::Bottom => [u, v, 2 * spec.z0 as i32],
            Face::Top => [u, v, 2 * spec.z1 as i32],
            Face::Left => [2 * spec.x0 as i32, u, v],
            Face::Right => [2 * spec.x1 as i32, u, v],
            Face::Front => [u, 2 * spec.y0 as i32, v],
            Face::Back => [u, 2 * spec.y1 as i32, v],
        }
    }

    // The axis that the normal follows.
    fn axis(self) -> u8
        ensures { result ≡ axis_of self }
    {
        match self {
            Face::Bottom | Face::Top => 2,
            Face::Left | Face::Right => 0,
            Face::Front | Face::Back => 1,
        }
    }

    // Whether the normal that points out of the box goes to greater coordinates.
    fn rises(self) -> bool
        ensures { result ≡ rises self }
    {
        match self {
            Face::Bottom | Face::Left | Face::Front => false,
            Face::Top | Face::Right | Face::Back => true,
        }
    }
}

// What a box takes up of the x axis.
fn along_x(spec: BoxSpec) -> Extent
    requires { HasExtents spec }
    ensures { result ≡ along_x spec }
{
    Extent::new(spec.x0, spec.x1, spec.nx)
}

// What a box takes up of the y axis.
fn along_y(spec: BoxSpec) -> Extent
    requires { HasExtents spec }
    ensures { result ≡ along_y spec }
{
    Extent::new(spec.y0, spec.y1, spec.ny)
}

// What a box takes up of the z axis.
fn along_z(spec: BoxSpec) -> Extent
    requires { HasExtents spec }
    ensures { result ≡ along_z spec }
{
    Extent::new(spec.z0, spec.z1, spec.nz)
}

// The six surfaces of a room.
ghost use Rattle.std.specs.Prelude.{◌≡◌, ◌<◌, ◌≤◌, reverse};
ghost use Rattle.std.specs.List.{find};
ghost use Rattle.std.specs.Option.{option_map};
ghost use Rattle.room_patches.specs.Surfaces.{number_of, reflectance_of, reflectance_at, covers, surfaces};
ghost use Rattle.room_patches.specs.Patches.{across, upward, place_on, axis_of, rises, patch_at};
ghost use Rattle.room_patches.specs.Validity.{IsRoom};

use crate::cut::Cut;
use crate::{Patch, Region, RoomSpec};

// A surface of a room: the floor, the ceiling, and the walls at x = 0, at the width, at y = 0 and at the depth.
#[derive(Clone, Copy)]
pub(crate) enum Surface {
    Floor,
    Ceiling,
    Left,
    Right,
    Front,
    Back,
}

// The surfaces in the order of patches.
pub(crate) const SURFACES: [Surface; 6] = [
    Surface::Floor,
    Surface::Ceiling,
    Surface::Left,
    Surface::Right,
    Surface::Front,
    Surface::Back,
];

impl Surface {
    // The axis along which the patches of a row follow one another.
    pub(crate) fn across(self, room: RoomSpec) -> Cut
        ensures { result ≡ across room self }
    {
        match self {
            Surface::Floor | Surface::Ceiling | Surface::Front | Surface::Back => room.along_x(),
            Surface::Left | Surface::Right => room.along_y(),
        }
    }

    // The axis along which the rows follow one another.
    pub(crate) fn upward(self, room: RoomSpec) -> Cut
        ensures { result ≡ upward room self }
    {
        match self {
            Surface::Floor | Surface::Ceiling => room.along_y(),
            Surface::Left | Surface::Right | Surface::Front | Surface::Back => room.along_z(),
        }
    }

    // The patch at a column of a row.
    #[tactic(auto, using(crate::proofs::Valid::across_valid, crate::proofs::Valid::upward_valid), unfolding(crate::specs::Patches::patch_at))]
    pub(crate) fn patch_at(self, room: RoomSpec, regions: &[Region], column: u32, row: u32) -> Patch
        requires room { IsRoom room }
        requires column { column < (across room self).parts }
        requires row { row < (upward room self).parts }
        ensures { result ≡ patch_at (record { spec = room; regions = regions.now }) self column row }
    {
        let across = self.across(room);
        let upward = self.upward(room);
        let u = across.middle(column);
        let v = upward.middle(row);
        Patch {
            centre: self.place_on(room, u, v),
            axis: self.axis(),
            rising: self.rises(),
            area: u64::from(across.part(column)) * u64::from(upward.part(row)),
            reflectance: self.reflectance_at(room, regions, u, v),
        }
    }

    // What the surface reflects at a place: as much as the last region there, or else as the surface itself.
    #[tactic(auto, unfolding(crate::specs::Surfaces::reflectance_at))]
    fn reflectance_at(self, room: RoomSpec, regions: &[Region], u: u32, v: u32) -> u32
        ensures { result ≡ reflectance_at (record { spec = room; regions = regions.now }) self u v }
    {
        match self.last_region(regions, u, v) {
            Some(region) => region.reflectance,
            None => self.reflectance(room),
        }
    }

    // The last region that lies on the surface and contains the place with these coordinates.
    fn last_region(self, regions: &[Region], u: u32, v: u32) -> Option<&Region>
        ensures { option_map (λ region. region.now) result ≡ find (covers self u v) (reverse regions.now) }
    {
        let number = self.number();
        regions
            .iter()
            .rev()
            .find(|region| region.surface == number && region.contains(u, v))
    }

    // The surface's number in the order of patches.
    fn number(self) -> u32
        ensures { result ≡ number_of self }
    {
        match self {
            Surface::Floor => 0,
            Surface::Ceiling => 1,
            Surface::Left => 2,
            Surface::Right => 3,
            Surface::Front => 4,
            Surface::Back => 5,
        }
    }

    // The place that has these coordinates along the two axes.
    fn place_on(self, room: RoomSpec, u: u32, v: u32) -> [i32; 3]
        requires room { IsRoom room }
        requires u { u ≤ 200000 }
        requires v { v ≤ 200000 }
        ensures { result ≡ place_on room self u v }
    {
        let u = u as i32;
        let v = v as i32;
        match self {
            Surface::Floor => [u, v, 0],
            Surface::Ceiling => [u, v, 2 * room.height as i32],
            Surface::Left => [0, u, v],
            Surface::Right => [2 * room.width as i32, u, v],
            Surface::Front => [u, 0, v],
            Surface::Back => [u, 2 * room.depth as i32, v],
        }
    }

    // The axis that the normal follows.
    fn axis(self) -> u8
        ensures { result ≡ axis_of self }
    {
        match self {
            Surface::Floor | Surface::Ceiling => 2,
            Surface::Left | Surface::Right => 0,
            Surface::Front | Surface::Back => 1,
        }
    }

    // Whether the normal that points into the room goes to greater coordinates.
    fn rises(self) -> bool
        ensures { result ≡ rises self }
    {
        match self {
            Surface::Floor | Surface::Left | Surface::Front => true,
            Surface::Ceiling | Surface::Right | Surface::Back => false,
        }
    }

    // What the surface reflects where no region lies.
    fn reflectance(self, room: RoomSpec) -> u32
        ensures { result ≡ reflectance_of room self }
    {
        match self {
            Surface::Floor => room.floor,
            Surface::Ceiling => room.ceiling,
            Surface::Left => room.walls[0],
            Surface::Right => room.walls[1],
            Surface::Front => room.walls[2],
            Surface::Back => room.walls[3],
        }
    }
}

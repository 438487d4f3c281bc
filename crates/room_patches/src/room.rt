// A valid room.
ghost use Rattle.std.specs.Prelude.{◌≡◌, ◌<◌, ◌≤◌, ◌^◌, ◌++◌, Some, IfOk, OnOk, All, length, slice_get};
ghost use Rattle.duties.specs.Duties.{first, Answers};
ghost use Rattle.room_patches.specs.Patches.{patches, patches_of, patch_row, upward, IsPatch};
ghost use Rattle.room_patches.specs.Validity.{IsRoom, AreRegions, room_duties};

use crate::checks::{patch_count, region_fault, spec_fault};
use crate::surface::Surface;
use crate::{MOST_PATCHES, Patch, Region, RoomFault, RoomSpec};
use std::alloc::{AllocError, Global};
use std::marker::Model;

/// A valid room. Contracts see what it was asked for by, and its regions.
#[derive(Debug, Drop)]
pub struct Room {
    spec: RoomSpec,
    regions: Vec<Region>,
    patches: Vec<Patch>,
}

impl Model for Room {
    ghost use Rattle.room_patches.specs.Rooms;
    ghost use Rattle.room_patches.specs.Shapes.{IsRoomWithPatches};

    ghost Value = { Rooms.Room };

    ghost view = { λ r. record { spec = r.spec; regions = r.regions.items } };

    ghost invariant = { λ r. IsRoomWithPatches (record { spec = r.spec; regions = r.regions.items }) r.patches.items };
}

impl Room {
    /// The room of these lengths, parts and reflectances, and of these regions, which are copied. The first test that
    /// fails gives the error; `Memory` may come in the place of any.
    pub fn new(alloc: Global, spec: RoomSpec, regions: &[Region]) -> Result<Room, RoomFault>
        requires { length regions.now < 2 ^ 32 }
        ensures room { IfOk result (λ room. room ≡ record { spec = spec; regions = regions.now }) }
        ensures valid { OnOk result (IsRoom spec) }
        ensures regions { OnOk result (AreRegions spec regions.now) }
        ensures answer { Answers RoomFault.Memory (first (room_duties (record { spec = spec; regions = regions.now }))) result }
    {
        if let Some(fault) = spec_fault(spec) {
            return Err(fault);
        }
        if let Some(fault) = region_fault(spec, regions) {
            return Err(fault);
        }
        let patches = all_patches(alloc, spec, regions)?;
        let regions = Vec::from_slice(alloc, regions)?;
        Ok(Room {
            spec,
            regions,
            patches,
        })
    }

    /// The number of patches, 1 to `MOST_PATCHES`.
    pub fn len(&self) -> usize
        ensures value { result ≡ length (patches self.now) }
        ensures some { 1 ≤ result }
        ensures few { result ≤ MOST_PATCHES }
    {
        self.patches.len()
    }

    /// What the room was asked for by.
    pub fn spec(&self) -> RoomSpec
        ensures value { result ≡ self.now.spec }
        ensures valid { IsRoom self.now.spec }
    {
        self.spec
    }

    /// The regions of its surfaces, in the order in which they were given.
    pub fn regions(&self) -> &[Region]
        ensures value { result.now ≡ self.now.regions }
        ensures valid { AreRegions self.now.spec result.now }
    {
        self.regions.as_slice()
    }

    /// All patches, in order.
    pub fn patches(&self) -> &[Patch]
        ensures value { result.now ≡ patches self.now }
        ensures patch { All IsPatch result.now }
        ensures positive { All (λ patch. 1 ≤ patch.area) result.now }
    {
        self.patches.as_slice()
    }

    /// Patch `i`.
    pub fn patch(&self, i: usize) -> Patch
        requires { i < length (patches self.now) }
        ensures value { slice_get (patches self.now) i ≡ Some result }
        ensures patch { IsPatch result }
        ensures positive { 1 ≤ result.area }
    {
        self.patches[i]
    }
}

// The patches of a room, surface by surface.
#[tactic(auto, unfolding(crate::specs::Patches::patches))]
fn all_patches(alloc: Global, room: RoomSpec, regions: &[Region]) -> Result<Vec<Patch>, AllocError>
    requires { IsRoom room }
    ensures { IfOk result (λ all. all.items ≡ patches (record { spec = room; regions = regions.now })) }
{
    let mut all = Vec::with_capacity(alloc, patch_count(room) as usize)?;
    add_surface(&mut all, room, regions, Surface::Floor)?;
    add_surface(&mut all, room, regions, Surface::Ceiling)?;
    add_surface(&mut all, room, regions, Surface::Left)?;
    add_surface(&mut all, room, regions, Surface::Right)?;
    add_surface(&mut all, room, regions, Surface::Front)?;
    add_surface(&mut all, room, regions, Surface::Back)?;
    Ok(all)
}

// Appends the patches of a surface, row by row.
#[tactic(auto, using(crate::proofs::Rows::steps), unfolding(crate::specs::Patches::patches_of))]
fn add_surface(
    all: &mut Vec<Patch>,
    room: RoomSpec,
    regions: &[Region],
    surface: Surface,
) -> Result<(), AllocError>
    requires { IsRoom room }
    ensures { OnOk result (all.new.items ≡ all.old.items ++ patches_of (record { spec = room; regions = regions.now }) surface) }
{
    for row in 0..surface.upward(room).parts {
        add_row(all, room, regions, surface, row)?;
    }
    Ok(())
}

// Appends one row of a surface.
#[tactic(auto, using(crate::proofs::Rows::steps), unfolding(crate::specs::Patches::patch_row))]
fn add_row(
    all: &mut Vec<Patch>,
    room: RoomSpec,
    regions: &[Region],
    surface: Surface,
    row: u32,
) -> Result<(), AllocError>
    requires room { IsRoom room }
    requires row { row < (upward room surface).parts }
    ensures { OnOk result (all.new.items ≡ all.old.items ++ patch_row (record { spec = room; regions = regions.now }) surface row) }
{
    for column in 0..surface.across(room).parts {
        all.push(surface.patch_at(room, regions, column, row))?;
    }
    Ok(())
}

// Threads share rooms: that they may is proved here, and not where they first do.
fn ask_shared<T: Send + Sync>(_value: &T) {}

fn ask_room_shared(room: &Room) {
    ask_shared(room);
}

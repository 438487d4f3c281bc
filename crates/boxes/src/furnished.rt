// A valid furnished room.
ghost use Rattle.std.specs.Prelude.{◌≡◌, ◌<◌, ◌≤◌, ◌++◌, [], Some, IfOk, OnOk, All, length, slice_get};
ghost use Rattle.duties.specs.Duties.{first, Answers};
ghost use Rattle.room_patches.specs.Patches.{patches as patches_of_room, IsPatch};
ghost use Rattle.room_patches.specs.Validity.{IsRoom};
ghost use Rattle.boxes.specs.Boxes.{box_patches, patches_of, patch_row, upward};
ghost use Rattle.boxes.specs.FurnishedRooms.{patches};
ghost use Rattle.boxes.specs.Validity.{IsBox, furniture_duties};
ghost use Rattle.boxes.specs.Shapes.{HasExtents};

use crate::checks::{boxes_fault, patch_count};
use crate::face::{FACES, Face};
use crate::{BoxFault, MOST_BOXES};
use room_patches::{BoxSpec, MOST_PATCHES, Patch, Room};
use std::alloc::{AllocError, Global};
use std::marker::Model;

/// A valid room with boxes in it. Contracts see its room, and what its boxes were asked for by.
#[derive(Debug, Drop)]
pub struct Furnished {
    room: Room,
    boxes: Vec<BoxSpec>,
    // The patches of the room and the boxes, where there is a box; where there is none, the room has all.
    patches: Vec<Patch>,
}

impl Model for Furnished {
    ghost use Rattle.boxes.specs.FurnishedRooms.{FurnishedRoom};
    ghost use Rattle.boxes.specs.Shapes.{IsFurnishedWithPatches};

    ghost Value = { FurnishedRoom };

    ghost view = { λ f. record { room = f.room; boxes = f.boxes.items } };

    ghost invariant = { λ f. IsFurnishedWithPatches (record { room = f.room; boxes = f.boxes.items }) f.patches.items };
}

impl Furnished {
    /// The room with these boxes in it, which are copied. The first test that fails gives the error; `Memory` may come in
    /// the place of any.
    pub fn new(alloc: Global, room: Room, boxes: &[BoxSpec]) -> Result<Furnished, BoxFault>
        requires { length boxes.now ≤ MOST_BOXES }
        ensures furnished { IfOk result (λ furnished. furnished ≡ record { room = room; boxes = boxes.now }) }
        ensures valid { OnOk result (All (IsBox room.spec) boxes.now) }
        ensures answer { Answers BoxFault.Memory (first (furniture_duties (record { room = room; boxes = boxes.now }))) result }
    {
        if let Some(fault) = boxes_fault(room.spec(), boxes) {
            return Err(fault);
        }
        let n = patch_count(&room, boxes);
        if n > MOST_PATCHES as u32 {
            return Err(BoxFault::Patches { n });
        }
        let patches = kept_patches(alloc, n as usize, &room, boxes)?;
        let boxes = Vec::from_slice(alloc, boxes)?;
        Ok(Furnished {
            room,
            boxes,
            patches,
        })
    }

    /// The room without its furniture.
    pub fn room(&self) -> &Room
        ensures { result.now ≡ self.now.room }
    {
        &self.room
    }

    /// What the boxes were asked for by, in the order in which they were given.
    pub fn boxes(&self) -> &[BoxSpec]
        ensures value { result.now ≡ self.now.boxes }
        ensures valid { All (IsBox self.now.room.spec) result.now }
    {
        self.boxes.as_slice()
    }

    /// The number of patches, 1 to `MOST_PATCHES`.
    pub fn len(&self) -> usize
        ensures value { result ≡ length (patches self.now) }
        ensures some { 1 ≤ result }
        ensures few { result ≤ MOST_PATCHES }
    {
        self.patches().len()
    }

    /// All patches, in order.
    pub fn patches(&self) -> &[Patch]
        ensures value { result.now ≡ patches self.now }
        ensures some { 1 ≤ length result.now }
        ensures few { length result.now ≤ MOST_PATCHES }
        ensures patch { All IsPatch result.now }

        // Without a box they are those of the room.
        ensures bare { self.now.boxes ≡ [] → result.now ≡ patches_of_room self.now.room }
    {
        if self.boxes.is_empty() {
            self.room.patches()
        } else {
            self.patches.as_slice()
        }
    }

    /// Patch `i`.
    pub fn patch(&self, i: usize) -> Patch
        requires { i < length (patches self.now) }
        ensures value { slice_get (patches self.now) i ≡ Some result }
        ensures patch { IsPatch result }
    {
        self.patches()[i]
    }
}

// The `n` patches of a room and its boxes, box by box; none where there is no box, since the room has all.
fn kept_patches(
    alloc: Global,
    n: usize,
    room: &Room,
    boxes: &[BoxSpec],
) -> Result<Vec<Patch>, AllocError>
    requires room { IsRoom room.now.spec }
    requires boxes { All (IsBox room.now.spec) boxes.now }
    ensures all { IfOk result (λ kept. 1 ≤ length boxes.now → kept.items ≡ patches (record { room = room.now; boxes = boxes.now })) }
    ensures patch { IfOk result (λ kept. All IsPatch kept.items) }
{
    if boxes.is_empty() {
        return Ok(Vec::new(alloc));
    }
    let mut all = Vec::with_capacity(alloc, n)?;
    all.extend_from_slice(room.patches())?;
    for spec in boxes {
        add_box(&mut all, *spec)?;
    }
    Ok(all)
}

// Appends the patches of a box, face by face.
fn add_box(all: &mut Vec<Patch>, spec: BoxSpec) -> Result<(), AllocError>
    requires { HasExtents spec }
    ensures { OnOk result (all.new.items ≡ all.old.items ++ box_patches spec) }
{
    for face in FACES {
        add_face(all, spec, face)?;
    }
    Ok(())
}

// Appends the patches of a face, row by row.
#[tactic(auto, using(room_patches::proofs::Rows::steps), unfolding(crate::specs::Boxes::patches_of))]
fn add_face(all: &mut Vec<Patch>, spec: BoxSpec, face: Face) -> Result<(), AllocError>
    requires { HasExtents spec }
    ensures { OnOk result (all.new.items ≡ all.old.items ++ patches_of spec face) }
{
    for row in 0..face.upward(spec).cut.parts {
        add_row(all, spec, face, row)?;
    }
    Ok(())
}

// Appends one row of a face.
#[tactic(auto, using(room_patches::proofs::Rows::steps), unfolding(crate::specs::Boxes::patch_row))]
fn add_row(all: &mut Vec<Patch>, spec: BoxSpec, face: Face, row: u32) -> Result<(), AllocError>
    requires spec { HasExtents spec }
    requires row { row < (upward spec face).cut.parts }
    ensures { OnOk result (all.new.items ≡ all.old.items ++ patch_row spec face row) }
{
    for column in 0..face.across(spec).cut.parts {
        all.push(face.patch_at(spec, column, row))?;
    }
    Ok(())
}

// Threads share furnished rooms: that they may is proved here, and not where they first do.
fn ask_shared<T: Send + Sync>(_value: &T) {}

fn ask_furnished_shared(furnished: &Furnished) {
    ask_shared(furnished);
}

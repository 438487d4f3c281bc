// Rooms that the tests of several modules use.
use room_patches::{Room, RoomSpec};
use std::alloc::Global;
use std::test::Fail;

pub const OFFICE: RoomSpec = RoomSpec {
    width: 6_000,
    depth: 4_000,
    height: 3_000,
    nx: 12,
    ny: 8,
    nz: 6,
    floor: 200,
    ceiling: 700,
    walls: [500; 4],
};

pub const CUBE: RoomSpec = RoomSpec {
    width: 1_000,
    depth: 1_000,
    height: 1_000,
    nx: 1,
    ny: 1,
    nz: 1,
    floor: 500,
    ceiling: 500,
    walls: [500; 4],
};

// Lengths that no part divides.
pub const UNEVEN: RoomSpec = RoomSpec {
    width: 1_001,
    depth: 999,
    height: 500,
    nx: 3,
    ny: 2,
    nz: 1,
    floor: 100,
    ceiling: 200,
    walls: [300; 4],
};

// A room of which nothing is known, so that no proof of a test computes with its patches.
pub fn room_of(alloc: Global, spec: RoomSpec) -> Result<Room, Fail> {
    Ok(Room::new(alloc, spec, &[])?)
}

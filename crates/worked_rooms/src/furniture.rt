// Furnished rooms: the patches of boxes, and what is refused. The expected patches come from another program.
use crate::sample_rooms::{CUBE, UNEVEN, room_of};
use boxes::{BoxFault, Furnished, MOST_BOXES};
use room_patches::{BoxSpec, Patch, RoomSpec};
use std::alloc::Global;
use std::process::Abort;
use std::test::Fail;

// Where a box begins and ends along x, y and z, its counts and its reflectance.
type Numbers = [u32; 10];

fn box_of(numbers: &Numbers) -> BoxSpec {
    let [x0, x1, y0, y1, z0, z1, nx, ny, nz, reflectance] = *numbers;
    BoxSpec {
        x0,
        x1,
        y0,
        y1,
        z0,
        z1,
        nx,
        ny,
        nz,
        reflectance,
    }
}

// The room with these boxes in it, or why there is none.
fn furnish(
    rt: &impl Abort,
    alloc: Global,
    spec: RoomSpec,
    list: &[Numbers],
) -> Result<Result<Furnished, BoxFault>, Fail> {
    let room = room_of(alloc, spec)?;
    let mut boxes = Vec::new(alloc);
    for numbers in list {
        boxes.push(box_of(numbers))?;
    }
    assert!(rt; boxes.len() <= MOST_BOXES);
    Ok(Furnished::new(alloc, room, &boxes))
}

// A patch's number, its centre, its axis, whether its normal rises, its area and its reflectance.
type Row = (usize, [i32; 3], u8, bool, u64, u32);

fn assert_patches(rt: &impl Abort, furnished: &Furnished, rows: &[Row]) {
    for (number, centre, axis, rising, area, reflectance) in rows {
        assert!(rt; *number < furnished.len());
        assert_eq!(rt;
            furnished.patch(*number),
            Patch {
                centre: *centre,
                axis: *axis,
                rising: *rising,
                area: *area,
                reflectance: *reflectance,
            }
        );
    }
}

const IN_THE_MIDDLE: Numbers = [400, 600, 400, 600, 400, 600, 1, 1, 1, 0];

const MIDDLE_PATCHES: [Row; 6] = [
    (6, [1_000, 1_000, 800], 2, false, 40_000, 0),
    (7, [1_000, 1_000, 1_200], 2, true, 40_000, 0),
    (8, [800, 1_000, 1_000], 0, false, 40_000, 0),
    (9, [1_200, 1_000, 1_000], 0, true, 40_000, 0),
    (10, [1_000, 800, 1_000], 1, false, 40_000, 0),
    (11, [1_000, 1_200, 1_000], 1, true, 40_000, 0),
];

#[test]
fn the_patches_of_a_box_follow_those_of_the_room(rt: HostRuntime) -> Result<(), Fail> {
    let alloc = rt.alloc();
    let furnished = furnish(&rt, alloc, CUBE, &[IN_THE_MIDDLE])??;
    assert_eq!(rt; furnished.len(), 12);
    assert_patches(&rt, &furnished, &MIDDLE_PATCHES);
    assert_eq!(rt; furnished.boxes(), [box_of(&IN_THE_MIDDLE)].as_slice());
    let room = room_of(alloc, CUBE)?;
    for number in 0..room.len() {
        assert!(rt; number < furnished.len());
        assert_eq!(rt; furnished.patch(number), room.patch(number));
    }
    Ok(())
}

// Lengths that no part divides, and lengths of fewer millimetres than parts.
const UNEVEN_BOXES: [Numbers; 2] = [
    [100, 201, 10, 998, 0, 499, 2, 3, 1, 77],
    [1, 3, 1, 2, 1, 2, 4, 1, 1, 950],
];

#[rattlefmt::skip]
const UNEVEN_PATCHES: [Row; 40] = [
    (22, [250, 349, 0], 2, false, 16_450, 77),
    (23, [351, 349, 0], 2, false, 16_779, 77),
    (24, [250, 1_007, 0], 2, false, 16_450, 77),
    (25, [351, 1_007, 0], 2, false, 16_779, 77),
    (26, [250, 1_666, 0], 2, false, 16_500, 77),
    (27, [351, 1_666, 0], 2, false, 16_830, 77),
    (28, [250, 349, 998], 2, true, 16_450, 77),
    (29, [351, 349, 998], 2, true, 16_779, 77),
    (30, [250, 1_007, 998], 2, true, 16_450, 77),
    (31, [351, 1_007, 998], 2, true, 16_779, 77),
    (32, [250, 1_666, 998], 2, true, 16_500, 77),
    (33, [351, 1_666, 998], 2, true, 16_830, 77),
    (34, [200, 349, 499], 0, false, 164_171, 77),
    (35, [200, 1_007, 499], 0, false, 164_171, 77),
    (36, [200, 1_666, 499], 0, false, 164_670, 77),
    (37, [402, 349, 499], 0, true, 164_171, 77),
    (38, [402, 1_007, 499], 0, true, 164_171, 77),
    (39, [402, 1_666, 499], 0, true, 164_670, 77),
    (40, [250, 20, 499], 1, false, 24_950, 77),
    (41, [351, 20, 499], 1, false, 25_449, 77),
    (42, [250, 1_996, 499], 1, true, 24_950, 77),
    (43, [351, 1_996, 499], 1, true, 25_449, 77),
    (44, [2, 3, 2], 2, false, 0, 950),
    (45, [3, 3, 2], 2, false, 1, 950),
    (46, [4, 3, 2], 2, false, 0, 950),
    (47, [5, 3, 2], 2, false, 1, 950),
    (48, [2, 3, 4], 2, true, 0, 950),
    (49, [3, 3, 4], 2, true, 1, 950),
    (50, [4, 3, 4], 2, true, 0, 950),
    (51, [5, 3, 4], 2, true, 1, 950),
    (52, [2, 3, 3], 0, false, 1, 950),
    (53, [6, 3, 3], 0, true, 1, 950),
    (54, [2, 2, 3], 1, false, 0, 950),
    (55, [3, 2, 3], 1, false, 1, 950),
    (56, [4, 2, 3], 1, false, 0, 950),
    (57, [5, 2, 3], 1, false, 1, 950),
    (58, [2, 4, 3], 1, true, 0, 950),
    (59, [3, 4, 3], 1, true, 1, 950),
    (60, [4, 4, 3], 1, true, 0, 950),
    (61, [5, 4, 3], 1, true, 1, 950),
];

#[test]
fn boxes_are_cut_as_rooms_are(rt: HostRuntime) -> Result<(), Fail> {
    let furnished = furnish(&rt, rt.alloc(), UNEVEN, &UNEVEN_BOXES)??;
    assert_eq!(rt; furnished.len(), 62);
    assert_patches(&rt, &furnished, &UNEVEN_PATCHES);
    Ok(())
}

#[test]
fn a_room_without_boxes_has_its_own_patches(rt: HostRuntime) -> Result<(), Fail> {
    let alloc = rt.alloc();
    let furnished = furnish(&rt, alloc, UNEVEN, &[])??;
    let room = room_of(alloc, UNEVEN)?;
    assert_eq!(rt; furnished.patches(), room.patches());
    assert_eq!(rt; furnished.room().spec(), UNEVEN);
    Ok(())
}

// Boxes of a room of 1,001 by 999 by 500 mm, and what is wrong with them.
const FAULTY_BOXES: [(&[Numbers], Option<BoxFault>); 26] = [
    (&[[0, 1_001, 0, 999, 0, 500, 1, 1, 1, 950]], None),
    (&[[1_000, 1_001, 998, 999, 499, 500, 64, 1, 1, 0]], None),
    (
        &[[0, 1_002, 0, 999, 0, 500, 1, 1, 1, 0]],
        Some(BoxFault::Bounds { at: 0 }),
    ),
    (
        &[[0, 1_001, 0, 1_000, 0, 500, 1, 1, 1, 0]],
        Some(BoxFault::Bounds { at: 0 }),
    ),
    (
        &[[0, 1_001, 0, 999, 0, 501, 1, 1, 1, 0]],
        Some(BoxFault::Bounds { at: 0 }),
    ),
    (
        &[[7, 7, 0, 999, 0, 500, 1, 1, 1, 0]],
        Some(BoxFault::Bounds { at: 0 }),
    ),
    (
        &[[0, 1_001, 7, 7, 0, 500, 1, 1, 1, 0]],
        Some(BoxFault::Bounds { at: 0 }),
    ),
    (
        &[[0, 1_001, 0, 999, 7, 7, 1, 1, 1, 0]],
        Some(BoxFault::Bounds { at: 0 }),
    ),
    (
        &[[600, 400, 0, 999, 0, 500, 1, 1, 1, 0]],
        Some(BoxFault::Bounds { at: 0 }),
    ),
    (
        &[[0, 1_001, 600, 400, 0, 500, 1, 1, 1, 0]],
        Some(BoxFault::Bounds { at: 0 }),
    ),
    (
        &[[0, 1_001, 0, 999, 400, 300, 1, 1, 1, 0]],
        Some(BoxFault::Bounds { at: 0 }),
    ),
    (
        &[[0, u32::MAX, 0, 999, 0, 500, 1, 1, 1, 0]],
        Some(BoxFault::Bounds { at: 0 }),
    ),
    (
        &[[0, 1, 0, 1, 0, 1, 0, 1, 1, 0]],
        Some(BoxFault::Counts { at: 0 }),
    ),
    (
        &[[0, 1, 0, 1, 0, 1, 1, 0, 1, 0]],
        Some(BoxFault::Counts { at: 0 }),
    ),
    (
        &[[0, 1, 0, 1, 0, 1, 1, 1, 0, 0]],
        Some(BoxFault::Counts { at: 0 }),
    ),
    (
        &[[0, 1, 0, 1, 0, 1, 65, 1, 1, 0]],
        Some(BoxFault::Counts { at: 0 }),
    ),
    (
        &[[0, 1, 0, 1, 0, 1, 1, 65, 1, 0]],
        Some(BoxFault::Counts { at: 0 }),
    ),
    (
        &[[0, 1, 0, 1, 0, 1, 1, 1, 65, 0]],
        Some(BoxFault::Counts { at: 0 }),
    ),
    (
        &[[0, 1, 0, 1, 0, 1, 1, 1, u32::MAX, 0]],
        Some(BoxFault::Counts { at: 0 }),
    ),
    (
        &[[0, 1, 0, 1, 0, 1, 1, 1, 1, 951]],
        Some(BoxFault::Reflectance { at: 0 }),
    ),
    // Of one box the bounds come first, and then the counts.
    (
        &[[0, 1_002, 0, 1, 0, 1, 0, 1, 1, 951]],
        Some(BoxFault::Bounds { at: 0 }),
    ),
    (
        &[[0, 1, 0, 1, 0, 1, 0, 1, 1, 951]],
        Some(BoxFault::Counts { at: 0 }),
    ),
    // Box by box: the first that is faulty is named.
    (
        &[
            [0, 1, 0, 1, 0, 1, 1, 1, 1, 950],
            [0, 1, 0, 1, 0, 1, 1, 1, 1, 951],
            [0, 1_002, 0, 1, 0, 1, 1, 1, 1, 0],
        ],
        Some(BoxFault::Reflectance { at: 1 }),
    ),
    // The number of all patches comes last: 22 of the room, with 4,056 and 18, and then with 20.
    (&[FULL, [0, 9, 0, 9, 0, 9, 1, 1, 4, 0]], None),
    (
        &[
            FULL,
            [0, 9, 0, 9, 0, 9, 1, 1, 3, 0],
            [0, 9, 0, 9, 0, 9, 1, 1, 1, 0],
        ],
        Some(BoxFault::Patches { n: 4_098 }),
    ),
    (
        &[FULL, FULL, [0, 9, 0, 9, 0, 9, 1, 1, 3, 951]],
        Some(BoxFault::Reflectance { at: 2 }),
    ),
];

// A box of 4,056 patches.
const FULL: Numbers = [0, 26, 0, 26, 0, 26, 26, 26, 26, 0];

#[test]
fn furniture_is_refused_by_its_first_fault(rt: HostRuntime) -> Result<(), Fail> {
    for (list, fault) in &FAULTY_BOXES {
        let furnished = furnish(&rt, rt.alloc(), UNEVEN, list)?;
        assert_eq!(rt; furnished.err(), *fault);
    }
    Ok(())
}

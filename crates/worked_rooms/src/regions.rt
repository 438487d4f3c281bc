// Walls of their own reflectances, and regions.
use crate::sample_rooms::{CUBE, OFFICE};
use flux_system::System;
use room_patches::{Region, Room, RoomFault, RoomSpec};
use std::alloc::Global;
use std::process::Abort;
use std::test::Fail;
use transfer_shares::{all_rows, reflectances};

// The surface, the ends of u, the ends of v, and the reflectance.
type Numbers = [u32; 6];

fn region_of(numbers: &Numbers) -> Region {
    let [surface, u0, u1, v0, v1, reflectance] = *numbers;
    Region {
        surface,
        u0,
        u1,
        v0,
        v1,
        reflectance,
    }
}

fn room_with(
    rt: &impl Abort,
    alloc: Global,
    spec: RoomSpec,
    list: &[Numbers],
) -> Result<Room, RoomFault> {
    let mut regions = Vec::new(alloc);
    for numbers in list {
        regions.push(region_of(numbers))?;
    }
    assert!(rt; regions.len() <= 16);
    Room::new(alloc, spec, &regions)
}

// An office whose walls are all different.
const WALLS: RoomSpec = RoomSpec {
    walls: [110, 220, 330, 440],
    ..OFFICE
};

fn assert_reflectances(rt: &impl Abort, room: &Room, rows: &[(usize, u32)]) {
    for (patch, expected) in rows {
        assert!(rt; *patch < room.len());
        assert_eq!(rt; room.patch(*patch).reflectance, *expected);
    }
}

#[test]
fn each_wall_has_a_reflectance_of_its_own(rt: HostRuntime) -> Result<(), Fail> {
    let room = room_with(&rt, rt.alloc(), WALLS, &[])?;
    let rows = [
        (0, 200),
        (95, 200),
        (96, 700),
        (191, 700),
        (192, 110),
        (239, 110),
        (240, 220),
        (287, 220),
        (288, 330),
        (359, 330),
        (360, 440),
        (431, 440),
    ];
    assert_reflectances(&rt, &room, &rows);
    Ok(())
}

// Regions of the office, a patch, and its reflectance. All its patches are squares of half a metre, so that a centre lies at
// 250, 750, 1250 millimetres and so on along both axes.
const REGIONS: [(&[Numbers], usize, u32); 23] = [
    // Each surface has its own axes: patch 1 of the floor is the second along x.
    (&[[0, 500, 1_000, 0, 500, 77]], 1, 77),
    (&[[0, 500, 1_000, 0, 500, 77]], 12, 200),
    (&[[1, 500, 1_000, 0, 500, 77]], 97, 77),
    (&[[1, 500, 1_000, 0, 500, 77]], 108, 700),
    // On the walls at both ends of x u runs along y and v along z.
    (&[[2, 500, 1_000, 0, 500, 77]], 193, 77),
    (&[[2, 500, 1_000, 0, 500, 77]], 200, 110),
    (&[[3, 0, 500, 500, 1_000, 77]], 248, 77),
    (&[[3, 0, 500, 500, 1_000, 77]], 241, 220),
    (&[[4, 500, 1_000, 0, 500, 77]], 289, 77),
    (&[[4, 500, 1_000, 0, 500, 77]], 300, 330),
    (&[[5, 5_500, 6_000, 2_500, 3_000, 77]], 431, 77),
    (&[[5, 5_500, 6_000, 2_500, 3_000, 77]], 430, 440),
    // A region reaches no other surface.
    (&[[2, 0, 4_000, 0, 3_000, 77]], 240, 220),
    // A centre on a near edge lies in a region, and one on a far edge doesn't.
    (&[[0, 250, 500, 0, 500, 77]], 0, 77),
    (&[[0, 251, 500, 0, 500, 77]], 0, 200),
    (&[[0, 0, 250, 0, 500, 77]], 0, 200),
    (&[[0, 0, 251, 0, 500, 77]], 0, 77),
    (&[[0, 0, 500, 250, 500, 77]], 0, 77),
    (&[[0, 0, 500, 251, 500, 77]], 0, 200),
    (&[[0, 0, 500, 0, 250, 77]], 0, 200),
    (&[[0, 0, 500, 0, 251, 77]], 0, 77),
    // The last region that contains a centre decides, however many do.
    (
        &[
            [0, 0, 6_000, 0, 4_000, 77],
            [0, 0, 500, 0, 500, 0],
            [0, 0, 1_000, 0, 1_000, 950],
            [0, 5_500, 6_000, 0, 500, 33],
        ],
        0,
        950,
    ),
    (
        &[
            [0, 0, 1_000, 0, 1_000, 950],
            [0, 0, 6_000, 0, 4_000, 77],
            [1, 0, 500, 0, 500, 33],
        ],
        0,
        77,
    ),
];

#[test]
fn the_last_region_that_contains_its_centre_gives_a_patch_its_reflectance(
    rt: HostRuntime,
) -> Result<(), Fail> {
    for (list, patch, expected) in &REGIONS {
        let room = room_with(&rt, rt.alloc(), WALLS, list)?;
        assert_reflectances(&rt, &room, &[(*patch, *expected)]);
    }
    Ok(())
}

#[test]
fn a_room_says_its_regions(rt: HostRuntime) -> Result<(), Fail> {
    let list = [[2, 0, 1_000, 0, 1_000, 0], [5, 1, 2, 3, 4, 5]];
    let room = room_with(&rt, rt.alloc(), CUBE, &list)?;
    assert_eq!(rt;
        room.regions(),
        [region_of(&list[0]), region_of(&list[1])].as_slice()
    );
    assert_eq!(rt; room.spec(), CUBE);
    Ok(())
}

fn assert_dark_wall(rt: &impl Abort, system: &System) {
    assert_eq!(rt; system.len(), 6);
    assert_eq!(rt; system.reflectance(2), 0);
    assert_eq!(rt; system.keep(2), 1_000_000_000_000);
    assert_eq!(rt; system.coef(2, 0), 0);
    assert_eq!(rt; system.coef(0, 2), 99_999_999_500);
}

#[test]
fn a_dark_wall_of_a_cube_keeps_all_and_passes_on_nothing(rt: HostRuntime) -> Result<(), Fail> {
    let alloc = rt.alloc();
    let room = room_with(&rt, alloc, CUBE, &[[2, 0, 1_000, 0, 1_000, 0]])?;
    let shares = all_rows(&rt, alloc, &room)?;
    let reflectance = reflectances(alloc, &room)?;
    let system = System::from_vecs(alloc, reflectance, shares, 5_000_000_000)?;
    assert_dark_wall(&rt, &system);
    Ok(())
}

// Regions of a box of 1,001 by 999 by 500 mm, and what is wrong with them.
const FAULTY_REGIONS: [(&[Numbers], Option<u32>); 20] = [
    (&[[0, 0, 1_001, 0, 999, 950]], None),
    (&[[1, 0, 1_001, 0, 999, 950]], None),
    (&[[2, 0, 999, 0, 500, 950]], None),
    (&[[3, 0, 999, 0, 500, 0]], None),
    (&[[4, 0, 1_001, 0, 500, 0]], None),
    (&[[5, 1_000, 1_001, 499, 500, 0]], None),
    (&[[6, 0, 500, 0, 500, 0]], Some(0)),
    (&[[u32::MAX, 0, 500, 0, 500, 0]], Some(0)),
    (&[[0, 0, 500, 0, 500, 951]], Some(0)),
    (&[[0, 0, 0, 0, 500, 0]], Some(0)),
    (&[[0, 500, 499, 0, 500, 0]], Some(0)),
    (&[[0, 0, 500, 7, 7, 0]], Some(0)),
    (&[[0, 0, 500, 8, 7, 0]], Some(0)),
    (&[[0, 0, 1_002, 0, 999, 0]], Some(0)),
    (&[[0, 0, 1_001, 0, 1_000, 0]], Some(0)),
    (&[[2, 0, 1_000, 0, 500, 0]], Some(0)),
    (&[[3, 0, 999, 0, 501, 0]], Some(0)),
    (&[[4, 0, 1_002, 0, 500, 0]], Some(0)),
    (&[[5, 0, u32::MAX, 0, u32::MAX, 0]], Some(0)),
    // The first that is faulty is named.
    (
        &[
            [0, 0, 1_001, 0, 999, 950],
            [5, 0, 1, 0, 1, 0],
            [5, 0, 1_002, 0, 1, 0],
            [6, 0, 1, 0, 1, 0],
        ],
        Some(2),
    ),
];

const BOX: RoomSpec = RoomSpec {
    width: 1_001,
    depth: 999,
    height: 500,
    ..CUBE
};

#[test]
fn a_room_is_refused_by_its_first_faulty_region(rt: HostRuntime) -> Result<(), Fail> {
    for (list, at) in &FAULTY_REGIONS {
        let room = room_with(&rt, rt.alloc(), BOX, list);
        assert_eq!(rt; room.err(), at.map(|at| RoomFault::Region { at }));
    }
    Ok(())
}

// A wall that reflects too much, alone and before a region that is none.
#[test]
fn each_wall_is_tested_and_comes_before_regions(rt: HostRuntime) -> Result<(), Fail> {
    let bright = [
        [951, 500, 500, 500],
        [500, 951, 500, 500],
        [500, 500, 951, 500],
        [500, 500, 500, 951],
    ];
    for walls in &bright {
        let spec = RoomSpec {
            walls: *walls,
            ..CUBE
        };
        let room = room_with(&rt, rt.alloc(), spec, &[[6, 0, 1, 0, 1, 0]]);
        assert_eq!(rt; room.err(), Some(RoomFault::Reflectance));
    }
    Ok(())
}

// Rooms, their patches, luminaires in them, the flux that these send to the patches, and the shares that patches pass on.
ghost use Rattle.std.specs.Prelude.{◌<◌, ◌≤◌, ◌^◌, IfOk, length, sum};

use crate::sample_luminaires::{MIDDLE, even, four_panels, one_web, panel, placed};
use crate::sample_rooms::{CUBE, OFFICE, UNEVEN, room_of};
use direct_flux::{DirectFault, direct};
use fixtures::{Fixture, FixtureFault, FixtureSpec, place};
use photo_web::Web;
use room_patches::{Patch, Room, RoomFault, RoomSpec};
use std::alloc::Global;
use std::process::Abort;
use std::test::Fail;
use transfer_shares::{all_rows, reflectances, shares_row};

// A patch by its number, and what it is: its centre, the axis and the direction of its normal, its area and its
// reflectance.
type Row = (usize, [i32; 3], u8, bool, u64, u32);

const OFFICE_PATCHES: [Row; 10] = [
    (0, [500, 500, 0], 2, true, 250_000, 200),
    (95, [11_500, 7_500, 0], 2, true, 250_000, 200),
    (96, [500, 500, 6_000], 2, false, 250_000, 700),
    (191, [11_500, 7_500, 6_000], 2, false, 250_000, 700),
    (192, [0, 500, 500], 0, true, 250_000, 500),
    (239, [0, 7_500, 5_500], 0, true, 250_000, 500),
    (240, [12_000, 500, 500], 0, false, 250_000, 500),
    (288, [500, 0, 500], 1, true, 250_000, 500),
    (360, [500, 8_000, 500], 1, false, 250_000, 500),
    (431, [11_500, 8_000, 5_500], 1, false, 250_000, 500),
];

const UNEVEN_PATCHES: [Row; 12] = [
    (0, [333, 499, 0], 2, true, 166_167, 100),
    (1, [1_000, 499, 0], 2, true, 166_666, 100),
    (3, [333, 1_498, 0], 2, true, 166_500, 100),
    (5, [1_668, 1_498, 0], 2, true, 167_000, 100),
    (6, [333, 499, 1_000], 2, false, 166_167, 200),
    (11, [1_668, 1_498, 1_000], 2, false, 167_000, 200),
    (12, [0, 499, 500], 0, true, 249_500, 300),
    (13, [0, 1_498, 500], 0, true, 250_000, 300),
    (14, [2_002, 499, 500], 0, false, 249_500, 300),
    (16, [333, 0, 500], 1, true, 166_500, 300),
    (18, [1_668, 0, 500], 1, true, 167_000, 300),
    (21, [1_668, 1_998, 500], 1, false, 167_000, 300),
];

fn patch_of(row: Row) -> Patch {
    let (_, centre, axis, rising, area, reflectance) = row;
    Patch {
        centre,
        axis,
        rising,
        area,
        reflectance,
    }
}

fn assert_patches(rt: &impl Abort, room: &Room, rows: &[Row]) {
    for row in rows {
        assert!(rt; row.0 < room.len());
        assert_eq!(rt; room.patch(row.0), patch_of(*row));
    }
}

#[test]
fn a_room_is_cut_into_patches(rt: HostRuntime) -> Result<(), Fail> {
    let alloc = rt.alloc();
    let office = room_of(alloc, OFFICE)?;
    assert_eq!(rt; office.spec(), OFFICE);
    assert_eq!(rt; office.len(), 432);
    assert_patches(&rt, &office, &OFFICE_PATCHES);
    let uneven = room_of(alloc, UNEVEN)?;
    assert_eq!(rt; uneven.len(), 22);
    assert_patches(&rt, &uneven, &UNEVEN_PATCHES);
    Ok(())
}

// Width, depth and height, their parts, and the reflectances of floor, ceiling and walls; and what is wrong with them.
const FAULTY_ROOMS: [([u32; 9], Option<RoomFault>); 10] = [
    (
        [499, 1_000, 1_000, 0, 1, 1, 500, 500, 500],
        Some(RoomFault::Size),
    ),
    (
        [1_000, 1_000, 100_001, 1, 1, 1, 500, 500, 500],
        Some(RoomFault::Size),
    ),
    (
        [1_000, 1_000, 1_000, 1, 0, 1, 951, 500, 500],
        Some(RoomFault::Counts),
    ),
    (
        [1_000, 1_000, 1_000, 1, 1, 65, 500, 500, 500],
        Some(RoomFault::Counts),
    ),
    (
        [1_000, 1_000, 1_000, 64, 64, 64, 500, 500, 951],
        Some(RoomFault::Patches { n: 24_576 }),
    ),
    (
        [1_000, 1_000, 1_000, 32, 32, 17, 500, 500, 500],
        Some(RoomFault::Patches { n: 4_224 }),
    ),
    (
        [1_000, 1_000, 1_000, 1, 1, 1, 500, 951, 500],
        Some(RoomFault::Reflectance),
    ),
    ([100_000, 500, 1_000, 1, 1, 1, 500, 500, 500], None),
    ([1_000, 1_000, 1_000, 16, 16, 8, 950, 950, 950], None),
    ([1_000, 1_000, 1_000, 32, 32, 16, 950, 950, 950], None),
];

fn spec_of(numbers: [u32; 9]) -> RoomSpec {
    let [width, depth, height, nx, ny, nz, floor, ceiling, walls] = numbers;
    RoomSpec {
        width,
        depth,
        height,
        nx,
        ny,
        nz,
        floor,
        ceiling,
        walls: [walls; 4],
    }
}

#[test]
fn a_room_is_refused_by_its_first_fault(rt: HostRuntime) -> Result<(), Fail> {
    let alloc = rt.alloc();
    for (numbers, expected) in &FAULTY_ROOMS {
        let room = Room::new(alloc, spec_of(*numbers), &[]);
        assert_eq!(rt; room.err(), *expected);
    }
    Ok(())
}

#[test]
fn luminaires_are_placed_in_half_millimetres(rt: HostRuntime) -> Result<(), Fail> {
    let alloc = rt.alloc();
    let cube = room_of(alloc, CUBE)?;
    let corner = FixtureSpec {
        web: 7,
        x: 1_000,
        y: 0,
        z: 1_000,
        rotation: 359_999,
        level: 0,
    };
    let placed = place(alloc, &cube, &[MIDDLE, corner])?;
    let expected = Fixture {
        web: 7,
        x: 2_000,
        y: 0,
        z: 2_000,
        rotation: 359_999,
        level: 0,
    };
    assert_eq!(rt; placed.len(), 2);
    assert_eq!(rt; placed.get(1), Some(&expected));
    Ok(())
}

// A place, a rotation and a level, and what is wrong with them.
const FAULTY_FIXTURES: [([u32; 5], FixtureFault); 5] = [
    (
        [1_001, 500, 500, 360_000, 1_000],
        FixtureFault::Outside { at: 1 },
    ),
    ([500, 1_001, 500, 0, 1_000], FixtureFault::Outside { at: 1 }),
    ([500, 500, 1_001, 0, 1_001], FixtureFault::Outside { at: 1 }),
    (
        [500, 500, 500, 360_000, 1_001],
        FixtureFault::Rotation { at: 1 },
    ),
    ([500, 500, 500, 0, 1_001], FixtureFault::Level { at: 1 }),
];

// What is wrong with the second of three luminaires; the third has a later fault.
fn fixture_fault(alloc: Global, room: &Room, numbers: [u32; 5]) -> Option<FixtureFault> {
    let [x, y, z, rotation, level] = numbers;
    let asked = FixtureSpec {
        web: 0,
        x,
        y,
        z,
        rotation,
        level,
    };
    let later = FixtureSpec { x: 5_000, ..MIDDLE };
    place(alloc, room, &[MIDDLE, asked, later]).err()
}

#[test]
fn luminaires_are_refused_by_the_first_fault(rt: HostRuntime) -> Result<(), Fail> {
    let alloc = rt.alloc();
    let cube = room_of(alloc, CUBE)?;
    for (numbers, fault) in &FAULTY_FIXTURES {
        assert_eq!(rt; fixture_fault(alloc, &cube, *numbers), Some(*fault));
    }
    Ok(())
}

// What luminaires send to the patches of a room.
fn flux_of(
    rt: &impl Abort,
    alloc: Global,
    room: &Room,
    luminaires: &[FixtureSpec],
    webs: &[Web],
) -> Result<Vec<u64>, Fail>
    requires { length luminaires.now < 2 ^ 32 }
    ensures { IfOk result (λ flux. sum flux.items ≤ 10 ^ 16) }
{
    let fixtures = placed(rt, alloc, room, luminaires, webs)?;
    Ok(direct(alloc, room, &fixtures, webs)?)
}

#[test]
fn each_face_of_a_cube_gets_the_same(rt: HostRuntime) -> Result<(), Fail> {
    let alloc = rt.alloc();
    let cube = room_of(alloc, CUBE)?;
    let webs = one_web(alloc, even(alloc, 1_000_000)?)?;
    for (level, expected) in [(1_000, 4_000_000_000), (200, 800_000_000), (0, 0)] {
        let luminaire = FixtureSpec { level, ..MIDDLE };
        let flux = flux_of(&rt, alloc, &cube, &[luminaire], &webs)?;
        assert_eq!(rt; flux.as_slice(), [expected; 6].as_slice());
    }
    let dark = direct(alloc, &cube, &[], &webs)?;
    assert_eq!(rt; dark.as_slice(), [0; 6].as_slice());
    Ok(())
}

#[test]
fn too_much_flux_is_refused_with_its_sum(rt: HostRuntime) -> Result<(), Fail> {
    let alloc = rt.alloc();
    let cube = room_of(alloc, CUBE)?;
    let webs = one_web(alloc, even(alloc, 1_000_000_000_000_000)?)?;
    let fixtures = placed(&rt, alloc, &cube, &[MIDDLE, MIDDLE], &webs)?;
    assert_eq!(rt;
        direct(alloc, &cube, &fixtures, &webs).err(),
        Some(DirectFault::FluxTooLarge {
            sum: 48_000_000_000_000_000_000
        })
    );
    Ok(())
}

// What another program finds for four panels.
const OFFICE_FLUX: [(usize, u64); 9] = [
    (0, 40_317_349_412),
    (1, 49_605_362_500),
    (95, 40_317_349_412),
    (96, 0),
    (191, 0),
    (192, 27_098_467_416),
    (239, 3_579_463_050),
    (240, 27_098_467_416),
    (431, 3_008_168_005),
];

fn assert_office(rt: &impl Abort, flux: &[u64])
    requires { sum flux.now ≤ 10 ^ 16 }
{
    assert_eq!(rt; flux.len(), 432);
    assert_eq!(rt;
        flux.iter().map(|amount| *amount).sum::<u64>(),
        16_225_926_854_220
    );
    for (number, expected) in &OFFICE_FLUX {
        assert_eq!(rt; flux.get(*number), Some(expected));
    }
}

#[test]
fn four_panels_light_an_office(rt: HostRuntime) -> Result<(), Fail> {
    let alloc = rt.alloc();
    let office = room_of(alloc, OFFICE)?;
    let webs = one_web(alloc, panel(alloc)?)?;
    let flux = flux_of(&rt, alloc, &office, &four_panels(), &webs)?;
    assert_office(&rt, &flux);
    Ok(())
}

fn assert_all_of_cube(rt: &impl Abort, all: &[u32]) {
    assert_eq!(rt; all.len(), 36);
    for (place, share) in all.iter().enumerate() {
        let expected = if place % 7 == 0 { 0 } else { 199_999_999 };
        assert_eq!(rt; *share, expected);
    }
}

fn assert_row_of_cube(rt: &impl Abort, cube: &Room) {
    let mut row = [7; 6];
    assert_eq!(rt; cube.len(), 6);
    shares_row(cube, 2, &mut row);
    assert_eq!(rt;
        row.as_slice(),
        [
            199_999_999,
            199_999_999,
            0,
            199_999_999,
            199_999_999,
            199_999_999
        ]
        .as_slice()
    );
}

#[test]
fn each_face_of_a_cube_passes_on_the_same(rt: HostRuntime) -> Result<(), Fail> {
    let alloc = rt.alloc();
    let cube = room_of(alloc, CUBE)?;
    let all = all_rows(&rt, alloc, &cube)?;
    assert_all_of_cube(&rt, &all);
    assert_row_of_cube(&rt, &cube);
    assert_eq!(rt; reflectances(alloc, &cube)?.as_slice(), [500; 6].as_slice());
    Ok(())
}

// What another program finds for the shares of a patch of the ceiling.
const OFFICE_SHARES: [(usize, u32); 13] = [
    (0, 3_796_890),
    (1, 5_070_020),
    (50, 3_273_849),
    (95, 571_774),
    (100, 0),
    (150, 0),
    (191, 0),
    (192, 2_767_735),
    (250, 1_485_300),
    (300, 481_647),
    (350, 3_520_847),
    (400, 1_368_905),
    (431, 96_085),
];

fn shares_of(rt: &impl Abort, alloc: Global, room: &Room, patch: usize) -> Result<Vec<u32>, Fail> {
    let mut row = vec![in alloc; 0; room.len()]?;
    assert!(rt; patch < room.len());
    assert_eq!(rt; row.len(), room.len());
    shares_row(room, patch, &mut row);
    Ok(row)
}

fn assert_row_of_office(rt: &impl Abort, row: &[u32]) {
    for (number, expected) in &OFFICE_SHARES {
        assert_eq!(rt; row.get(*number), Some(expected));
    }
}

#[test]
fn an_office_passes_on_what_another_program_finds(rt: HostRuntime) -> Result<(), Fail> {
    let alloc = rt.alloc();
    let office = room_of(alloc, OFFICE)?;
    let row = shares_of(&rt, alloc, &office, 100)?;
    assert_row_of_office(&rt, &row);
    let all = all_rows(&rt, alloc, &office)?;
    assert_eq!(rt; all.len(), 432 * 432);
    assert_eq!(rt; &all[43_200..43_632], row.as_slice());
    Ok(())
}

// Widths, depths and heights, and how many parts each of them is cut into.
const SHARING_ROOMS: [[u32; 6]; 8] = [
    // Parts of one length, of which the weights come again and again.
    [6_000, 4_000, 3_000, 12, 8, 6],
    // Parts that differ.
    [24_010, 18_030, 7_150, 16, 16, 8],
    [1_001, 999, 500, 3, 2, 1],
    // A patch for each surface.
    [1_000, 1_000, 1_000, 1, 1, 1],
    // Distances and areas whose product passes 64 bits.
    [100_000, 100_000, 100_000, 1, 1, 1],
    // Squared distances that pass 32 bits.
    [99_990, 88_880, 77_770, 16, 16, 8],
    // Weights whose sum passes 2^61.
    [100_000, 100_000, 500, 2, 2, 1],
    [500, 500, 100_000, 4, 4, 60],
];

fn assert_rows(rt: &impl Abort, alloc: Global, room: &Room, all: &[u32]) -> Result<(), Fail> {
    let mut row = vec![in alloc; 0; room.len()]?;
    for (i, made) in all.chunks(room.len()).enumerate() {
        assert!(rt; i < room.len());
        assert_eq!(rt; row.len(), room.len());
        shares_row(room, i, &mut row);
        assert_eq!(rt; made, row.as_slice());
    }
    Ok(())
}

#[test]
fn all_rows_are_those_of_the_formulas(rt: HostRuntime) -> Result<(), Fail> {
    let alloc = rt.alloc();
    for numbers in &SHARING_ROOMS {
        let [width, depth, height, nx, ny, nz] = *numbers;
        let spec = spec_of([width, depth, height, nx, ny, nz, 500, 500, 500]);
        let room = room_of(alloc, spec)?;
        let all = all_rows(&rt, alloc, &room)?;
        assert_rows(&rt, alloc, &room, &all)?;
    }
    Ok(())
}

// Grids of points in rooms.
ghost use Rattle.std.specs.Prelude.{◌≡◌, IfOk};

use crate::sample_rooms::{CUBE, OFFICE, UNEVEN, room_of};
use compliance::CheckSpec;
use grids::{Grid, GridFault};
use lux_io::Name;
use room_patches::{Room, RoomSpec};
use std::alloc::Global;
use std::process::Abort;
use std::test::Fail;

// x0, x1, y0, y1 and z of a rectangle in millimetres, and the counts along x and y.
pub type Numbers = [u32; 7];

pub const DESKS: Numbers = [500, 5_500, 500, 3_500, 750, 10, 6];

// A rectangle that no count divides.
pub const SHELF: Numbers = [100, 901, 50, 948, 101, 4, 3];

// Small patches, so that a point is near to many.
const CLOSET: RoomSpec = RoomSpec {
    width: 500,
    depth: 500,
    height: 500,
    nx: 1,
    ny: 8,
    nz: 8,
    floor: 500,
    ceiling: 500,
    walls: [500; 4],
};

fn check_of(alloc: Global, numbers: Numbers) -> Result<CheckSpec, Fail> {
    let [x0, x1, y0, y1, z, px, py] = numbers;
    Ok(CheckSpec {
        name: Name::new(alloc, "desk")?,
        x0,
        x1,
        y0,
        y1,
        z,
        px,
        py,
        maintenance: 800,
        average: 500,
        uniformity: 600,
    })
}

pub fn laid(alloc: Global, room: &Room, numbers: Numbers) -> Result<Grid, Fail>
    ensures { IfOk result (λ grid. grid.room ≡ room.now.spec) }
{
    let check = check_of(alloc, numbers)?;
    Ok(Grid::new(alloc, room, &check)?)
}

// A point by its number, and where it stands, in half-millimetres.
type Place = (usize, [i32; 3]);

const SHELF_POINTS: [Place; 12] = [
    (0, [400, 399, 202]),
    (1, [800, 399, 202]),
    (2, [1_201, 399, 202]),
    (3, [1_601, 399, 202]),
    (4, [400, 998, 202]),
    (5, [800, 998, 202]),
    (6, [1_201, 998, 202]),
    (7, [1_601, 998, 202]),
    (8, [400, 1_596, 202]),
    (9, [800, 1_596, 202]),
    (10, [1_201, 1_596, 202]),
    (11, [1_601, 1_596, 202]),
];

const DESKS_POINTS: [Place; 3] = [
    (0, [1_500, 1_500, 1_500]),
    (37, [8_500, 4_500, 1_500]),
    (59, [10_500, 6_500, 1_500]),
];

fn assert_points(rt: &impl Abort, grid: &Grid, points: &[Place]) {
    for (g, point) in points {
        assert!(rt; *g < grid.len());
        assert_eq!(rt; grid.point(*g), *point);
    }
}

#[test]
fn points_stand_in_the_middle_of_their_cells(rt: HostRuntime) -> Result<(), Fail> {
    let alloc = rt.alloc();
    let uneven = room_of(alloc, UNEVEN)?;
    let shelf = laid(alloc, &uneven, SHELF)?;
    assert_eq!(rt; shelf.len(), 12);
    assert_points(&rt, &shelf, &SHELF_POINTS);
    let office = room_of(alloc, OFFICE)?;
    let desks = laid(alloc, &office, DESKS)?;
    assert_eq!(rt; desks.len(), 60);
    assert_points(&rt, &desks, &DESKS_POINTS);
    Ok(())
}

// A room, a rectangle with its counts, and what the tests of a grid say of it.
type Row = (RoomSpec, Numbers, Option<GridFault>);

fn too_near(point: u32, patch: u32) -> Option<GridFault> {
    Some(GridFault::TooNear { point, patch })
}

// Rectangles that are empty, or past the room by a millimetre.
const NO_RECTANGLES: [Row; 8] = [
    (
        CUBE,
        [0, 1_000, 0, 1_000, 1_000, 1, 1],
        Some(GridFault::Rectangle),
    ),
    (
        CUBE,
        [0, 1_000, 0, 1_000, 1_000, 0, 1],
        Some(GridFault::Rectangle),
    ),
    (
        CUBE,
        [500, 500, 0, 1_000, 0, 1, 1],
        Some(GridFault::Rectangle),
    ),
    (
        CUBE,
        [501, 500, 0, 1_000, 0, 1, 1],
        Some(GridFault::Rectangle),
    ),
    (
        CUBE,
        [0, 1_001, 0, 1_000, 0, 1, 1],
        Some(GridFault::Rectangle),
    ),
    (
        CUBE,
        [0, 1_000, 700, 700, 0, 1, 1],
        Some(GridFault::Rectangle),
    ),
    (
        CUBE,
        [0, 1_000, 0, 1_001, 0, 65, 1],
        Some(GridFault::Rectangle),
    ),
    (UNEVEN, SHELF, None),
];

// Counts at the edges of their limits, also where a point would be too near.
const COUNTS: [Row; 9] = [
    (CUBE, [0, 1_000, 0, 1_000, 0, 0, 1], Some(GridFault::Counts)),
    (
        CUBE,
        [0, 1_000, 0, 1_000, 0, 65, 1],
        Some(GridFault::Counts),
    ),
    (CUBE, [0, 1_000, 0, 1_000, 0, 1, 0], Some(GridFault::Counts)),
    (
        CUBE,
        [0, 1_000, 0, 1_000, 0, 1, 65],
        Some(GridFault::Counts),
    ),
    (
        CUBE,
        [0, 1_000, 0, 1_000, 0, 32, 33],
        Some(GridFault::Counts),
    ),
    (
        CUBE,
        [0, 191, 0, 1_000, 472, 33, 32],
        Some(GridFault::Counts),
    ),
    (CUBE, [0, 1_000, 0, 1_000, 0, 32, 32], None),
    (CUBE, [0, 1_000, 0, 1_000, 0, 64, 16], None),
    (CUBE, [0, 1_000, 0, 1_000, 0, 16, 64], None),
];

fn test_rows(rt: &impl Abort, alloc: Global, rows: &[Row]) -> Result<(), Fail> {
    for (spec, numbers, expected) in rows {
        let room = room_of(alloc, *spec)?;
        let check = check_of(alloc, *numbers)?;
        assert_eq!(rt; Grid::new(alloc, &room, &check).err(), *expected);
    }
    Ok(())
}

#[test]
fn a_grid_is_refused_by_its_first_fault(rt: HostRuntime) -> Result<(), Fail> {
    let alloc = rt.alloc();
    test_rows(&rt, alloc, &NO_RECTANGLES)?;
    test_rows(&rt, alloc, &COUNTS)?;
    Ok(())
}

#[test]
fn the_first_point_that_is_too_near_is_named(rt: HostRuntime) -> Result<(), Fail> {
    let alloc = rt.alloc();
    let rows: [Row; 13] = [
        // 200 half-millimetres from the wall's middle, and a little less.
        (CUBE, [0, 192, 0, 1_000, 472, 1, 1], None),
        (CUBE, [0, 191, 0, 1_000, 472, 1, 1], too_near(0, 2)),
        // At the height of the wall's middle, and a millimetre below it.
        (CUBE, [0, 1, 0, 1_000, 500, 1, 1], None),
        (CUBE, [0, 1, 0, 1_000, 499, 1, 1], too_near(0, 2)),
        // The first 32 points stand in the wall's plane.
        (CUBE, [0, 1, 0, 1_000, 499, 64, 1], too_near(32, 2)),
        // Points of the second row, at one wall and at the other.
        (CUBE, [0, 1_000, 0, 1_000, 499, 10, 3], too_near(10, 2)),
        (CUBE, [0, 1_000, 0, 1_000, 501, 10, 3], None),
        // Below the ceiling's middle.
        (CUBE, [0, 1_000, 0, 1_000, 999, 1, 1], too_near(0, 1)),
        (CUBE, [0, 1_000, 0, 1_000, 900, 1, 1], None),
        (CUBE, [0, 1_000, 0, 1_000, 901, 1, 1], too_near(0, 1)),
        // Near to many patches.
        (CLOSET, [0, 50, 0, 500, 100, 1, 2], too_near(0, 33)),
        (CLOSET, [0, 500, 0, 500, 100, 4, 4], too_near(0, 32)),
        (CLOSET, [450, 500, 0, 500, 100, 1, 2], too_near(0, 97)),
    ];
    test_rows(&rt, alloc, &rows)
}

// A room, a grid in it, a point and a patch, and the coefficient of the two.
const COEFFICIENTS: [(RoomSpec, Numbers, usize, usize, u64); 22] = [
    (CUBE, [0, 1_000, 0, 1_000, 0, 1, 1], 0, 0, 0),
    (CUBE, [0, 1_000, 0, 1_000, 0, 1, 1], 0, 1, 318_309_886_000),
    (CUBE, [0, 1_000, 0, 1_000, 0, 1, 1], 0, 5, 318_309_886_000),
    // A point in the wall's plane, and one just before it.
    (CUBE, [0, 1, 0, 1_000, 0, 64, 1], 31, 2, 0),
    (CUBE, [0, 1, 0, 1_000, 0, 64, 1], 32, 2, 1_273_236_997),
    (UNEVEN, SHELF, 0, 0, 0),
    (UNEVEN, SHELF, 0, 6, 1_911_450_607_324),
    (UNEVEN, SHELF, 0, 7, 799_882_207_419),
    (UNEVEN, SHELF, 0, 12, 2_265_919_125_150),
    (UNEVEN, SHELF, 0, 15, 40_732_161_241),
    (UNEVEN, SHELF, 5, 14, 143_522_060_386),
    (UNEVEN, SHELF, 5, 21, 111_799_439_115),
    (UNEVEN, SHELF, 11, 11, 1_913_777_134_245),
    (UNEVEN, SHELF, 11, 21, 2_347_593_981_072),
    (OFFICE, DESKS, 0, 96, 52_080_496_434),
    (OFFICE, DESKS, 37, 150, 43_844_150_521),
    (OFFICE, DESKS, 59, 239, 3_302_507_607),
    // The middle of a wall's patch below the desks.
    (OFFICE, DESKS, 59, 200, 0),
    (OFFICE, DESKS, 59, 209, 720_155_688),
    (OFFICE, DESKS, 10, 300, 0),
    (OFFICE, DESKS, 20, 431, 1_234_552_608),
    (OFFICE, DESKS, 33, 389, 21_945_649_265),
];

fn coefficient(
    rt: &impl Abort,
    alloc: Global,
    spec: RoomSpec,
    numbers: Numbers,
    g: usize,
    patch: usize,
) -> Result<u64, Fail> {
    let room = room_of(alloc, spec)?;
    let grid = laid(alloc, &room, numbers)?;
    assert!(rt; g < grid.len());
    assert!(rt; patch < room.len());
    Ok(grid.coef(&room, patch, g))
}

#[test]
fn a_point_gets_a_part_of_what_leaves_a_patch(rt: HostRuntime) -> Result<(), Fail> {
    let alloc = rt.alloc();
    for (spec, numbers, g, patch, expected) in &COEFFICIENTS {
        let coefficient = coefficient(&rt, alloc, *spec, *numbers, *g, *patch)?;
        assert_eq!(rt; coefficient, *expected);
    }
    Ok(())
}

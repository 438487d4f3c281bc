// Angles, bearings, intensities between the stored directions, and beams of placed luminaires.
ghost use Rattle.std.specs.Prelude.{All};
ghost use Rattle.fixtures.specs.Fixtures.{IsPlaced};

use crate::sample_luminaires::{sided, web_of};
use crate::sample_rooms::room_of;
use direct_flux::beam;
use direction_table::{angle, bearing};
use fixtures::{Fixture, FixtureSpec, place};
use intensity::intensity;
use photo_web::Web;
use room_patches::RoomSpec;
use std::alloc::Global;
use std::process::Abort;
use std::test::Fail;

#[test]
fn a_direction_has_its_angle(rt: HostRuntime) -> Result<(), Fail> {
    let rows: [(u32, u32, u32); 10] = [
        (0, 0, 0),
        (1, 0, 0),
        (0, 5, 90_000),
        (1_000, 577, 29_984),
        (1, 1, 45_000),
        (3, 4, 53_130),
        (999, 1_000, 45_028),
        (u32::MAX, 1, 0),
        (1, u32::MAX, 89_999),
        (0, u32::MAX, 90_000),
    ];
    for (x, y, expected) in rows {
        assert_eq!(rt; angle(x, y), expected);
    }
    Ok(())
}

#[test]
fn a_direction_has_its_bearing(rt: HostRuntime) -> Result<(), Fail> {
    let rows: [(i32, i32, u32); 13] = [
        (0, 0, 0),
        (7, 0, 0),
        (0, 5, 90_000),
        (-3, 0, 180_000),
        (0, -1, 270_000),
        (-1_000, 577, 150_015),
        (-1, 1, 135_000),
        (1, -1, 315_000),
        (5, -1, 348_690),
        (i32::MAX, -1, 359_999),
        (i32::MIN, i32::MIN, 225_000),
        (i32::MIN, i32::MAX, 135_000),
        (i32::MAX, i32::MIN, 314_999),
    ];
    for (x, y, expected) in rows {
        assert_eq!(rt; bearing(x, y), expected);
    }
    Ok(())
}

// One bright spot straight down, the same on all sides.
fn axial(alloc: Global) -> Result<Web, Fail> {
    let values = [
        125_625_000,
        100_000_000,
        500_000,
        125_625_000,
        100_000_000,
        500_000,
    ];
    web_of(alloc, &[0, 360_000], &[0, 45_000, 90_000], &values)
}

fn intensity_at(rt: &impl Abort, web: &Web, c: u32, gamma: u32) -> u64 {
    assert!(rt; c < 360_000);
    assert!(rt; gamma <= 180_000);
    intensity(web, c, gamma)
}

#[test]
fn an_intensity_stands_between_the_stored_ones(rt: HostRuntime) -> Result<(), Fail> {
    let alloc = rt.alloc();
    let axial = axial(alloc)?;
    let rows: [(u32, u64); 6] = [
        (0, 125_625_000),
        (22_500, 112_812_500),
        (67_500, 50_250_000),
        (90_000, 500_000),
        (90_001, 0),
        (180_000, 0),
    ];
    for (gamma, expected) in rows {
        assert_eq!(rt; intensity_at(&rt, &axial, 0, gamma), expected);
    }
    let sided = sided(alloc)?;
    let rows: [(u32, u32, u64); 8] = [
        (0, 0, 5_000_000),
        (0, 90_000, 1_000_000),
        (45_000, 90_000, 1_500_000),
        (359_999, 90_000, 1_000_033),
        (45_000, 45_000, 3_250_000),
        (12_345, 67_890, 2_086_136),
        (270_000, 90_001, 3_999_955),
        (0, 180_000, 100),
    ];
    for (c, gamma, expected) in rows {
        assert_eq!(rt; intensity_at(&rt, &sided, c, gamma), expected);
    }
    Ok(())
}

const HALL: RoomSpec = RoomSpec {
    width: 6_000,
    depth: 4_000,
    height: 3_000,
    nx: 1,
    ny: 1,
    nz: 1,
    floor: 200,
    ceiling: 700,
    walls: [500; 4],
};

// The rotation, the level, a place in half-millimetres, and the intensity towards it in microcandela.
const BEAMS: [(u32, u32, [i32; 3], u64); 13] = [
    (0, 1_000, [6_000, 4_000, 0], 5_000_000),
    (0, 1_000, [12_000, 4_000, 5_000], 1_000_000),
    (0, 1_000, [6_000, 8_000, 5_000], 2_000_000),
    (0, 1_000, [0, 4_000, 5_000], 3_000_000),
    (0, 1_000, [6_000, 0, 5_000], 4_000_000),
    (90_000, 1_000, [12_000, 4_000, 5_000], 4_000_000),
    (90_000, 1_000, [6_000, 8_000, 5_000], 1_000_000),
    (30_000, 1_000, [12_000, 8_000, 0], 2_569_042),
    (30_000, 500, [12_000, 8_000, 0], 1_284_521),
    (0, 1_000, [12_000, 4_000, 6_000], 894_866),
    (0, 1_000, [6_000, 4_000, 6_000], 100),
    (0, 1_000, [6_000, 4_000, 5_000], 5_000_000),
    (359_999, 999, [11_500, 7_500, 6_000], 1_227_719),
];

// In the middle of the hall, 2.5 m up.
fn hung(rotation: u32, level: u32) -> FixtureSpec {
    FixtureSpec {
        web: 0,
        x: 3_000,
        y: 2_000,
        z: 2_500,
        rotation,
        level,
    }
}

// What the one luminaire sends towards a place.
fn beam_towards(rt: &impl Abort, placed: &[Fixture], web: &Web, towards: [i32; 3]) -> u64
    requires { All IsPlaced placed.now }
{
    let [x, y, z] = towards;
    assert!(rt; 0 <= x && x <= 200_000);
    assert!(rt; 0 <= y && y <= 200_000);
    assert!(rt; 0 <= z && z <= 200_000);
    assert_eq!(rt; placed.len(), 1);
    beam(&placed[0], web, [x, y, z])
}

#[test]
fn a_luminaire_shines_by_its_rotation_and_level(rt: HostRuntime) -> Result<(), Fail> {
    let alloc = rt.alloc();
    let web = sided(alloc)?;
    let hall = room_of(alloc, HALL)?;
    for (rotation, level, towards, expected) in &BEAMS {
        let placed = place(alloc, &hall, &[hung(*rotation, *level)])?;
        assert_eq!(rt; beam_towards(&rt, &placed, &web, *towards), *expected);
    }
    Ok(())
}

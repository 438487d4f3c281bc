// The light at points of rooms.
ghost use Rattle.std.specs.Prelude.{◌≡◌, ◌≤◌, ◌<◌, ◌+◌, ◌*◌, ◌^◌, true, All, IfOk, length};

use crate::room_grids::{DESKS, SHELF, laid};
use crate::sample_luminaires::{MIDDLE, even, four_panels, one_web, panel, placed, sided};
use crate::sample_rooms::{CUBE, OFFICE, UNEVEN, room_of};
use fixtures::FixtureSpec;
use grids::{Grid, direct_points};
use photo_web::Web;
use room_patches::Room;
use std::alloc::Global;
use std::process::Abort;
use std::test::Fail;

// The webs of the luminaires below: an even one and a sided one.
fn two_webs(alloc: Global) -> Result<Vec<Web>, Fail> {
    let mut webs = Vec::new(alloc);
    webs.push(even(alloc, 1_000_000)?)?;
    webs.push(sided(alloc)?)?;
    Ok(webs)
}

// Luminaires over the shelf, at its height, below it, and a millimetre over one of its points.
const LUMINAIRES: [FixtureSpec; 5] = [
    FixtureSpec {
        web: 1,
        x: 500,
        y: 400,
        z: 450,
        rotation: 30_000,
        level: 1_000,
    },
    FixtureSpec {
        web: 0,
        x: 20,
        y: 900,
        z: 499,
        rotation: 0,
        level: 333,
    },
    FixtureSpec {
        web: 1,
        x: 700,
        y: 500,
        z: 101,
        rotation: 0,
        level: 1_000,
    },
    FixtureSpec {
        web: 1,
        x: 700,
        y: 500,
        z: 50,
        rotation: 0,
        level: 1_000,
    },
    FixtureSpec {
        web: 1,
        x: 101,
        y: 60,
        z: 102,
        rotation: 123_456,
        level: 999,
    },
];

const UNEVEN_BOUNDS: [(u64, u64); 22] = [
    (1_000_003, 1_000_003),
    (32_000_096, 32_008_015),
    (243_000_729, 243_032_405),
    (1_024_003_072, 1_024_003_072),
    (3_125_009_375, 3_125_136_079),
    (7_776_023_328, 7_776_221_303),
    (16_807_050_421, 16_807_050_421),
    (32_768_098_304, 32_768_486_335),
    (59_049_177_147, 59_049_683_963),
    (100_000_300_000, 100_000_300_000),
    (161_051_483_153, 161_052_275_053),
    (248_832_746_496, 248_833_704_695),
    (371_294_113_879, 371_294_113_879),
    (537_825_613_472, 537_826_951_783),
    (759_377_278_125, 759_378_830_249),
    (1_048_579_145_728, 1_048_579_145_728),
    (1_419_861_259_571, 1_419_863_286_835),
    (1_889_573_668_704, 1_889_575_957_295),
    (2_476_106_428_297, 2_476_106_428_297),
    (3_200_009_600_000, 3_200_012_458_759),
    (4_084_113_252_303, 4_084_116_419_903),
    (5_153_647_460_896, 5_153_647_460_896),
];

// At each point of the shelf the direct illuminance, and the ends of the interval.
const UNEVEN_LIGHT: [(u128, u128, u128); 12] = [
    (11_929_766_116, 1_828_594_764_612, 1_828_596_814_167),
    (21_864_955_083, 1_895_376_902_438, 1_895_379_078_866),
    (22_759_452_070, 2_131_897_877_163, 2_131_899_941_853),
    (11_233_531_637, 2_872_966_197_321, 2_872_967_991_755),
    (13_417_250_607, 1_155_676_230_557, 1_155_677_433_005),
    (28_667_391_028, 1_362_514_448_155, 1_362_515_768_090),
    (26_834_823_141, 1_520_549_921_550, 1_520_551_196_339),
    (11_201_736_486, 1_572_105_803_622, 1_572_106_912_095),
    (6_454_426_108, 3_415_901_370_899, 3_415_904_981_240),
    (8_013_890_662, 3_518_131_771_828, 3_518_134_823_461),
    (7_234_266_913, 3_915_036_118_197, 3_915_038_684_266),
    (4_391_425_106, 5_168_502_750_801, 5_168_503_841_261),
];

// Whether these are ends of intervals of patches, in order and within their limit.
fn are_ends(bounds: &[(u64, u64)]) -> bool
    ensures order { result ≡ true → All (λ ends. ends.0 ≤ ends.1) bounds.now }
    ensures limited { result ≡ true → All (λ ends. ends.1 ≤ 4 * 10 ^ 17 + 10 ^ 13) bounds.now }
{
    let in_order = bounds.iter().all(|ends| ends.0 <= ends.1);
    let within = bounds.iter().all(|ends| ends.1 <= 400_010_000_000_000_000);
    in_order && within
}

// What luminaires send to the points of a grid.
fn lit(
    rt: &impl Abort,
    alloc: Global,
    room: &Room,
    grid: &Grid,
    luminaires: &[FixtureSpec],
    webs: &[Web],
) -> Result<Vec<u128>, Fail>
    requires { length luminaires.now < 2 ^ 32 }
    ensures { IfOk result (λ direct. All (λ light. light ≤ 2 * 10 ^ 27) direct.items) }
{
    let fixtures = placed(rt, alloc, room, luminaires, webs)?;
    Ok(direct_points(alloc, grid, &fixtures, webs)?)
}

// The interval at a point, where the numbers of points and patches and the ends of patches are as they must be.
fn interval_at(
    rt: &impl Abort,
    grid: &Grid,
    room: &Room,
    direct: &[u128],
    bounds: &[(u64, u64)],
    g: usize,
) -> (u128, u128)
    requires room { room.now.spec ≡ grid.now.room }
    requires direct { All (λ light. light ≤ 2 * 10 ^ 27) direct.now }
{
    assert_eq!(rt; direct.len(), grid.len());
    assert_eq!(rt; bounds.len(), room.len());
    assert!(rt; g < grid.len());
    assert!(rt; are_ends(bounds));
    grid.point_interval(room, direct, bounds, g)
}

// The direct light and the interval at each point of the shelf.
fn assert_shelf(rt: &impl Abort, shelf: &Grid, room: &Room, direct: &[u128])
    requires room { room.now.spec ≡ shelf.now.room }
    requires direct { All (λ light. light ≤ 2 * 10 ^ 27) direct.now }
{
    assert_eq!(rt; direct.len(), 12);
    for (g, (light, low, high)) in UNEVEN_LIGHT.iter().enumerate() {
        assert_eq!(rt; direct.get(g), Some(light));
        let ends = interval_at(rt, shelf, room, direct, &UNEVEN_BOUNDS, g);
        assert_eq!(rt; ends, (*low, *high));
    }
}

#[test]
fn the_light_at_points_is_what_another_program_finds(rt: HostRuntime) -> Result<(), Fail> {
    let alloc = rt.alloc();
    let room = room_of(alloc, UNEVEN)?;
    let shelf = laid(alloc, &room, SHELF)?;
    let webs = two_webs(alloc)?;
    let direct = lit(&rt, alloc, &room, &shelf, &LUMINAIRES, &webs)?;
    assert_shelf(&rt, &shelf, &room, &direct);
    Ok(())
}

// The direct light at the middle of a cube's floor, and the interval there, where each patch has the same ends.
fn assert_floor(
    rt: &impl Abort,
    alloc: Global,
    luminaires: &[FixtureSpec],
    light: u128,
    bounds: &[(u64, u64); 6],
    ends: (u128, u128),
) -> Result<(), Fail>
    requires { length luminaires.now < 2 ^ 32 }
{
    let room = room_of(alloc, CUBE)?;
    let floor = laid(alloc, &room, [0, 1_000, 0, 1_000, 0, 1, 1])?;
    let webs = two_webs(alloc)?;
    let direct = lit(rt, alloc, &room, &floor, luminaires, &webs)?;
    assert_eq!(rt; direct.as_slice(), [light].as_slice());
    assert_eq!(rt; interval_at(rt, &floor, &room, &direct, bounds, 0), ends);
    Ok(())
}

#[test]
fn the_floor_of_a_cube_is_lit_by_its_middle(rt: HostRuntime) -> Result<(), Fail> {
    let alloc = rt.alloc();
    let bounds = [(4_000_000_000, 8_799_999_953); 6];
    let ends = (7_183_098_860, 11_002_817_455);
    assert_floor(&rt, alloc, &[MIDDLE], 4_000_000_000, &bounds, ends)?;
    assert_floor(&rt, alloc, &[], 0, &[(0, 0); 6], (0, 0))
}

fn sum(lights: &[u128]) -> u128 {
    let mut sum = 0u128;
    for light in lights {
        sum = sum.saturating_add(*light);
    }
    sum
}

// At some points of the desks the direct illuminance of four panels.
const DESKS_LIGHT: [(usize, u128); 5] = [
    (0, 316_926_025_915),
    (1, 392_874_736_462),
    (23, 430_964_387_185),
    (37, 461_173_572_855),
    (59, 316_926_025_915),
];

fn assert_desks(rt: &impl Abort, direct: &[u128]) {
    assert_eq!(rt; sum(direct), 23_916_285_975_700);
    for (g, expected) in &DESKS_LIGHT {
        assert_eq!(rt; direct.get(*g), Some(expected));
    }
}

#[test]
fn four_panels_light_the_desks_of_an_office(rt: HostRuntime) -> Result<(), Fail> {
    let alloc = rt.alloc();
    let office = room_of(alloc, OFFICE)?;
    let desks = laid(alloc, &office, DESKS)?;
    let webs = one_web(alloc, panel(alloc)?)?;
    let direct = lit(&rt, alloc, &office, &desks, &four_panels(), &webs)?;
    assert_desks(&rt, &direct);
    Ok(())
}

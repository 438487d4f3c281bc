// Webs and luminaires that the tests of several modules use.
ghost use Rattle.std.specs.Prelude.{◌≡◌, ◌<◌, ◌≤◌, ◌^◌, true, All, IfOk, length};
ghost use Rattle.fixtures.specs.Fixtures.{IsPlaced};
ghost use Rattle.direct_flux.specs.declared.fluxes.TheConstants.{MOST_LUMINAIRES};

use direct_flux::MOST_LUMINAIRES;
use fixtures::{Fixture, FixtureSpec, place};
use photo_web::Web;
use room_patches::Room;
use std::alloc::Global;
use std::process::Abort;
use std::test::Fail;

// A web of which nothing is known, so that no proof of a test computes with its numbers.
pub fn web_of(alloc: Global, planes: &[u32], gammas: &[u32], values: &[u64]) -> Result<Web, Fail>
    requires planes { length planes.now < 2 ^ 32 }
    requires gammas { length gammas.now < 2 ^ 32 }
{
    Ok(Web::new(alloc, planes, gammas, values)?)
}

// The same intensity, in microcandela, in all directions.
pub fn even(alloc: Global, intensity: u64) -> Result<Web, Fail> {
    web_of(alloc, &[0, 360_000], &[0, 180_000], &[intensity; 4])
}

// Another intensity to each side, 1 to 4 candela, with 5 straight down and almost nothing upwards.
pub fn sided(alloc: Global) -> Result<Web, Fail> {
    let values = [
        5_000_000, 1_000_000, 100, 5_000_000, 2_000_000, 100, 5_000_000, 3_000_000, 100, 5_000_000,
        4_000_000, 100, 5_000_000, 1_000_000, 100,
    ];
    web_of(
        alloc,
        &[0, 90_000, 180_000, 270_000, 360_000],
        &[0, 90_000, 180_000],
        &values,
    )
}

const PANEL: [u64; 10] = [
    1_300_000_000,
    1_280_000_000,
    1_222_000_000,
    1_126_000_000,
    996_000_000,
    836_000_000,
    650_000_000,
    445_000_000,
    226_000_000,
    0,
];

// A recessed panel of 36 W, all round and from straight down to the side.
pub fn panel(alloc: Global) -> Result<Web, Fail> {
    let gammas = [
        0, 10_000, 20_000, 30_000, 40_000, 50_000, 60_000, 70_000, 80_000, 90_000,
    ];
    let mut values = Vec::from_slice(alloc, &PANEL)?;
    values.extend_from_slice(&PANEL)?;
    web_of(alloc, &[0, 360_000], &gammas, &values)
}

// A list of one web.
pub fn one_web(alloc: Global, web: Web) -> Result<Vec<Web>, Fail> {
    let mut webs = Vec::new(alloc);
    webs.push(web)?;
    Ok(webs)
}

// In the middle of the cube.
pub const MIDDLE: FixtureSpec = FixtureSpec {
    web: 0,
    x: 500,
    y: 500,
    z: 500,
    rotation: 0,
    level: 1_000,
};

fn panel_at(x: u32, y: u32) -> FixtureSpec {
    FixtureSpec {
        x,
        y,
        z: 2_800,
        ..MIDDLE
    }
}

// Under the ceiling of the office.
pub fn four_panels() -> [FixtureSpec; 4] {
    [
        panel_at(1_500, 1_000),
        panel_at(4_500, 1_000),
        panel_at(1_500, 3_000),
        panel_at(4_500, 3_000),
    ]
}

// Whether each luminaire has its web.
fn have_webs(fixtures: &[Fixture], webs: &[Web]) -> bool
    ensures { result ≡ true → All (λ fixture. fixture.web < length webs.now) fixtures.now }
{
    let count = webs.len();
    fixtures
        .iter()
        .all(|fixture| (fixture.web as usize) < count)
}

// Luminaires in a room, of which nothing but what their light needs is known.
pub fn placed(
    rt: &impl Abort,
    alloc: Global,
    room: &Room,
    specs: &[FixtureSpec],
    webs: &[Web],
) -> Result<Vec<Fixture>, Fail>
    requires { length specs.now < 2 ^ 32 }
    ensures placed { IfOk result (λ fixtures. All IsPlaced fixtures.items) }
    ensures webs { IfOk result (λ fixtures. All (λ fixture. fixture.web < length webs.now) fixtures.items) }
    ensures few { IfOk result (λ fixtures. length fixtures.items ≤ MOST_LUMINAIRES) }
{
    let fixtures = place(alloc, room, specs)?;
    assert!(rt; have_webs(&fixtures, webs));
    assert!(rt; fixtures.len() <= MOST_LUMINAIRES);
    Ok(fixtures)
}

// What checks are answered, at the edges of their intervals and their limits.
use compliance::Verdict::{Fail, Pass, Undecided};
use compliance::{CheckSpec, Judged, Verdict, judge};
use lux_io::Name;
use std::alloc::{AllocError, Global};
use std::test::Fail as Failure;

const LUX: u128 = 1_000_000_000;

// The brightest that a point can be.
const MOST: u128 = 1_000_000_000_000_000_000_000_000_000_000;

// Intervals of points, in nanolux.
const BRIGHT: [(u128, u128); 1] = [(500 * LUX, 510 * LUX)];

const DIM: [(u128, u128); 1] = [(490 * LUX, 499 * LUX)];

const NEAR: [(u128, u128); 1] = [(499 * LUX, 500 * LUX)];

const A_LITTLE_LESS: [(u128, u128); 1] = [(500 * LUX - 1, 500 * LUX)];

const A_LITTLE_MORE: [(u128, u128); 1] = [(499 * LUX, 499 * LUX + 1)];

const STILL_LESS: [(u128, u128); 1] = [(499 * LUX, 500 * LUX - 1)];

const KNOWN: [(u128, u128); 1] = [(625 * LUX, 625 * LUX)];

const PERHAPS_DARK: [(u128, u128); 1] = [(0, 5 * LUX)];

const DARK: [(u128, u128); 3] = [(0, 0), (0, 0), (0, 0)];

const HALF_DARK: [(u128, u128); 2] = [(0, 0), (5 * LUX, 6 * LUX)];

const FAINT: [(u128, u128); 2] = [(1, 1), (2, 2)];

const ALMOST_DARK: [(u128, u128); 2] = [(0, 3), (0, 4)];

const SPREAD: [(u128, u128); 2] = [(400 * LUX, 700 * LUX), (600 * LUX, 700 * LUX)];

const UNEVEN: [(u128, u128); 2] = [(100 * LUX, 110 * LUX), (900 * LUX, 910 * LUX)];

const SEVENTHS: [(u128, u128); 3] = [(1, 1), (3, 3), (3, 3)];

const QUARTERS: [(u128, u128); 3] = [(1, 1), (1, 1), (2, 2)];

const WIDE: [(u128, u128); 3] = [(100, 200), (100, 200), (100, 200)];

const TWO_LEASTS: [(u128, u128); 3] = [(1, 9), (2, 4), (3, 3)];

// As many points as there can be, of which the last is the darkest.
fn many(alloc: Global) -> Result<Vec<(u128, u128)>, AllocError> {
    let mut points = Vec::from_elem(alloc, (7 * LUX, 9 * LUX), 1_023)?;
    points.push((3 * LUX, 4 * LUX))?;
    Ok(points)
}

fn as_bright_as_can_be(alloc: Global) -> Result<Vec<(u128, u128)>, AllocError> {
    Vec::from_elem(alloc, (MOST, MOST), 1_024)
}

// What a check of these numbers is answered: its maintenance factor, its average and its uniformity.
fn judged(
    alloc: Global,
    (maintenance, average, uniformity): (u32, u32, u32),
    points: &[(u128, u128)],
) -> Result<Judged, Failure> {
    let check = CheckSpec {
        name: Name::new(alloc, "desk")?,
        x0: 0,
        x1: 1_000,
        y0: 0,
        y1: 1_000,
        z: 0,
        px: 1,
        py: 1,
        maintenance,
        average,
        uniformity,
    };
    let in_range = 1 <= maintenance
        && maintenance <= 1_000
        && average <= 100_000
        && uniformity <= 1_000
        && !points.is_empty()
        && points.len() <= 1_024
        && points.iter().all(|ends| ends.0 <= ends.1)
        && points.iter().all(|ends| ends.1 <= MOST);
    if !in_range {
        return Err(Failure::from("no check that can be judged"));
    }
    Ok(judge(&check, points))
}

#[test]
fn averages_are_rounded_outwards(rt: HostRuntime) -> Result<(), Failure> {
    let alloc = rt.alloc();
    let many = many(alloc)?;
    let brightest = as_bright_as_can_be(alloc)?;
    let rows: [(u32, u32, &[(u128, u128)], (u128, u128), Verdict); 20] = [
        (1_000, 500, &BRIGHT, (500_000, 510_000), Pass),
        (1_000, 501, &BRIGHT, (500_000, 510_000), Undecided),
        (1_000, 510, &BRIGHT, (500_000, 510_000), Undecided),
        (1_000, 511, &BRIGHT, (500_000, 510_000), Fail),
        (1_000, 500, &DIM, (490_000, 499_000), Fail),
        (1_000, 500, &NEAR, (499_000, 500_000), Undecided),
        (1_000, 500, &A_LITTLE_LESS, (499_999, 500_000), Undecided),
        (1_000, 500, &A_LITTLE_MORE, (499_000, 499_001), Fail),
        (1_000, 500, &STILL_LESS, (499_000, 500_000), Undecided),
        (800, 500, &KNOWN, (500_000, 500_000), Pass),
        (799, 500, &KNOWN, (499_375, 499_375), Fail),
        (1, 1, &FAINT, (0, 1), Fail),
        (1_000, 0, &DARK, (0, 0), Pass),
        (1_000, 1, &DARK, (0, 0), Fail),
        (1_000, 1, &PERHAPS_DARK, (0, 5_000), Undecided),
        (1_000, 500, &SPREAD, (500_000, 700_000), Pass),
        (1_000, 501, &SPREAD, (500_000, 700_000), Undecided),
        (1_000, 701, &SPREAD, (500_000, 700_000), Fail),
        (900, 7, &many, (6_296, 8_096), Undecided),
        (
            1_000,
            100_000,
            &brightest,
            (MOST / 1_000_000, MOST / 1_000_000),
            Pass,
        ),
    ];
    for (maintenance, limit, points, ends, verdict) in rows {
        let answer = judged(alloc, (maintenance, limit, 0), points)?;
        assert_eq!(rt; answer.average, ends);
        assert_eq!(rt; answer.average_verdict, verdict);
    }
    Ok(())
}

#[test]
fn uniformities_are_rounded_outwards(rt: HostRuntime) -> Result<(), Failure> {
    let alloc = rt.alloc();
    let many = many(alloc)?;
    let brightest = as_bright_as_can_be(alloc)?;
    let rows: [(u32, &[(u128, u128)], (u32, u32), Verdict); 24] = [
        (400, &BRIGHT, (980, 1_000), Pass),
        (400, &DIM, (981, 1_000), Pass),
        (400, &NEAR, (998, 1_000), Pass),
        (400, &DARK, (1_000, 1_000), Pass),
        (1_000, &DARK, (1_000, 1_000), Pass),
        (0, &HALF_DARK, (0, 0), Pass),
        (1, &HALF_DARK, (0, 0), Fail),
        (0, &PERHAPS_DARK, (0, 1_000), Pass),
        (1, &ALMOST_DARK, (0, 1_000), Undecided),
        (571, &SPREAD, (571, 1_000), Pass),
        (572, &SPREAD, (571, 1_000), Undecided),
        (1_000, &SPREAD, (571, 1_000), Undecided),
        (196, &UNEVEN, (196, 220), Pass),
        (197, &UNEVEN, (196, 220), Undecided),
        (220, &UNEVEN, (196, 220), Undecided),
        (221, &UNEVEN, (196, 220), Fail),
        (428, &SEVENTHS, (428, 429), Pass),
        (429, &SEVENTHS, (428, 429), Undecided),
        (430, &SEVENTHS, (428, 429), Fail),
        (750, &QUARTERS, (750, 750), Pass),
        (501, &WIDE, (500, 1_000), Undecided),
        (1_000, &TWO_LEASTS, (187, 1_000), Undecided),
        (334, &many, (333, 572), Undecided),
        (1_000, &brightest, (1_000, 1_000), Pass),
    ];
    for (limit, points, ends, verdict) in rows {
        let answer = judged(alloc, (1_000, 0, limit), points)?;
        assert_eq!(rt; answer.uniformity, ends);
        assert_eq!(rt; answer.uniformity_verdict, verdict);
    }
    Ok(())
}

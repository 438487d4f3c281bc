// Flux systems and system texts.
use flux_system::{Entry, LimitFault, System, SystemFault};
use std::alloc::{AllocError, Global};
use std::test::Fail;
use system_file::{SysFault, read_system};
use worked_texts::{MOST_BYTES, TWO_PATCHES, first_lines, with_line};

// Two patches that face each other, line by line.
const LINES: [&str; 7] = [
    "lux-system 1",
    "patches 2",
    "threshold 10",
    "direct 1000 0",
    "reflectance 500 500",
    "shares 0 500000000",
    "shares 500000000 0",
];

// Lines by their number, each with a text and the fault that it is.
const FAULTY: [(usize, &str, SysFault); 59] = [
    (1, "lux-system 1 ", SysFault::Header),
    (1, " lux-system 1", SysFault::Header),
    (1, "lux-system", SysFault::Header),
    (1, "lux-ledger 1", SysFault::Header),
    (1, "lux-system  1", SysFault::Header),
    (1, "LUX-SYSTEM 1", SysFault::Header),
    (1, "lux-system 2", SysFault::Header),
    (2, "", SysFault::Number { line: 2 }),
    (2, "patches 1", SysFault::Number { line: 4 }),
    (2, "patches 3", SysFault::Number { line: 4 }),
    (
        2,
        "patches 100000000000000000000",
        SysFault::Number { line: 2 },
    ),
    (
        2,
        "patches 18446744073709551616",
        SysFault::Number { line: 2 },
    ),
    (2, "patches", SysFault::Number { line: 2 }),
    (2, "patches 2 ", SysFault::Number { line: 2 }),
    (2, "patches 02", SysFault::Number { line: 2 }),
    (2, "patches -2", SysFault::Number { line: 2 }),
    (2, "patches two", SysFault::Number { line: 2 }),
    (2, "patches 2.0", SysFault::Number { line: 2 }),
    (2, "patches +2", SysFault::Number { line: 2 }),
    (2, "patches\t2", SysFault::Number { line: 2 }),
    (2, "patches  2", SysFault::Number { line: 2 }),
    (2, "patches 2 2", SysFault::Number { line: 2 }),
    (2, "patch 2", SysFault::Number { line: 2 }),
    (2, "patches 0", SysFault::Size { n: 0 }),
    (2, "patches 1025", SysFault::Size { n: 1_025 }),
    (2, "patches 4294967298", SysFault::Size { n: 4_294_967_298 }),
    (
        2,
        "patches 18446744073709551615",
        SysFault::Size {
            n: 18_446_744_073_709_551_615,
        },
    ),
    (3, "threshold 1e1", SysFault::Number { line: 3 }),
    (3, "threshold 010", SysFault::Number { line: 3 }),
    (3, "threshold ten", SysFault::Number { line: 3 }),
    (3, "threshold 0", SysFault::Threshold),
    (3, "threshold 18446744073709551615", SysFault::Threshold),
    (3, "threshold 10000000000000001", SysFault::Threshold),
    (4, "direct 1000, 0", SysFault::Number { line: 4 }),
    (4, "flux 1000 0", SysFault::Number { line: 4 }),
    (4, "direct 1000", SysFault::Number { line: 4 }),
    (4, "direct 1000 0 0", SysFault::Number { line: 4 }),
    (5, "reflectance 0.5 0.5", SysFault::Number { line: 5 }),
    (5, "reflectance 50% 50%", SysFault::Number { line: 5 }),
    (
        5,
        "reflectance 500 4294967296",
        SysFault::Reflectance { patch: 1 },
    ),
    (5, "reflectance 500 951", SysFault::Reflectance { patch: 1 }),
    (
        5,
        "reflectance 951 1000",
        SysFault::Reflectance { patch: 0 },
    ),
    (
        5,
        "reflectance 18446744073709551615 0",
        SysFault::Reflectance { patch: 0 },
    ),
    (6, "shares 0 500000000 0", SysFault::Number { line: 6 }),
    (6, "shares 0 1000000000", SysFault::RowTotal { patch: 0 }),
    (
        6,
        "shares 18446744073709551615 18446744073709551615",
        SysFault::RowTotal { patch: 0 },
    ),
    (
        6,
        "shares 500000000 500000000",
        SysFault::RowTotal { patch: 0 },
    ),
    (7, "shares x 0\nmore", SysFault::Number { line: 7 }),
    (
        7,
        "shares 18446744073709551616 0",
        SysFault::Number { line: 7 },
    ),
    (7, "shares 500000000 0 ", SysFault::Number { line: 7 }),
    (7, "shares 500000000\r0", SysFault::Number { line: 7 }),
    (7, "shares 500000000", SysFault::Number { line: 7 }),
    (7, "shares 999999999 1", SysFault::RowTotal { patch: 1 }),
    (7, "shares 4294967296 0", SysFault::RowTotal { patch: 1 }),
    (7, "shares 4294967295 1", SysFault::RowTotal { patch: 1 }),
    (7, "shares 500000000 0\n", SysFault::Trailing { line: 8 }),
    (
        7,
        "shares 500000000 0\nmore",
        SysFault::Trailing { line: 8 },
    ),
    (
        7,
        "shares 500000000 0\nshares 0 0",
        SysFault::Trailing { line: 8 },
    ),
    (
        7,
        "shares 500000000 0\nlux-system 1\npatches 2\nthreshold 10\ndirect 1000 0\nreflectance 500 500\nshares 0 500000000\nshares 500000000 0",
        SysFault::Trailing { line: 8 },
    ),
];

#[test]
fn a_system_has_its_numbers(rt: HostRuntime) -> Result<(), Fail> {
    let alloc = rt.alloc();
    let system = System::new(alloc, &[500, 500], &[0, 500_000_000, 500_000_000, 0], 10)?;
    assert_eq!(rt; system.len(), 2);
    assert_eq!(rt; system.threshold(), 10);
    assert_eq!(rt; system.coef(0, 1), 250_000_000_000);
    assert_eq!(rt; system.coef(1, 1), 0);
    assert_eq!(rt; system.keep(0), 750_000_000_000);
    assert_eq!(rt; system.keep(1), 750_000_000_000);
    assert_eq!(rt; system.least_keep(), 750_000_000_000);
    assert_eq!(rt; system.takes_bound(&[1_000, 0]), Ok(133));
    Ok(())
}

// Shares with the entries of each row and of each column, as patches and shares.
type Listed = (
    &'static [u32],
    &'static [&'static [(u32, u32)]],
    &'static [&'static [(u32, u32)]],
);

const LISTED: [Listed; 4] = [
    (
        &[0, 500_000_000, 500_000_000, 0],
        &[&[(1, 500_000_000)], &[(0, 500_000_000)]],
        &[&[(1, 500_000_000)], &[(0, 500_000_000)]],
    ),
    (
        &[0, 500_000_000, 0, 0],
        &[&[(1, 500_000_000)], &[]],
        &[&[], &[(0, 500_000_000)]],
    ),
    (
        &[1, 2, 3, 4, 5, 6, 7, 8, 999_999_984],
        &[
            &[(0, 1), (1, 2), (2, 3)],
            &[(0, 4), (1, 5), (2, 6)],
            &[(0, 7), (1, 8), (2, 999_999_984)],
        ],
        &[
            &[(0, 1), (1, 4), (2, 7)],
            &[(0, 2), (1, 5), (2, 8)],
            &[(0, 3), (1, 6), (2, 999_999_984)],
        ],
    ),
    (
        &[0, 0, 9, 0, 0, 0, 0, 0, 4, 0, 3, 1, 2, 0, 0, 6],
        &[&[(2, 9)], &[], &[(0, 4), (2, 3), (3, 1)], &[(0, 2), (3, 6)]],
        &[&[(2, 4), (3, 2)], &[], &[(0, 9), (2, 3)], &[(2, 1), (3, 6)]],
    ),
];

// Whether some entries have these patches and shares.
fn are(entries: &[Entry], expected: Option<&&[(u32, u32)]>) -> bool {
    let Some(expected) = expected else {
        return false;
    };
    entries.len() == expected.len()
        && entries.iter().zip(expected.iter()).all(|(entry, (patch, share))| entry.patch == *patch
            && entry.share == *share)
}

#[test]
fn rows_and_columns_have_the_shares_that_are_not_0(rt: HostRuntime) -> Result<(), Fail> {
    let alloc = rt.alloc();
    for (shares, rows, columns) in LISTED {
        let reflectances = vec![in alloc; 1; rows.len()]?;
        let system = System::new(alloc, &reflectances, shares, 10)?;
        for i in 0..system.len() {
            assert!(rt; are(system.row(i), rows.get(i)));
            assert!(rt; are(system.column(i), columns.get(i)));
            for j in 0..system.len() {
                let share = shares.get(i * system.len() + j);
                assert_eq!(rt;
                    Some(system.coef(i, j)),
                    share.map(|share| u64::from(*share))
                );
            }
        }
    }
    Ok(())
}

#[test]
fn limits_hold_up_to_their_last_number(rt: HostRuntime) -> Result<(), Fail> {
    let alloc = rt.alloc();
    let shares = [0, 500_000_000, 500_000_000, 0];
    let most = 10_000_000_000_000_000;
    let system = System::new(alloc, &[500, 500], &shares, 133_333_333)?;
    assert_eq!(rt; system.takes_bound(&[most, 0]), Ok(100_000_000));
    assert_eq!(rt;
        system.takes_bound(&[most, 1]),
        Err(LimitFault::FluxTooLarge {
            sum: 10_000_000_000_000_001
        })
    );
    let system = System::new(alloc, &[500, 500], &shares, 133_333_332)?;
    assert_eq!(rt;
        system.takes_bound(&[most, 0]),
        Err(LimitFault::TooManyTakes { bound: 100_000_001 })
    );
    Ok(())
}

#[test]
fn a_system_is_refused_by_its_first_fault(rt: HostRuntime) -> Result<(), Fail> {
    let alloc = rt.alloc();
    let rows: [(&[u32], &[u32], u64, SystemFault); 8] = [
        (&[], &[], 0, SystemFault::Size { n: 0 }),
        (&[500], &[0, 0], 0, SystemFault::Size { n: 1 }),
        (&[951], &[1_000_000_000], 0, SystemFault::Threshold),
        (
            &[951],
            &[1_000_000_000],
            10_000_000_000_000_001,
            SystemFault::Threshold,
        ),
        (
            &[950, 951],
            &[0, 0, 1_000_000_000, 0],
            1,
            SystemFault::Reflectance { patch: 1 },
        ),
        (
            &[950, 950],
            &[0, 0, 1_000_000_000, 0],
            1,
            SystemFault::RowTotal { patch: 1 },
        ),
        (
            &[0, 0],
            &[500_000_000, 500_000_000, 1_000_000_000, 0],
            1,
            SystemFault::RowTotal { patch: 0 },
        ),
        (
            &[0, 0],
            &[500_000_000, 499_999_999, 4_294_967_295, 4_294_967_295],
            1,
            SystemFault::RowTotal { patch: 1 },
        ),
    ];
    for (reflectance, shares, threshold, expected) in rows {
        let refused = System::new(alloc, reflectance, shares, threshold);
        let moved = System::from_vecs(
            alloc,
            reflectance.to_vec(alloc)?,
            shares.to_vec(alloc)?,
            threshold,
        );
        assert_eq!(rt; refused.err(), Some(expected));
        assert_eq!(rt; moved.err(), Some(expected));
    }
    let system = System::new(alloc, &[500, 500], &[0, 999_999_999, 500_000_000, 0], 10)?;
    assert_eq!(rt; system.len(), 2);
    Ok(())
}

// The reflectances and the shares of so many patches that pass nothing on.
fn dark_patches(alloc: Global, patches: usize) -> Result<(Vec<u32>, Vec<u32>), AllocError> {
    let reflectances = Vec::from_elem(alloc, 0, patches)?;
    let shares = Vec::from_elem(alloc, 0, patches.saturating_mul(patches))?;
    Ok((reflectances, shares))
}

#[test]
fn a_system_has_up_to_4096_patches(rt: HostRuntime) -> Result<(), Fail> {
    let alloc = rt.alloc();
    let (reflectances, shares) = dark_patches(alloc, 4_096)?;
    let system = System::from_vecs(alloc, reflectances, shares, 1)?;
    assert_eq!(rt; system.len(), 4_096);
    let (reflectances, shares) = dark_patches(alloc, 4_097)?;
    let refused = System::from_vecs(alloc, reflectances, shares, 1);
    assert_eq!(rt; refused.err(), Some(SystemFault::Size { n: 4_097 }));
    Ok(())
}

#[test]
fn a_text_says_its_system(rt: HostRuntime) -> Result<(), Fail> {
    let alloc = rt.alloc();
    let (system, direct) = read_system(alloc, TWO_PATCHES.as_bytes())?;
    assert_eq!(rt; direct.as_slice(), [1_000, 0].as_slice());
    assert_eq!(rt; system.len(), 2);
    assert_eq!(rt; system.threshold(), 10);
    assert_eq!(rt; system.coef(1, 0), 250_000_000_000);
    Ok(())
}

// The folders of examples/cases hold many more.
#[test]
fn a_text_is_refused_by_its_first_fault(rt: HostRuntime) -> Result<(), Fail> {
    let alloc = rt.alloc();
    let rows: [(&str, SysFault); 10] = [
        ("lux-system 2\n", SysFault::Header),
        ("lux-system 1", SysFault::Short),
        ("lux-system 1\npatches 01", SysFault::Number { line: 2 }),
        ("lux-system 1\npatches 1024", SysFault::Short),
        ("lux-system 1\npatches 1025", SysFault::Size { n: 1_025 }),
        ("lux-system 1\npatches 4096", SysFault::Size { n: 4_096 }),
        (
            "lux-system 1\npatches 1\nthreshold 0\ndirect 1\nreflectance 0\nshares 0\nx",
            SysFault::Trailing { line: 7 },
        ),
        (
            "lux-system 1\npatches 1\nthreshold 0\ndirect 1\nreflectance 951\nshares 0",
            SysFault::Threshold,
        ),
        (
            "lux-system 1\npatches 1\nthreshold 1\ndirect 1\nreflectance 4294967296\nshares 4294967296",
            SysFault::Reflectance { patch: 0 },
        ),
        (
            "lux-system 1\npatches 1\nthreshold 1\ndirect 1\nreflectance 0\nshares 18446744073709551615",
            SysFault::RowTotal { patch: 0 },
        ),
    ];
    for (text, expected) in rows {
        assert_eq!(rt; read_system(alloc, text.as_bytes()).err(), Some(expected));
    }
    Ok(())
}

#[test]
fn a_faulty_line_has_its_fault(rt: HostRuntime) -> Result<(), Fail> {
    let alloc = rt.alloc();
    for (number, text, expected) in FAULTY {
        let bytes = with_line(alloc, &LINES, number, text)?;
        let most = bytes.len().min(MOST_BYTES);
        assert_eq!(rt; read_system(alloc, &bytes[..most]).err(), Some(expected));
    }
    for count in 0..7 {
        let bytes = first_lines(alloc, &LINES, count)?;
        let most = bytes.len().min(MOST_BYTES);
        let expected = if count == 0 {
            SysFault::Header
        } else {
            SysFault::Short
        };
        assert_eq!(rt; read_system(alloc, &bytes[..most]).err(), Some(expected));
    }
    Ok(())
}

// EULUMDAT files: one small file, and what another text on one of its lines makes of it.
use eulumdat_reader::{LdtFault, read_ldt};
use lux_num::NumFault;
use photo_web::{PhotoKind, Photometry, SymKind};
use std::alloc::Global;
use std::test::Fail;
use worked_texts::{MOST_BYTES, first_lines, with_line};

// Planes at 270, 0 and 90 degrees are stored, two values each.
const LINES: [&str; 54] = [
    "Example", "2", "3", "4", "90", "2", "90", "r", "n", "1", "b.ldt", "d", "0", "0", "0", "0",
    "0", "0", "0", "0", "0", "100", "80", "1", "0", "1", "1", "LED", "3600", "4000", "80", "30",
    "0", "0", "0", "0", "0", "0", "0", "0", "0", "0", "0", "90", "180", "270", "0", "90", "250,5",
    "0", "100", "10", "50", "5",
];

// Lines by their number, each with a text and the fault that it is.
const FAULTY: [(usize, &str, LdtFault); 59] = [
    (
        3,
        "",
        LdtFault::Number {
            line: 3,
            fault: NumFault::Empty,
        },
    ),
    (3, "5", LdtFault::Symmetry),
    (3, "-1", LdtFault::Symmetry),
    (3, "1.5", LdtFault::Symmetry),
    (
        3,
        "x",
        LdtFault::Number {
            line: 3,
            fault: NumFault::BadByte { at: 0 },
        },
    ),
    (
        3,
        "3 3",
        LdtFault::Number {
            line: 3,
            fault: NumFault::BadByte { at: 1 },
        },
    ),
    (4, "0", LdtFault::PlaneCount),
    (4, "6", LdtFault::PlaneCount),
    (4, "2", LdtFault::PlaneCount),
    (4, "361", LdtFault::PlaneCount),
    (4, "364", LdtFault::PlaneCount),
    (4, "4.5", LdtFault::PlaneCount),
    (4, "-4", LdtFault::PlaneCount),
    (
        4,
        "four",
        LdtFault::Number {
            line: 4,
            fault: NumFault::BadByte { at: 0 },
        },
    ),
    (6, "1", LdtFault::GammaCount),
    (6, "722", LdtFault::GammaCount),
    (6, "2.1", LdtFault::GammaCount),
    (
        6,
        "",
        LdtFault::Number {
            line: 6,
            fault: NumFault::Empty,
        },
    ),
    (24, "-0.1", LdtFault::Factor { line: 24 }),
    (24, "1000.0000000001", LdtFault::Factor { line: 24 }),
    (
        24,
        "x",
        LdtFault::Number {
            line: 24,
            fault: NumFault::BadByte { at: 0 },
        },
    ),
    (26, "0", LdtFault::LampSets { n: 0 }),
    (26, "2", LdtFault::LampSets { n: 2 }),
    (26, "-1", LdtFault::LampSets { n: 1 }),
    (26, "2.9", LdtFault::LampSets { n: 2 }),
    (26, "1.5", LdtFault::LampSets { n: 1 }),
    (
        26,
        "99999999999999999999",
        LdtFault::LampSets {
            n: 18_446_744_073_709_551_615,
        },
    ),
    (
        26,
        "1e99",
        LdtFault::LampSets {
            n: 18_446_744_073_709_551_615,
        },
    ),
    (
        26,
        "",
        LdtFault::Number {
            line: 26,
            fault: NumFault::Empty,
        },
    ),
    (29, "-1", LdtFault::Factor { line: 29 }),
    (
        29,
        "1e8.0",
        LdtFault::Number {
            line: 29,
            fault: NumFault::Exponent,
        },
    ),
    (29, "100000000.01", LdtFault::Factor { line: 29 }),
    (
        29,
        "3.600,5",
        LdtFault::Number {
            line: 29,
            fault: NumFault::BadByte { at: 5 },
        },
    ),
    (
        29,
        "3,600.5",
        LdtFault::Number {
            line: 29,
            fault: NumFault::BadByte { at: 5 },
        },
    ),
    (
        29,
        "3600 lm",
        LdtFault::Number {
            line: 29,
            fault: NumFault::BadByte { at: 4 },
        },
    ),
    (43, "-90", LdtFault::Angles { list: 0, at: 0 }),
    (43, "1", LdtFault::Span),
    (
        43,
        "+",
        LdtFault::Number {
            line: 43,
            fault: NumFault::Empty,
        },
    ),
    (44, "80", LdtFault::Span),
    (44, "0", LdtFault::Angles { list: 0, at: 1 }),
    (44, "360.001", LdtFault::Angles { list: 0, at: 1 }),
    (46, "89", LdtFault::Angles { list: 0, at: 3 }),
    (46, "269", LdtFault::Span),
    (46, "360", LdtFault::Span),
    (46, "361", LdtFault::Angles { list: 0, at: 3 }),
    (47, "-0.001", LdtFault::Angles { list: 1, at: 0 }),
    (47, "90", LdtFault::Angles { list: 1, at: 1 }),
    (48, "0.0009", LdtFault::Angles { list: 1, at: 1 }),
    (48, "180.001", LdtFault::Angles { list: 1, at: 1 }),
    (
        48,
        "ninety",
        LdtFault::Number {
            line: 48,
            fault: NumFault::BadByte { at: 0 },
        },
    ),
    (49, "-1", LdtFault::NegativeIntensity { at: 0 }),
    (49, "10000000.0000000001", LdtFault::TooBright { at: 0 }),
    (
        49,
        "1,2,3",
        LdtFault::Number {
            line: 49,
            fault: NumFault::BadByte { at: 3 },
        },
    ),
    (
        50,
        "",
        LdtFault::Number {
            line: 50,
            fault: NumFault::Empty,
        },
    ),
    (
        50,
        "1234567890123456789012345678901",
        LdtFault::Number {
            line: 50,
            fault: NumFault::TooManyDigits,
        },
    ),
    (
        53,
        "1e",
        LdtFault::Number {
            line: 53,
            fault: NumFault::Exponent,
        },
    ),
    (
        54,
        "5 5",
        LdtFault::Number {
            line: 54,
            fault: NumFault::BadByte { at: 1 },
        },
    ),
    (55, "7", LdtFault::Trailing { line: 55 }),
    (55, "\x1a7", LdtFault::Trailing { line: 55 }),
];

// Lines by their number, each with a text, and the values of the planes at 0 and at 270 degrees in microcandela.
const ODD: [(usize, &str, [u64; 2], [u64; 2]); 25] = [
    (3, "3.0", [360_000_000, 36_000_000], [901_800_000, 0]),
    (3, " \t3 ", [360_000_000, 36_000_000], [901_800_000, 0]),
    (4, "4,0", [360_000_000, 36_000_000], [901_800_000, 0]),
    (6, "+2", [360_000_000, 36_000_000], [901_800_000, 0]),
    (24, "0,3333333", [119_999_880, 11_999_988], [300_599_699, 0]),
    (
        24,
        "1000",
        [360_000_000_000, 36_000_000_000],
        [901_800_000_000, 0],
    ),
    (24, "0", [0, 0], [0, 0]),
    (26, "1.0", [360_000_000, 36_000_000], [901_800_000, 0]),
    (26, "10e-1", [360_000_000, 36_000_000], [901_800_000, 0]),
    (29, "0", [0, 0], [0, 0]),
    (
        29,
        "277778",
        [27_777_800_000, 2_777_780_000],
        [69_583_389_000, 0],
    ),
    (45, "x", [360_000_000, 36_000_000], [901_800_000, 0]),
    (45, "", [360_000_000, 36_000_000], [901_800_000, 0]),
    (43, "-0", [360_000_000, 36_000_000], [901_800_000, 0]),
    (43, "0.0009", [360_000_000, 36_000_000], [901_800_000, 0]),
    (44, "90.0009", [360_000_000, 36_000_000], [901_800_000, 0]),
    (46, "270.0004", [360_000_000, 36_000_000], [901_800_000, 0]),
    (48, "180", [360_000_000, 36_000_000], [901_800_000, 0]),
    (48, "0.001", [360_000_000, 36_000_000], [901_800_000, 0]),
    (49, "-0", [360_000_000, 36_000_000], [0, 0]),
    (49, "1E2", [360_000_000, 36_000_000], [360_000_000, 0]),
    (
        49,
        "1e7",
        [360_000_000, 36_000_000],
        [36_000_000_000_000, 0],
    ),
    (49, "0.0000000009", [360_000_000, 36_000_000], [0, 0]),
    (
        50,
        "\t7,5\t",
        [360_000_000, 36_000_000],
        [901_800_000, 27_000_000],
    ),
    (55, " \t", [360_000_000, 36_000_000], [901_800_000, 0]),
];

fn read(alloc: Global, bytes: &[u8]) -> Result<Photometry, LdtFault> {
    read_ldt(alloc, &bytes[..bytes.len().min(MOST_BYTES)])
}

#[test]
fn a_cut_file_lacks_its_next_line(rt: HostRuntime) -> Result<(), Fail> {
    let alloc = rt.alloc();
    for count in 0..54u32 {
        let bytes = first_lines(alloc, &LINES, count as usize)?;
        assert_eq!(rt;
            read(alloc, &bytes).err(),
            Some(LdtFault::Short { line: count + 1 })
        );
    }
    let bytes = first_lines(alloc, &LINES, 54)?;
    assert!(rt; read(alloc, &bytes).is_ok());
    Ok(())
}

#[test]
fn a_faulty_line_has_its_fault(rt: HostRuntime) -> Result<(), Fail> {
    let alloc = rt.alloc();
    for (number, text, expected) in FAULTY {
        let bytes = with_line(alloc, &LINES, number, text)?;
        assert_eq!(rt; read(alloc, &bytes).err(), Some(expected));
    }
    Ok(())
}

#[test]
fn an_odd_line_is_read(rt: HostRuntime) -> Result<(), Fail> {
    let alloc = rt.alloc();
    for (number, text, first, last) in ODD {
        let bytes = with_line(alloc, &LINES, number, text)?;
        let photometry = read(alloc, &bytes)?;
        assert_eq!(rt; photometry.kind, PhotoKind::Ldt);
        assert_eq!(rt; photometry.sym, SymKind::Plane90);
        let web = &photometry.web;
        assert_eq!(rt;
            web.planes(),
            [0, 90_000, 180_000, 270_000, 360_000].as_slice()
        );
        if web.planes().len() == 5 {
            assert_eq!(rt; web.row(0), first.as_slice());
            assert_eq!(rt; web.row(3), last.as_slice());
        }
    }
    Ok(())
}

#[test]
fn one_plane_is_turned_about_the_axis(rt: HostRuntime) -> Result<(), Fail> {
    let alloc = rt.alloc();
    let mut bytes = Vec::new(alloc);
    for (place, line) in LINES.iter().take(50).enumerate() {
        let text = if place == 2 { "1" } else { *line };
        bytes.extend_from_slice(text.as_bytes())?;
        bytes.push(b'\n')?;
    }
    let photometry = read(alloc, &bytes)?;
    assert_eq!(rt; photometry.sym, SymKind::Axis);
    let web = &photometry.web;
    assert_eq!(rt; web.planes(), [0, 360_000].as_slice());
    if web.planes().len() == 2 {
        assert_eq!(rt; web.row(0), [901_800_000, 0].as_slice());
        assert_eq!(rt; web.row(1), [901_800_000, 0].as_slice());
    }
    Ok(())
}

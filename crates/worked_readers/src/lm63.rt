// LM-63 files: one small file, and what another text on one of its lines makes of it.
use lm63_reader::{LmFault, read_lm63};
use lux_num::NumFault;
use photo_web::{PhotoKind, Photometry, SymKind};
use std::alloc::Global;
use std::test::Fail;
use worked_texts::{MOST_BYTES, first_lines, with_line};

// One plane is stored, with three values.
const LINES: [&str; 9] = [
    "IESNA:LM-63-2002",
    "[TEST] 1234",
    "[MANUFAC] Example",
    "TILT=NONE",
    "1 1000 1.25 3 1 1 2 0.1,0.1,0",
    "1 1 20",
    "0 45 90",
    "0",
    "100.5, 80 0.4",
];

// The file, cut behind so many lines.
const CUT: [(usize, LmFault); 9] = [
    (0, LmFault::Header),
    (1, LmFault::Tilt),
    (2, LmFault::Tilt),
    (3, LmFault::Tilt),
    (4, LmFault::Short { found: 0 }),
    (5, LmFault::Short { found: 10 }),
    (6, LmFault::Short { found: 13 }),
    (7, LmFault::Short { found: 16 }),
    (8, LmFault::Short { found: 17 }),
];

// Lines by their number, each with a text and the fault that it is.
const FAULTY: [(usize, &str, LmFault); 54] = [
    (1, "IESNA:LM-63-1986", LmFault::Header),
    (1, "IES:LM-63-2019", LmFault::Header),
    (3, "[MANUFAC] Example\nTILT=x", LmFault::TiltFile),
    (
        4,
        "TILT=NONE\n[TEST] 1",
        LmFault::Number {
            line: 5,
            fault: NumFault::BadByte { at: 0 },
        },
    ),
    (
        4,
        "TILT=NONE\nTILT=NONE",
        LmFault::Number {
            line: 5,
            fault: NumFault::BadByte { at: 0 },
        },
    ),
    (4, " TILT=NONE", LmFault::Tilt),
    (4, "TILT=lamp.tlt", LmFault::TiltFile),
    (4, "TILT=INCLUDE\n1 722", LmFault::Count { field: 0 }),
    (4, "TILT=INCLUDE\n1 0", LmFault::Count { field: 0 }),
    (
        4,
        "TILT=INCLUDE\n1 2.5 0 90 1 0.8",
        LmFault::Count { field: 0 },
    ),
    (4, "tilt=NONE", LmFault::Tilt),
    (4, "", LmFault::Tilt),
    (4, "TILT=none", LmFault::TiltFile),
    (4, "TILT=", LmFault::TiltFile),
    (
        5,
        "1 1000 1.25 3 362 1 2 0.1,0.1,0",
        LmFault::Count { field: 5 },
    ),
    (
        5,
        "1 1000 1.25 722 1 1 2 0.1,0.1,0",
        LmFault::Count { field: 4 },
    ),
    (
        5,
        "1 1000 1.25 3 0 1 2 0.1,0.1,0",
        LmFault::Count { field: 5 },
    ),
    (
        5,
        "1 1000 1.25 1 1 1 2 0.1,0.1,0",
        LmFault::Count { field: 4 },
    ),
    (
        5,
        "1 1000 1.25 3.5 1 1 2 0.1,0.1,0",
        LmFault::Count { field: 4 },
    ),
    (
        5,
        "1 1000 1.25 -3 1 1 2 0.1,0.1,0",
        LmFault::Count { field: 4 },
    ),
    (
        5,
        "1 1000 -1 3 1 1 2 0.1,0.1,0",
        LmFault::Factor { field: 3 },
    ),
    (
        5,
        "1 1000 100000.0000000001 3 1 1 2 0.1,0.1,0",
        LmFault::Factor { field: 3 },
    ),
    (
        5,
        "1 1000 1e6 3 1 1 2 0.1,0.1,0",
        LmFault::Factor { field: 3 },
    ),
    (5, "1 1000 1.25 3 1 2 2 0.1,0.1,0", LmFault::PhotometricType),
    (
        5,
        "1 1000 1.25 3 1 -1 2 0.1,0.1,0",
        LmFault::PhotometricType,
    ),
    (5, "1 1000 1.25 3 1 1 3 0.1,0.1,0", LmFault::Units),
    (
        5,
        "1 1000 1.25 4 1 1 2 0.1,0.1,0",
        LmFault::Angles { list: 0, at: 3 },
    ),
    (6, "-0.1 1 20", LmFault::Factor { field: 11 }),
    (6, "1000.5 1 20", LmFault::Factor { field: 11 }),
    (6, "1 1001 20", LmFault::Factor { field: 12 }),
    (
        6,
        "1 x 20",
        LmFault::Number {
            line: 6,
            fault: NumFault::BadByte { at: 0 },
        },
    ),
    (7, "0 90 45", LmFault::Angles { list: 0, at: 2 }),
    (7, "-1 45 90", LmFault::Angles { list: 0, at: 0 }),
    (7, "0 90 180.001", LmFault::Angles { list: 0, at: 2 }),
    (7, "0 45 45.0005", LmFault::Angles { list: 0, at: 2 }),
    (
        9,
        "100.5 1000000000000000000000000000000 0.4",
        LmFault::Number {
            line: 9,
            fault: NumFault::TooManyDigits,
        },
    ),
    (9, "100,5 80 0,4", LmFault::Trailing { line: 9 }),
    (
        9,
        "100.5 E5 0.4",
        LmFault::Number {
            line: 9,
            fault: NumFault::Empty,
        },
    ),
    (
        9,
        "100.5 8E1.5 0.4",
        LmFault::Number {
            line: 9,
            fault: NumFault::Exponent,
        },
    ),
    (
        9,
        "100.5 8E 0.4",
        LmFault::Number {
            line: 9,
            fault: NumFault::Exponent,
        },
    ),
    (
        9,
        "100.5 8E100 0.4",
        LmFault::Number {
            line: 9,
            fault: NumFault::Exponent,
        },
    ),
    (
        9,
        "100.5 0x50 0.4",
        LmFault::Number {
            line: 9,
            fault: NumFault::BadByte { at: 1 },
        },
    ),
    (
        9,
        "100.5 NaN 0.4",
        LmFault::Number {
            line: 9,
            fault: NumFault::BadByte { at: 0 },
        },
    ),
    (
        9,
        "100.5 . 0.4",
        LmFault::Number {
            line: 9,
            fault: NumFault::Empty,
        },
    ),
    (
        9,
        "100.5; 80 0.4",
        LmFault::Number {
            line: 9,
            fault: NumFault::BadByte { at: 5 },
        },
    ),
    (
        9,
        "100.5 - 0.4",
        LmFault::Number {
            line: 9,
            fault: NumFault::Empty,
        },
    ),
    (
        9,
        "100.5 8.0.1 0.4",
        LmFault::Number {
            line: 9,
            fault: NumFault::BadByte { at: 3 },
        },
    ),
    (9, "100.5, 80", LmFault::Short { found: 19 }),
    (9, "", LmFault::Short { found: 17 }),
    (9, "100.5, 80 0.4\n7", LmFault::Trailing { line: 10 }),
    (9, "100.5, 80 0.4 7", LmFault::Trailing { line: 9 }),
    (9, "100.5, 80 0.4\n\nEND", LmFault::Trailing { line: 11 }),
    (9, "100.5 -80 0.4", LmFault::NegativeIntensity { at: 1 }),
    (9, "100.5 1000000000.1 0.4", LmFault::TooBright { at: 1 }),
];

// Lines by their number, each with a text, and the values of the planes in microcandela.
const ODD: [(usize, &str, [u64; 3]); 22] = [
    (1, "IESNA91  ", [125_625_000, 100_000_000, 500_000]),
    (1, "IESNA:LM-63-1995", [125_625_000, 100_000_000, 500_000]),
    (
        1,
        "IESNA:LM-63-2002 \t",
        [125_625_000, 100_000_000, 500_000],
    ),
    (4, "TILT= NONE \t", [125_625_000, 100_000_000, 500_000]),
    (
        4,
        "TILT=INCLUDE\n1 2 0 90 1 0.8",
        [125_625_000, 100_000_000, 500_000],
    ),
    (
        5,
        "1 1000 1.25 3.0 +1 10e-1 20e-1 0.1,0.1,0",
        [125_625_000, 100_000_000, 500_000],
    ),
    (
        5,
        "1 -1 1.25 3 1 1 2 0.1,0.1,0",
        [125_625_000, 100_000_000, 500_000],
    ),
    (5, "1 1000 0 3 1 1 2 0.1,0.1,0", [0, 0, 0]),
    (
        5,
        "1 1000 1.25 3 1 1 1 0.1,0.1,0",
        [125_625_000, 100_000_000, 500_000],
    ),
    (6, "-0 1 20", [0, 0, 0]),
    (6, "0.3333333339 1 20", [41_874_999, 33_333_333, 166_666]),
    (6, "0.5 0.8 20", [50_250_000, 40_000_000, 200_000]),
    (7, "0 45.0019 180.0009", [125_625_000, 100_000_000, 500_000]),
    (7, "90 135 180", [125_625_000, 100_000_000, 500_000]),
    (
        9,
        "100.5, 80 0.4\n\n\n \t",
        [125_625_000, 100_000_000, 500_000],
    ),
    (9, "100.5,\t,80,,0.4,", [125_625_000, 100_000_000, 500_000]),
    (
        9,
        "100.5, 80 0.4\n , ,",
        [125_625_000, 100_000_000, 500_000],
    ),
    (
        9,
        "100.5, 80 0.4\n\x1a \n",
        [125_625_000, 100_000_000, 500_000],
    ),
    (
        9,
        "100.500000000000000000000000000 80 0.4",
        [125_625_000, 100_000_000, 500_000],
    ),
    (9, "1005e-1 +8.e1 .4", [125_625_000, 100_000_000, 500_000]),
    (9, "-0 80 0.4", [0, 100_000_000, 500_000]),
    (9, "0.0000007999 80 0.4", [0, 100_000_000, 500_000]),
];

fn read(alloc: Global, bytes: &[u8]) -> Result<Photometry, LmFault> {
    read_lm63(alloc, &bytes[..bytes.len().min(MOST_BYTES)])
}

#[test]
fn a_cut_file_has_its_fault(rt: HostRuntime) -> Result<(), Fail> {
    let alloc = rt.alloc();
    for (count, expected) in CUT {
        let bytes = first_lines(alloc, &LINES, count)?;
        assert_eq!(rt; read(alloc, &bytes).err(), Some(expected));
    }
    Ok(())
}

#[test]
fn a_faulty_line_has_its_fault(rt: HostRuntime) -> Result<(), Fail> {
    let alloc = rt.alloc();
    for (number, text, expected) in FAULTY {
        let bytes = with_line(alloc, &LINES, number, text)?;
        assert_eq!(rt; read(alloc, &bytes).err(), Some(expected));
    }
    Ok(())
}

#[test]
fn an_odd_line_is_read(rt: HostRuntime) -> Result<(), Fail> {
    let alloc = rt.alloc();
    for (number, text, expected) in ODD {
        let bytes = with_line(alloc, &LINES, number, text)?;
        let photometry = read(alloc, &bytes)?;
        assert_eq!(rt; photometry.kind, PhotoKind::Lm63);
        assert_eq!(rt; photometry.sym, SymKind::Axis);
        let web = &photometry.web;
        assert_eq!(rt; web.planes(), [0, 360_000].as_slice());
        if web.planes().len() == 2 {
            assert_eq!(rt; web.row(0), expected.as_slice());
            assert_eq!(rt; web.row(1), expected.as_slice());
        }
    }
    Ok(())
}

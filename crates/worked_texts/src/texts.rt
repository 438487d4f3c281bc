// Texts that several examples use.
use std::alloc::{AllocError, Global};

/// Two patches that face each other, one of them lit.
pub const TWO_PATCHES: &str =
    "lux-system 1\npatches 2\nthreshold 10\ndirect 1000 0\nreflectance 500 500\nshares 0 500000000\nshares 500000000 0\n";

/// The ledger that it settles to.
pub const TWO_PATCHES_LEDGER: &str =
    "lux-ledger 1\npatches 2\nwins 4\nparts 1\npatch 0 direct 1000 taken 1062 residual 4 err 250000000000\npatch 1 direct 0 taken 265 residual 0 err 500000000000\n";

/// A metre of a cube with a luminaire in its middle.
pub const CUBE: &str =
    "version = 1\n[room]\nwidth = 1000\ndepth = 1000\nheight = 1000\ncounts = [1, 1, 1]\nfloor = 500\nceiling = 500\nwalls = 500\n[solver]\nthreshold = 5000000000\n[[luminaire]]\nfile = \"one.ies\"\nx = 500\ny = 500\nz = 500\nrotation = 0\nlevel = 1000\n";

/// One candela in all directions.
pub const ONE: &str = "IESNA:LM-63-2002\nTILT=NONE\n1 -1 1 2 1 1 2 0 0 0\n1 1 10\n0 180\n0\n1 1\n";

/// The bytes that a test reads at most.
pub const MOST_BYTES: usize = 10_000;

/// The lines of a text, of which one is another text; a text behind the last line is one more.
pub fn with_line(
    alloc: Global,
    lines: &[&str],
    number: usize,
    text: &str,
) -> Result<Vec<u8>, AllocError> {
    let mut bytes = Vec::new(alloc);
    for (place, line) in lines.iter().enumerate() {
        if place + 1 == number {
            bytes.extend_from_slice(text.as_bytes())?;
        } else {
            bytes.extend_from_slice(line.as_bytes())?;
        }
        bytes.push(b'\n')?;
    }
    if number > lines.len() {
        bytes.extend_from_slice(text.as_bytes())?;
    }
    Ok(bytes)
}

/// The first lines of a text.
pub fn first_lines(alloc: Global, lines: &[&str], count: usize) -> Result<Vec<u8>, AllocError> {
    let mut bytes = Vec::new(alloc);
    for line in lines.iter().take(count) {
        bytes.extend_from_slice(line.as_bytes())?;
        bytes.push(b'\n')?;
    }
    Ok(bytes)
}

/// The same with a check of a part of the floor, just above it.
pub const CHECKED_CUBE: &str = r#"version = 1
[room]
width = 1000
depth = 1000
height = 1000
counts = [1, 1, 1]
floor = 500
ceiling = 500
walls = 500
[solver]
threshold = 5000000000
[[luminaire]]
file = "one.ies"
x = 500
y = 500
z = 500
rotation = 0
level = 1000
[[check]]
name = "floor"
x = [0, 1000]
y = [250, 750]
z = 5
points = [4, 2]
maintenance = 800
average = 5
uniformity = 600
"#;

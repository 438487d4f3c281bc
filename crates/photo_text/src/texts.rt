// The photometry text.
ghost use Rattle.std.specs.Prelude.{◌≡◌, ◌++◌, ◌<◌, length, OnOk, IfOk};
ghost use Rattle.photo_text.specs.PhotometryText.{kind_word, symmetry_word, plane_line, head_text, photometry_text};

use lux_texts::{push_number, push_numbers, push_word};
use photo_web::{PhotoKind, Photometry, SymKind, Web};
use std::alloc::{AllocError, Global};

// The word for a file's format.
fn kind_word(kind: PhotoKind) -> &'static str
    ensures { result.now ≡ kind_word kind }
{
    match kind {
        PhotoKind::Lm63 => "lm63",
        PhotoKind::Ldt => "ldt",
    }
}

// The word for a symmetry.
fn symmetry_word(symmetry: SymKind) -> &'static str
    ensures { result.now ≡ symmetry_word symmetry }
{
    match symmetry {
        SymKind::Axis => "axis",
        SymKind::Quadrant => "quadrant",
        SymKind::Plane0 => "plane0",
        SymKind::Plane90 => "plane90",
        SymKind::Full => "full",
    }
}

// Appends the lines before those of the planes.
fn push_head(text: &mut Vec<u8>, photometry: &Photometry) -> Result<(), AllocError>
    ensures { OnOk result (text.new.items ≡ text.old.items ++ head_text photometry.now) }
{
    push_word(text, b"photometry ", kind_word(photometry.kind))?;
    push_word(text, b"\nsymmetry ", symmetry_word(photometry.sym))?;
    text.extend_from_slice(b"\ngammas")?;
    push_numbers(text, b" ", photometry.web.gammas())?;
    text.extend_from_slice(b"\n")?;
    Ok(())
}

// Appends the line of a plane.
fn push_plane(text: &mut Vec<u8>, web: &Web, plane: usize) -> Result<(), AllocError>
    requires { plane < length web.now.planes }
    ensures { OnOk result (text.new.items ≡ text.old.items ++ plane_line web.now plane) }
{
    push_number(text, b"plane ", web.planes()[plane])?;
    push_numbers(text, b" ", web.row(plane))?;
    text.extend_from_slice(b"\n")
}

/// The text of a photometry: its format, its symmetry, the gammas in millidegrees, and for each plane of the web its
/// angle and its values in microcandela.
pub fn photometry_text(alloc: Global, photometry: &Photometry) -> Result<Vec<u8>, AllocError>
    ensures { IfOk result (λ text. text.items ≡ photometry_text photometry.now) }
{
    let mut text = Vec::new(alloc);
    push_head(&mut text, photometry)?;
    for plane in 0..photometry.web.planes().len() {
        push_plane(&mut text, &photometry.web, plane)?;
    }
    Ok(text)
}

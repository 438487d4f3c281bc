// What a photometry file says.
use crate::Web;

/// Which planes a photometry file stores, and how the others follow from them. Angles are in degrees.
#[derive(Clone, Copy, Debug, PartialEq, Eq)]
pub enum SymKind {
    /// One plane, which all others equal.
    Axis,
    /// Planes from 0 to 90, mirrored about both axes.
    Quadrant,
    /// Planes from 0 to 180, mirrored about the axis through 0.
    Plane0,
    /// Planes from 90 to 270, mirrored about the axis through 90.
    Plane90,
    /// All planes, as they are stored.
    Full,
}

/// The format of a photometry file.
#[derive(Clone, Copy, Debug, PartialEq, Eq)]
pub enum PhotoKind {
    /// IES LM-63.
    Lm63,
    /// EULUMDAT.
    Ldt,
}

/// What a photometry file says: its format, the symmetry of its stored planes and the web that they give.
#[derive(Debug, Drop)]
pub struct Photometry {
    pub kind: PhotoKind,
    pub sym: SymKind,
    pub web: Web,
}

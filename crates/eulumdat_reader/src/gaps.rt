// Places of a list that aren't read.
ghost use Rattle.std.specs.Prelude.{◌≡◌};
ghost use Rattle.eulumdat_reader.specs.Planes.{is_outside};

/// The places from one to before another, counted from 0.
#[derive(Clone, Copy)]
pub(crate) struct Gap {
    pub(crate) from: u32,
    pub(crate) to: u32,
}

/// Whether a place is outside a gap.
pub(crate) fn is_outside(gap: Gap, place: u32) -> bool
    ensures { result ≡ is_outside gap place }
{
    place < gap.from || gap.to <= place
}

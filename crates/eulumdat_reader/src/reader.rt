// The reader of a text.
ghost use Rattle.std.specs.Prelude.{◌≡◌, ◌≢◌, ◌+◌, ◌<◌, ◌≤◌, ◌^◌, Ok, Err, All, IfOk, IfErr, IsTrue, OnOk, length};
ghost use Rattle.std.specs.List.Sorted.{IsStrictlyIncreasing};
ghost use Rattle.duties.specs.Duties.{Answers, each, first};
ghost use Rattle.symmetry.specs.Images.{has_span};
ghost use Rattle.eulumdat_reader.specs.declared.faults.LdtFault.TheVariants.{Memory};
ghost use Rattle.eulumdat_reader.specs.Rows.{all_lines};
ghost use Rattle.eulumdat_reader.specs.Layouts.{head_layout};
ghost use Rattle.eulumdat_reader.specs.Planes.{stored_count, stored_planes, stored_rows};
ghost use Rattle.eulumdat_reader.specs.Intensities.{value_duty};
ghost use Rattle.eulumdat_reader.specs.Eulumdat.{c_angles, values, value_count, c_angle_duties, list_duties, layout, row_duties, photometry, ldt_of};

use crate::LdtFault;
use crate::fields::read_end;
use crate::gaps::Gap;
use crate::head::{Head, read_head};
use crate::lists::{read_angles, read_values};
use crate::planes::{is_span, stored_count, stored_planes, stored_rows, unread_gap};
use crate::rows::Rows;
use lux_lines::body;
use photo_web::{FULL_TURN, HALF_TURN, PhotoKind, Photometry};
use std::alloc::Global;
use symmetry::expand;

/// The photometry of an EULUMDAT file. The first test that fails gives the error; `Memory` may come in the place of any.
pub fn read_ldt(alloc: Global, text: &[u8]) -> Result<Photometry, LdtFault>
    requires { length text.now < 2 ^ 31 }
    ensures ok { IfOk result (λ p. ldt_of text.now ≡ Ok p) }
    ensures fault { IfErr result (λ f. f ≢ Memory → ldt_of text.now ≡ Err f) }
{
    read_rows(alloc, Rows::new(alloc, body(text)))
}

// The photometry of the lines of a text.
fn read_rows(alloc: Global, mut source: Rows) -> Result<Photometry, LdtFault>
    requires { source.read ≡ 0 }
    ensures answer { Answers Memory (first (row_duties (all_lines source.entry))) result }
    ensures value { IfOk result (λ p. p ≡ photometry (all_lines source.entry) (layout (all_lines source.entry))) }
{
    let head = read_head(&mut source)?;
    read_lists(alloc, source, head)
}

// The photometry of the lists behind line 42.
fn read_lists(alloc: Global, mut source: Rows, head: Head) -> Result<Photometry, LdtFault>
    requires { source.read ≡ 42 }
    ensures answer { Answers Memory (first (list_duties (all_lines source.entry) (head_layout head))) result }
    ensures value { IfOk result (λ p. p ≡ photometry (all_lines source.entry) (head_layout head)) }
{
    let planes = read_planes(alloc, &mut source, head)?;
    let no_gap = Gap { from: 0, to: 0 };
    let gammas = read_angles(alloc, &mut source, 1, HALF_TURN, no_gap, head.gammas)?;
    let rows = read_stored_rows(alloc, &mut source, head)?;
    read_end(source)?;
    let web = expand(alloc, head.sym, &planes, &gammas, &rows)?;
    Ok(Photometry {
        kind: PhotoKind::Ldt,
        sym: head.sym,
        web,
    })
}

// The planes of the web that are stored, by the C angles.
fn read_planes(alloc: Global, source: &mut Rows, head: Head) -> Result<Vec<u32>, LdtFault>
    requires { source.old.read ≡ 42 }
    ensures answer { Answers Memory (first (c_angle_duties (all_lines source.old) (head_layout head))) result }
    ensures value { IfOk result (λ v. v.items ≡ stored_planes head.sym head.planes (c_angles (all_lines source.old) (head_layout head))) }
    ensures len { IfOk result (λ v. length v.items ≡ stored_count head.sym head.planes) }
    ensures rising { IfOk result (λ v. IsStrictlyIncreasing v.items) }
    ensures span { IfOk result (λ v. IsTrue (has_span head.sym v.items)) }
    ensures same { OnOk result (source.new.text ≡ source.old.text) }
    ensures next { OnOk result (source.new.read ≡ 42 + head.planes) }
{
    let unread = unread_gap(head.sym, head.planes);
    let angles = read_angles(alloc, source, 0, FULL_TURN, unread, head.planes)?;
    if !is_span(head.sym, head.planes, &angles) {
        return Err(LdtFault::Span);
    }
    let planes = stored_planes(alloc, head.sym, head.planes, angles)?;
    Ok(planes)
}

// The rows of the stored planes, by the values.
fn read_stored_rows(alloc: Global, source: &mut Rows, head: Head) -> Result<Vec<u64>, LdtFault>
    requires { source.old.read ≡ 42 + head.planes + head.gammas }
    ensures answer { Answers Memory (each (value_count (head_layout head)) (value_duty head.scale (all_lines source.old) (43 + head.planes + head.gammas))) result }
    ensures value { IfOk result (λ v. v.items ≡ stored_rows head.sym head.planes head.gammas (values (all_lines source.old) (head_layout head))) }
    ensures len { IfOk result (λ v. length v.items ≡ value_count (head_layout head)) }
    ensures limited { IfOk result (λ v. All (λ value. value ≤ 10 ^ 15) v.items) }
    ensures same { OnOk result (source.new.text ≡ source.old.text) }
    ensures next { OnOk result (source.new.read ≡ 42 + head.planes + head.gammas + value_count (head_layout head)) }
{
    let count = stored_count(head.sym, head.planes) * head.gammas;
    let values = read_values(alloc, source, head.scale, count)?;
    let rows = stored_rows(alloc, head.sym, head.planes, head.gammas, values)?;
    Ok(rows)
}

// Which planes a file stores.
ghost use Rattle.std.specs.Prelude.{◌≡◌, ◌+◌, ◌-◌, ◌*◌, ◌<◌, ◌≤◌, ◌^◌, ◌%◌, All, IfOk, IsTrue, length, map, reverse, take, drop, slice_index, ◌++◌};
ghost use Rattle.std.specs.List.Sorted.{IsStrictlyIncreasing};
ghost use Rattle.photo_web.specs.Web.{row_values};
ghost use Rattle.symmetry.specs.Images.{has_span, spans};
ghost use Rattle.eulumdat_reader.specs.Planes.{symmetry_of, divisor, stored_count, unread_gap, is_span, turned_angle, stored_planes, reversed_rows, stored_rows};

use crate::gaps::Gap;
use photo_web::{FULL_TURN, HALF_TURN, SymKind};
use std::alloc::{AllocError, Global};

/// The symmetry that line 3 names.
pub(crate) fn symmetry_of(code: u32) -> SymKind
    ensures { result ≡ symmetry_of code }
{
    match code {
        0 => SymKind::Full,
        1 => SymKind::Axis,
        2 => SymKind::Plane0,
        3 => SymKind::Plane90,
        _ => SymKind::Quadrant,
    }
}

/// What the number of C planes is a multiple of.
pub(crate) fn divisor(sym: SymKind) -> u32
    ensures value { result ≡ divisor sym }
    ensures some { 1 ≤ result }
{
    match sym {
        SymKind::Axis | SymKind::Full => 1,
        SymKind::Plane0 => 2,
        SymKind::Plane90 | SymKind::Quadrant => 4,
    }
}

/// How many of some C planes are stored.
pub(crate) fn stored_count(sym: SymKind, count: u32) -> u32
    requires some { 1 ≤ count }
    requires few { count ≤ 360 }
    ensures value { result ≡ stored_count sym count }
    ensures few { result ≤ 360 }
{
    match sym {
        SymKind::Full => count,
        SymKind::Axis => 1,
        SymKind::Plane0 | SymKind::Plane90 => count / 2 + 1,
        SymKind::Quadrant => count / 4 + 1,
    }
}

/// The places among the C lines that aren't read.
pub(crate) fn unread_gap(sym: SymKind, count: u32) -> Gap
    requires some { 1 ≤ count }
    requires few { count ≤ 360 }
    requires whole { count % divisor sym ≡ 0 }
    ensures value { result ≡ unread_gap sym count }
    ensures forth { result.from ≤ result.to }
    ensures inside { result.to ≤ count }
{
    let (from, to) = match sym {
        SymKind::Full => (count, count),
        SymKind::Axis => (0, count),
        SymKind::Plane0 => (count / 2 + 1, count),
        SymKind::Plane90 => (count / 4 + 1, 3 * (count / 4)),
        SymKind::Quadrant => (count / 4 + 1, count),
    };
    Gap { from, to }
}

/// Whether the angles read from some C lines have the span of their symmetry.
#[tactic(auto, using(std::proofs::lemmas::Bool::Decides::nat_tests))]
pub(crate) fn is_span(sym: SymKind, count: u32, angles: &[u32]) -> bool
    requires { count ≤ 360 }
    ensures { result ≡ is_span sym count angles.now }
{
    match sym {
        SymKind::Full => angle_at(angles, 0) == 0,
        SymKind::Axis => true,
        SymKind::Plane0 => spans(angles, 0, HALF_TURN),
        SymKind::Plane90 => {
            let front = count as usize / 4 + 1;
            spans(&angles[..front.min(angles.len())], 0, 90_000)
                && angle_at(angles, front) == 270_000
                && last_angle(angles) < FULL_TURN
        }
        SymKind::Quadrant => spans(angles, 0, 90_000),
    }
}

// Whether angles go from one to another.
#[tactic(auto, using(std::proofs::lemmas::Bool::Decides::nat_tests))]
fn spans(angles: &[u32], from: u32, to: u32) -> bool
    ensures { result ≡ spans from to angles.now }
{
    angle_at(angles, 0) == from && last_angle(angles) == to
}

// The angle at a place, or 0 past the last.
fn angle_at(angles: &[u32], at: usize) -> u32
    ensures { result ≡ slice_index angles.now at }
{
    if at < angles.len() { angles[at] } else { 0 }
}

// The last angle, or 0 where there is none.
fn last_angle(angles: &[u32]) -> u32
    ensures { result ≡ slice_index angles.now (length angles.now - 1) }
{
    if angles.is_empty() {
        0
    } else {
        angles[angles.len() - 1]
    }
}

/// The planes of the web that are stored, by the angles read.
pub(crate) fn stored_planes(
    alloc: Global,
    sym: SymKind,
    count: u32,
    mut angles: Vec<u32>,
) -> Result<Vec<u32>, AllocError>
    requires some { 1 ≤ count }
    requires few { count ≤ 360 }
    requires whole { count % divisor sym ≡ 0 }
    requires len { length angles.items + ((unread_gap sym count).to - (unread_gap sym count).from) ≡ count }
    requires rising { IsStrictlyIncreasing angles.items }
    requires limited { All (λ angle. angle ≤ 360000) angles.items }
    requires span { IsTrue (is_span sym count angles.items) }
    ensures value { IfOk result (λ v. v.items ≡ stored_planes sym count angles.items) }
    ensures len { IfOk result (λ v. length v.items ≡ stored_count sym count) }
    ensures rising { IfOk result (λ v. IsStrictlyIncreasing v.items) }
    ensures span { IfOk result (λ v. IsTrue (has_span sym v.items)) }
{
    match sym {
        SymKind::Axis => {
            angles.push(0)?;
            Ok(angles)
        }
        SymKind::Plane90 => {
            let turned = turned_planes(alloc, &angles, count as usize / 4 + 1)?;
            Ok(turned)
        }
        _ => Ok(angles),
    }
}

// Planes from behind some front ones on, going on with these, turned and the other way round.
fn turned_planes(alloc: Global, angles: &[u32], front: usize) -> Result<Vec<u32>, AllocError>
    requires { front ≤ length angles.now }
    ensures { IfOk result (λ v. v.items ≡ map turned_angle (reverse (take front angles.now) ++ reverse (drop front angles.now))) }
{
    angles[..front]
        .iter()
        .rev()
        .chain(angles[front..].iter().rev())
        .map(|angle| turned_angle(*angle))
        .collect(alloc)
}

// 180 degrees less an angle, modulo a full turn.
fn turned_angle(angle: u32) -> u32
    ensures { result ≡ turned_angle angle }
{
    (FULL_TURN + HALF_TURN).saturating_sub(angle) % FULL_TURN
}

/// The rows of the stored planes, by the values in the order of lines.
pub(crate) fn stored_rows(
    alloc: Global,
    sym: SymKind,
    count: u32,
    width: u32,
    values: Vec<u64>,
) -> Result<Vec<u64>, AllocError>
    requires some { 1 ≤ count }
    requires few { count ≤ 360 }
    requires width { width ≤ 721 }
    requires len { length values.items ≡ stored_count sym count * width }
    requires limited { All (λ value. value ≤ 10 ^ 15) values.items }
    ensures value { IfOk result (λ v. v.items ≡ stored_rows sym count width values.items) }
    ensures len { IfOk result (λ v. length v.items ≡ stored_count sym count * width) }
    ensures limited { IfOk result (λ v. All (λ value. value ≤ 10 ^ 15) v.items) }
{
    match sym {
        SymKind::Plane90 => {
            let rows = stored_count(sym, count) as usize;
            reversed_rows(alloc, rows, width as usize, &values)
        }
        _ => Ok(values),
    }
}

// So many rows of a width, in the other order.
fn reversed_rows(
    alloc: Global,
    count: usize,
    width: usize,
    values: &[u64],
) -> Result<Vec<u64>, AllocError>
    requires count { count ≤ 361 }
    requires width { width ≤ 721 }
    requires len { length values.now ≡ count * width }
    requires limited { All (λ value. value ≤ 10 ^ 15) values.now }
    ensures value { IfOk result (λ v. v.items ≡ reversed_rows count width values.now) }
    ensures len { IfOk result (λ v. length v.items ≡ count * width) }
    ensures limited { IfOk result (λ v. All (λ value. value ≤ 10 ^ 15) v.items) }
{
    let mut rows = Vec::with_capacity(alloc, values.len())?;
    for i in 0..count {
        rows.extend_from_slice(row(values, width, count - 1 - i))?;
    }
    Ok(rows)
}

// A row of some values.
fn row(values: &[u64], width: usize, place: usize) -> &[u64]
    requires width { width ≤ 721 }
    requires few { place ≤ 361 }
    requires inside { (place + 1) * width ≤ length values.now }
    ensures value { result.now ≡ row_values width values.now place }
    ensures len { length result.now ≡ width }
{
    &values[place * width..(place + 1) * width]
}

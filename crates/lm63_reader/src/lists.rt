// The lists behind the thirteen fields.
ghost use Rattle.std.specs.Prelude.{◌≡◌, ◌==◌, ◌+◌, ◌*◌, ◌<◌, ◌≤◌, ◌^◌, ◌∷◌, [], not, false, All, IfOk, IfSome, IsTrue, OnOk, length, is_some};
ghost use Rattle.std.specs.List.Sorted.{IsStrictlyIncreasing};
ghost use Rattle.std.specs.List.{list_any};
ghost use Rattle.duties.specs.Duties.{Answers, each, unless, first};
ghost use Rattle.lux_lines.specs.Walks.{all_tokens};
ghost use Rattle.photo_numbers.specs.Intensities.{intensity_of, intensity_duty};
ghost use Rattle.photo_numbers.specs.Numbers.{angle_of, is_angle};
ghost use Rattle.symmetry.specs.Images.{has_span};
ghost use Rattle.lm63_reader.specs.declared.faults.LmFault.TheVariants.{Memory, NegativeIntensity, TooBright};
ghost use Rattle.lm63_reader.specs.Fields.{number_at, field};
ghost use Rattle.lm63_reader.specs.Angles.{angles, angle_duty, span_symmetry};
ghost use Rattle.lm63_reader.specs.Intensities.{value_duty, intensities};

use crate::LmFault;
use crate::fields::read_number;
use lux_lines::Tokens;
use photo_numbers::{angle_within, intensity_within};
use photo_web::{FULL_TURN, SymKind};
use std::alloc::Global;

// The most that a value may be, in candela.
const MOST_VALUE: u64 = 1_000_000_000;

// So many billionths are 1.
const BILLION: u64 = 1_000_000_000;

/// A list of so many angles of at most `most`, each above the one before it.
pub(crate) fn read_angles(
    alloc: Global,
    source: &mut Tokens,
    list: u8,
    most: u32,
    count: u32,
) -> Result<Vec<u32>, LmFault>
    requires { most < 2 ^ 31 }
    ensures answer { Answers Memory (each count (angle_duty list most (all_tokens source.old) source.old.read)) result }
    ensures value { IfOk result (λ v. v.items ≡ angles (all_tokens source.old) source.old.read count) }
    ensures len { IfOk result (λ v. length v.items ≡ count) }
    ensures rising { IfOk result (λ v. IsStrictlyIncreasing v.items) }
    ensures limited { IfOk result (λ v. All (λ angle. angle ≤ most) v.items) }
    ensures same { OnOk result (all_tokens source.new ≡ all_tokens source.old) }
    ensures next { OnOk result (source.new.read ≡ source.old.read + count) }
{
    let mut angles = Vec::with_capacity(alloc, count as usize)?;
    let mut least = 0;
    for at in 0..count {
        let angle = read_angle(source, least, most, LmFault::Angles { list, at })?;
        angles.push(angle)?;
        least = angle + 1;
    }
    Ok(angles)
}

// The next token as an angle from `least` to `most`.
#[tactic(auto, using(duties::proofs::Orders::steps), unfolding(crate::specs::Fields::field))]
fn read_angle(source: &mut Tokens, least: u32, most: u32, fault: LmFault) -> Result<u32, LmFault>
    ensures answer { Answers Memory (field (all_tokens source.old) source.old.read (λ x. unless (is_angle least most x) fault)) result }
    ensures value { IfOk result (λ angle. angle ≡ angle_of (number_at (all_tokens source.old) source.old.read)) }
    ensures within { IfOk result (λ angle. (least ≤ angle) × (angle ≤ most)) }
    ensures same { OnOk result (all_tokens source.new ≡ all_tokens source.old) }
    ensures next { OnOk result (source.new.read ≡ source.old.read + 1) }
{
    let number = read_number(source)?;
    match angle_within(&number, least, most) {
        Some(angle) => Ok(angle),
        None => Err(fault),
    }
}

/// The symmetry whose span some horizontal angles have.
#[tactic(auto, using(std::proofs::lemmas::Bool::Decides::nat_tests), unfolding(crate::specs::Angles::span_symmetry))]
pub(crate) fn span_symmetry(planes: &[u32]) -> Option<SymKind>
    requires { 1 ≤ length planes.now }
    ensures value { result ≡ span_symmetry planes.now }
    ensures span { IfSome result (λ sym. IsTrue (has_span sym planes.now)) }
{
    let last = planes[planes.len() - 1];
    match planes[0] {
        0 if planes.len() == 1 => Some(SymKind::Axis),
        0 if last == 90_000 => Some(SymKind::Quadrant),
        0 if last == 180_000 => Some(SymKind::Plane0),
        0 if 180_000 < last && last <= FULL_TURN => Some(SymKind::Full),
        90_000 if last == 270_000 && has_half(planes) => Some(SymKind::Plane90),
        _ => None,
    }
}

fn has_half(planes: &[u32]) -> bool
    ensures { result ≡ list_any (λ angle. angle == 180000) planes.now }
{
    planes.iter().any(|angle| *angle == 180_000)
}

/// So many values times a factor (billionths), as intensities in microcandela.
pub(crate) fn read_values(
    alloc: Global,
    source: &mut Tokens,
    factor: u128,
    count: u32,
) -> Result<Vec<u64>, LmFault>
    requires { factor ≤ 10 ^ 20 }
    ensures answer { Answers Memory (each count (value_duty factor (all_tokens source.old) source.old.read)) result }
    ensures value { IfOk result (λ v. v.items ≡ intensities factor (all_tokens source.old) source.old.read count) }
    ensures len { IfOk result (λ v. length v.items ≡ count) }
    ensures limited { IfOk result (λ v. All (λ value. value ≤ 10 ^ 15) v.items) }
    ensures same { OnOk result (all_tokens source.new ≡ all_tokens source.old) }
    ensures next { OnOk result (source.new.read ≡ source.old.read + count) }
{
    let mut values = Vec::with_capacity(alloc, count as usize)?;
    for at in 0..count {
        let value = read_value(source, factor, at)?;
        values.push(value)?;
    }
    Ok(values)
}

// The next token as an intensity.
#[tactic(auto, using(duties::proofs::Orders::steps), unfolding(crate::specs::Fields::field, photo_numbers::specs::Intensities::intensity_duty))]
fn read_value(source: &mut Tokens, factor: u128, at: u32) -> Result<u64, LmFault>
    requires { factor ≤ 10 ^ 20 }
    ensures answer { Answers Memory (field (all_tokens source.old) source.old.read (intensity_duty (10 ^ 9) (10 ^ 9) factor (NegativeIntensity at) (TooBright at))) result }
    ensures value { IfOk result (λ value. value ≡ intensity_of (10 ^ 9) factor (number_at (all_tokens source.old) source.old.read)) }
    ensures limited { IfOk result (λ value. value ≤ 10 ^ 15) }
    ensures same { OnOk result (all_tokens source.new ≡ all_tokens source.old) }
    ensures next { OnOk result (source.new.read ≡ source.old.read + 1) }
{
    let number = read_number(source)?;
    if number.is_negative() {
        return Err(LmFault::NegativeIntensity { at });
    }
    match intensity_within(&number, MOST_VALUE, BILLION, factor) {
        Some(value) => Ok(value),
        None => Err(LmFault::TooBright { at }),
    }
}

// The lists behind the first 42 lines.
ghost use Rattle.std.specs.Prelude.{◌≡◌, ◌+◌, ◌-◌, ◌<◌, ◌≤◌, ◌^◌, ◌∷◌, ◌++◌, [], not, false, All, IfOk, IfSome, OnOk, length, is_some};
ghost use Rattle.std.specs.List.Sorted.{IsStrictlyIncreasing};
ghost use Rattle.duties.specs.Duties.{Answers, each, unless, first};
ghost use Rattle.photo_numbers.specs.Intensities.{intensity_of, intensity_duty};
ghost use Rattle.photo_numbers.specs.Numbers.{angle_of, is_angle};
ghost use Rattle.eulumdat_reader.specs.declared.faults.LdtFault.TheVariants.{Memory, NegativeIntensity, TooBright};
ghost use Rattle.eulumdat_reader.specs.Rows.{all_lines, number_at, field};
ghost use Rattle.eulumdat_reader.specs.Angles.{angles, angle_duty, least_behind};
ghost use Rattle.eulumdat_reader.specs.Intensities.{value_duty, intensities};

use crate::LdtFault;
use crate::fields::read_number;
use crate::gaps::{Gap, is_outside};
use crate::rows::Rows;
use photo_numbers::{angle_within, intensity_within};
use std::alloc::Global;

// The most that a value may be, in candela for 1000 lumens.
const MOST_VALUE: u64 = 10_000_000;

// A scale of so much is 1: 1000 lumens in thousandths, times 1 in millionths.
const SCALE_UNITS: u64 = 1_000_000_000_000;

/// A list of so many lines of angles of at most `most`, each above the one read before it. The lines in a gap aren't read.
pub(crate) fn read_angles(
    alloc: Global,
    source: &mut Rows,
    list: u8,
    most: u32,
    unread: Gap,
    count: u32,
) -> Result<Vec<u32>, LdtFault>
    requires most { most < 2 ^ 31 }
    requires forth { unread.from ≤ unread.to }
    requires inside { unread.to ≤ count }
    ensures answer { Answers Memory (each count (angle_duty list most unread (all_lines source.old) (source.old.read + 1))) result }
    ensures value { IfOk result (λ v. v.items ≡ angles unread (all_lines source.old) (source.old.read + 1) count) }
    ensures len { IfOk result (λ v. length v.items + (unread.to - unread.from) ≡ count) }
    ensures rising { IfOk result (λ v. IsStrictlyIncreasing v.items) }
    ensures limited { IfOk result (λ v. All (λ angle. angle ≤ most) v.items) }
    ensures same { OnOk result (source.new.text ≡ source.old.text) }
    ensures next { OnOk result (source.new.read ≡ source.old.read + count) }
{
    let mut angles = Vec::with_capacity(alloc, count as usize)?;
    for at in 0..count {
        if !is_outside(unread, at) {
            source.row()?;
            continue;
        }
        read_angle(source, &mut angles, most, LdtFault::Angles { list, at })?;
    }
    Ok(angles)
}

// The next line as an angle of at most `most` that is above the last one.
#[tactic(auto, using(duties::proofs::Orders::steps), unfolding(crate::specs::Rows::field))]
fn read_angle(
    source: &mut Rows,
    angles: &mut Vec<u32>,
    most: u32,
    fault: LdtFault,
) -> Result<(), LdtFault>
    requires most { most < 2 ^ 31 }
    requires limited { All (λ angle. angle ≤ most) angles.old.items }
    ensures answer { Answers Memory (field (all_lines source.old) (source.old.read + 1) (λ x. unless (is_angle (least_behind angles.old.items) most x) fault)) result }
    ensures value { OnOk result (angles.new.items ≡ angles.old.items ++ angle_of (number_at (all_lines source.old) (source.old.read + 1)) ∷ []) }
    ensures least { OnOk result (least_behind angles.old.items ≤ angle_of (number_at (all_lines source.old) (source.old.read + 1))) }
    ensures most { OnOk result (angle_of (number_at (all_lines source.old) (source.old.read + 1)) ≤ most) }
    ensures same { OnOk result (source.new.text ≡ source.old.text) }
    ensures next { OnOk result (source.new.read ≡ source.old.read + 1) }
{
    let least = least_behind(angles, most);
    let number = read_number(source)?;
    let Some(angle) = angle_within(&number, least, most) else {
        return Err(fault);
    };
    angles.push(angle)?;
    Ok(())
}

// The least angle that may stand behind some.
fn least_behind(angles: &[u32], most: u32) -> u32
    requires most { most < 2 ^ 31 }
    requires limited { All (λ angle. angle ≤ most) angles.now }
    ensures { result ≡ least_behind angles.now }
{
    if angles.is_empty() {
        0
    } else {
        angles[angles.len() - 1] + 1
    }
}

/// So many values times a scale (10^12 of which are 1), as intensities in microcandela.
pub(crate) fn read_values(
    alloc: Global,
    source: &mut Rows,
    scale: u128,
    count: u32,
) -> Result<Vec<u64>, LdtFault>
    requires { scale ≤ 10 ^ 20 }
    ensures answer { Answers Memory (each count (value_duty scale (all_lines source.old) (source.old.read + 1))) result }
    ensures value { IfOk result (λ v. v.items ≡ intensities scale (all_lines source.old) (source.old.read + 1) count) }
    ensures len { IfOk result (λ v. length v.items ≡ count) }
    ensures limited { IfOk result (λ v. All (λ value. value ≤ 10 ^ 15) v.items) }
    ensures same { OnOk result (source.new.text ≡ source.old.text) }
    ensures next { OnOk result (source.new.read ≡ source.old.read + count) }
{
    let mut values = Vec::with_capacity(alloc, count as usize)?;
    for at in 0..count {
        let value = read_value(source, scale, at)?;
        values.push(value)?;
    }
    Ok(values)
}

// The next line as an intensity.
#[tactic(auto, using(duties::proofs::Orders::steps), unfolding(crate::specs::Rows::field, photo_numbers::specs::Intensities::intensity_duty))]
fn read_value(source: &mut Rows, scale: u128, at: u32) -> Result<u64, LdtFault>
    requires { scale ≤ 10 ^ 20 }
    ensures answer { Answers Memory (field (all_lines source.old) (source.old.read + 1) (intensity_duty (10 ^ 7) (10 ^ 12) scale (NegativeIntensity at) (TooBright at))) result }
    ensures value { IfOk result (λ value. value ≡ intensity_of (10 ^ 12) scale (number_at (all_lines source.old) (source.old.read + 1))) }
    ensures limited { IfOk result (λ value. value ≤ 10 ^ 15) }
    ensures same { OnOk result (source.new.text ≡ source.old.text) }
    ensures next { OnOk result (source.new.read ≡ source.old.read + 1) }
{
    let number = read_number(source)?;
    if number.is_negative() {
        return Err(LdtFault::NegativeIntensity { at });
    }
    match intensity_within(&number, MOST_VALUE, SCALE_UNITS, scale) {
        Some(value) => Ok(value),
        None => Err(LdtFault::TooBright { at }),
    }
}

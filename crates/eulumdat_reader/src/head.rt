// Lines 1 to 42.
ghost use Rattle.std.specs.Prelude.{◌≡◌, ◌+◌, ◌%◌, ◌≤◌, ◌^◌, IfOk, IfSome, OnOk, is_some};
ghost use Rattle.duties.specs.Duties.{Answers, first, unless};
ghost use Rattle.lux_num.specs.Scaled.{cut_value};
ghost use Rattle.photo_numbers.specs.Numbers.{count_of, is_whole_within};
ghost use Rattle.eulumdat_reader.specs.declared.faults.LdtFault.TheVariants.{Memory, PlaneCount, LampSets};
ghost use Rattle.eulumdat_reader.specs.Rows.{all_lines, number_at, field};
ghost use Rattle.eulumdat_reader.specs.Planes.{divisor};
ghost use Rattle.eulumdat_reader.specs.Heads.{count_duties, factor_duties, flux_duties, head_duties, symmetry, planes, gammas, value_scale, is_plane_count, set_count};

use crate::LdtFault;
use crate::fields::{read_factor, read_number, read_whole, skip_rows};
use crate::planes::{divisor, symmetry_of};
use crate::rows::Rows;
use lux_num::Decimal;
use photo_numbers::whole_within;
use photo_web::SymKind;

/// What lines 1 to 42 say: the symmetry, the numbers of C planes and of gamma angles, and what the values are multiplied by.
#[derive(Clone, Copy)]
pub(crate) struct Head {
    pub(crate) sym: SymKind,
    pub(crate) planes: u32,
    pub(crate) gammas: u32,
    pub(crate) scale: u128,
    ghost some_planes: { 1 ≤ planes },
    ghost few_planes: { planes ≤ 360 },
    ghost whole_planes: { planes % divisor sym ≡ 0 },
    ghost some_gammas: { 2 ≤ gammas },
    ghost few_gammas: { gammas ≤ 721 },
    ghost scale_limited: { scale ≤ 10 ^ 20 },
}

// The symmetry and the numbers of angles.
#[derive(Clone, Copy)]
struct Counts {
    sym: SymKind,
    planes: u32,
    gammas: u32,
    ghost some_planes: { 1 ≤ planes },
    ghost few_planes: { planes ≤ 360 },
    ghost whole_planes: { planes % divisor sym ≡ 0 },
    ghost some_gammas: { 2 ≤ gammas },
    ghost few_gammas: { gammas ≤ 721 },
}

/// Lines 1 to 42.
#[tactic(auto, using(duties::proofs::Orders::steps), unfolding(crate::specs::Heads::head_duties))]
pub(crate) fn read_head(source: &mut Rows) -> Result<Head, LdtFault>
    requires { source.old.read ≡ 0 }
    ensures answer { Answers Memory (first (head_duties (all_lines source.old))) result }
    ensures sym { IfOk result (λ head. head.sym ≡ symmetry (all_lines source.old)) }
    ensures planes { IfOk result (λ head. head.planes ≡ planes (all_lines source.old)) }
    ensures gammas { IfOk result (λ head. head.gammas ≡ gammas (all_lines source.old)) }
    ensures scale { IfOk result (λ head. head.scale ≡ value_scale (all_lines source.old)) }
    ensures same { OnOk result (source.new.text ≡ source.old.text) }
    ensures next { OnOk result (source.new.read ≡ 42) }
{
    let counts = read_counts(source)?;
    let factor = read_conversion(source)?;
    let flux = read_flux(source)?;
    Ok(Head {
        sym: counts.sym,
        planes: counts.planes,
        gammas: counts.gammas,
        scale: flux * factor,
    })
}

// Lines 1 to 6.
#[tactic(auto, using(duties::proofs::Orders::steps), unfolding(crate::specs::Heads::count_duties))]
fn read_counts(source: &mut Rows) -> Result<Counts, LdtFault>
    requires { source.old.read ≡ 0 }
    ensures answer { Answers Memory (first (count_duties (all_lines source.old))) result }
    ensures sym { IfOk result (λ counts. counts.sym ≡ symmetry (all_lines source.old)) }
    ensures planes { IfOk result (λ counts. counts.planes ≡ planes (all_lines source.old)) }
    ensures gammas { IfOk result (λ counts. counts.gammas ≡ gammas (all_lines source.old)) }
    ensures same { OnOk result (source.new.text ≡ source.old.text) }
    ensures next { OnOk result (source.new.read ≡ 6) }
{
    skip_rows(source, 2)?;
    let code = read_whole(source, 0, 4, LdtFault::Symmetry)?;
    let sym = symmetry_of(code);
    let planes = read_plane_count(source, sym)?;
    skip_rows(source, 1)?;
    let gammas = read_whole(source, 2, 721, LdtFault::GammaCount)?;
    Ok(Counts {
        sym,
        planes,
        gammas,
    })
}

// The next line as a number of C planes.
#[tactic(auto, using(duties::proofs::Orders::steps), unfolding(crate::specs::Rows::field))]
fn read_plane_count(source: &mut Rows, sym: SymKind) -> Result<u32, LdtFault>
    ensures answer { Answers Memory (field (all_lines source.old) (source.old.read + 1) (λ x. unless (is_plane_count sym x) PlaneCount)) result }
    ensures value { IfOk result (λ count. count ≡ count_of (number_at (all_lines source.old) (source.old.read + 1))) }
    ensures within { IfOk result (λ count. (1 ≤ count) × (count ≤ 360)) }
    ensures whole { IfOk result (λ count. count % divisor sym ≡ 0) }
    ensures same { OnOk result (source.new.text ≡ source.old.text) }
    ensures next { OnOk result (source.new.read ≡ source.old.read + 1) }
{
    let number = read_number(source)?;
    match plane_count(&number, sym) {
        Some(count) => Ok(count),
        None => Err(LdtFault::PlaneCount),
    }
}

// The number, where it is a number of C planes that a symmetry can have.
#[tactic(auto, using(std::proofs::lemmas::Bool::Decides::nat_tests))]
fn plane_count(number: &Decimal, sym: SymKind) -> Option<u32>
    ensures exactly { is_some result ≡ is_plane_count sym number.now }
    ensures value { IfSome result (λ count. count ≡ count_of number.now) }
    ensures within { IfSome result (λ count. (1 ≤ count) × (count ≤ 360)) }
    ensures whole { IfSome result (λ count. count % divisor sym ≡ 0) }
{
    let count = whole_within(number, 1, 360)?;
    if count % divisor(sym) == 0 {
        Some(count)
    } else {
        None
    }
}

// The conversion factor in millionths, on line 24 of lines 7 to 26.
#[tactic(auto, using(duties::proofs::Orders::steps), unfolding(crate::specs::Heads::factor_duties))]
fn read_conversion(source: &mut Rows) -> Result<u128, LdtFault>
    requires { source.old.read ≡ 6 }
    ensures answer { Answers Memory (first (factor_duties (all_lines source.old))) result }
    ensures value { IfOk result (λ factor. factor ≡ cut_value (number_at (all_lines source.old) 24) 6) }
    ensures bound { IfOk result (λ factor. factor ≤ 10 ^ 9) }
    ensures same { OnOk result (source.new.text ≡ source.old.text) }
    ensures next { OnOk result (source.new.read ≡ 26) }
{
    skip_rows(source, 17)?;
    let factor = read_factor(source, 6, 1_000, LdtFault::Factor { line: 24 })?;
    skip_rows(source, 1)?;
    read_lamp_sets(source)?;
    Ok(factor)
}

// That the next line is one lamp set.
#[tactic(auto, using(duties::proofs::Orders::steps), unfolding(crate::specs::Rows::field))]
fn read_lamp_sets(source: &mut Rows) -> Result<(), LdtFault>
    ensures answer { Answers Memory (field (all_lines source.old) (source.old.read + 1) (λ x. unless (is_whole_within 1 1 x) (LampSets (set_count x)))) result }
    ensures same { OnOk result (source.new.text ≡ source.old.text) }
    ensures next { OnOk result (source.new.read ≡ source.old.read + 1) }
{
    let number = read_number(source)?;
    match whole_within(&number, 1, 1) {
        Some(_) => Ok(()),
        None => Err(LdtFault::LampSets {
            n: set_count(&number),
        }),
    }
}

// The number without its sign, cut to a whole number, at most the greatest of 64 bits.
fn set_count(number: &Decimal) -> u64
    ensures { result ≡ set_count number.now }
{
    match number.to_fixed(0) {
        Some(value) => value.min(u128::from(u64::MAX)) as u64,
        None => u64::MAX,
    }
}

// The total flux in thousandths of a lumen, on line 29 of lines 27 to 42.
#[tactic(auto, using(duties::proofs::Orders::steps), unfolding(crate::specs::Heads::flux_duties))]
fn read_flux(source: &mut Rows) -> Result<u128, LdtFault>
    requires { source.old.read ≡ 26 }
    ensures answer { Answers Memory (first (flux_duties (all_lines source.old))) result }
    ensures value { IfOk result (λ flux. flux ≡ cut_value (number_at (all_lines source.old) 29) 3) }
    ensures bound { IfOk result (λ flux. flux ≤ 10 ^ 11) }
    ensures same { OnOk result (source.new.text ≡ source.old.text) }
    ensures next { OnOk result (source.new.read ≡ 42) }
{
    skip_rows(source, 2)?;
    let flux = read_factor(source, 3, 100_000_000, LdtFault::Factor { line: 29 })?;
    skip_rows(source, 13)?;
    Ok(flux)
}

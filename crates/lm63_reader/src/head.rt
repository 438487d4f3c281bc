// The numbers before the angles.
ghost use Rattle.std.specs.Prelude.{◌≡◌, ◌+◌, ◌<◌, ◌≤◌, ◌^◌, if◌then◌else◌, None, IfOk, OnOk};
ghost use Rattle.duties.specs.Duties.{Answers, first};
ghost use Rattle.lux_lines.specs.Walks.{all_tokens};
ghost use Rattle.lux_num.specs.Scaled.{cut_value};
ghost use Rattle.photo_numbers.specs.Numbers.{count_of};
ghost use Rattle.lm63_reader.specs.declared.faults.LmFault.TheVariants.{Memory};
ghost use Rattle.lm63_reader.specs.Fields.{number_at};
ghost use Rattle.lm63_reader.specs.Heads.{tilt_duties, tilt_size, lamp_duties, count_duties, factor_duties, head_duties, factor_product, factor, verticals, horizontals};

use crate::LmFault;
use crate::fields::{read_factor, read_whole, skip_numbers};
use lux_lines::Tokens;

/// What the thirteen fields say: the factor of the values in billionths, and the numbers of angles.
#[derive(Clone, Copy)]
pub(crate) struct Head {
    pub(crate) factor: u128,
    pub(crate) verticals: u32,
    pub(crate) horizontals: u32,
    ghost factor_limited: { factor ≤ 10 ^ 20 },
    ghost some_verticals: { 2 ≤ verticals },
    ghost few_verticals: { verticals ≤ 721 },
    ghost some_horizontals: { 1 ≤ horizontals },
    ghost few_horizontals: { horizontals ≤ 361 },
}

/// The numbers of a tilt, where it is included. They aren't applied.
pub(crate) fn skip_tilt(source: &mut Tokens, included: bool) -> Result<(), LmFault>
    ensures answer { Answers Memory (if included then first (tilt_duties (all_tokens source.old) source.old.read) else None) result }
    ensures same { OnOk result (all_tokens source.new ≡ all_tokens source.old) }
    ensures next { OnOk result (source.new.read ≡ source.old.read + (if included then tilt_size (all_tokens source.old) source.old.read else 0)) }
{
    if included { skip_pairs(source) } else { Ok(()) }
}

// Lamp geometry, number of pairs, angles and factors.
#[tactic(auto, using(duties::proofs::Orders::steps), unfolding(crate::specs::Heads::tilt_duties))]
fn skip_pairs(source: &mut Tokens) -> Result<(), LmFault>
    ensures answer { Answers Memory (first (tilt_duties (all_tokens source.old) source.old.read)) result }
    ensures same { OnOk result (all_tokens source.new ≡ all_tokens source.old) }
    ensures next { OnOk result (source.new.read ≡ source.old.read + tilt_size (all_tokens source.old) source.old.read) }
{
    skip_numbers(source, 1)?;
    let pairs = read_whole(source, 1, 721, LmFault::Count { field: 0 })?;
    skip_numbers(source, 2 * pairs)
}

/// The thirteen fields.
#[tactic(auto, using(duties::proofs::Orders::steps), unfolding(crate::specs::Heads::head_duties))]
pub(crate) fn read_head(source: &mut Tokens) -> Result<Head, LmFault>
    ensures answer { Answers Memory (first (head_duties (all_tokens source.old) source.old.read)) result }
    ensures factor { IfOk result (λ head. head.factor ≡ factor (all_tokens source.old) source.old.read) }
    ensures verticals { IfOk result (λ head. head.verticals ≡ verticals (all_tokens source.old) source.old.read) }
    ensures horizontals { IfOk result (λ head. head.horizontals ≡ horizontals (all_tokens source.old) source.old.read) }
    ensures same { OnOk result (all_tokens source.new ≡ all_tokens source.old) }
    ensures next { OnOk result (source.new.read ≡ source.old.read + 13) }
{
    let multiplier = read_lamps(source)?;
    let (verticals, horizontals) = read_counts(source)?;
    let (ballast, future) = read_factors(source)?;
    Ok(Head {
        factor: factor_product(multiplier, ballast, future),
        verticals,
        horizontals,
    })
}

// The candela multiplier in billionths, behind number of lamps and lumens per lamp.
#[tactic(auto, using(duties::proofs::Orders::steps), unfolding(crate::specs::Heads::lamp_duties))]
fn read_lamps(source: &mut Tokens) -> Result<u128, LmFault>
    ensures answer { Answers Memory (first (lamp_duties (all_tokens source.old) source.old.read)) result }
    ensures value { IfOk result (λ multiplier. multiplier ≡ cut_value (number_at (all_tokens source.old) (source.old.read + 2)) 9) }
    ensures bound { IfOk result (λ multiplier. multiplier ≤ 10 ^ 14) }
    ensures same { OnOk result (all_tokens source.new ≡ all_tokens source.old) }
    ensures next { OnOk result (source.new.read ≡ source.old.read + 3) }
{
    skip_numbers(source, 2)?;
    read_factor(source, 100_000, LmFault::Factor { field: 3 })
}

// The numbers of vertical and of horizontal angles, before photometric type and units type.
#[tactic(auto, using(duties::proofs::Orders::steps), unfolding(crate::specs::Heads::count_duties))]
fn read_counts(source: &mut Tokens) -> Result<(u32, u32), LmFault>
    ensures answer { Answers Memory (first (count_duties (all_tokens source.old) source.old.read)) result }
    ensures verticals { IfOk result (λ r. r.0 ≡ count_of (number_at (all_tokens source.old) source.old.read)) }
    ensures horizontals { IfOk result (λ r. r.1 ≡ count_of (number_at (all_tokens source.old) (source.old.read + 1))) }
    ensures some_verticals { IfOk result (λ r. (2 ≤ r.0) × (r.0 ≤ 721)) }
    ensures some_horizontals { IfOk result (λ r. (1 ≤ r.1) × (r.1 ≤ 361)) }
    ensures same { OnOk result (all_tokens source.new ≡ all_tokens source.old) }
    ensures next { OnOk result (source.new.read ≡ source.old.read + 4) }
{
    let verticals = read_whole(source, 2, 721, LmFault::Count { field: 4 })?;
    let horizontals = read_whole(source, 1, 361, LmFault::Count { field: 5 })?;
    read_whole(source, 1, 1, LmFault::PhotometricType)?;
    read_whole(source, 1, 2, LmFault::Units)?;
    Ok((verticals, horizontals))
}

// Ballast factor and future use in billionths, behind width, length and height, and before the input watts.
#[tactic(auto, using(duties::proofs::Orders::steps), unfolding(crate::specs::Heads::factor_duties))]
fn read_factors(source: &mut Tokens) -> Result<(u128, u128), LmFault>
    ensures answer { Answers Memory (first (factor_duties (all_tokens source.old) source.old.read)) result }
    ensures ballast { IfOk result (λ r. r.0 ≡ cut_value (number_at (all_tokens source.old) (source.old.read + 3)) 9) }
    ensures future { IfOk result (λ r. r.1 ≡ cut_value (number_at (all_tokens source.old) (source.old.read + 4)) 9) }
    ensures bounds { IfOk result (λ r. (r.0 ≤ 10 ^ 12) × (r.1 ≤ 10 ^ 12)) }
    ensures same { OnOk result (all_tokens source.new ≡ all_tokens source.old) }
    ensures next { OnOk result (source.new.read ≡ source.old.read + 6) }
{
    skip_numbers(source, 3)?;
    let ballast = read_factor(source, 1_000, LmFault::Factor { field: 11 })?;
    let future = read_factor(source, 1_000, LmFault::Factor { field: 12 })?;
    skip_numbers(source, 1)?;
    Ok((ballast, future))
}

// Three factors in billionths as one, cut.
fn factor_product(multiplier: u128, ballast: u128, future: u128) -> u128
    requires multiplier { multiplier ≤ 10 ^ 14 }
    requires ballast { ballast ≤ 10 ^ 12 }
    requires future { future ≤ 10 ^ 12 }
    ensures value { result ≡ factor_product multiplier ballast future }
    ensures bound { result ≤ 10 ^ 20 }
{
    multiplier * ballast * future / 1_000_000_000_000_000_000
}

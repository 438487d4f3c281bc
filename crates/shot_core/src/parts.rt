// What a shot passes on, in whole nanolumens and fractions of them.
ghost use Rattle.std.specs.Prelude.{◌≡◌, ◌<◌, ◌≤◌, ◌*◌, ◌+◌, ◌/◌, ◌%◌, ◌^◌, ℕ, All, length, slice_index};
ghost use Rattle.flux_system.specs.System.{patches, scale};
ghost use Rattle.flux_system.specs.Shapes.{share_in};
ghost use Rattle.shot_core.specs.Shots.{parts_after, amounts_after, fractions_after};
ghost use Rattle.shot_core.specs.Shapes.{AreSmall};

use flux_ledger::Amounts;
use flux_system::{Entry, System};

/// The parts of a nanolumen that fractions are counted in.
pub(crate) const SCALE: u64 = 1_000_000_000_000;

pub(crate) const BILLION: u64 = 1_000_000_000;

// The whole nanolumens of an old fraction and a product, and the rest of them, in parts of 10^-12 nanolumens.
// The factor `high * 10^9 + low` comes in two parts, so that no number here needs more than 64 bits.
fn split_parts(high: u64, low: u64, share: u64, fraction: u64) -> (u64, u64)
    requires high { high ≤ 9500000000 }
    requires low { low < 10 ^ 9 }
    requires share { share < 10 ^ 9 }
    requires fraction { fraction < scale }
    ensures amount { result.0 ≡ (fraction + (high * 10 ^ 9 + low) * share) / scale }
    ensures fraction { result.1 ≡ (fraction + (high * 10 ^ 9 + low) * share) % scale }
{
    let upper = high * share;
    let lower = upper % 1_000 * BILLION + low * share + fraction;
    (upper / 1_000 + lower / SCALE, lower % SCALE)
}

// Passes on what a shot of `t` nanolumens from a patch gives to the patches of its row, over fractions below a nanolumen.
// All other patches get nothing, so that their residuals and fractions stay.
pub(crate) fn pass_on(
    system: &System,
    patch: usize,
    t: u64,
    residual: &mut Amounts,
    fractions: &mut Amounts,
)
    requires patch { patch < patches system.now }
    requires flux { t ≤ 10 ^ 16 }
    requires residual { length residual.old ≡ patches system.now }
    requires fractions { length fractions.old ≡ patches system.now }
    requires small { AreSmall fractions.old }
    requires fits { (j : ℕ) → j < patches system.now → scale * slice_index residual.old j + parts_after system.now patch t fractions.old j < scale * 2 ^ 64 }
    ensures residual { residual.new ≡ amounts_after system.now patch t residual.old fractions.old }
    ensures fractions { fractions.new ≡ fractions_after system.now patch t fractions.old }
    ensures small { AreSmall fractions.new }
{
    prove!(patch < system.len());
    let factor = t * u64::from(system.reflectance(patch));
    let (high, low) = (factor / BILLION, factor % BILLION);
    let row = system.row(patch);
    for entry in row {
        let target = entry.patch as usize;
        let fraction = fractions.get(target);
        let (amount, rest) = split_parts(high, low, u64::from(entry.share), fraction);
        let sum = residual.get(target) + amount;
        residual.set(target, sum);
        fractions.set(target, rest);
    }
}

// Adds to the sums of each patch of a row its share, times the one factor and times the other.
pub(crate) fn add_row(row: &[Entry], high: u64, low: u64, highs: &mut Amounts, lows: &mut Amounts)
    requires lengths { length lows.old ≡ length highs.old }
    requires inside { All (λ entry. entry.patch < length highs.old) row.now }
    requires high { (j : ℕ) → j < length highs.old → slice_index highs.old j + high * share_in row.now j < 2 ^ 64 }
    requires low { (j : ℕ) → j < length highs.old → slice_index lows.old j + low * share_in row.now j < 2 ^ 64 }
    ensures lengths { (length highs.new ≡ length highs.old) × (length lows.new ≡ length highs.old) }
    ensures highs { (j : ℕ) → j < length highs.old → slice_index highs.new j ≡ slice_index highs.old j + high * share_in row.now j }
    ensures lows { (j : ℕ) → j < length highs.old → slice_index lows.new j ≡ slice_index lows.old j + low * share_in row.now j }
{
    for entry in row {
        let target = entry.patch as usize;
        let share = u64::from(entry.share);
        let sum = highs.get(target) + high * share;
        highs.set(target, sum);
        let sum = lows.get(target) + low * share;
        lows.set(target, sum);
    }
}

// Moves the whole nanolumens of the fractions to the residuals.
pub(crate) fn carry(residual: &mut Amounts, fractions: &mut Amounts)
    requires lengths { length fractions.old ≡ length residual.old }
    requires fits { (j : ℕ) → j < length residual.old → scale * slice_index residual.old j + slice_index fractions.old j < scale * 2 ^ 64 }
    ensures residual { length residual.new ≡ length residual.old }
    ensures fractions { length fractions.new ≡ length residual.old }
    ensures same { (j : ℕ) → j < length residual.old → scale * slice_index residual.new j + slice_index fractions.new j ≡ scale * slice_index residual.old j + slice_index fractions.old j }
    ensures small { AreSmall fractions.new }
{
    for j in 0..residual.len() {
        let fraction = fractions.get(j);
        let sum = residual.get(j) + fraction / SCALE;
        residual.set(j, sum);
        fractions.set(j, fraction % SCALE);
    }
}

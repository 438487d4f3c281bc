// What a check is answered, from the intervals of its points.
ghost use Rattle.std.specs.Prelude.{◌≡◌, ◌*◌, ◌≤◌, ◌^◌, sum};
ghost use Rattle.compliance.specs.Exact.{least, exact_average, exact_uniformity};
ghost use Rattle.compliance.specs.Verdict.{HasLimits, AreIntervals, lows, highs, average_ends, uniformity_ends, published_verdict, IsJudged};

use crate::{CheckSpec, Verdict};

// A whole in per mille.
const WHOLE: u128 = 1_000;

// A millilux has 10^6 nanolux, which the maintenance factor counts in per mille.
const MILLILUX: u128 = 1_000_000_000;

/// What a check is answered.
#[derive(Clone, Copy, Debug, PartialEq, Eq)]
pub struct Judged {
    /// The ends of the average of the maintained illuminance, in millilux.
    pub average: (u128, u128),
    /// The ends of the uniformity, in per mille.
    pub uniformity: (u32, u32),
    /// Whether the average reaches its limit.
    pub average_verdict: Verdict,
    /// Whether the uniformity reaches its limit.
    pub uniformity_verdict: Verdict,
}

/// Judges a check by the intervals of its points, in nanolux. Whatever the exact values within these intervals are, their
/// average and their uniformity lie between the ends that are answered, and a pass or a fail is right. Takes no memory.
pub fn judge(check: &CheckSpec, points: &[(u128, u128)]) -> Judged
    requires limits { HasLimits check.now }
    requires points { AreIntervals points.now }
    ensures average { result.average ≡ average_ends check.now.maintenance points.now }
    ensures uniformity { result.uniformity ≡ uniformity_ends points.now }
    ensures average_verdict { result.average_verdict ≡ published_verdict (1000 * check.now.average) result.average }
    ensures uniformity_verdict { result.uniformity_verdict ≡ published_verdict check.now.uniformity result.uniformity }

    // What they say of exact values.
    ensures average_judged { IsJudged points.now (1000 * check.now.average) (exact_average check.now.maintenance) result.average result.average_verdict }
    ensures uniformity_judged { IsJudged points.now check.now.uniformity exact_uniformity result.uniformity result.uniformity_verdict }

    ensures average_order { result.average.0 ≤ result.average.1 }
    ensures average_bound { result.average.1 ≤ 10 ^ 24 }
    ensures uniformity_order { result.uniformity.0 ≤ result.uniformity.1 }
    ensures uniformity_bound { result.uniformity.1 ≤ 1000 }
{
    let average = average(check.maintenance, points);
    let (low, high) = uniformity(points);
    Judged {
        average,
        uniformity: (low as u32, high as u32),
        average_verdict: verdict(WHOLE * u128::from(check.average), average),
        uniformity_verdict: verdict(u128::from(check.uniformity), (low, high)),
    }
}

// What the ends of a value tell of a limit.
fn verdict(limit: u128, ends: (u128, u128)) -> Verdict
    ensures { result ≡ published_verdict limit ends }
{
    if limit <= ends.0 {
        Verdict::Pass
    } else if ends.1 < limit {
        Verdict::Fail
    } else {
        Verdict::Undecided
    }
}

// The ends of the average, in millilux.
fn average(maintenance: u32, points: &[(u128, u128)]) -> (u128, u128)
    requires maintenance { maintenance ≤ 1000 }
    requires points { AreIntervals points.now }
    ensures { result ≡ average_ends maintenance points.now }
{
    let (low, high) = sums(points);
    let maintenance = u128::from(maintenance);
    let (low, high) = (low * maintenance, high * maintenance);
    let parts = points.len() as u128 * MILLILUX;
    (low / parts, high.div_ceil(parts))
}

// The ends of the uniformity, in per mille.
fn uniformity(points: &[(u128, u128)]) -> (u128, u128)
    requires { AreIntervals points.now }
    ensures { result ≡ uniformity_ends points.now }
{
    let (low, high) = sums(points);
    let (least_low, least_high) = leasts(points);
    let count = points.len() as u128;
    let (least_low, least_high) = (WHOLE * least_low * count, WHOLE * least_high * count);
    let from = if high == 0 { WHOLE } else { least_low / high };
    let to = if low == 0 {
        WHOLE
    } else {
        least_high.div_ceil(low).min(WHOLE)
    };
    (from, to)
}

// The sums of the low ends and of the high ends.
fn sums(points: &[(u128, u128)]) -> (u128, u128)
    requires { AreIntervals points.now }
    ensures low { result.0 ≡ sum (lows points.now) }
    ensures high { result.1 ≡ sum (highs points.now) }
{
    (
        points.iter().map(|ends| ends.0).sum(),
        points.iter().map(|ends| ends.1).sum(),
    )
}

// The least of the low ends and of the high ends.
fn leasts(points: &[(u128, u128)]) -> (u128, u128)
    requires { AreIntervals points.now }
    ensures low { result.0 ≡ least (lows points.now) }
    ensures high { result.1 ≡ least (highs points.now) }
{
    (
        points.iter().map(|ends| ends.0).min().unwrap_or(0),
        points.iter().map(|ends| ends.1).min().unwrap_or(0),
    )
}

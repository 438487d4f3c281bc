// What both reports say of a run in a number or a word of their own.
ghost use Rattle.std.specs.Prelude.{◌≡◌, ◌*◌, sum};
ghost use Rattle.lux_report.specs.Report.{average_limit, verdict_word};

use compliance::{CheckSpec, Verdict};

// A lux in millilux.
const LUX: u64 = 1_000;

/// The flux that came directly to all patches together, in nanolumens.
pub(crate) fn total_flux(direct: &[u64]) -> u128
    ensures { result ≡ sum direct.now }
{
    direct.iter().map(|flux| u128::from(*flux)).sum()
}

/// The limit of a check's average, in millilux.
pub(crate) fn average_limit(check: &CheckSpec) -> u64
    ensures { result ≡ average_limit check.now }
{
    LUX * u64::from(check.average)
}

/// The word for a verdict.
pub(crate) fn verdict_word(verdict: Verdict) -> &'static str
    ensures { result.now ≡ verdict_word verdict }
{
    match verdict {
        Verdict::Pass => "pass",
        Verdict::Fail => "fail",
        Verdict::Undecided => "open",
    }
}

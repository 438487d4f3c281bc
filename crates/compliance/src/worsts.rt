// What the verdicts on some checks come to.
ghost use Rattle.std.specs.Prelude.{◌≡◌};
ghost use Rattle.std.specs.List.{list_any};
ghost use Rattle.compliance.specs.Worst.{is_verdict, verdicts_on, verdicts_of, worst_of};

use crate::{Judged, Verdict, Worst};

/// What the verdicts on some checks come to: a fail among them comes first, then an open one. Takes no memory.
pub fn worst(judged: &[Judged]) -> Worst
    ensures { result ≡ worst_of (verdicts_of judged.now) }
{
    if is_among(Verdict::Fail, judged) {
        Worst::SomeFail
    } else if is_among(Verdict::Undecided, judged) {
        Worst::SomeUndecided
    } else {
        Worst::AllPass
    }
}

// Whether some check has this verdict.
fn is_among(verdict: Verdict, judged: &[Judged]) -> bool
    ensures { result ≡ list_any (is_verdict verdict) (verdicts_of judged.now) }
{
    judged.iter().any(|check| is_of(verdict, check))
}

// Whether the average or the uniformity of a check has this verdict.
fn is_of(verdict: Verdict, check: &Judged) -> bool
    ensures { result ≡ list_any (is_verdict verdict) (verdicts_on check.now) }
{
    check.average_verdict == verdict || check.uniformity_verdict == verdict
}

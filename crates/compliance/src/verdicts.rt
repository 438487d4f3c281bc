// What a check is answered, and what several come to.
ghost use Rattle.std.specs.Prelude.{◌≡◌};
ghost use Rattle.compliance.specs.Worst.{status_of_worst};

/// Whether a value that is known to lie between two ends reaches a limit.
#[derive(Clone, Copy, Debug, PartialEq, Eq)]
pub enum Verdict {
    /// It does.
    Pass,
    /// It doesn't.
    Fail,
    /// The ends don't tell. Reports print `open`.
    Undecided,
}

/// What some verdicts come to. Without verdicts it is `AllPass`.
#[derive(Clone, Copy, Debug, PartialEq, Eq)]
pub enum Worst {
    /// Each value reaches its limit.
    AllPass,
    /// Some value doesn't.
    SomeFail,
    /// None is known not to, and of some the ends don't tell.
    SomeUndecided,
}

impl Worst {
    /// The exit status, 0 to 2.
    pub fn status(self) -> u8
        ensures { result ≡ status_of_worst self }
    {
        match self {
            Worst::AllPass => 0,
            Worst::SomeFail => 1,
            Worst::SomeUndecided => 2,
        }
    }
}

// What holds of a bank between any two steps.
ghost use Rattle.flux_accounts.specs.Between.{BetweenSteps};

/// The rule of a bank's table, which every step keeps, says of the words and of all accounts that they hold, that the
/// direct flux is conserved, that the wins are within the bound of takes, and that each word and all that is in hand for
/// it fit.
pub fn between_steps()
    ensures { BetweenSteps }
{}

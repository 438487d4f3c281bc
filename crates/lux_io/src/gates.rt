// What stands between two turns of a shooter.

/// A place that each shooter passes before each of its turns. Several shooters may be there at once.
pub trait Gate: Sync {
    /// Called before each turn, with the shooter's number from 0 on, and with how many turns it took and how many
    /// takes it won so far in the current pass. It answers nothing, and returns.
    fn at(&self, shooter: u32, turn: u64, won: u64);
}

/// A gate that holds nobody.
#[derive(Clone, Copy, Debug)]
pub struct FreeGate;

impl Gate for FreeGate {
    fn at(&self, _shooter: u32, _turn: u64, _won: u64) {}
}

// What may cross threads.
use crate::banks::Bank;
use crate::seats::{Desk, Seat};

fn is_shared<T: Sync>(_: &T) {}

fn is_sent<T: Send>(_: &T) {}

/// Threads may share a bank, and a seat or the desk may go from one to another. That this compiles is all it says.
pub fn cross_threads(bank: &Bank, seat: &Seat, desk: &Desk) {
    is_shared(bank);
    is_sent(seat);
    is_sent(desk);
}

// A tournament of places by their values.
ghost use Rattle.std.specs.Prelude.{◌≡◌, ◌<◌, ◌≤◌, ℕ, IfOk, length, slice_index, slice_set};
ghost use Rattle.picker.specs.Greatest.{greatest_value, greatest_place};

use crate::contender::Contender;
use crate::tree::{best, change, fill};
use std::alloc::{AllocError, Global};
use std::marker::Model;

/// The values of some places, at least one, and always the first place of the greatest. Contracts see the list of the
/// values.
#[derive(Debug, Drop)]
pub struct Tournament {
    places: usize,
    nodes: Vec<Contender>,
}

impl Model for Tournament {
    ghost use Rattle.std.specs.Prelude.{ℕ, List};
    ghost use Rattle.picker.specs.Shapes.{IsTree, leaf_values};

    ghost Value = { List ℕ };

    ghost view = { λ t. leaf_values t.places t.nodes.items };

    ghost invariant = { λ t. IsTree t.places t.nodes.items };
}

impl Tournament {
    /// A tournament of these values, one for each place, which are copied.
    pub fn new(alloc: Global, values: &[u64]) -> Result<Tournament, AllocError>
        requires { 1 ≤ length values.now }
        ensures { IfOk result (λ tournament. tournament ≡ values.now) }
    {
        let nobody = Contender { value: 0, place: 0 };
        let mut nodes = Vec::from_elem(alloc, nobody, 2 * values.len())?;
        fill(nodes.as_mut_slice(), values);
        Ok(Tournament {
            places: values.len(),
            nodes,
        })
    }

    /// The number of places, at least 1.
    pub fn len(&self) -> usize
        ensures value { result ≡ length self.now }
        ensures some { 1 ≤ result }
    {
        self.places
    }

    /// Sets the value of place `i`. Takes no memory.
    pub fn set(&mut self, i: usize, value: u64)
        requires { i < length self.old }
        ensures { self.new ≡ slice_set self.old i value }
    {
        change(self.nodes.as_mut_slice(), self.places, i, value);
    }

    /// Replaces all values by as many others. Takes no memory.
    pub fn refill(&mut self, values: &[u64])
        requires { length values.now ≡ length self.old }
        ensures { self.new ≡ values.now }
    {
        fill(self.nodes.as_mut_slice(), values);
    }

    /// The first place of the greatest value, and that value. Takes no memory.
    pub fn best(&self) -> (usize, u64)
        ensures place { result.0 ≡ greatest_place self.now }
        ensures value { result.1 ≡ greatest_value self.now }
        ensures inside { result.0 < length self.now }
        ensures at { slice_index self.now result.0 ≡ result.1 }
        ensures most { (k : ℕ) → k < length self.now → slice_index self.now k ≤ result.1 }
    {
        let best = best(self.nodes.as_slice(), self.places);
        (best.place, best.value)
    }
}

// Tournaments are sent to threads and shared by them: that they may is proved here, and not where they first are.
fn ask_sent_and_shared<T: Send + Sync>(_value: &T) {}

fn ask_tournament_sent_and_shared(tournament: &Tournament) {
    ask_sent_and_shared(tournament);
}

// A list of numbers that contracts see as such.
ghost use Rattle.std.specs.Prelude.{◌≡◌, ◌<◌, length, slice_index, slice_set};

use std::marker::Model;

/// A number for each patch. Contracts see it as the list of its numbers.
#[derive(Debug, Drop)]
pub struct Amounts {
    values: Vec<u64>,
}

impl Model for Amounts {
    ghost use Rattle.std.specs.Prelude.{List, ℕ};

    ghost Value = { List ℕ };

    ghost view = { λ a. a.values.items };
}

impl Amounts {
    /// The numbers of a vector. Takes no memory.
    pub fn from_vec(values: Vec<u64>) -> Amounts
        ensures { result ≡ values.items }
    {
        Amounts { values }
    }

    /// The numbers, patch by patch.
    pub fn as_slice(&self) -> &[u64]
        ensures { result.now ≡ self.now }
    {
        self.values.as_slice()
    }

    /// How many numbers there are.
    pub fn len(&self) -> usize
        ensures { result ≡ length self.now }
    {
        self.values.len()
    }

    /// The number of patch `i`.
    #[inline]
    pub fn get(&self, i: usize) -> u64
        requires { i < length self.now }
        ensures { result ≡ slice_index self.now i }
    {
        self.values[i]
    }

    /// Writes the number of patch `i`.
    #[inline]
    pub fn set(&mut self, i: usize, value: u64)
        requires { i < length self.old }
        ensures { self.new ≡ slice_set self.old i value }
    {
        self.values[i] = value;
    }
}

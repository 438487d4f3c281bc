// A valid flux system.
ghost use Rattle.std.specs.Prelude.{◌≡◌, ◌<◌, ◌≤◌, ◌*◌, ◌^◌, IfOk, OnOk, All, length, slice_index, sum};
ghost use Rattle.duties.specs.Duties.{first, judged, Answers};
ghost use Rattle.flux_system.specs.Sums.{least_below};
ghost use Rattle.flux_system.specs.System.{patches, share, coefficient, kept_parts, keep, least_keep, bound_of_takes};
ghost use Rattle.flux_system.specs.Entries.{row_entries, column_entries, all_rows, all_columns};
ghost use Rattle.flux_system.specs.Validity.{IsSystem, system_duties};
ghost use Rattle.flux_system.specs.Limits.{limit_duties};
ghost use Rattle.flux_system.specs.Shapes.{system_without_threshold};

use crate::entries::Entries;
use crate::kept::{SCALE, kept_parts};
use crate::lists::{Side, lists_from, lists_in_threads};
use crate::{Entry, LimitFault, MOST_PATCHES, SystemFault};
use std::alloc::{AllocError, Global};
use std::marker::Model;
use std::thread::Threads;

/// The most direct flux over all patches, in nanolumens.
const MOST_FLUX: u128 = 10_000_000_000_000_000;

/// The highest bound of takes.
const MOST_TAKES: u128 = 100_000_000;

/// From so many patches on, threads save more than they cost.
const LEAST_SHARED: usize = 500;

/// Lists are halved so often, and each half is made in a thread of its own.
const HALVINGS: u32 = 2;

/// A valid flux system. Contracts see its threshold, its reflectances and its shares.
#[derive(Debug, Drop)]
pub struct System {
    threshold: u64,
    reflectance: Vec<u32>,
    rows: Vec<Entries>,
    columns: Vec<Entries>,
    kept: Vec<u64>,
    least: u64,
}

impl Model for System {
    ghost use Rattle.std.specs.Prelude.{length};
    ghost use Rattle.flux_system.specs.System.{FluxSystem};
    ghost use Rattle.flux_system.specs.Shapes.{shares_in_rows, IsSystemWithLists};

    ghost Value = { FluxSystem };

    ghost view = { λ s. record { threshold = s.threshold; reflectance = s.reflectance.items; shares = shares_in_rows (length s.reflectance.items) s.rows.items } };

    ghost invariant = { λ s. IsSystemWithLists (record { threshold = s.threshold; reflectance = s.reflectance.items; shares = shares_in_rows (length s.reflectance.items) s.rows.items }) s.rows.items s.columns.items s.kept.items s.least };
}

impl System {
    /// A system of these reflectances (per mille), shares (a row for each patch, in parts of 10^9) and threshold
    /// (nanolumens). The reflectances are copied, and of the shares those that aren't 0. The first test that fails gives
    /// the error; `Memory` may come in the place of any.
    pub fn new(
        alloc: Global,
        reflectance: &[u32],
        shares: &[u32],
        threshold: u64,
    ) -> Result<System, SystemFault>
        ensures system { IfOk result (λ s. s ≡ record { threshold = threshold; reflectance = reflectance.now; shares = shares.now }) }
        ensures answer { Answers SystemFault.Memory (first (system_duties (record { threshold = threshold; reflectance = reflectance.now; shares = shares.now }))) result }
    {
        let kept = kept_parts(alloc, reflectance, shares, threshold)?;
        let n = reflectance.len();
        let rows = lists_from(alloc, Side::Rows, reflectance, shares, 0, n)?;
        let columns = lists_from(alloc, Side::Columns, reflectance, shares, 0, n)?;
        let reflectance = Vec::from_slice(alloc, reflectance)?;
        Ok(System::of_parts(threshold, reflectance, shares, rows, columns, kept))
    }

    /// The same of vectors: the reflectances are moved and not copied.
    pub fn from_vecs(
        alloc: Global,
        reflectance: Vec<u32>,
        shares: Vec<u32>,
        threshold: u64,
    ) -> Result<System, SystemFault>
        ensures system { IfOk result (λ s. s ≡ record { threshold = threshold; reflectance = reflectance.items; shares = shares.items }) }
        ensures answer { Answers SystemFault.Memory (first (system_duties (record { threshold = threshold; reflectance = reflectance.items; shares = shares.items }))) result }
    {
        let kept = kept_parts(alloc, reflectance.as_slice(), shares.as_slice(), threshold)?;
        let n = reflectance.len();
        let rows = lists_from(
            alloc,
            Side::Rows,
            reflectance.as_slice(),
            shares.as_slice(),
            0,
            n,
        )?;
        let columns = lists_from(
            alloc,
            Side::Columns,
            reflectance.as_slice(),
            shares.as_slice(),
            0,
            n,
        )?;
        Ok(System::of_parts(
            threshold,
            reflectance,
            shares.as_slice(),
            rows,
            columns,
            kept,
        ))
    }

    /// The same of vectors, in threads where there are many patches.
    pub fn from_vecs_in_threads(
        rt: &(impl Threads + Sync),
        alloc: Global,
        reflectance: Vec<u32>,
        shares: Vec<u32>,
        threshold: u64,
    ) -> Result<System, SystemFault>
        ensures system { IfOk result (λ s. s ≡ record { threshold = threshold; reflectance = reflectance.items; shares = shares.items }) }
        ensures answer { Answers SystemFault.Memory (first (system_duties (record { threshold = threshold; reflectance = reflectance.items; shares = shares.items }))) result }
    {
        let kept = kept_parts(alloc, reflectance.as_slice(), shares.as_slice(), threshold)?;
        let n = reflectance.len();
        let depth = if n < LEAST_SHARED { 0 } else { HALVINGS };
        let rows = lists_in_threads(
            rt,
            alloc,
            Side::Rows,
            reflectance.as_slice(),
            shares.as_slice(),
            0,
            n,
            depth,
        )?;
        let columns = lists_in_threads(
            rt,
            alloc,
            Side::Columns,
            reflectance.as_slice(),
            shares.as_slice(),
            0,
            n,
            depth,
        )?;
        Ok(System::of_parts(
            threshold,
            reflectance,
            shares.as_slice(),
            rows,
            columns,
            kept,
        ))
    }

    // The system of numbers that passed the tests, with their lists and what each patch keeps.
    fn of_parts(
        threshold: u64,
        reflectance: Vec<u32>,
        shares: &[u32],
        rows: Vec<Entries>,
        columns: Vec<Entries>,
        kept: Vec<u64>,
    ) -> System
        requires valid { IsSystem (record { threshold = threshold; reflectance = reflectance.items; shares = shares.now }) }
        requires rows { rows.items ≡ all_rows (system_without_threshold reflectance.items shares.now) }
        requires columns { columns.items ≡ all_columns (system_without_threshold reflectance.items shares.now) }
        requires kept { kept.items ≡ kept_parts (record { threshold = threshold; reflectance = reflectance.items; shares = shares.now }) }
        ensures { result ≡ record { threshold = threshold; reflectance = reflectance.items; shares = shares.now } }
    {
        prove_eq!(shares.len(), reflectance.len() * reflectance.len());
        let least = least_of(kept.as_slice());
        System {
            threshold,
            reflectance,
            rows,
            columns,
            kept,
            least,
        }
    }

    /// The number of patches, 1 to `MOST_PATCHES`.
    pub fn len(&self) -> usize
        ensures value { result ≡ patches self.now }
        ensures system { IsSystem self.now }
    {
        self.reflectance.len()
    }

    /// The threshold in nanolumens, 1 to 10^16.
    pub fn threshold(&self) -> u64
        ensures { result ≡ self.now.threshold }
    {
        self.threshold
    }

    /// The reflectance of patch `i`, at most 950 per mille.
    pub fn reflectance(&self, i: usize) -> u32
        requires { i < patches self.now }
        ensures { result ≡ slice_index self.now.reflectance i }
    {
        self.reflectance[i]
    }

    /// The patches that the flux of patch `i` falls on, in order, each with the share of it that does.
    pub fn row(&self, i: usize) -> &[Entry]
        requires { i < patches self.now }
        ensures entries { result.now ≡ row_entries self.now i }
        ensures inside { All (λ entry. entry.patch < patches self.now) result.now }
        ensures parts { All (λ entry. entry.share < 10 ^ 9) result.now }
    {
        self.rows[i].as_slice()
    }

    /// The patches whose flux falls on patch `j`, in order, each with the share of its flux that does.
    pub fn column(&self, j: usize) -> &[Entry]
        requires { j < patches self.now }
        ensures entries { result.now ≡ column_entries self.now j }
        ensures inside { All (λ entry. entry.patch < patches self.now) result.now }
        ensures parts { All (λ entry. entry.share < 10 ^ 9) result.now }
    {
        self.columns[j].as_slice()
    }

    /// What patch `i` passes on to patch `j` of a nanolumen, in parts of 10^12.
    pub fn coef(&self, i: usize, j: usize) -> u64
        requires from { i < patches self.now }
        requires to { j < patches self.now }
        ensures { result ≡ coefficient self.now i j }
    {
        u64::from(self.reflectance(i)) * u64::from(self.share(i, j))
    }

    // The share of patch `i`'s flux that falls on patch `j`.
    fn share(&self, i: usize, j: usize) -> u32
        requires from { i < patches self.now }
        requires to { j < patches self.now }
        ensures { result ≡ share self.now i j }
    {
        prove!(j < self.len());
        let row = self.row(i);
        let patch = j as u32;
        match row.binary_search_by_key(&patch, |entry| entry.patch) {
            Ok(place) => row[place].share,
            Err(_) => 0,
        }
    }

    /// What patch `i` keeps of a nanolumen, in parts of 10^12.
    pub fn keep(&self, i: usize) -> u64
        requires { i < patches self.now }
        ensures value { result ≡ keep self.now i }
        ensures positive { 5 * 10 ^ 10 < result }
    {
        self.kept[i]
    }

    /// The least that a patch keeps of a nanolumen, in parts of 10^12.
    pub fn least_keep(&self) -> u64
        ensures value { result ≡ least_keep self.now }
        ensures positive { 5 * 10 ^ 10 < result }
    {
        self.least
    }

    /// How often a direct flux, in nanolumens for each patch, can be taken at most, unless it is past the limits.
    pub fn takes_bound(&self, direct: &[u64]) -> Result<u128, LimitFault>
        requires { length direct.now ≡ patches self.now }
        ensures answer { result ≡ judged (limit_duties self.now direct.now) (bound_of_takes self.now direct.now) }
        ensures flux { OnOk result (sum direct.now ≤ 10 ^ 16) }
    {
        prove_eq!(direct.len(), self.len());
        let sum = total_flux(direct);
        if sum > MOST_FLUX {
            return Err(LimitFault::FluxTooLarge { sum });
        }
        let least = u128::from(self.threshold) * u128::from(self.least_keep());
        let bound = u128::from(SCALE) * sum / least;
        if bound > MOST_TAKES {
            return Err(LimitFault::TooManyTakes { bound });
        }
        Ok(bound)
    }
}

// The least of some values.
fn least_of(values: &[u64]) -> u64
    requires { 1 ≤ length values.now }
    ensures { result ≡ least_below (length values.now) (slice_index values.now) }
{
    let mut least = values[0];
    for value in values {
        least = least.min(*value);
    }
    least
}

// The direct flux of all patches together.
fn total_flux(direct: &[u64]) -> u128
    requires { length direct.now ≤ MOST_PATCHES }
    ensures { result ≡ sum direct.now }
{
    direct.iter().map(|flux| u128::from(*flux)).sum()
}

// Threads share systems: that they may is proved here, and not where they first do.
fn ask_shared<T: Send + Sync>(_value: &T) {}

fn ask_system_shared(system: &System) {
    ask_shared(system);
}

// The accounts of actors, and the desk's.
ghost use Rattle.std.specs.Prelude.{◌≡◌, ◌<◌, ◌+◌, ◌^◌, ℕ, List, false, IfOk, length, slice_index};
ghost use Rattle.flux_system.specs.System.{FluxSystem, patches};
ghost use Rattle.shot_core.specs.declared.roles.Role.TheVariants.{Desk, Actor};
ghost use Rattle.shot_core.specs.Shots.{amounts_after};
ghost use Rattle.shot_core.specs.Views.{new_view, after_take, after_give, both, after_retire};
ghost use Rattle.shot_core.specs.AccountViews.{desk_view, open_view, account_view};

use crate::hands::Hand;
use flux_ledger::Amounts;
use flux_system::System;
use std::alloc::{AllocError, Global};

/// What an actor has done.
#[derive(Debug, Drop)]
pub struct Account {
    /// What it has in hand.
    pub hand: Hand,
    /// What it took of each patch, in nanolumens.
    pub taken: Amounts,
    /// What it gave to each patch, in nanolumens.
    pub given: Amounts,
    /// How often it took flux.
    pub wins: u64,
    /// Its account was added to the desk's.
    pub is_retired: bool,
}

impl Account {
    // An account of nothing yet, for `n` patches.
    pub(crate) fn new(alloc: Global, n: usize) -> Result<Account, AllocError>
        ensures { IfOk result (λ account. (s : FluxSystem) (direct : List ℕ) → patches s ≡ n → account_view s direct account ≡ new_view s direct Actor) }
    {
        Ok(Account {
            hand: Hand::new(alloc, n)?,
            taken: Amounts::from_vec(Vec::from_elem(alloc, 0, n)?),
            given: Amounts::from_vec(Vec::from_elem(alloc, 0, n)?),
            wins: 0,
            is_retired: false,
        })
    }

    // Books a take of `t` nanolumens from a patch.
    pub(crate) fn take(&mut self, system: &System, patch: usize, t: u64)
        requires hand { length self.old.hand.amounts ≡ patches system.now }
        requires lengths { length self.old.taken ≡ patches system.now }
        requires patch { patch < patches system.now }
        requires fits { (j : ℕ) → j < patches system.now → slice_index (amounts_after system.now patch t self.old.hand.amounts self.old.hand.fractions) j < 2 ^ 64 }
        requires taken { slice_index self.old.taken patch + t < 2 ^ 64 }
        requires wins { self.old.wins + 1 < 2 ^ 64 }
        ensures view { (direct : List ℕ) → open_view system.now direct self.new ≡ after_take (open_view system.now direct self.old) patch t }
        ensures retired { self.new.is_retired ≡ self.old.is_retired }
    {
        let taken = self.taken.get(patch) + t;
        self.taken.set(patch, taken);
        self.hand.book(system, patch, t);
        self.wins += 1;
    }

    // Books that a patch is given all that is in hand for it, which is the answer, in nanolumens.
    pub(crate) fn give(&mut self, target: usize) -> u64
        requires hand { target < length self.old.hand.amounts }
        requires given { target < length self.old.given }
        requires fits { slice_index self.old.given target + slice_index self.old.hand.amounts target < 2 ^ 64 }
        ensures amount { result ≡ slice_index self.old.hand.amounts target }
        ensures view { (s : FluxSystem) (direct : List ℕ) → open_view s direct self.new ≡ after_give (open_view s direct self.old) target }
        ensures retired { self.new.is_retired ≡ self.old.is_retired }
    {
        let amount = self.hand.clear(target);
        let given = self.given.get(target) + amount;
        self.given.set(target, given);
        amount
    }
}

/// What the actors that were retired have done together, and how many are out.
#[derive(Debug, Drop)]
pub struct DeskAccount {
    /// What they took of each patch, in nanolumens.
    pub taken: Amounts,
    /// What they gave to each patch, in nanolumens.
    pub given: Amounts,
    /// The sums of their fractions at each patch, in parts of 10^-12 nanolumens: less than a nanolumen for each part.
    pub err: Amounts,
    /// How many accounts the fractions come from, the desk's own with them.
    pub parts: u32,
    /// How often they took flux.
    pub wins: u64,
    /// How many actors were hired and not retired.
    pub out: u32,
}

impl DeskAccount {
    // The account of a desk where nobody was hired yet, for `n` patches.
    pub(crate) fn new(alloc: Global, n: usize) -> Result<DeskAccount, AllocError>
        ensures { IfOk result (λ desk. (s : FluxSystem) (direct : List ℕ) → patches s ≡ n → desk_view s direct desk ≡ new_view s direct Desk) }
    {
        Ok(DeskAccount {
            taken: Amounts::from_vec(Vec::from_elem(alloc, 0, n)?),
            given: Amounts::from_vec(Vec::from_elem(alloc, 0, n)?),
            err: Amounts::from_vec(Vec::from_elem(alloc, 0, n)?),
            parts: 1,
            wins: 0,
            out: 0,
        })
    }

    // Adds the account of an actor.
    pub(crate) fn add(&mut self, account: &Account)
        requires lengths { (length self.old.given ≡ length self.old.taken) × (length self.old.err ≡ length self.old.taken) }
        requires others { (length account.now.taken ≡ length self.old.taken) × ((length account.now.given ≡ length self.old.taken) × (length account.now.hand.fractions ≡ length self.old.taken)) }
        requires taken { (j : ℕ) → j < length self.old.taken → slice_index self.old.taken j + slice_index account.now.taken j < 2 ^ 64 }
        requires given { (j : ℕ) → j < length self.old.taken → slice_index self.old.given j + slice_index account.now.given j < 2 ^ 64 }
        requires err { (j : ℕ) → j < length self.old.taken → slice_index self.old.err j + slice_index account.now.hand.fractions j < 2 ^ 64 }
        requires parts { self.old.parts + 1 < 2 ^ 32 }
        requires wins { self.old.wins + account.now.wins < 2 ^ 64 }
        requires out { 0 < self.old.out }
        ensures { (s : FluxSystem) (direct : List ℕ) → patches s ≡ length self.old.taken → desk_view s direct self.new ≡ after_retire (desk_view s direct self.old) (open_view s direct account.now) }
    {
        add_amounts(&mut self.taken, account.taken.as_slice());
        add_amounts(&mut self.given, account.given.as_slice());
        add_amounts(&mut self.err, account.hand.fractions());
        self.parts += 1;
        self.wins += account.wins;
        self.out -= 1;
    }
}

/// Adds to the number of each patch its number of another list. All sums fit.
pub fn add_amounts(sums: &mut Amounts, more: &[u64])
    requires lengths { length more.now ≡ length sums.old }
    requires fits { (j : ℕ) → j < length sums.old → slice_index sums.old j + slice_index more.now j < 2 ^ 64 }
    ensures { (s : FluxSystem) → patches s ≡ length sums.old → sums.new ≡ both s sums.old more.now }
{
    for (j, amount) in more.iter().enumerate() {
        let sum = sums.get(j) + *amount;
        sums.set(j, sum);
    }
}

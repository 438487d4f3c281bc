// The words of a bank, and the steps on them.
ghost use Rattle.std.specs.Prelude.{◌≡◌, ◌<◌, ◌≤◌, ◌+◌, ◌^◌, ℕ, IfOk, OnOk, IfSome, IfNone, length, map, slice_index, sum};
ghost use Rattle.std.specs.List.{range_with_len};
ghost use Rattle.std.specs.Slots.{slots_items, slots_len, IsFull};
ghost use Rattle.flux_system.specs.System.{patches};
ghost use Rattle.flux_system.specs.declared.TheConstants.{MOST_SEATS};
ghost use Rattle.flux_ledger.specs.Balance.{IsBalanced, IsPaid};
ghost use Rattle.shot_core.specs.declared.roles.Role.TheVariants.{Actor};
ghost use Rattle.shot_core.specs.Views.{nothing, hand_at};
ghost use Rattle.flux_accounts.specs.Histories.{after_looking, after_giving, after_hiring, newcomer, after_retiring};
ghost use Rattle.flux_accounts.specs.Banks.{IsSeatOf, IsDeskOf, HasEmptyHand, desk_at_start, seat_at_start};
ghost use Rattle.flux_accounts.specs.Answers.{IsExchange, IsTake};
ghost use Rattle.flux_accounts.specs.Plays.{after_exchange, IsBounded};

use crate::histories::History;
use crate::rules::{Accounts, Exchanges, Gives, Hires, Looks, Retires, Terms};
use crate::seats::{Desk, Given, Pass, Seat, Take};
use atomic_table::{Closed, Table};
use flux_ledger::{Amounts, Ledger};
use flux_system::System;
use shot_core::{BatchHand, add_amounts};
use std::alloc::{AllocError, Global};
use std::marker::Model;
use std::snapshot::Snapshot;

/// The residual words of a system, which threads share: none waits for another. Contracts see which table it is, its
/// system and its direct flux.
#[derive(Drop)]
pub struct Bank {
    alloc: Global,
    direct: Amounts,
    table: Table<(), History, Terms, Accounts, Global>,
}

impl Model for Bank {
    ghost use Rattle.flux_accounts.specs.Banks.{BankFacts};
    ghost use Rattle.flux_accounts.specs.Layouts.{BankLayout};

    ghost Value = { BankFacts };

    ghost view = { λ b. record { table = b.table.shared.table_id; system = b.table.shared.key.system.value; direct = b.table.shared.key.direct.value } };

    ghost invariant = { λ b. BankLayout b.table.shared.table_id b.table.shared.key.system.value b.table.shared.key.direct.value b.direct };
}

impl Bank {
    /// Opens a bank over a system and its direct flux, in nanolumens for each patch, and hires so many seats, numbered
    /// from 0. It takes all memory that the seats need.
    pub fn start(
        alloc: Global,
        system: &System,
        direct: &[u64],
        seats: u32,
    ) -> Result<(Bank, Desk, Vec<Seat>), AllocError>
        requires lengths { length direct.now ≡ patches system.now }
        requires flux { sum direct.now ≤ 10 ^ 16 }
        requires seats { (1 ≤ seats) × (seats ≤ MOST_SEATS) }
        ensures bank { IfOk result (λ r. (r.0.system ≡ system.now) × (r.0.direct ≡ direct.now)) }
        ensures desk { IfOk result (λ r. r.1 ≡ desk_at_start r.0 seats) }
        ensures seats { IfOk result (λ r. r.2.items ≡ map (seat_at_start r.0) (range_with_len 0 seats)) }
    {
        let own = Amounts::from_vec(Vec::from_slice(alloc, direct)?);
        let terms = Terms {
            system: Snapshot::of(system),
            direct: Snapshot::of(&own),
        };
        let mut words = Vec::with_capacity(alloc, 1)?;
        words.push(0)?;
        words.extend_from_slice(direct)?;
        let taken = Amounts::from_vec(Vec::from_elem(alloc, 0, system.len())?);
        let err = Amounts::from_vec(Vec::from_elem(alloc, 0, system.len())?);
        let (table, pass) = Table::of_words(alloc, words.as_slice(), &terms)?;
        let bank = Bank {
            alloc,
            direct: own,
            table,
        };
        let mut desk = Desk {
            taken,
            err,
            parts: 1,
            wins: 0,
            out: 0,
            pass,
        };
        let all = bank.hire_all(alloc, system, &mut desk, seats)?;
        Ok((bank, desk, all))
    }

    // Hires the seats of a bank, before the first take.
    fn hire_all(
        &self,
        alloc: Global,
        system: &System,
        desk: &mut Desk,
        seats: u32,
    ) -> Result<Vec<Seat>, AllocError>
        requires system { system.now ≡ self.now.system }
        requires desk { desk.old ≡ desk_at_start self.now 0 }
        requires seats { seats ≤ MOST_SEATS }
        ensures desk { OnOk result (desk.new ≡ desk_at_start self.now seats) }
        ensures seats { IfOk result (λ all. all.items ≡ map (seat_at_start self.now) (range_with_len 0 seats)) }
    {
        let n = system.len();
        let mut all = Vec::new(alloc);
        for number in 0..seats {
            let hand = BatchHand::new(alloc, n)?;
            let taken = Amounts::from_vec(Vec::from_elem(alloc, 0, n)?);
            let seat = self.hire(desk, number, hand, taken);
            all.push(seat)?;
        }
        Ok(all)
    }

    // Hires a seat, over a hand and a list with nothing in them.
    fn hire(&self, desk: &mut Desk, number: u32, hand: BatchHand, taken: Amounts) -> Seat
        requires desk { IsDeskOf self.now desk.old }
        requires room { desk.old.history.account.parts + desk.old.history.account.out < 65 }
        requires hand { (hand.amounts ≡ nothing self.now.system) × (hand.fractions ≡ nothing self.now.system) }
        requires taken { taken ≡ nothing self.now.system }
        ensures desk { desk.new ≡ record desk.old { history = after_hiring desk.old.history } }
        ensures seat { result ≡ record { table = desk.old.table; number = number; history = newcomer desk.old.history } }
    {
        let pass = self.table.shared.split_seat::<Hires>(&mut desk.pass);
        desk.out += 1;
        Seat {
            number,
            hand,
            taken,
            wins: 0,
            pass,
        }
    }

    /// One look at the word of a patch: what is left there and not yet taken, in nanolumens.
    pub fn look(&self, seat: &mut Seat, patch: usize) -> u64
        requires seat { IsSeatOf self.now seat.old }
        requires patch { patch < patches self.now.system }
        ensures of { IsSeatOf self.now seat.new }
        ensures step { seat.new ≡ record seat.old { history = after_looking seat.old.history patch result } }
    {
        self.table.shared.load::<Looks>(&mut seat.pass, patch + 1)
    }

    /// One look at the word of a patch, and where it reaches the threshold one exchange of what was seen for 0: where
    /// this is won, the seat has taken it, and what the patch passes on is in its hand.
    pub fn take(&self, system: &System, seat: &mut Seat, patch: usize) -> Take
        requires seat { IsSeatOf self.now seat.old }
        requires system { system.now ≡ self.now.system }
        requires patch { patch < patches self.now.system }
        ensures of { IsSeatOf self.now seat.new }
        ensures number { seat.new.number ≡ seat.old.number }
        ensures steps { IsTake self.now.system.threshold seat.old.history patch result seat.new.history }
    {
        let seen = self.look(seat, patch);
        if seen < system.threshold() {
            return Take::Low { seen };
        }
        self.take_seen(system, seat, patch, seen)
    }

    /// One exchange of a value of at least the threshold for 0, in the word of a patch that was seen to have it. It is
    /// never `Low`.
    pub fn take_seen(&self, system: &System, seat: &mut Seat, patch: usize, seen: u64) -> Take
        requires seat { IsSeatOf self.now seat.old }
        requires system { system.now ≡ self.now.system }
        requires patch { patch < patches self.now.system }
        requires seen { self.now.system.threshold ≤ seen }
        ensures of { IsSeatOf self.now seat.new }
        ensures number { seat.new.number ≡ seat.old.number }
        ensures step { IsExchange seat.old.history patch seen result seat.new.history }
    {
        let found = self.exchange(&mut seat.pass, patch, seen);
        if found != seen {
            return Take::Lost { seen, found };
        }
        let taken = seat.taken.get(patch) + seen;
        seat.taken.set(patch, taken);
        seat.hand.book(system, patch, seen);
        seat.wins += 1;
        Take::Won { t: seen }
    }

    // The exchange itself. The answer is what was found.
    #[tactic(auto, using(crate::proofs::Steps::exchanges))]
    fn exchange(&self, pass: &mut Pass, patch: usize, seen: u64) -> u64
        requires table { pass.old.table_id ≡ self.now.table }
        requires system { pass.old.me.0.account.system ≡ self.now.system }
        requires actor { pass.old.me.0.account.role ≡ Actor }
        requires patch { patch < patches self.now.system }
        requires seen { self.now.system.threshold ≤ seen }
        ensures table { pass.new.table_id ≡ pass.old.table_id }
        ensures step { pass.new.me ≡ (after_exchange pass.old.me.0 patch seen result, pass.old.me.1) }
        ensures bounds { IsBounded pass.new.me.0.account }
    {
        self.table
            .shared
            .compare_exchange::<Exchanges>(pass, patch + 1, seen, 0)
    }

    /// One addition to the word of a patch of all that the seat has in hand for it; or none where that is nothing.
    pub fn give(&self, seat: &mut Seat, target: usize) -> Option<Given>
        requires seat { IsSeatOf self.now seat.old }
        requires target { target < patches self.now.system }
        ensures of { IsSeatOf self.now seat.new }
        ensures none { IfNone result ((hand_at target seat.old.history.account ≡ 0) × (seat.new ≡ seat.old)) }
        ensures some { IfSome result (λ given. (given.amount ≡ hand_at target seat.old.history.account) × ((0 < given.amount) × (given.amount ≤ given.after))) }
        ensures step { IfSome result (λ given. seat.new ≡ record seat.old { history = after_giving seat.old.history target given.after }) }
    {
        let amount = seat.hand.amount(target);
        if amount == 0 {
            return None;
        }
        let found = self
            .table
            .shared
            .fetch_add::<Gives>(&mut seat.pass, target + 1, amount);
        seat.hand.clear(target);
        Some(Given {
            amount,
            after: found + amount,
        })
    }

    /// Adds the account of a seat with nothing in hand to the desk's, and lets the seat go.
    pub fn retire(&self, desk: &mut Desk, seat: Seat)
        requires desk { IsDeskOf self.now desk.old }
        requires seat { IsSeatOf self.now seat }
        requires empty { HasEmptyHand seat }
        requires out { 0 < desk.old.history.account.out }
        ensures of { IsDeskOf self.now desk.new }
        ensures step { desk.new ≡ record desk.old { history = after_retiring desk.old.history seat.history } }
    {
        let Seat {
            number: _,
            hand,
            taken,
            wins,
            pass,
        } = seat;
        add_amounts(&mut desk.taken, taken.as_slice());
        let hand = hand.into_hand();
        add_amounts(&mut desk.err, hand.fractions());
        desk.parts += 1;
        desk.wins += wins;
        desk.out -= 1;
        self.table.shared.join_seat::<Retires>(&mut desk.pass, pass);
    }

    /// The ledger of a bank whose seats are all retired: its words are the residuals. It balances and is paid, and may be
    /// unfinished. Where there is no memory for it, the bank is dropped.
    pub fn close(self, desk: Desk) -> Result<Ledger, AllocError>
        requires desk { IsDeskOf self desk }
        requires out { desk.history.account.out ≡ 0 }
        ensures balanced { IfOk result (λ ledger. IsBalanced self.system ledger) }
        ensures paid { IfOk result (λ ledger. IsPaid self.system ledger) }
        ensures direct { IfOk result (λ ledger. ledger.direct ≡ self.direct) }
        ensures desk { IfOk result (λ ledger. (ledger.taken ≡ desk.history.account.taken) × (ledger.err ≡ desk.history.account.err)) }
        ensures counts { IfOk result (λ ledger. (ledger.parts ≡ desk.history.account.parts) × (ledger.wins ≡ desk.history.account.wins)) }
    {
        let Bank {
            alloc,
            direct,
            table,
        } = self;
        let Desk {
            taken,
            err,
            parts,
            wins,
            out: _,
            pass,
        } = desk;
        let closed = table.close_with(pass);
        let words = words_of(alloc, &closed, direct.len());
        closed.free();
        let residual = words?;
        Ok(Ledger {
            direct,
            taken,
            residual,
            err,
            parts,
            wins,
        })
    }
}

// The words of the patches of a closed table.
fn words_of(alloc: Global, closed: &Closed<(), Global>, n: usize) -> Result<Amounts, AllocError>
    requires { (slots_len closed.now.words ≡ n + 1) × IsFull closed.now.words }
    ensures { IfOk result (λ words. (length words ≡ n) × ((j : ℕ) → j < n → slice_index words j ≡ slice_index (slots_items closed.now.words) (j + 1))) }
{
    let mut words = Vec::with_capacity(alloc, n)?;
    for j in 0..n {
        words.push(closed.word(j + 1))?;
    }
    Ok(Amounts::from_vec(words))
}

// A world of actors over the words of a system, one event after another.
ghost use Rattle.std.specs.Prelude.{◌≡◌, ◌<◌, ◌≤◌, ◌+◌, ◌&&◌, ◌^◌, ℕ, true, if◌then◌else◌, nat_lt, nat_le, IfOk, IfSome, is_some, length, take, slice_index, sum};
ghost use Rattle.flux_system.specs.System.{patches};
ghost use Rattle.flux_system.specs.declared.TheConstants.{MOST_SEATS};
ghost use Rattle.shot_core.specs.declared.events.Event.TheVariants.{Hire, Take, Give, Retire};
ghost use Rattle.shot_core.specs.declared.events.Stepped.TheVariants.{Moved, Stuck};
ghost use Rattle.shot_core.specs.World.{new_world, desk_of, view_of, is_hired, is_legal, moved, after, after_all, number_moved, AccountsHoldIn, IsConservedIn, WinsAreBoundedIn, WordsAreBoundedIn};
ghost use Rattle.shot_core.specs.AccountViews.{desk_view, account_view};
ghost use Rattle.shot_core.specs.Layouts.{IsInOrder};

use crate::accounts::{Account, DeskAccount};
use crate::events::{Event, Stepped};
use flux_ledger::Amounts;
use flux_system::System;
use std::alloc::{AllocError, Global};
use std::marker::Model;
use std::snapshot::Snapshot;

/// The words of a system, a desk and its actors: what shooters in threads do with them, one event after another.
#[derive(Drop)]
pub struct World {
    system: Snapshot<System>,
    direct: Snapshot<Amounts>,
    words: Amounts,
    desk: DeskAccount,
    // As many as seats; those from `hired` on are still to be hired.
    actors: Vec<Account>,
    hired: usize,
}

impl Model for World {
    ghost use Rattle.std.specs.Prelude.{length};
    ghost use Rattle.shot_core.specs.World.{ShootingWorld};
    ghost use Rattle.shot_core.specs.Layouts.{IsWorld, views_of};

    ghost Value = { ShootingWorld };

    ghost view = { λ w. record { system = w.system.value; direct = w.direct.value; seats = length w.actors.items; words = w.words; views = views_of w.system.value w.direct.value w.desk w.hired w.actors.items } };

    ghost invariant = { λ w. IsWorld w.system.value w.direct.value w.words w.desk w.hired w.actors.items };
}

impl World {
    /// A world of a system and its direct flux, in nanolumens for each patch, with so many seats for actors, of whom
    /// none is hired yet. It takes all memory that its events need.
    pub fn start(
        alloc: Global,
        system: &System,
        direct: &[u64],
        seats: u32,
    ) -> Result<World, AllocError>
        requires lengths { length direct.now ≡ patches system.now }
        requires flux { sum direct.now ≤ 10 ^ 16 }
        requires seats { seats ≤ MOST_SEATS }
        ensures { IfOk result (λ world. world ≡ new_world system.now direct.now seats) }
    {
        let n = system.len();
        let words = Amounts::from_vec(Vec::from_slice(alloc, direct)?);
        let desk = DeskAccount::new(alloc, n)?;
        let mut actors = Vec::with_capacity(alloc, seats as usize)?;
        for _ in 0..seats {
            actors.push(Account::new(alloc, n)?)?;
        }
        Ok(World {
            system: Snapshot::of(system),
            direct: Snapshot::of(&words),
            words,
            desk,
            actors,
            hired: 0,
        })
    }

    /// The word of a patch: what is left there and not yet taken, in nanolumens.
    pub fn word(&self, patch: usize) -> u64
        requires { patch < patches self.now.system }
        ensures { result ≡ slice_index self.now.words patch }
    {
        self.words.get(patch)
    }

    /// The desk's account.
    pub fn desk(&self) -> &DeskAccount
        ensures { desk_view self.now.system self.now.direct result.now ≡ desk_of self.now }
    {
        &self.desk
    }

    /// The account of an actor that was hired.
    pub fn actor(&self, actor: u32) -> Option<&Account>
        ensures hired { is_some result ≡ nat_lt (actor + 1) (length self.now.views) }
        ensures view { IfSome result (λ account. account_view self.now.system self.now.direct account.now ≡ view_of self.now actor) }
    {
        if (actor as usize) < self.hired {
            Some(&self.actors[actor as usize])
        } else {
            None
        }
    }

    /// An event, over the system that the world was started with: it happens exactly where it is legal, and changes
    /// nothing otherwise.
    pub fn step(&mut self, system: &System, event: Event) -> Stepped
        requires { system.now ≡ self.old.system }

        ensures world { self.new ≡ after self.old event }
        ensures answer { result ≡ (if is_legal self.old event then Moved else Stuck) }

        ensures accounts { AccountsHoldIn self.new }
        ensures conserved { IsConservedIn self.new }
        ensures wins { WinsAreBoundedIn self.new }
        ensures words { WordsAreBoundedIn self.new }
    {
        self.keep_order();
        if !self.allows(system, event) {
            return Stepped::Stuck;
        }
        self.act(system, event);
        Stepped::Moved
    }

    /// Some events, in order. The answer is how many of them were legal and happened.
    pub fn run(&mut self, system: &System, events: &[Event]) -> u64
        requires { system.now ≡ self.old.system }

        ensures world { self.new ≡ after_all self.old events.now }
        ensures moved { result ≡ number_moved self.old events.now }

        ensures accounts { (k : ℕ) → AccountsHoldIn (after_all self.old (take k events.now)) }
        ensures conserved { (k : ℕ) → IsConservedIn (after_all self.old (take k events.now)) }
        ensures wins { (k : ℕ) → WinsAreBoundedIn (after_all self.old (take k events.now)) }
        ensures words { (k : ℕ) → WordsAreBoundedIn (after_all self.old (take k events.now)) }
    {
        self.keep_order();
        let mut moved = 0;
        for event in events {
            match self.step(system, *event) {
                Stepped::Moved => moved += 1,
                Stepped::Stuck => {}
            }
        }
        moved
    }

    // That the accounts of every world hold, and that the desk's view is its first.
    fn keep_order(&self)
        ensures { IsInOrder self.now }
    {
        prove!(self.hired <= self.actors.len());
    }

    // The actor was hired and not retired.
    fn is_hired(&self, actor: usize) -> bool
        ensures { result ≡ is_hired self.now actor }
    {
        actor < self.hired && !self.actors[actor].is_retired
    }

    // The event is legal.
    fn allows(&self, system: &System, event: Event) -> bool
        requires { system.now ≡ self.now.system }
        ensures { result ≡ is_legal self.now event }
    {
        match event {
            Event::Hire => self.hired < self.actors.len(),
            Event::Take { actor, patch } => {
                self.is_hired(actor as usize) && self.reaches(system, patch as usize)
            }
            Event::Give { actor, target } => {
                self.is_hired(actor as usize) && (target as usize) < system.len()
            }
            Event::Retire { actor } => {
                self.is_hired(actor as usize) && self.actors[actor as usize].hand.is_empty()
            }
        }
    }

    // There is such a patch, and its word reaches the threshold.
    fn reaches(&self, system: &System, patch: usize) -> bool
        requires { system.now ≡ self.now.system }
        ensures { result ≡ (nat_lt patch (patches self.now.system) && nat_le self.now.system.threshold (slice_index self.now.words patch)) }
    {
        patch < system.len() && system.threshold() <= self.words.get(patch)
    }

    // A legal event.
    fn act(&mut self, system: &System, event: Event)
        requires system { system.now ≡ self.old.system }
        requires legal { is_legal self.old event ≡ true }
        ensures { self.new ≡ moved self.old event }
    {
        match event {
            Event::Hire => self.hire(),
            Event::Take { actor, patch } => self.take(system, actor as usize, patch as usize),
            Event::Give { actor, target } => self.give(actor as usize, target as usize),
            Event::Retire { actor } => self.retire(actor as usize),
        }
    }

    fn hire(&mut self)
        requires { is_legal self.old Hire ≡ true }
        ensures { self.new ≡ moved self.old Hire }
    {
        self.desk.out += 1;
        self.hired += 1;
    }

    fn take(&mut self, system: &System, actor: usize, patch: usize)
        requires system { system.now ≡ self.old.system }
        requires legal { is_legal self.old (Take actor patch) ≡ true }
        ensures { self.new ≡ moved self.old (Take actor patch) }
    {
        let t = self.words.get(patch);
        self.words.set(patch, 0);
        self.actors[actor].take(system, patch, t);
    }

    fn give(&mut self, actor: usize, target: usize)
        requires { is_legal self.old (Give actor target) ≡ true }
        ensures { self.new ≡ moved self.old (Give actor target) }
    {
        let amount = self.actors[actor].give(target);
        let word = self.words.get(target) + amount;
        self.words.set(target, word);
    }

    fn retire(&mut self, actor: usize)
        requires { is_legal self.old (Retire actor) ≡ true }
        ensures { self.new ≡ moved self.old (Retire actor) }
    {
        let account = &mut self.actors[actor];
        self.desk.add(account);
        account.is_retired = true;
    }
}

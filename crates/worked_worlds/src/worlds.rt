// Worlds of actors, event by event, and what an actor has in hand.
ghost use Rattle.std.specs.Prelude.{◌≡◌, ◌<◌, ◌≤◌, ◌^◌, nat_le, IfOk, length, sum};
ghost use Rattle.std.specs.List.{list_all};
ghost use Rattle.flux_system.specs.System.{patches};
ghost use Rattle.flux_system.specs.declared.TheConstants.{MOST_SEATS};
ghost use Rattle.worked_worlds.specs.declared.worlds.TheConstants.{MOST_BOOKED};

use flux_system::System;
use shot_core::{Account, DeskAccount, Event, Hand, Stepped, World};
use std::alloc::{AllocError, Global};
use std::process::Abort;
use std::test::Fail;

// A world with its system, so that tests can take steps in loops: the type keeps that the two belong together.
#[derive(Drop)]
struct Trial {
    system: System,
    world: World,
    ghost alike: { system ≡ world.system },
}

impl Trial {
    fn start(alloc: Global, system: System, direct: &[u64], seats: u32) -> Result<Trial, AllocError>
        requires lengths { length direct.now ≡ patches system }
        requires flux { sum direct.now ≤ 10 ^ 16 }
        requires seats { seats ≤ MOST_SEATS }
    {
        let world = World::start(alloc, &system, direct, seats)?;
        Ok(Trial { system, world })
    }

    fn step(&mut self, event: Event) -> Stepped {
        self.world.step(&self.system, event)
    }

    #[tactic(auto, using(shot_core::proofs::Orders::same_system))]
    fn run(&mut self, events: &[Event]) -> u64 {
        self.world.run(&self.system, events)
    }

    fn word(&self, patch: usize) -> u64
        requires { patch < patches self.now.system }
    {
        self.world.word(patch)
    }
}

fn take(actor: u32, patch: u32) -> Event {
    Event::Take { actor, patch }
}

fn give(actor: u32, target: u32) -> Event {
    Event::Give { actor, target }
}

fn retire(actor: u32) -> Event {
    Event::Retire { actor }
}

// The words of a world, patch by patch.
fn assert_words(rt: &impl Abort, trial: &Trial, words: &[u64]) {
    assert_eq!(rt; trial.system.len(), words.len());
    for (patch, word) in words.iter().enumerate() {
        assert!(rt; patch < trial.system.len());
        assert_eq!(rt; trial.word(patch), *word);
    }
}

// So many of the events happen, and leave these words.
fn assert_run(rt: &impl Abort, trial: &mut Trial, events: &[Event], moved: u64, words: &[u64]) {
    assert_eq!(rt; trial.run(events), moved);
    assert_words(rt, trial, words);
}

pub(crate) fn assert_numbers(rt: &impl Abort, numbers: &[u64], expected: &[u64]) {
    assert_eq!(rt; numbers, expected);
}

// What the desk's actors took, gave and left over at each patch, and its counts of accounts, takes and actors.
fn assert_desk(
    rt: &impl Abort,
    desk: &DeskAccount,
    taken: &[u64],
    given: &[u64],
    err: &[u64],
    counts: (u32, u64, u32),
) {
    assert_numbers(rt, desk.taken.as_slice(), taken);
    assert_numbers(rt, desk.given.as_slice(), given);
    assert_numbers(rt, desk.err.as_slice(), err);
    assert_eq!(rt; (desk.parts, desk.wins, desk.out), counts);
}

// A system of which nothing but its size is known, so that no proof of a test computes with its figures.
pub(crate) fn system_of(
    alloc: Global,
    reflectance: &[u32],
    shares: &[u32],
    threshold: u64,
) -> Result<System, Fail>
    ensures { IfOk result (λ system. patches system ≡ length reflectance.now) }
{
    Ok(System::new(alloc, reflectance, shares, threshold)?)
}

// Two patches that each pass on a quarter of their flux to the other.
fn two_patches(alloc: Global) -> Result<System, Fail>
    ensures { IfOk result (λ system. patches system ≡ 2) }
{
    let shares = [0, 500_000_000, 500_000_000, 0];
    system_of(alloc, &[500, 500], &shares, 10)
}

// A world of the two.
fn small_trial(alloc: Global, direct: [u64; 2], seats: u32) -> Result<Trial, Fail>
    requires flux { sum direct ≤ 10 ^ 16 }
    requires seats { seats ≤ MOST_SEATS }
{
    let system = two_patches(alloc)?;
    Ok(Trial::start(alloc, system, &direct, seats)?)
}

// A take before anyone is hired and a take of a dark patch are stuck; the others happen.
fn events_of_one() -> [Event; 6] {
    [
        take(0, 0),
        Event::Hire,
        take(0, 0),
        take(0, 1),
        give(0, 1),
        retire(0),
    ]
}

#[test]
fn one_actor_takes_gives_and_retires(rt: HostRuntime) -> Result<(), Fail> {
    let alloc = rt.alloc();
    let mut trial = small_trial(alloc, [1_000, 0], 1)?;
    assert_words(&rt, &trial, &[1_000, 0]);
    assert_run(&rt, &mut trial, &events_of_one(), 4, &[0, 250]);
    let desk = trial.world.desk();
    assert_desk(&rt, desk, &[1_000, 0], &[0, 250], &[0, 0], (2, 1, 0));
    Ok(())
}

#[test]
fn two_takes_are_in_one_hand(rt: HostRuntime) -> Result<(), Fail> {
    let alloc = rt.alloc();
    let mut trial = small_trial(alloc, [1_000, 1_000], 1)?;
    let events = [Event::Hire, take(0, 0), take(0, 1), give(0, 0), give(0, 1)];
    assert_run(&rt, &mut trial, &events, 5, &[250, 250]);
    Ok(())
}

#[test]
fn nobody_is_hired_without_a_seat(rt: HostRuntime) -> Result<(), Fail> {
    let alloc = rt.alloc();
    let mut trial = small_trial(alloc, [1_000, 0], 0)?;
    assert_eq!(rt; trial.step(Event::Hire), Stepped::Stuck);
    assert_eq!(rt; trial.step(take(0, 0)), Stepped::Stuck);
    assert!(rt; trial.world.actor(0).is_none());
    Ok(())
}

#[test]
fn there_are_seats_for_64_actors(rt: HostRuntime) -> Result<(), Fail> {
    let alloc = rt.alloc();
    let mut trial = small_trial(alloc, [1_000, 0], 64)?;
    for actor in 0..64 {
        assert!(rt; trial.world.actor(actor).is_none());
        assert_eq!(rt; trial.step(Event::Hire), Stepped::Moved);
        assert!(rt; trial.world.actor(actor).is_some());
    }
    assert_eq!(rt; trial.step(Event::Hire), Stepped::Stuck);
    assert_eq!(rt; trial.world.desk().out, 64);
    Ok(())
}

// Four patches whose shares leave fractions, one of them with a share to itself, and three seats.
fn four_patches(alloc: Global) -> Result<Trial, Fail> {
    let mut shares = Vec::new(alloc);
    for row in [
        [0, 333_333_333, 250_000_001, 416_666_665],
        [123_456_789, 0, 0, 654_321_987],
        [299_999_999, 7, 100_000_003, 400_000_000],
        [250_000_000, 250_000_000, 499_999_999, 0],
    ] {
        shares.extend_from_slice(&row)?;
    }
    let system = system_of(alloc, &[700, 350, 812, 949], shares.as_slice(), 100)?;
    let direct = [100_003, 7_777, 54_321, 90];
    Ok(Trial::start(alloc, system, &direct, 3)?)
}

// Three actors are hired, and two of them have flux of two takes in hand.
fn first_part() -> [(Event, Stepped); 17] {
    [
        // Nobody is hired yet.
        (take(0, 0), Stepped::Stuck),
        (Event::Hire, Stepped::Moved),
        (Event::Hire, Stepped::Moved),
        // The word has less than the threshold.
        (take(0, 3), Stepped::Stuck),
        (take(0, 0), Stepped::Moved),
        (take(1, 2), Stepped::Moved),
        (take(0, 1), Stepped::Moved),
        (give(0, 3), Stepped::Moved),
        (take(1, 3), Stepped::Moved),
        // There is nothing to give, which is legal.
        (give(0, 3), Stepped::Moved),
        // There is no such patch.
        (take(1, 4), Stepped::Stuck),
        (give(0, 4), Stepped::Stuck),
        // The actor isn't hired.
        (give(2, 0), Stepped::Stuck),
        (retire(u32::MAX), Stepped::Stuck),
        // It has something in hand.
        (retire(0), Stepped::Stuck),
        (Event::Hire, Stepped::Moved),
        // No seat is left.
        (Event::Hire, Stepped::Stuck),
    ]
}

// Two of them are retired, and the third has flux in hand.
fn second_part() -> [(Event, Stepped); 14] {
    [
        (give(0, 0), Stepped::Moved),
        (give(0, 1), Stepped::Moved),
        (give(0, 2), Stepped::Moved),
        (retire(0), Stepped::Moved),
        // The actor is retired.
        (take(0, 0), Stepped::Stuck),
        (give(0, 0), Stepped::Stuck),
        (retire(0), Stepped::Stuck),
        (take(2, 0), Stepped::Moved),
        (give(1, 0), Stepped::Moved),
        (give(1, 1), Stepped::Moved),
        (give(1, 2), Stepped::Moved),
        (give(1, 3), Stepped::Moved),
        (retire(1), Stepped::Moved),
        (take(2, 2), Stepped::Moved),
    ]
}

// The numbers of an account, patch by patch.
struct Lists {
    taken: [u64; 4],
    given: [u64; 4],
    hand: [u64; 4],
    fractions: [u64; 4],
}

fn assert_lists(rt: &impl Abort, account: &Account, lists: &Lists) {
    assert_numbers(rt, account.taken.as_slice(), &lists.taken);
    assert_numbers(rt, account.given.as_slice(), &lists.given);
    assert_numbers(rt, account.hand.amounts(), &lists.hand);
    assert_numbers(rt, account.hand.fractions(), &lists.fractions);
    assert!(rt; !account.is_retired);
}

// The accounts after both parts. The desk's fractions at patch 3 are more than a nanolumen together.
fn assert_last_accounts(rt: &impl Abort, world: &World) -> Result<(), Fail> {
    assert_desk(
        rt,
        world.desk(),
        &[100_003, 7_777, 54_321, 31_038],
        &[20_932, 30_697, 36_638, 48_591],
        &[
            404_262_709_898,
            799_118_759_864,
            921_372_872_994,
            1_034_082_511_150,
        ],
        (3, 4, 1),
    );
    assert!(rt; world.actor(0).ok_or("no actor")?.is_retired);
    assert!(rt; world.actor(1).ok_or("no actor")?.is_retired);
    let third = world.actor(2).ok_or("no actor")?;
    assert_lists(
        rt,
        third,
        &Lists {
            taken: [336, 0, 36_638, 0],
            given: [0, 0, 0, 0],
            hand: [8_925, 78, 3_033, 11_998],
            fractions: [
                16_770_249_944,
                400_208_171_992,
                805_689_485_368,
                22_399_608_000,
            ],
        },
    );
    assert_eq!(rt; third.wins, 2);
    assert!(rt; world.actor(3).is_none());
    Ok(())
}

// The accounts after the first part: of the desk, and of the two actors with flux in hand.
fn assert_first_accounts(rt: &impl Abort, world: &World) -> Result<(), Fail> {
    let desk = world.desk();
    assert_eq!(rt; (desk.parts, desk.wins, desk.out), (1, 0, 3));
    let first = world.actor(0).ok_or("no actor")?;
    assert_lists(
        rt,
        first,
        &Lists {
            taken: [100_003, 7_777, 0, 0],
            given: [0, 0, 0, 30_948],
            hand: [336, 23_334, 17_500, 0],
            fractions: [
                43_206_818_550,
                33_309_999_300,
                525_070_002_100,
                573_282_511_150,
            ],
        },
    );
    assert_eq!(rt; first.wins, 2);
    let second = world.actor(1).ok_or("no actor")?;
    assert_lists(
        rt,
        second,
        &Lists {
            taken: [0, 0, 54_321, 31_038],
            given: [0, 0, 0, 0],
            hand: [20_596, 7_363, 19_138, 17_643],
            fractions: [
                361_055_891_348,
                765_808_760_564,
                396_302_870_894,
                460_800_000_000,
            ],
        },
    );
    assert_eq!(rt; second.wins, 2);
    Ok(())
}

// Each event is answered so.
fn assert_steps(rt: &impl Abort, trial: &mut Trial, steps: &[(Event, Stepped)]) {
    for (event, answer) in steps {
        assert_eq!(rt; trial.step(*event), *answer, "{event:?}");
    }
}

// All words and accounts come from a program of the definitions in another language.
#[test]
fn three_actors_take_steps_or_are_stuck(rt: HostRuntime) -> Result<(), Fail> {
    let alloc = rt.alloc();
    let mut trial = four_patches(alloc)?;
    assert_steps(&rt, &mut trial, &first_part());
    assert_words(&rt, &trial, &[0, 0, 0, 0]);
    assert_first_accounts(&rt, &trial.world)?;
    assert_steps(&rt, &mut trial, &second_part());
    assert_words(&rt, &trial, &[20_596, 30_697, 0, 17_643]);
    assert_last_accounts(&rt, &trial.world)
}

// Puts the events of some steps behind others.
fn append(events: &mut Vec<Event>, steps: &[(Event, Stepped)]) -> Result<(), AllocError> {
    for (event, _) in steps {
        events.push(*event)?;
    }
    Ok(())
}

// The events of both parts.
fn all_events(alloc: Global) -> Result<Vec<Event>, AllocError> {
    let mut events = Vec::new(alloc);
    append(&mut events, &first_part())?;
    append(&mut events, &second_part())?;
    Ok(events)
}

#[test]
fn three_actors_run(rt: HostRuntime) -> Result<(), Fail> {
    let alloc = rt.alloc();
    let events = all_events(alloc)?;
    let mut trial = four_patches(alloc)?;
    assert_run(&rt, &mut trial, &events, 20, &[20_596, 30_697, 0, 17_643]);
    assert_last_accounts(&rt, &trial.world)
}

// A take and numbers of a hand up to this fit together.
pub(crate) const MOST_BOOKED: u64 = 1 << 62;

// None of the numbers is greater.
pub(crate) fn has_room(numbers: &[u64]) -> bool
    ensures { result ≡ list_all (λ number. nat_le number MOST_BOOKED) numbers.now }
{
    numbers.iter().all(|number| *number <= MOST_BOOKED)
}

// Books a take that is seen to fit.
fn book(rt: &impl Abort, hand: &mut Hand, system: &System, patch: usize, t: u64) {
    assert!(rt; patch < system.len());
    assert!(rt; t <= MOST_BOOKED);
    assert_eq!(rt; hand.amounts().len(), system.len());
    assert!(rt; has_room(hand.amounts()));
    assert!(rt; has_room(hand.fractions()));
    hand.book(system, patch, t);
}

// The first take is passed on in three portions, and each leaves its fraction to the next.
#[test]
fn a_hand_pools_takes_until_it_is_cleared(rt: HostRuntime) -> Result<(), Fail> {
    let alloc = rt.alloc();
    let system = two_patches(alloc)?;
    let mut hand = Hand::new(alloc, system.len())?;
    assert!(rt; hand.is_empty());
    book(&rt, &mut hand, &system, 0, 25_000_000_000_000_001);
    assert_numbers(&rt, hand.amounts(), &[0, 6_250_000_000_000_000]);
    assert_numbers(&rt, hand.fractions(), &[0, 250_000_000_000]);
    book(&rt, &mut hand, &system, 0, 1_001);
    book(&rt, &mut hand, &system, 1, 3);
    assert!(rt; !hand.is_empty());
    assert_eq!(rt; hand.amounts().len(), 2);
    assert_eq!(rt; hand.clear(1), 6_250_000_000_000_250);
    assert!(rt; hand.is_empty());
    assert_numbers(&rt, hand.fractions(), &[750_000_000_000, 500_000_000_000]);
    Ok(())
}

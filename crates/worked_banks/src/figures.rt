// The figures of flux systems, as they stand before there is a system.
ghost use Rattle.std.specs.Prelude.{◌≡◌, ◌≤◌, ◌^◌, IfOk, length, sum};
ghost use Rattle.flux_system.specs.System.{patches};
ghost use Rattle.flux_system.specs.declared.TheConstants.{MOST_PATCHES};

use flux_system::{MOST_PATCHES, System, SystemFault};
use std::alloc::{AllocError, Global};
use std::process::Abort;
use std::test::Fail;

// The reflectances, the shares, the threshold and the direct flux.
#[derive(Drop)]
pub(crate) struct Figures {
    pub(crate) reflectance: Vec<u32>,
    pub(crate) shares: Vec<u32>,
    pub(crate) threshold: u64,
    pub(crate) direct: Vec<u64>,
}

impl Figures {
    // Two patches that pass on a quarter of what they take, one to the other.
    pub(crate) fn of_two_patches(alloc: Global, direct: &[u64]) -> Result<Figures, AllocError> {
        Ok(Figures {
            reflectance: Vec::from_slice(alloc, &[500, 500])?,
            shares: Vec::from_slice(alloc, &[0, 500_000_000, 500_000_000, 0])?,
            threshold: 10,
            direct: Vec::from_slice(alloc, direct)?,
        })
    }

    // Nine patches: the first passes a twentieth of what it takes on to each of the next seven and a tenth to the last,
    // which passes a quarter back.
    pub(crate) fn of_nine_patches(alloc: Global) -> Result<Figures, AllocError> {
        let mut shares = Vec::from_elem(alloc, 0, 81)?;
        shares.as_mut_slice()[1..8].fill(100_000_000);
        shares.as_mut_slice()[8] = 200_000_000;
        shares.as_mut_slice()[72] = 500_000_000;
        Ok(Figures {
            reflectance: Vec::from_elem(alloc, 500, 9)?,
            shares,
            threshold: 2,
            direct: Vec::from_slice(alloc, &[1_000, 0, 0, 0, 0, 0, 0, 0, 0])?,
        })
    }

    // Whether some patch has enough flux to be taken.
    pub(crate) fn is_lit(&self) -> bool {
        self.direct.iter().any(|flux| *flux >= self.threshold)
    }

    fn system(&self, alloc: Global) -> Result<System, SystemFault> {
        System::new(
            alloc,
            self.reflectance.as_slice(),
            self.shares.as_slice(),
            self.threshold,
        )
    }

    // The system, over which a bank may be opened with the direct flux.
    pub(crate) fn lit_system(&self, rt: &impl Abort, alloc: Global) -> Result<System, Fail>
        ensures lengths { IfOk result (λ system. length self.now.direct.items ≡ patches system) }
        ensures flux { IfOk result (λ _. sum self.now.direct.items ≤ 10 ^ 16) }
    {
        let system = self.system(alloc)?;
        assert_eq!(rt; self.direct.len(), system.len());
        assert!(rt; self.direct.len() <= MOST_PATCHES);
        assert!(rt; total_flux(self.direct.as_slice()) <= 10_000_000_000_000_000);
        Ok(system)
    }
}

// All direct flux together.
fn total_flux(direct: &[u64]) -> u128
    requires { length direct.now ≤ MOST_PATCHES }
    ensures { result ≡ sum direct.now }
{
    direct.iter().map(|flux| u128::from(*flux)).sum()
}

// Which patches get a share of a patch's flux.
#[derive(Clone, Copy, Debug)]
enum Way {
    // None.
    Kept,
    // The patch itself.
    Back,
    // The first patch alone, also of its own flux.
    First,
    // The next patch, and of the last one the first.
    Next,
    // About every third.
    Third,
    // All, also the patch itself.
    Everywhere,
}

// What makes a system: how many patches it has, which of them get shares, the highest reflectance, the threshold, and
// the direct flux of each patch that has some.
#[derive(Clone, Copy, Debug)]
struct Recipe {
    patches: u32,
    way: Way,
    most_reflectance: u32,
    threshold: u64,
    flux: u64,
}

// How many systems there are.
pub(crate) const SYSTEMS: u32 = 13;

fn recipe_of(number: u32) -> Recipe {
    let (patches, way, most_reflectance, threshold, flux) = match number {
        0 => (1, Way::Kept, 950, 1, 10_000_000_000_000_000),
        1 => (1, Way::Back, 950, 1, 10_000_000_000_000_000),
        // All seats fight over one patch, which alone has flux.
        2 => (6, Way::First, 950, 1, 1_000_000_000_000_000),
        3 => (24, Way::Everywhere, 950, 1, 400_000_000_000_000),
        4 => (2, Way::Everywhere, 950, 7, 4_999_999_999_999_999),
        5 => (3, Way::Next, 949, 1_000, 777_777_777_777),
        6 => (5, Way::Third, 950, 12, 99_999_999_999_999),
        7 => (8, Way::Everywhere, 600, 3, 1_234_567_890_123),
        8 => (12, Way::Next, 950, 1, 50_000_000_000_001),
        9 => (16, Way::Third, 950, 1_000_000, 600_000_000_000_007),
        10 => (40, Way::Everywhere, 30, 2, 31_415_926_535),
        // No patch has flux.
        11 => (7, Way::Everywhere, 950, 1, 0),
        // A threshold that words reach a few times each.
        _ => (
            9,
            Way::Everywhere,
            950,
            300_000_000_000_000,
            1_000_000_000_000_000,
        ),
    };
    Recipe {
        patches,
        way,
        most_reflectance,
        threshold,
        flux,
    }
}

// Some number from 980 to 999.
fn weight(number: u32, from: u32, to: u32) -> u32 {
    let mixed = u64::from(number) * 53 + u64::from(from) * 137 + u64::from(to) * 101;
    (mixed % 20) as u32 + 980
}

// What one patch gets of the flux of another. A patch has no more receivers than are counted here, and each gets less
// than an even part of 10^9.
fn share(number: u32, recipe: &Recipe, from: u32, to: u32) -> u32 {
    let n = recipe.patches.max(1);
    let (gets, receivers) = match recipe.way {
        Way::Kept => (false, 1),
        Way::Back => (to == from, 1),
        Way::First => (to == 0, 1),
        Way::Next => (to == from.wrapping_add(1) % n, 1),
        Way::Third => (from.wrapping_add(to) % 3 == 0, n / 3 + 1),
        Way::Everywhere => (true, n),
    };
    if gets {
        (1_000_000 / receivers.max(1)).saturating_mul(weight(number, from, to))
    } else {
        0
    }
}

// The figures of a system that a number makes, from 0 on: they are the same in each run.
pub(crate) fn figures_of(alloc: Global, number: u32) -> Result<Figures, AllocError> {
    let recipe = recipe_of(number);
    let mut reflectance = Vec::new(alloc);
    let mut shares = Vec::new(alloc);
    let mut direct = Vec::new(alloc);
    for from in 0..recipe.patches {
        reflectance.push(recipe.most_reflectance.saturating_sub(from))?;
        let has_none = matches!(recipe.way, Way::First) && from > 0;
        direct.push(if has_none { 0 } else { recipe.flux })?;
        for to in 0..recipe.patches {
            shares.push(share(number, &recipe, from, to))?;
        }
    }
    Ok(Figures {
        reflectance,
        shares,
        threshold: recipe.threshold,
        direct,
    })
}

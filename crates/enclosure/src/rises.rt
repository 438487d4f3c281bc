// The greatest fraction of what is kept at one patch that another patch gets of it.
ghost use Rattle.std.specs.Prelude.{◌<◌};
ghost use Rattle.flux_system.specs.System.{patches};
ghost use Rattle.enclosure.specs.Shapes.{IsGreatest};

use crate::fraction::Fraction;
use flux_system::System;

// Before any patch is looked at.
const NOTHING: Fraction = Fraction { parts: 0, whole: 1 };

// The greatest fraction that patch j gets. A patch whose flux doesn't fall on it raises it by nothing. Its loop is a
// function of its own in the program too, since the numbers of the loop fill the registers.
#[inline(never)]
pub fn greatest_at(system: &System, j: usize) -> Fraction
    requires { j < patches system.now }
    ensures { IsGreatest system.now j result }
{
    let mut greatest = NOTHING;
    let column = system.column(j);
    for entry in column {
        let patch = entry.patch as usize;
        greatest = greatest.greater(Fraction {
            parts: u64::from(system.reflectance(patch)) * u64::from(entry.share),
            whole: system.keep(patch),
        });
    }
    greatest
}

// Where luminaires hang in a room.
ghost use Rattle.std.specs.Prelude.{◌≡◌, ◌≤◌, ◌<◌, IfOk};

use crate::generator::Generator;
use crate::rooms::generate_room;
use fixtures::FixtureSpec;
use room_patches::RoomSpec;
use std::alloc::{AllocError, Global};

/// How far below the ceiling luminaires hang, in millimetres.
const BELOW_CEILING: u32 = 200;

/// The level of the luminaires in per mille.
const LEVEL: u32 = 1000;

/// A room, and how many luminaires hang along its width and how many along its depth.
#[derive(Clone, Copy)]
pub(crate) struct Layout {
    pub(crate) room: RoomSpec,
    pub(crate) columns: u32,
    pub(crate) rows: u32,
}

impl Layout {
    ghost use Rattle.workload.specs.Generator.{generated_layout, luminaire_at, luminaires};
    ghost use Rattle.workload.specs.Shapes.{IsLayout};

    /// The layout of a number.
    pub(crate) fn generate(number: u32) -> Layout
        requires { number ≤ 9999 }
        ensures value { result ≡ generated_layout number }
        ensures valid { IsLayout result }
    {
        let mut generator = Generator::new(number);
        let room = generate_room(&mut generator);
        let columns = 1 + generator.next_draw() % 4;
        let rows = 1 + generator.next_draw() % 3;
        Layout {
            room,
            columns,
            rows,
        }
    }

    /// All luminaires, row by row.
    #[tactic(auto, unfolding(crate::specs::Generator::luminaires, crate::specs::Generator::luminaire_row))]
    pub(crate) fn luminaires(self, alloc: Global) -> Result<Vec<FixtureSpec>, AllocError>
        requires { IsLayout self }
        ensures { IfOk result (λ fixtures. fixtures.items ≡ luminaires self) }
    {
        let mut fixtures = Vec::with_capacity(alloc, (self.columns * self.rows) as usize)?;
        for row in 0..self.rows {
            for column in 0..self.columns {
                fixtures.push(self.luminaire_at(column, row))?;
            }
        }
        Ok(fixtures)
    }

    // The luminaire of a column and a row.
    #[tactic(auto, unfolding(crate::specs::Generator::luminaire_at))]
    fn luminaire_at(self, column: u32, row: u32) -> FixtureSpec
        requires layout { IsLayout self }
        requires column { column < self.columns }
        requires row { row < self.rows }
        ensures { result ≡ luminaire_at self column row }
    {
        FixtureSpec {
            web: 0,
            x: (2 * column + 1) * self.room.width / (2 * self.columns),
            y: (2 * row + 1) * self.room.depth / (2 * self.rows),
            z: self.room.height - BELOW_CEILING,
            rotation: 0,
            level: LEVEL,
        }
    }
}

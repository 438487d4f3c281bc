// The room of a number.
ghost use Rattle.std.specs.Prelude.{◌≡◌};
ghost use Rattle.workload.specs.Generator.{state, generated_room};

use crate::generator::Generator;
use room_patches::RoomSpec;

/// The length of the parts that the room is cut into, in millimetres.
const PART: u32 = 500;

/// The room of the next six draws.
#[tactic(auto, unfolding(crate::specs::Generator::generated_room))]
pub(crate) fn generate_room(generator: &mut Generator) -> RoomSpec
    ensures room { result ≡ generated_room generator.old.state }
    ensures draws { generator.new.state ≡ state generator.old.state 6 }
{
    let width = 4000 + 500 * (generator.next_draw() % 9);
    let depth = 3000 + 500 * (generator.next_draw() % 7);
    let height = 2500 + 250 * (generator.next_draw() % 5);
    let floor = 100 + 50 * (generator.next_draw() % 5);
    let ceiling = 600 + 50 * (generator.next_draw() % 5);
    let walls = 400 + 50 * (generator.next_draw() % 5);
    RoomSpec {
        width,
        depth,
        height,
        nx: width / PART,
        ny: depth / PART,
        nz: height / PART,
        floor,
        ceiling,
        walls: [walls; 4],
    }
}

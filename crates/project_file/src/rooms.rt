// The room of a project file.
ghost use Rattle.std.specs.Prelude.{◌≡◌, IfOk};
ghost use Rattle.duties.specs.Duties.{Answers};
ghost use Rattle.toml.specs.View.{table_view};
ghost use Rattle.project_file.specs.declared.faults.ProjFault.TheVariants as fault;
ghost use Rattle.project_file.specs.declared.tables.TableAt.TheVariants as table_at;
ghost use Rattle.project_file.specs.Tables.{room_fields, walls_field};
ghost use Rattle.project_file.specs.FieldDuties.{field_duty, fields_duty, table_duty};
ghost use Rattle.project_file.specs.Projects.{room_of, walls_of};

use crate::ProjFault;
use crate::sections::Section;
use crate::tables::TableAt;
use crate::versions::Version;
use room_patches::RoomSpec;
use std::alloc::Global;
use toml::Table;

/// The room of a table, in a file of this version.
#[tactic(auto, using(duties::proofs::Orders::steps), unfolding(crate::specs::FieldDuties::table_duty))]
pub fn read_room(alloc: Global, version: Version, table: &Table) -> Result<RoomSpec, ProjFault>
    ensures answer { Answers fault.Memory (table_duty (table_at.Room version) (table_view table.now)) result }
    ensures value { IfOk result (λ room. room ≡ room_of version (table_view table.now)) }
{
    let room = Section {
        alloc,
        table_at: TableAt::Room(version),
        table,
    };
    room.check_keys()?;
    read_room_fields(&room, version)
}

// What the fields of a room's table say.
#[tactic(auto, using(duties::proofs::Orders::steps), unfolding(crate::specs::FieldDuties::fields_duty, crate::specs::Projects::room_of))]
fn read_room_fields(room: &Section, version: Version) -> Result<RoomSpec, ProjFault>
    ensures answer { Answers fault.Memory (fields_duty room.now.table_at (room_fields version) (table_view room.now.table.now)) result }
    ensures value { IfOk result (λ r. r ≡ room_of version (table_view room.now.table.now)) }
{
    let width = room.small("width")?;
    let depth = room.small("depth")?;
    let height = room.small("height")?;
    let (nx, ny, nz) = room.three("counts")?;
    let floor = room.small("floor")?;
    let ceiling = room.small("ceiling")?;
    let walls = read_walls(room, version)?;
    Ok(RoomSpec {
        width,
        depth,
        height,
        nx,
        ny,
        nz,
        floor,
        ceiling,
        walls,
    })
}

// The reflectances of the walls: version 1 has one for all of them.
fn read_walls(room: &Section, version: Version) -> Result<[u32; 4], ProjFault>
    ensures answer { Answers fault.Memory (field_duty room.now.table_at (table_view room.now.table.now) (walls_field version)) result }
    ensures value { IfOk result (λ walls. walls ≡ walls_of version (table_view room.now.table.now)) }
{
    match version {
        Version::One => {
            let wall = room.small("walls")?;
            Ok([wall, wall, wall, wall])
        }
        Version::Two => room.four("walls"),
    }
}

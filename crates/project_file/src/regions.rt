// The regions of a project file.
ghost use Rattle.std.specs.Prelude.{◌≡◌, true, length, IfOk};
ghost use Rattle.std.specs.List.{list_all};
ghost use Rattle.duties.specs.Duties.{Answers, each};
ghost use Rattle.toml.specs.View.{items_view, table_view};
ghost use Rattle.project_file.specs.declared.faults.ProjFault.TheVariants as fault;
ghost use Rattle.project_file.specs.declared.tables.TableAt.TheVariants as table_at;
ghost use Rattle.project_file.specs.Fields.{toml_items, table as tables, is_kind};
ghost use Rattle.project_file.specs.Tables.{region_fields};
ghost use Rattle.project_file.specs.FieldDuties.{fields_duty, table_duty};
ghost use Rattle.project_file.specs.Projects.{region_duty, region_of, regions_of};

use crate::ProjFault;
use crate::sections::{Section, listed_table};
use crate::tables::TableAt;
use room_patches::Region;
use std::alloc::Global;
use toml::{Table, Value};

/// The regions of a list of tables.
pub fn read_regions(alloc: Global, items: &[Value]) -> Result<Vec<Region>, ProjFault>
    requires { list_all (is_kind tables) (toml_items (items_view items.now)) ≡ true }
    ensures answer { let regions = toml_items (items_view items.now) in Answers fault.Memory (each (length regions) (region_duty regions)) result }
    ensures value { IfOk result (λ regions. regions.items ≡ regions_of (toml_items (items_view items.now))) }
    ensures many { IfOk result (λ regions. length regions.items ≡ length items.now) }
{
    let mut regions = Vec::with_capacity(alloc, items.len())?;
    for number in 0..items.len() {
        let table = listed_table(items, number);
        regions.push(read_region(alloc, number, table)?)?;
    }
    Ok(regions)
}

// The region of a table.
fn read_region(alloc: Global, number: usize, table: &Table) -> Result<Region, ProjFault>
    ensures answer { Answers fault.Memory (table_duty (table_at.Region number) (table_view table.now)) result }
    ensures value { IfOk result (λ region. region ≡ region_of (table_view table.now)) }
{
    let section = Section {
        alloc,
        table_at: TableAt::Region(number),
        table,
    };
    section.check_keys()?;
    read_region_fields(&section)
}

// What the fields of a region's table say.
#[tactic(auto, using(duties::proofs::Orders::steps), unfolding(crate::specs::FieldDuties::fields_duty, crate::specs::Projects::region_of))]
fn read_region_fields(section: &Section) -> Result<Region, ProjFault>
    ensures answer { Answers fault.Memory (fields_duty section.now.table_at region_fields (table_view section.now.table.now)) result }
    ensures value { IfOk result (λ region. region ≡ region_of (table_view section.now.table.now)) }
{
    let surface = section.small("surface")?;
    let (u0, u1) = section.two("u")?;
    let (v0, v1) = section.two("v")?;
    let reflectance = section.small("reflectance")?;
    Ok(Region {
        surface,
        u0,
        u1,
        v0,
        v1,
        reflectance,
    })
}

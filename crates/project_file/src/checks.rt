// The checks of a project file.
ghost use Rattle.std.specs.Prelude.{◌≡◌, true, length, IfOk};
ghost use Rattle.std.specs.List.{list_all, All};
ghost use Rattle.duties.specs.Duties.{Answers, each};
ghost use Rattle.toml.specs.View.{items_view, table_view};
ghost use Rattle.project_file.specs.declared.faults.ProjFault.TheVariants as fault;
ghost use Rattle.project_file.specs.declared.tables.TableAt.TheVariants as table_at;
ghost use Rattle.project_file.specs.Fields.{toml_items, table as tables, is_kind};
ghost use Rattle.project_file.specs.Tables.{check_fields};
ghost use Rattle.project_file.specs.FieldDuties.{fields_duty, table_duty};
ghost use Rattle.project_file.specs.Projects.{check_duty, check_spec, check_specs, IsCheck};

use crate::ProjFault;
use crate::sections::{Section, copy_name, listed_table};
use crate::tables::TableAt;
use compliance::CheckSpec;
use std::alloc::Global;
use toml::{Table, Value};

/// The checks of a list of tables.
pub fn read_checks(alloc: Global, items: &[Value]) -> Result<Vec<CheckSpec>, ProjFault>
    requires { list_all (is_kind tables) (toml_items (items_view items.now)) ≡ true }
    ensures answer { let checks = toml_items (items_view items.now) in Answers fault.Memory (each (length checks) (check_duty checks)) result }
    ensures value { IfOk result (λ checks. checks.items ≡ check_specs (toml_items (items_view items.now))) }
    ensures many { IfOk result (λ checks. length checks.items ≡ length items.now) }
    ensures are_checks { IfOk result (λ checks. All IsCheck checks.items) }
{
    let mut checks = Vec::with_capacity(alloc, items.len())?;
    for number in 0..items.len() {
        let table = listed_table(items, number);
        checks.push(read_check(alloc, number, table)?)?;
    }
    Ok(checks)
}

// The check of a table.
fn read_check(alloc: Global, number: usize, table: &Table) -> Result<CheckSpec, ProjFault>
    ensures answer { Answers fault.Memory (table_duty (table_at.Check number) (table_view table.now)) result }
    ensures value { IfOk result (λ check. check ≡ check_spec (table_view table.now)) }
    ensures valid { IfOk result IsCheck }
{
    let section = Section {
        alloc,
        table_at: TableAt::Check(number),
        table,
    };
    section.check_keys()?;
    read_check_fields(&section)
}

// What the fields of a check's table say.
#[tactic(auto, using(duties::proofs::Orders::steps), unfolding(crate::specs::FieldDuties::fields_duty, crate::specs::Projects::check_spec))]
fn read_check_fields(section: &Section) -> Result<CheckSpec, ProjFault>
    ensures answer { Answers fault.Memory (fields_duty section.now.table_at check_fields (table_view section.now.table.now)) result }
    ensures value { IfOk result (λ check. check ≡ check_spec (table_view section.now.table.now)) }
    ensures valid { IfOk result IsCheck }
{
    let label = section.label("name")?;
    let (x0, x1) = section.two("x")?;
    let (y0, y1) = section.two("y")?;
    let z = section.small("z")?;
    let (px, py) = section.two("points")?;
    let maintenance = section.small_within("maintenance", 1, 1_000)?;
    let average = section.small_within("average", 0, 100_000)?;
    let uniformity = section.small_within("uniformity", 0, 1_000)?;
    Ok(CheckSpec {
        name: copy_name(section.alloc, label)?,
        x0,
        x1,
        y0,
        y1,
        z,
        px,
        py,
        maintenance,
        average,
        uniformity,
    })
}

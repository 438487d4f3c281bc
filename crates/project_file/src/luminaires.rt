// The luminaires of a project file.
ghost use Rattle.std.specs.Prelude.{◌≡◌, ◌≢◌, ◌≤◌, ◌<◌, ◌+◌, ◌&&◌, ◌==◌, ℕ, nat_le, List, [], ◌∷◌, true, map, length, codes, IfOk, OnOk, IfErr};
ghost use Rattle.std.specs.List.{list_all, list_any, position_or_len, All};
ghost use Rattle.std.specs.Str.{bytes_eq};
ghost use Rattle.duties.specs.Duties.{Answers, first, each, unless};
ghost use Rattle.toml.specs.Data.{get_member};
ghost use Rattle.toml.specs.View.{items_view, table_view};
ghost use Rattle.project_file.specs.declared.faults.ProjFault.TheVariants as fault;
ghost use Rattle.project_file.specs.declared.tables.TableAt.TheVariants as table_at;
ghost use Rattle.project_file.specs.Names.{fault_name};
ghost use Rattle.project_file.specs.Fields.{toml_items, table as tables, is_kind};
ghost use Rattle.project_file.specs.Tables.{file_field, place_fields};
ghost use Rattle.project_file.specs.FieldDuties.{keys_duty, field_duty, fields_duty};
ghost use Rattle.project_file.specs.Projects.{file_name, file_names, without_repetitions, fixture_spec, fixture_spec_among, fixture_specs_among, luminaire_table_duty, luminaire_duty};
ghost use Rattle.project_file.specs.Shapes.{texts, are_names, with_file};

use crate::ProjFault;
use crate::sections::{Section, copy_name, listed_table};
use crate::tables::TableAt;
use fixtures::FixtureSpec;
use indexmap::IndexSet;
use lux_io::Name;
use std::alloc::Global;
use toml::{Table, Value};

/// The most different files that luminaires may name.
const MOST_FILES: usize = 32;

/// The names of the files and the luminaires of a list of tables.
pub fn read_luminaires(
    alloc: Global,
    items: &[Value],
) -> Result<(Vec<Name>, Vec<FixtureSpec>), ProjFault>
    requires { list_all (is_kind tables) (toml_items (items_view items.now)) ≡ true }
    ensures answer { let luminaires = toml_items (items_view items.now) in Answers fault.Memory (each (length luminaires) (luminaire_duty luminaires)) result }
    ensures files { IfOk result (λ r. let luminaires = toml_items (items_view items.now) in r.0.items ≡ without_repetitions (file_names luminaires)) }
    ensures fixtures { IfOk result (λ r. let luminaires = toml_items (items_view items.now) in r.1.items ≡ fixture_specs_among r.0.items luminaires) }
    ensures many { IfOk result (λ r. length r.1.items ≡ length items.now) }
    ensures few_files { IfOk result (λ r. length r.0.items ≤ 32) }
    ensures webs { IfOk result (λ r. All (λ f. f.web < length r.0.items) r.1.items) }
    ensures used { IfOk result (λ r. (j : ℕ) → j < length r.0.items → list_any (λ f. f.web == j) r.1.items ≡ true) }
{
    let mut files = IndexSet::new(alloc);
    let mut fixtures = Vec::with_capacity(alloc, items.len())?;
    for number in 0..items.len() {
        let table = listed_table(items, number);
        fixtures.push(read_luminaire(alloc, number, table, &mut files)?)?;
    }
    let names = copy_names(alloc, &files)?;
    Ok((names, fixtures))
}

// The luminaire of a table, whose file is then one of the files.
fn read_luminaire<'a>(
    alloc: Global,
    number: usize,
    table: &'a Table,
    files: &mut IndexSet<&'a str>,
) -> Result<FixtureSpec, ProjFault>
    requires { are_names (texts files.old.keys) ≡ true }
    ensures answer { Answers fault.Memory (luminaire_table_duty number (with_file (texts files.old.keys) (file_name (table_view table.now))) (table_view table.now)) result }
    ensures value { IfOk result (λ r. r ≡ fixture_spec_among (texts files.new.keys) (table_view table.now)) }
    ensures files { OnOk result (texts files.new.keys ≡ with_file (texts files.old.keys) (file_name (table_view table.now))) }
    ensures few { OnOk result (length files.new.keys ≤ 32) }
    ensures named { OnOk result (are_names (texts files.new.keys) ≡ true) }
{
    let section = Section {
        alloc,
        table_at: TableAt::Luminaire(number),
        table,
    };
    section.check_keys()?;
    let web = read_web(&section, files)?;
    read_fixture(&section, web)
}

// The number of the luminaire's file, which is then one of the files.
fn read_web<'a>(section: &Section<'a>, files: &mut IndexSet<&'a str>) -> Result<u32, ProjFault>
    requires { are_names (texts files.old.keys) ≡ true }
    ensures answer { Answers fault.Memory (first (field_duty section.now.table_at (table_view section.now.table.now) file_field
        ∷ unless (nat_le (length (with_file (texts files.old.keys) (file_name (table_view section.now.table.now)))) 32) (fault.Range (fault_name section.now.table_at (codes "file"))) ∷ [])) result }
    ensures value { IfOk result (λ web. web ≡ position_or_len (bytes_eq (file_name (table_view section.now.table.now))) (texts files.new.keys)) }
    ensures files { OnOk result (texts files.new.keys ≡ with_file (texts files.old.keys) (file_name (table_view section.now.table.now))) }
    ensures few { OnOk result (length files.new.keys ≤ 32) }
    ensures named { OnOk result (are_names (texts files.new.keys) ≡ true) }
{
    let file = section.text("file")?;
    let web = add_file(files, file)?;
    if files.len() > MOST_FILES {
        return Err(section.range_fault("file"));
    }
    Ok(web as u32)
}

// The number of a file, which is then one of the files.
fn add_file<'a>(files: &mut IndexSet<&'a str>, file: &'a str) -> Result<usize, ProjFault>
    ensures memory { IfErr result (λ f. f ≡ fault.Memory) }
    ensures value { IfOk result (λ number. number ≡ position_or_len (bytes_eq file.now) (texts files.new.keys)) }
    ensures within { IfOk result (λ number. number < length files.new.keys) }
    ensures files { OnOk result (texts files.new.keys ≡ with_file (texts files.old.keys) file.now) }
{
    let (number, _) = files.insert_full(file)?;
    Ok(number)
}

// The luminaire with this web.
#[tactic(auto, using(duties::proofs::Orders::steps), unfolding(crate::specs::FieldDuties::fields_duty, crate::specs::Projects::fixture_spec))]
fn read_fixture(section: &Section, web: u32) -> Result<FixtureSpec, ProjFault>
    ensures answer { Answers fault.Memory (fields_duty section.now.table_at place_fields (table_view section.now.table.now)) result }
    ensures value { IfOk result (λ r. r ≡ fixture_spec web (table_view section.now.table.now)) }
{
    let x = section.small("x")?;
    let y = section.small("y")?;
    let z = section.small("z")?;
    let rotation = section.small("rotation")?;
    let level = section.small("level")?;
    Ok(FixtureSpec {
        web,
        x,
        y,
        z,
        rotation,
        level,
    })
}

// The names of the files.
fn copy_names(alloc: Global, files: &IndexSet<&str>) -> Result<Vec<Name>, ProjFault>
    requires { are_names (texts files.now.keys) ≡ true }
    ensures memory { IfErr result (λ f. f ≡ fault.Memory) }
    ensures value { IfOk result (λ names. names.items ≡ texts files.now.keys) }
{
    let kept = files.as_slice();
    let mut names = Vec::with_capacity(alloc, kept.len())?;
    for file in kept {
        names.push(copy_name(alloc, file)?)?;
    }
    Ok(names)
}

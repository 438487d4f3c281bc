// The reader of a project file.
ghost use Rattle.std.specs.Prelude.{◌≡◌, ◌≢◌, ◌≤◌, ◌<◌, ◌^◌, [], ◌∷◌, Some, None, Ok, Err, true, false, length, codes, IfOk, IfErr};
ghost use Rattle.std.specs.List.{list_all};
ghost use Rattle.duties.specs.Duties.{Answers, first};
ghost use Rattle.toml.specs.Data.{get_member};
ghost use Rattle.toml.specs.View.{items_view, table_view};
ghost use Rattle.project_file.specs.declared.faults.ProjFault.TheVariants.{Memory, Toml};
ghost use Rattle.project_file.specs.declared.tables.TableAt.TheVariants as table_at;
ghost use Rattle.project_file.specs.Fields.{toml_items, is_kind, table as tables, toml_number};
ghost use Rattle.project_file.specs.Tables.{top_fields, new_top_fields};
ghost use Rattle.project_file.specs.FieldDuties.{fields_duty, table_duty};
ghost use Rattle.project_file.specs.Projects.{tree_of, project_of_tree, project_duties, project_in, room_in, solver_in, luminaires_in, checks_in, regions_in, project_of, IsProject};
ghost use Rattle.project_file.specs.Versions.{version_in};

use crate::checks::read_checks;
use crate::luminaires::read_luminaires;
use crate::regions::read_regions;
use crate::rooms::read_room;
use crate::sections::{Section, value_at};
use crate::tables::TableAt;
use crate::versions::Version;
use crate::{ProjFault, Project};
use std::alloc::Global;
use toml::{Table, Value};

/// The greatest threshold, in nanolumens.
const MOST_THRESHOLD: u64 = 10_000_000_000_000_000;

/// The most luminaires.
const MOST_LUMINAIRES: usize = 256;

/// The most checks.
const MOST_CHECKS: usize = 32;

/// The most regions.
const MOST_REGIONS: usize = 16;

// What the top table says.
#[derive(Clone, Copy)]
struct Top<'a> {
    room: &'a Table,
    solver: &'a Table,
    luminaires: &'a [Value],
    checks: &'a [Value],
    regions: &'a [Value],
}

/// The project that the bytes of a file stand for. The first of the file's duties that isn't met gives the error; `Memory`
/// may come in the place of any.
pub fn read_project(alloc: Global, text: &[u8]) -> Result<Project, ProjFault>
    requires { length text.now < 2 ^ 31 }
    ensures ok { IfOk result (λ project. project_of text.now ≡ Ok project) }
    ensures fault { IfErr result (λ f. f ≢ Memory → project_of text.now ≡ Err f) }
    ensures fits { IfOk result (λ project. IsProject project.regions project.threshold project.files project.fixtures project.checks) }
{
    let table = read_tree(alloc, text)?;
    read_table(alloc, &table)
}

// The TOML tree of the bytes.
fn read_tree(alloc: Global, text: &[u8]) -> Result<Table, ProjFault>
    ensures ok { IfOk result (λ t. tree_of text.now ≡ Some (table_view t)) }
    ensures fault { IfErr result (λ f. f ≢ Memory → f ≡ Toml) }
    ensures none { IfErr result (λ f. f ≢ Memory → tree_of text.now ≡ None) }
{
    let Ok(text) = std::str::from_utf8(text) else {
        return Err(ProjFault::Toml);
    };
    match toml::table_from_str(alloc, text) {
        Ok(table) => Ok(table),
        Err(error) if error.is_memory() => Err(ProjFault::Memory),
        Err(_) => Err(ProjFault::Toml),
    }
}

// The project of a tree.
fn read_table(alloc: Global, table: &Table) -> Result<Project, ProjFault>
    ensures ok { IfOk result (λ project. project_of_tree (Some (table_view table.now)) ≡ Ok project) }
    ensures fault { IfErr result (λ f. f ≢ Memory → project_of_tree (Some (table_view table.now)) ≡ Err f) }
    ensures fits { IfOk result (λ project. IsProject project.regions project.threshold project.files project.fixtures project.checks) }
{
    match read_version(table) {
        Some(version) => read_tables(alloc, version, table),
        None => Err(ProjFault::Version),
    }
}

// The version that a tree says, where it says one.
fn read_version(table: &Table) -> Option<Version>
    ensures { result ≡ version_in (table_view table.now) }
{
    Version::numbered(value_at(table, "version")?.as_integer()?)
}

// The project of a tree of this version.
#[tactic(auto, using(duties::proofs::Orders::steps), unfolding(crate::specs::Projects::project_duties))]
fn read_tables(alloc: Global, version: Version, table: &Table) -> Result<Project, ProjFault>
    requires { version_in (table_view table.now) ≡ Some version }
    ensures answer { Answers Memory (first (project_duties version (table_view table.now))) result }
    ensures value { IfOk result (λ project. project ≡ project_in version (table_view table.now)) }
    ensures fits { IfOk result (λ project. IsProject project.regions project.threshold project.files project.fixtures project.checks) }
{
    let top = read_top(alloc, version, table)?;
    let room = read_room(alloc, version, top.room)?;
    let threshold = read_threshold(alloc, top.solver)?;
    let (files, fixtures) = read_luminaires(alloc, top.luminaires)?;
    let checks = read_checks(alloc, top.checks)?;
    let regions = read_regions(alloc, top.regions)?;
    Ok(Project::new(room, regions, threshold, files, fixtures, checks))
}

// What the top table of a file of this version says.
#[tactic(auto, using(duties::proofs::Orders::steps), unfolding(crate::specs::FieldDuties::table_duty))]
fn read_top(alloc: Global, version: Version, table: &Table) -> Result<Top, ProjFault>
    requires { version_in (table_view table.now) ≡ Some version }
    ensures answer { Answers Memory (table_duty (table_at.Top version) (table_view table.now)) result }
    ensures room { IfOk result (λ top. table_view top.room.now ≡ room_in (table_view table.now)) }
    ensures solver { IfOk result (λ top. table_view top.solver.now ≡ solver_in (table_view table.now)) }
    ensures luminaires { IfOk result (λ top. toml_items (items_view top.luminaires.now) ≡ luminaires_in (table_view table.now)) }
    ensures few { IfOk result (λ top. length top.luminaires.now ≤ 256) }
    ensures tables { IfOk result (λ top. list_all (is_kind tables) (toml_items (items_view top.luminaires.now)) ≡ true) }
    ensures checks { IfOk result (λ top. toml_items (items_view top.checks.now) ≡ checks_in (table_view table.now)) }
    ensures few_checks { IfOk result (λ top. length top.checks.now ≤ 32) }
    ensures check_tables { IfOk result (λ top. list_all (is_kind tables) (toml_items (items_view top.checks.now)) ≡ true) }
    ensures regions { IfOk result (λ top. toml_items (items_view top.regions.now) ≡ regions_in version (table_view table.now)) }
    ensures few_regions { IfOk result (λ top. length top.regions.now ≤ 16) }
    ensures region_tables { IfOk result (λ top. list_all (is_kind tables) (toml_items (items_view top.regions.now)) ≡ true) }
{
    let top = Section {
        alloc,
        table_at: TableAt::Top(version),
        table,
    };
    top.check_keys()?;
    read_top_fields(&top, version)
}

// What the fields of the top table say.
#[tactic(auto, using(duties::proofs::Orders::steps, crate::proofs::KnownVersions::version_met), unfolding(crate::specs::FieldDuties::fields_duty))]
fn read_top_fields<'a>(top: &Section<'a>, version: Version) -> Result<Top<'a>, ProjFault>
    requires { version_in (table_view top.now.table.now) ≡ Some version }
    ensures answer { Answers Memory (fields_duty top.now.table_at (top_fields version) (table_view top.now.table.now)) result }
    ensures room { IfOk result (λ r. table_view r.room.now ≡ room_in (table_view top.now.table.now)) }
    ensures solver { IfOk result (λ r. table_view r.solver.now ≡ solver_in (table_view top.now.table.now)) }
    ensures luminaires { IfOk result (λ r. toml_items (items_view r.luminaires.now) ≡ luminaires_in (table_view top.now.table.now)) }
    ensures few { IfOk result (λ r. length r.luminaires.now ≤ 256) }
    ensures tables { IfOk result (λ r. list_all (is_kind tables) (toml_items (items_view r.luminaires.now)) ≡ true) }
    ensures checks { IfOk result (λ r. toml_items (items_view r.checks.now) ≡ checks_in (table_view top.now.table.now)) }
    ensures few_checks { IfOk result (λ r. length r.checks.now ≤ 32) }
    ensures check_tables { IfOk result (λ r. list_all (is_kind tables) (toml_items (items_view r.checks.now)) ≡ true) }
    ensures regions { IfOk result (λ r. toml_items (items_view r.regions.now) ≡ regions_in version (table_view top.now.table.now)) }
    ensures few_regions { IfOk result (λ r. length r.regions.now ≤ 16) }
    ensures region_tables { IfOk result (λ r. list_all (is_kind tables) (toml_items (items_view r.regions.now)) ≡ true) }
{
    let room = top.table("room")?;
    let solver = top.table("solver")?;
    let luminaires = top.tables("luminaire", MOST_LUMINAIRES)?;
    let checks = top.tables("check", MOST_CHECKS)?;
    let regions = list_regions(top, version)?;
    Ok(Top {
        room,
        solver,
        luminaires,
        checks,
        regions,
    })
}

// The tables of the regions, of which version 1 has none.
#[tactic(auto, using(duties::proofs::Orders::steps), unfolding(crate::specs::FieldDuties::fields_duty))]
fn list_regions<'a>(top: &Section<'a>, version: Version) -> Result<&'a [Value], ProjFault>
    ensures answer { Answers Memory (fields_duty top.now.table_at (new_top_fields version) (table_view top.now.table.now)) result }
    ensures value { IfOk result (λ items. toml_items (items_view items.now) ≡ regions_in version (table_view top.now.table.now)) }
    ensures few { IfOk result (λ items. length items.now ≤ 16) }
    ensures tables { IfOk result (λ items. list_all (is_kind tables) (toml_items (items_view items.now)) ≡ true) }
{
    match version {
        Version::One => Ok(&[]),
        Version::Two => top.tables("region", MOST_REGIONS),
    }
}

// The solver's threshold.
#[tactic(auto, using(duties::proofs::Orders::steps), unfolding(crate::specs::FieldDuties::table_duty, crate::specs::FieldDuties::fields_duty))]
fn read_threshold(alloc: Global, table: &Table) -> Result<u64, ProjFault>
    ensures answer { Answers Memory (table_duty table_at.Solver (table_view table.now)) result }
    ensures value { IfOk result (λ n. n ≡ toml_number (get_member (codes "threshold") (table_view table.now))) }
    ensures some { IfOk result (λ n. 1 ≤ n) }
    ensures low { IfOk result (λ n. n ≤ 10 ^ 16) }
{
    let solver = Section {
        alloc,
        table_at: TableAt::Solver,
        table,
    };
    solver.check_keys()?;
    solver.number("threshold", 1, MOST_THRESHOLD)
}

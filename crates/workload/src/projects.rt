// The project of a number.
ghost use Rattle.std.specs.Prelude.{◌≡◌, ◌≤◌, None, All, IfOk, length, codes};
ghost use Rattle.duties.specs.Duties.{first};
ghost use Rattle.fixtures.specs.Placing.{placing_duty};
ghost use Rattle.project_file.specs.Projects.{project_room};
ghost use Rattle.room_patches.specs.Validity.{room_duties};
ghost use Rattle.workload.specs.Generator.{generated_project, generated_web};

use crate::layouts::Layout;
use crate::webs::generate_web;
use lux_io::{Name, NameFault};
use photo_web::Web;
use project_file::Project;
use std::alloc::{AllocError, Global};

/// The residual flux in nanolumens at which the solver of a generated project stops.
const THRESHOLD: u64 = 10_000_000;

/// The name of the one file, which is never read.
const FILE: &str = "gen";

/// The project of a number of at most 9,999, and the web of its luminaires, which is the only one. The error is want of
/// memory.
pub fn project_of(alloc: Global, number: u32) -> Result<(Project, Web), AllocError>
    requires { number ≤ 9999 }
    ensures project { IfOk result (λ r. r.0 ≡ generated_project number) }
    ensures web { IfOk result (λ r. r.1 ≡ generated_web) }
    ensures one_file { IfOk result (λ r. length r.0.files ≡ 1) }
    ensures one_web { IfOk result (λ r. All (λ f. f.web ≡ 0) r.0.fixtures) }
    ensures accepted_room { IfOk result (λ r. first (room_duties (project_room r.0)) ≡ None) }
    ensures accepted_fixtures { IfOk result (λ r. placing_duty r.0.room r.0.fixtures ≡ None) }
{
    let project = generate_project(alloc, number)?;
    let web = generate_web(alloc)?;
    Ok((project, web))
}

// The project of a number.
#[tactic(auto, unfolding(crate::specs::Generator::generated_project))]
fn generate_project(alloc: Global, number: u32) -> Result<Project, AllocError>
    requires { number ≤ 9999 }
    ensures { IfOk result (λ project. project ≡ generated_project number) }
{
    let layout = Layout::generate(number);
    let fixtures = layout.luminaires(alloc)?;
    let files = vec![in alloc; file_name(alloc)?]?;
    Ok(Project::new(
        layout.room,
        Vec::new(alloc),
        THRESHOLD,
        files,
        fixtures,
        Vec::new(alloc),
    ))
}

// The name of the file.
fn file_name(alloc: Global) -> Result<Name, AllocError>
    ensures { IfOk result (λ name. name ≡ codes "gen") }
{
    match Name::new(alloc, FILE) {
        Ok(name) => Ok(name),
        Err(NameFault::Length) => unreachable!(),
        Err(NameFault::Memory) => Err(AllocError),
    }
}

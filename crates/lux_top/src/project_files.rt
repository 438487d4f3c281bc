// The lit room of a project file and of the photometry files that it names.
ghost use Rattle.std.specs.Prelude.{◌≡◌, ◌<◌, ◌^◌, length};
ghost use Rattle.lux_plans.specs.Plans.{Takes, Gives, each, items_of};
ghost use Rattle.lux_top.specs.ProjectFiles.{project_text, project_file, web_file, lit_room, lit_project, lit_room_file};

use crate::photometry_files::read_photometry;
use lit_room::{LightFault, LitRoom};
use lux_answers::Answer;
use lux_io::{Name, Shelf};
use lux_plans::read_file;
use photo_web::Web;
use project_file::{ProjFault, Project, read_project};
use std::alloc::Global;
use std::thread::Threads;

/// The most bytes of a project file.
const PROJECT_LIMIT: usize = 4_194_304;

/// The lit room of a file.
pub(crate) fn read_lit_room<S: Shelf>(
    rt: &(impl Threads + Sync),
    alloc: Global,
    name: &Name,
    shelf: &mut S,
) -> Result<LitRoom, Answer>
    ensures { Takes (lit_room_file name.now) (S.state shelf.old) (S.state shelf.new) result }
{
    match read_project_file(alloc, name, shelf) {
        Ok(project) => light_project(rt, alloc, project, shelf),
        Err(answer) => Err(answer),
    }
}

// The project of a file.
fn read_project_file<S: Shelf>(alloc: Global, name: &Name, shelf: &mut S) -> Result<Project, Answer>
    ensures { Takes (project_file name.now) (S.state shelf.old) (S.state shelf.new) result }
{
    match read_file(alloc, name, PROJECT_LIMIT, shelf) {
        Ok(text) => accept_text(alloc, text),
        Err(answer) => Err(answer),
    }
}

// The project of a text.
fn accept_text(alloc: Global, text: Vec<u8>) -> Result<Project, Answer>
    requires { length text.items < 2 ^ 31 }
    ensures { Gives (project_text text.items) result }
{
    match read_project(alloc, &text) {
        Ok(project) => Ok(project),
        Err(ProjFault::Memory) => Err(Answer::Memory),
        Err(fault) => Err(Answer::Project(fault)),
    }
}

// The lit room of a project, once its photometry files are read.
fn light_project<S: Shelf>(
    rt: &(impl Threads + Sync),
    alloc: Global,
    project: Project,
    shelf: &mut S,
) -> Result<LitRoom, Answer>
    ensures { Takes (lit_project project) (S.state shelf.old) (S.state shelf.new) result }
{
    match read_webs(alloc, project.files(), shelf) {
        Ok(webs) => light(rt, alloc, project, webs),
        Err(answer) => Err(answer),
    }
}

// The webs of some photometry files, one file after another.
fn read_webs<S: Shelf>(alloc: Global, names: &[Name], shelf: &mut S) -> Result<Vec<Web>, Answer>
    ensures { Takes (each web_file names.now) (S.state shelf.old) (S.state shelf.new) (items_of result) }
{
    let mut webs = Vec::new(alloc);
    for name in names {
        let web = match read_web(alloc, name, shelf) {
            Ok(web) => web,
            Err(answer) => return Err(answer),
        };
        webs.push(web)?;
    }
    Ok(webs)
}

// The web of a photometry file.
fn read_web<S: Shelf>(alloc: Global, name: &Name, shelf: &mut S) -> Result<Web, Answer>
    ensures { Takes (web_file name.now) (S.state shelf.old) (S.state shelf.new) result }
{
    match read_photometry(alloc, name, shelf) {
        Ok(photometry) => Ok(photometry.web),
        Err(answer) => Err(answer),
    }
}

/// The lit room of a project and its webs.
pub(crate) fn light(
    rt: &(impl Threads + Sync),
    alloc: Global,
    project: Project,
    webs: Vec<Web>,
) -> Result<LitRoom, Answer>
    requires { length webs.items ≡ length project.files }
    ensures { Gives (lit_room (record { project = project; webs = webs.items })) result }
{
    match LitRoom::new(rt, alloc, project, webs) {
        Ok(lit_room) => Ok(lit_room),
        Err(LightFault::Room(fault)) => Err(Answer::Room(fault)),
        Err(LightFault::Fixture(fault)) => Err(Answer::Fixture(fault)),
        Err(LightFault::Limits(fault)) => Err(Answer::Limits(fault)),
        Err(LightFault::Grid { check, fault }) => Err(Answer::Grid { check, fault }),
        Err(LightFault::Memory) => Err(Answer::Memory),
    }
}

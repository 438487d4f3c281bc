//! The project file: a room and the regions of its surfaces, its luminaires, the solver's threshold, and the checks of the
//! light, as a TOML document.
//!
//! [`read_project`] reads it. What the bytes of a file stand for is defined in `specs/Projects.antt` over the tree that
//! the crate `toml` gives of them: a [`Project`], or the first of the file's duties that isn't met, in the order of its
//! tables and of their fields. `specs/Tables.antt` has the fields of each table in each version of the format,
//! `specs/Fields.antt` what a field may hold, `specs/FieldDuties.antt` the duties of a field and of a table, and
//! `specs/Names.antt` how a fault names a field. [`migration_keeps_the_project`] is a law: a function with an empty body,
//! whose contract says that a file of version 1 and the file of version 2 that stands for it (`specs/Migration.antt`) say
//! the same project.
#![tactic(auto)]

mod checks;
mod faults;
mod luminaires;
mod migration_law;
mod project;
mod reader;
mod regions;
mod rooms;
mod sections;
mod tables;
mod values;
mod versions;

pub use faults::ProjFault;
pub use migration_law::migration_keeps_the_project;
pub use project::Project;
pub use reader::read_project;

//! EULUMDAT photometry files.
//!
//! [`read_ldt`] reads a file in one pass, line by line. What a text stands for is defined in `specs/Eulumdat.antt` as a
//! list of duties over all its lines, the tests of the format in their order. The first that isn't met is the refusal;
//! where all are met, the text is the photometry whose web is the expansion of the stored planes. `specs/Rows.antt` has
//! the lines as numbers, `specs/Heads.antt` the table of lines 1 to 42, `specs/Planes.antt` which planes are stored.
#![tactic(auto)]

mod faults;
mod fields;
mod gaps;
mod head;
mod lists;
mod planes;
mod reader;
mod rows;

pub use faults::LdtFault;
pub use reader::read_ldt;

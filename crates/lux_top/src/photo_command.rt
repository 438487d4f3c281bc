// `photo FILE`: a photometry file is read, and its web written.
ghost use Rattle.lux_plans.specs.Plans.{Takes, Gives};
ghost use Rattle.lux_plans.specs.Runs.{world, Follows};
ghost use Rattle.lux_top.specs.PhotoCommand.{photometry_output, photo_plan, PhotoRow};

use crate::photometry_files::read_photometry;
use compliance::Worst;
use lux_answers::{Answer, Outcome};
use lux_io::{Name, Shelf, Sink};
use lux_plans::{Writing, conclude};
use photo_text::photometry_text;
use photo_web::Photometry;
use std::alloc::Global;

/// Reads the photometry file of that name, and writes its web.
///
/// The answers are `Done` without a ledger, `Read`, `TooLong`, `Photometry`, `Write` and `Memory`.
pub fn photo<S: Shelf, K: Sink, N: Sink>(
    alloc: Global,
    name: &Name,
    shelf: &mut S,
    out: &mut K,
    notes: &mut N,
) -> Outcome
    ensures follows { Follows (photo_plan name.now)
        (world (S.state shelf.old) (K.state out.old) (N.state notes.old))
        (world (S.state shelf.new) (K.state out.new) (N.state notes.new))
        result }
    ensures row { PhotoRow name.now
        (world (S.state shelf.old) (K.state out.old) (N.state notes.old))
        (world (S.state shelf.new) (K.state out.new) (N.state notes.new))
        result.answer }
{
    let decided = decide(alloc, name, shelf);
    conclude(alloc, decided, out, notes)
}

fn decide<S: Shelf>(alloc: Global, name: &Name, shelf: &mut S) -> Result<Writing, Answer>
    ensures { Takes (photo_plan name.now) (S.state shelf.old) (S.state shelf.new) result }
{
    match read_photometry(alloc, name, shelf) {
        Ok(photometry) => write_out(alloc, photometry),
        Err(answer) => Err(answer),
    }
}

// The text of a photometry.
fn write_out(alloc: Global, photometry: Photometry) -> Result<Writing, Answer>
    ensures { Gives (photometry_output photometry) result }
{
    match photometry_text(alloc, &photometry) {
        Ok(bytes) => Ok(Writing {
            answer: Answer::Done {
                ledger: None,
                worst: Worst::AllPass,
            },
            bytes,
        }),
        Err(_) => Err(Answer::Memory),
    }
}

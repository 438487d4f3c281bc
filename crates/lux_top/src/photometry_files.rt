// The photometry of a file.
ghost use Rattle.std.specs.Prelude.{◌≡◌, ◌<◌, ◌^◌, length, Ok, Err, IfOk, IfErr, IfSome};
ghost use Rattle.lux_plans.specs.Plans.{Takes, Gives};
ghost use Rattle.lux_top.specs.PhotometryFiles.{is_lm63, photometry_in, photometry_of_text, photometry_file};

use eulumdat_reader::{LdtFault, read_ldt};
use lm63_reader::{LmFault, read_lm63};
use lux_answers::{Answer, PhotoFault};
use lux_io::{Name, Shelf};
use lux_plans::{copy_of, read_file};
use photo_web::Photometry;
use std::alloc::Global;

/// The most bytes of a photometry file.
const PHOTOMETRY_LIMIT: usize = 4_194_304;

/// The photometry of a file.
pub(crate) fn read_photometry<S: Shelf>(
    alloc: Global,
    name: &Name,
    shelf: &mut S,
) -> Result<Photometry, Answer>
    ensures { Takes (photometry_file name.now) (S.state shelf.old) (S.state shelf.new) result }
{
    match read_file(alloc, name, PHOTOMETRY_LIMIT, shelf) {
        Ok(text) => accept_text(alloc, name, text),
        Err(answer) => Err(answer),
    }
}

// The photometry of a text, which is that of the file of a name.
fn accept_text(alloc: Global, name: &Name, text: Vec<u8>) -> Result<Photometry, Answer>
    requires { length text.items < 2 ^ 31 }
    ensures { Gives (photometry_of_text name.now text.items) result }
{
    match read_text(alloc, &text) {
        Ok(photometry) => Ok(photometry),
        Err(None) => Err(Answer::Memory),
        Err(Some(fault)) => match copy_of(alloc, name) {
            Ok(name) => Err(Answer::Photometry { name, fault }),
            Err(_) => Err(Answer::Memory),
        },
    }
}

// The photometry of a text by the reader of its format. Without a fault the error is want of memory.
#[tactic(auto, unfolding(crate::specs::PhotometryFiles::photometry_in))]
fn read_text(alloc: Global, text: &[u8]) -> Result<Photometry, Option<PhotoFault>>
    requires { length text.now < 2 ^ 31 }
    ensures ok { IfOk result (λ photometry. photometry_in text.now ≡ Ok photometry) }
    ensures fault { IfErr result (λ fault. IfSome fault (λ fault. photometry_in text.now ≡ Err fault)) }
{
    if is_lm63(text) {
        return match read_lm63(alloc, text) {
            Ok(photometry) => Ok(photometry),
            Err(LmFault::Memory) => Err(None),
            Err(fault) => Err(Some(PhotoFault::Lm(fault))),
        };
    }
    match read_ldt(alloc, text) {
        Ok(photometry) => Ok(photometry),
        Err(LdtFault::Memory) => Err(None),
        Err(fault) => Err(Some(PhotoFault::Ldt(fault))),
    }
}

// Whether a text begins as LM-63.
fn is_lm63(text: &[u8]) -> bool
    ensures { result ≡ is_lm63 text.now }
{
    text.starts_with(b"IESNA") || text.starts_with(b"IES:")
}

// The reader of a text.
ghost use Rattle.std.specs.Prelude.{◌≡◌, ◌≢◌, ◌<◌, ◌^◌, Ok, Err, IfOk, IfErr, length};
ghost use Rattle.duties.specs.Duties.{Answers, first};
ghost use Rattle.lux_lines.specs.Walks.{all_tokens};
ghost use Rattle.lm63_reader.specs.declared.faults.LmFault.TheVariants.{Memory};
ghost use Rattle.lm63_reader.specs.Layouts.{head_layout};
ghost use Rattle.lm63_reader.specs.Lm63.{list_duties, layout, head_place, token_duties, photometry, photometry_of, lm_of};

use crate::LmFault;
use crate::fields::read_end;
use crate::front::read_front;
use crate::head::{Head, read_head, skip_tilt};
use crate::lists::{read_angles, read_values, span_symmetry};
use lux_lines::{Tokens, body};
use photo_web::{FULL_TURN, HALF_TURN, PhotoKind, Photometry};
use std::alloc::Global;
use symmetry::expand;

/// The photometry of an LM-63 file. The first test that fails gives the error; `Memory` may come in the place of any.
pub fn read_lm63(alloc: Global, text: &[u8]) -> Result<Photometry, LmFault>
    requires { length text.now < 2 ^ 31 }
    ensures ok { IfOk result (λ p. lm_of text.now ≡ Ok p) }
    ensures fault { IfErr result (λ f. f ≢ Memory → lm_of text.now ≡ Err f) }
{
    read_body(alloc, body(text))
}

// The photometry of a text without what ends a file.
fn read_body(alloc: Global, text: &[u8]) -> Result<Photometry, LmFault>
    requires { length text.now < 2 ^ 31 }
    ensures ok { IfOk result (λ p. photometry_of text.now ≡ Ok p) }
    ensures fault { IfErr result (λ f. f ≢ Memory → photometry_of text.now ≡ Err f) }
{
    let (tilt, included) = read_front(text)?;
    let rest = &text[tilt.start + tilt.text.len()..];
    read_numbers(alloc, Tokens::new(rest, tilt.number), included)
}

// The photometry of the numbers behind the TILT line.
fn read_numbers(alloc: Global, mut source: Tokens, included: bool) -> Result<Photometry, LmFault>
    requires { source.read ≡ 0 }
    ensures answer { Answers Memory (first (token_duties included (all_tokens source.entry))) result }
    ensures value { IfOk result (λ p. p ≡ photometry (all_tokens source.entry) (layout (all_tokens source.entry) (head_place included (all_tokens source.entry)))) }
{
    skip_tilt(&mut source, included)?;
    let head = read_head(&mut source)?;
    read_lists(alloc, source, head)
}

// The photometry of the lists behind the thirteen fields.
fn read_lists(alloc: Global, mut source: Tokens, head: Head) -> Result<Photometry, LmFault>
    ensures answer { Answers Memory (first (list_duties (all_tokens source.entry) (head_layout source.entry.read head))) result }
    ensures value { IfOk result (λ p. p ≡ photometry (all_tokens source.entry) (head_layout source.entry.read head)) }
{
    let gammas = read_angles(alloc, &mut source, 0, HALF_TURN, head.verticals)?;
    let planes = read_angles(alloc, &mut source, 1, FULL_TURN, head.horizontals)?;
    let Some(sym) = span_symmetry(&planes) else {
        return Err(LmFault::HorizontalSpan);
    };
    let count = head.horizontals * head.verticals;
    let rows = read_values(alloc, &mut source, head.factor, count)?;
    read_end(source)?;
    let web = expand(alloc, sym, &planes, &gammas, &rows)?;
    Ok(Photometry {
        kind: PhotoKind::Lm63,
        sym,
        web,
    })
}

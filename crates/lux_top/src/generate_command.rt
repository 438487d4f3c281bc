// `gen NUMBER`: the project of a number is lit, its flux shot by as many shooters as a run has by default and then settled,
// and a summary written.
ghost use Rattle.std.specs.Prelude.{◌≡◌, sum, IfOk};
ghost use Rattle.lux_io.specs.Shelves.{ShelfState};
ghost use Rattle.lux_plans.specs.Plans.{Gives};
ghost use Rattle.lux_plans.specs.Runs.{world, Follows};
ghost use Rattle.lux_top.specs.GenerateCommand.{generate_plan, summary_of, summary_text, GenerateRow};

use crate::crews::shoot;
use crate::project_files::light;
use crate::project_numbers::ProjectNumber;
use compliance::Worst;
use lit_room::LitRoom;
use lux_answers::{Answer, Outcome};
use lux_io::{Gate, Sink};
use lux_plans::{Writing, conclude};
use lux_texts::push_number;
use run_words::ShooterCount;
use std::alloc::{AllocError, Global};
use std::thread::Threads;
use workload::project_of;

/// Lights the room of the project that the number gives, has four shooters shoot its flux, settles what they leave, and
/// writes a summary, which is the same each time. It reads no file.
///
/// The answers are `Done` with a finished ledger, `Room`, `Fixture`, `Limits`, `Grid`, `Write` and `Memory`.
pub fn generate<R: Threads + Sync, K: Sink, N: Sink, G: Gate>(
    rt: &R,
    alloc: Global,
    number: ProjectNumber,
    out: &mut K,
    notes: &mut N,
    gate: &G,
) -> Outcome
    ensures follows { (shelf : ShelfState) → Follows (generate_plan number)
        (world shelf (K.state out.old) (N.state notes.old))
        (world shelf (K.state out.new) (N.state notes.new))
        result }
    ensures row { (shelf : ShelfState) → GenerateRow number
        (world shelf (K.state out.old) (N.state notes.old))
        (world shelf (K.state out.new) (N.state notes.new))
        result.answer }
{
    let decided = decide(rt, alloc, number, gate);
    conclude(alloc, decided, out, notes)
}

fn decide<R: Threads + Sync, G: Gate>(
    rt: &R,
    alloc: Global,
    number: ProjectNumber,
    gate: &G,
) -> Result<Writing, Answer>
    ensures { Gives (generate_plan number) result }
{
    let Ok((project, web)) = project_of(alloc, number.get()) else {
        return Err(Answer::Memory);
    };
    let Ok(webs) = vec![in alloc; web] else {
        return Err(Answer::Memory);
    };
    match light(rt, alloc, project, webs) {
        Ok(lit_room) => summarize(rt, alloc, &lit_room, number, gate),
        Err(answer) => Err(answer),
    }
}

// The summary on a lit room, whose flux is shot.
fn summarize<R: Threads + Sync, G: Gate>(
    rt: &R,
    alloc: Global,
    lit_room: &LitRoom,
    number: ProjectNumber,
    gate: &G,
) -> Result<Writing, Answer>
    ensures { Gives (summary_of number lit_room.now) result }
{
    let shooters = ShooterCount::default();
    let Ok(ledger) = shoot(
        rt,
        alloc,
        lit_room.system(),
        lit_room.flux(),
        shooters,
        gate,
    ) else {
        return Err(Answer::Memory);
    };
    let Ok(bytes) = summary_text(alloc, lit_room, number) else {
        return Err(Answer::Memory);
    };
    let answer = Answer::Done {
        ledger: Some(ledger),
        worst: Worst::AllPass,
    };
    Ok(Writing { answer, bytes })
}

fn summary_text(
    alloc: Global,
    lit_room: &LitRoom,
    number: ProjectNumber,
) -> Result<Vec<u8>, AllocError>
    ensures { IfOk result (λ text. text.items ≡ summary_text number lit_room.now) }
{
    let flux = lit_room.flux();
    let mut text = Vec::new(alloc);
    push_number(&mut text, b"gen ", number.get())?;
    push_number(&mut text, b"\npatches ", flux.len())?;
    push_number(
        &mut text,
        b"\nluminaires ",
        lit_room.project().fixtures().len(),
    )?;
    push_number(&mut text, b"\nshooters ", ShooterCount::default().get())?;
    push_number(&mut text, b"\ndirect ", total(flux))?;
    text.extend_from_slice(b"\nbalanced yes\n")?;
    Ok(text)
}

fn total(flux: &[u64]) -> u128
    ensures { result ≡ sum flux.now }
{
    flux.iter().map(|nanolumens| u128::from(*nanolumens)).sum()
}

// What the words of a command line ask for.
ghost use Rattle.std.specs.Prelude.{◌≡◌, map, IfOk, string_bytes};
ghost use Rattle.lux_words.specs.Words.{no_options, only_operand, two_operands, word_at};
ghost use Rattle.lux_top.specs.Commands.{command_of, number_in, number_of};

use crate::project_numbers::ProjectNumber;
use lux_io::Name;
use lux_lines::numeral;
use lux_words::{Options, operands, word};
use run_words::{RunWords, read_run};
use std::alloc::{AllocError, Global};

/// A command with its values.
#[derive(Debug, Drop)]
pub enum Command {
    /// `solve FILE`
    Solve(Name),
    /// `photo FILE`
    Photo(Name),
    /// `run PROJECT [--shooters N] [--csv]`
    Run(RunWords),
    /// `audit SYSTEM LEDGER`
    Audit { system: Name, ledger: Name },
    /// `gen NUMBER`
    Generate(ProjectNumber),
}

// The word at a place as a name, which every operand is.
fn name_at(alloc: Global, words: &[String], place: usize) -> Result<Name, AllocError>
    ensures { IfOk result (λ name. name ≡ word_at (map string_bytes words.now) place) }
{
    match Name::new(alloc, word(words, place)) {
        Ok(name) => Ok(name),
        Err(_) => Err(AllocError),
    }
}

// The only operand of a command without options, where the words are this command with one.
fn only_operand(alloc: Global, words: &[String], keyword: &str) -> Result<Option<Name>, AllocError>
    ensures { IfOk result (λ name. name ≡ only_operand keyword.now no_options (map string_bytes words.now)) }
{
    let Some(places) = operands(alloc, words, keyword, &Options::none())? else {
        return Ok(None);
    };
    if places.len() != 1 {
        return Ok(None);
    }
    Ok(Some(name_at(alloc, words, places[0])?))
}

// Both operands of a command without options, where the words are this command with two.
fn two_operands(
    alloc: Global,
    words: &[String],
    keyword: &str,
) -> Result<Option<(Name, Name)>, AllocError>
    ensures { IfOk result (λ names. names ≡ two_operands keyword.now no_options (map string_bytes words.now)) }
{
    let Some(places) = operands(alloc, words, keyword, &Options::none())? else {
        return Ok(None);
    };
    if places.len() != 2 {
        return Ok(None);
    }
    let first = name_at(alloc, words, places[0])?;
    let second = name_at(alloc, words, places[1])?;
    Ok(Some((first, second)))
}

/// The command that the words are, or none. Words don't include the program's name.
pub fn read_words(alloc: Global, words: &[String]) -> Result<Option<Command>, AllocError>
    ensures { IfOk result (λ command. command ≡ command_of (map string_bytes words.now)) }
{
    if let Some(name) = only_operand(alloc, words, "solve")? {
        return Ok(Some(Command::Solve(name)));
    }
    if let Some(name) = only_operand(alloc, words, "photo")? {
        return Ok(Some(Command::Photo(name)));
    }
    if let Some(run) = read_run(alloc, words)? {
        return Ok(Some(Command::Run(run)));
    }
    if let Some((system, ledger)) = two_operands(alloc, words, "audit")? {
        return Ok(Some(Command::Audit { system, ledger }));
    }
    match read_number(alloc, words)? {
        Some(number) => Ok(Some(Command::Generate(number))),
        None => Ok(None),
    }
}

// The number of a project, where the words are the command that generates it.
fn read_number(alloc: Global, words: &[String]) -> Result<Option<ProjectNumber>, AllocError>
    ensures { IfOk result (λ number. number ≡ number_of (map string_bytes words.now)) }
{
    let Some(word) = only_operand(alloc, words, "gen")? else {
        return Ok(None);
    };
    Ok(number_in(word.as_str()))
}

fn number_in(word: &str) -> Option<ProjectNumber>
    ensures { result ≡ number_in word.now }
{
    ProjectNumber::new(numeral(word.as_bytes())?)
}

// The words of `run`, read.
ghost use Rattle.std.specs.Prelude.{◌≡◌, ◌&&◌, map, true, drop, Some, codes, IfOk, IfSome, string_bytes, option_and_then, option_copied};
ghost use Rattle.std.specs.List.{list_all};
ghost use Rattle.std.specs.Option.{option_map_or};
ghost use Rattle.std.specs.Str.{bytes_eq};
ghost use Rattle.clap.specs.Words.{first_value, found_of, one_text};
ghost use Rattle.clap.specs.Values.{bool_text};
ghost use Rattle.lux_words.specs.Words.{only_operand, setting_of, word_at};
ghost use Rattle.run_words.specs.RunWords.{run_of, run_options, shooters_in, is_csv};
ghost use Rattle.run_words.specs.Shapes.{is_readable};
ghost use Rattle.run_words.specs.ShooterCounts.{default_shooters};

use crate::report_forms::ReportForm;
use crate::shooter_counts::ShooterCount;
use clap::error::ErrorKind;
use clap::{Arg, ArgAction, ArgMatches, Command};
use lux_io::Name;
use lux_lines::numeral;
use std::alloc::{AllocError, Global};

/// What the words of `run` say.
#[derive(Debug, Drop)]
pub struct RunWords {
    /// The file of the project.
    pub project: Name,
    /// The number of shooters.
    pub shooters: ShooterCount,
    /// The form of the report.
    pub form: ReportForm,
}

/// What the words say where they are the command `run`, or none. The first word is the keyword: words don't include the
/// program's name.
#[tactic(auto, using(crate::proofs::NoRuns::no_run))]
pub fn read_run(alloc: Global, words: &[String]) -> Result<Option<RunWords>, AllocError>
    ensures { IfOk result (λ run. run ≡ run_of (map string_bytes words.now)) }
{
    if !may_be_run(words) {
        return Ok(None);
    }
    let Some(matches) = find_matches(alloc, words)? else {
        return Ok(None);
    };
    let Some(project) = matches.get_str("project") else {
        return Ok(None);
    };
    let Some(shooters) = read_shooters(matches.get_str("shooters")) else {
        return Ok(None);
    };
    let form = if matches.get_flag("csv") {
        ReportForm::Csv
    } else {
        ReportForm::Text
    };
    let Ok(project) = Name::new(alloc, project) else {
        return Err(AllocError);
    };
    Ok(Some(RunWords {
        project,
        shooters,
        form,
    }))
}

// Whether the words have the keyword in front, and `clap` may read all behind it.
fn may_be_run(words: &[String]) -> bool
    ensures { result ≡ (bytes_eq (word_at (map string_bytes words.now) 0) (codes "run") && list_all is_readable (drop 1 (map string_bytes words.now))) }
{
    match words.split_first() {
        Some((keyword, arguments)) => keyword.as_str() == "run" && are_readable(arguments),
        None => false,
    }
}

// Whether `clap` may read a word: it is an option of `run`, or 1 to 255 bytes of which the first is no dash.
fn is_readable(word: &str) -> bool
    ensures { result ≡ is_readable word.now }
{
    let bytes = word.as_bytes();
    word == "--csv"
        || word == "--shooters"
        || 1 <= bytes.len() && bytes.len() <= 255 && bytes[0] != b'-'
}

// Whether `clap` may read all words.
fn are_readable(words: &[String]) -> bool
    ensures { result ≡ list_all is_readable (map string_bytes words.now) }
{
    for word in words {
        if !is_readable(word.as_str()) {
            return false;
        }
    }
    true
}

// The number of shooters that the option's value says, or the default where there is none.
fn read_shooters(value: Option<&str>) -> Option<ShooterCount>
    ensures { result ≡ option_map_or shooters_in (option_copied value.entry) (Some default_shooters) }
{
    match value {
        Some(value) => ShooterCount::new(numeral(value.as_bytes())?),
        None => Some(ShooterCount::default()),
    }
}

// What `clap` finds in words that may be `run`, or none where it refuses them. It takes the keyword for the name of the
// program.
fn find_matches<'a>(
    alloc: Global,
    words: &'a [String],
) -> Result<Option<ArgMatches<'a>>, AllocError>
    requires keyword { word_at (map string_bytes words.now) 0 ≡ codes "run" }
    requires readable { list_all is_readable (drop 1 (map string_bytes words.now)) ≡ true }
    ensures project { IfOk result (λ found. option_and_then (λ m. first_value (found_of m) (codes "project")) found ≡ only_operand (codes "run") run_options (map string_bytes words.now)) }
    ensures shooters { IfOk result (λ found. IfSome found (λ m. first_value (found_of m) (codes "shooters") ≡ setting_of (codes "--shooters") (map string_bytes words.now))) }
    ensures form { IfOk result (λ found. IfSome found (λ m. one_text (found_of m) (codes "csv") ≡ Some (bool_text (is_csv (map string_bytes words.now))))) }
{
    let project = Arg::new(alloc, "project")
        .required(true)
        .action(ArgAction::Set);
    let shooters = Arg::new(alloc, "shooters")
        .long("shooters")
        .action(ArgAction::Set);
    let csv = Arg::new(alloc, "csv")
        .long("csv")
        .action(ArgAction::SetTrue);
    let command = Command::new(alloc, "run")
        .disable_help_flag(true)
        .arg(project)?
        .arg(shooters)?
        .arg(csv)?;
    match command.try_get_matches_from(words) {
        Ok(matches) => Ok(Some(matches)),
        Err(error) => match error.kind() {
            ErrorKind::OutOfMemory => Err(AllocError),
            _ => Ok(None),
        },
    }
}

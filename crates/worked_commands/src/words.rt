// The words of `run`: its project, its shooters, and the form of its report.
use lux_top::{Command, ReportForm, read_words};
use std::alloc::{AllocError, Global};
use std::test::Fail;

/// The words of a line, between its blanks.
pub fn words_of(alloc: Global, line: &str) -> Result<Vec<String>, AllocError> {
    let mut words = Vec::new(alloc);
    for word in line.split(' ') {
        words.push(String::from_str(alloc, word)?)?;
    }
    Ok(words)
}

#[test]
fn words_of_run_are_told_from_others(rt: HostRuntime) -> Result<(), Fail> {
    let alloc = rt.alloc();
    let rows: [(&str, Option<(&str, u32, bool)>); 27] = [
        ("run p", Some(("p", 4, false))),
        ("run p --shooters 1", Some(("p", 1, false))),
        ("run --shooters 64 p", Some(("p", 64, false))),
        ("run --shooters 3 5", Some(("5", 3, false))),
        ("run 3 --shooters 5", Some(("3", 5, false))),
        ("run", None),
        ("run p q", None),
        ("run --shooters 3", None),
        ("run p --shooters", None),
        ("run p --shooters ", None),
        ("run p --shooters 0", None),
        ("run p --shooters 65", None),
        ("run p --shooters 04", None),
        ("run p --shooters +4", None),
        ("run p --shooters 4294967300", None),
        ("run p --shooters 18446744073709551620", None),
        ("run p --shooters --shooters", None),
        ("run --shooters 4 p --shooters 4", None),
        ("run p --shooters=4", None),
        ("run p --csv", Some(("p", 4, true))),
        ("run --csv p --shooters 64", Some(("p", 64, true))),
        ("run --shooters 2 --csv p", Some(("p", 2, true))),
        ("run p --csv --csv", None),
        ("run p --shooters --csv", None),
        ("run p -- q", None),
        ("solve p --shooters 4", None),
        ("photo p --shooters 4", None),
    ];
    for (given, expected) in rows {
        let words = words_of(alloc, given)?;
        match (read_words(alloc, &words)?, expected) {
            (Some(Command::Run(run)), Some((name, count, is_csv))) => {
                assert_eq!(rt; run.project.as_str(), name);
                assert_eq!(rt; run.shooters.get(), count);
                assert_eq!(rt; matches!(run.form, ReportForm::Csv), is_csv);
            }
            (None, None) => (),
            _ => return Err(Fail::from("another command")),
        }
    }
    Ok(())
}

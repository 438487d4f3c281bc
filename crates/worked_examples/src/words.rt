// Words of a command line with options.
use lux_words::{Options, operands};
use std::alloc::{AllocError, Global};
use std::process::Abort;
use std::test::Fail;

fn words_of(alloc: Global, given: &[&str]) -> Result<Vec<String>, AllocError> {
    let mut words = Vec::new(alloc);
    for word in given {
        words.push(String::from_str(alloc, *word)?)?;
    }
    Ok(words)
}

// The places of the operands, where the words have that form.
fn assert_operands(
    rt: &impl Abort,
    alloc: Global,
    words: &[String],
    expected: Option<&[usize]>,
) -> Result<(), Fail> {
    let options = Options {
        flags: &["--csv"],
        settings: &["--shooters"],
    };
    let places = operands(alloc, words, "run", &options)?;
    match (places, expected) {
        (Some(places), Some(expected)) => assert_eq!(rt; places.as_slice(), expected),
        (None, None) => (),
        _ => return Err(Fail::from("another answer")),
    }
    Ok(())
}

#[test]
fn operands_are_told_from_options_and_their_values(rt: HostRuntime) -> Result<(), Fail> {
    let alloc = rt.alloc();
    let rows: [(&[&str], Option<&[usize]>); 10] = [
        (&["run", "p"], Some(&[1])),
        (&["run", "--shooters", "4", "p", "--csv"], Some(&[3])),
        (&["run", "--shooters", "3", "5"], Some(&[3])),
        (&["run", "3", "--shooters", "5"], Some(&[1])),
        (&["run", "--csv", "p", "q"], Some(&[2, 3])),
        (&["run", "p", "--csv", "--csv"], None),
        (&["run", "p", "--shooters"], None),
        (&["run", "p", "--shooters", "--csv"], None),
        (&["run", "p", "--shooters=4"], None),
        (&["solve", "p"], None),
    ];
    for (given, expected) in rows {
        let words = words_of(alloc, given)?;
        assert_operands(&rt, alloc, &words, expected)?;
    }
    Ok(())
}

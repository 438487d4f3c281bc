// `solve` over files in memory: its ledger.
use crate::files::{file, solve_in_memory};
use lux_io::{MemShelf, MemSink, Name};
use lux_top::{Answer, Outcome, Worst};
use std::test::Fail;
use worked_texts::TWO_PATCHES;

#[test]
fn done_names_the_ledger(rt: HostRuntime) -> Result<(), Fail> {
    let alloc = rt.alloc();
    let mut files = Vec::new(alloc);
    files.push(file(alloc, "s", TWO_PATCHES)?)?;
    let mut shelf = MemShelf::new(alloc, &files, &[])?;
    let mut out = MemSink::new(alloc, 1_000, &[])?;
    let mut notes = MemSink::new(alloc, 0, &[])?;
    let name = Name::new(alloc, "s")?;
    let outcome = solve_in_memory(alloc, &name, &mut shelf, &mut out, &mut notes);
    let Outcome { status, answer } = outcome;
    assert_eq!(rt; status, 0);
    let Answer::Done { ledger, worst } = answer else {
        return Err(Fail::from("the answer is not Done"));
    };
    assert_eq!(rt; worst, Worst::AllPass);
    let ledger = ledger.ok_or("the answer has no ledger")?;
    assert_eq!(rt; ledger.taken.as_slice(), [1_062, 265].as_slice());
    Ok(())
}

// `run` over files in memory: a file is read once.
use crate::files::{file, lux_in_memory};
use lux_io::{FreeGate, MemShelf, MemSink};
use lux_top::Answer;
use std::alloc::Global;
use std::test::Fail;
use worked_texts::{CUBE, ONE};

// Two more luminaires of the same file, which are dark.
const TWO_MORE: &str =
    "[[luminaire]]\nfile = \"one.ies\"\nx = 500\ny = 500\nz = 500\nrotation = 0\nlevel = 0\n[[luminaire]]\nfile = \"one.ies\"\nx = 500\ny = 500\nz = 500\nrotation = 0\nlevel = 0\n";

const CUBE_REPORT: &str =
    "lux report 1\npatches 6\nluminaires 3\nshooters 1\nthreshold 5000000000\ndirect 24000000000\nwins 0\nparts 2\npatch 0 direct 4000000000 taken 0 residual 4000000000 err 0 low 4000000000 high 8799999953\npatch 1 direct 4000000000 taken 0 residual 4000000000 err 0 low 4000000000 high 8799999953\npatch 2 direct 4000000000 taken 0 residual 4000000000 err 0 low 4000000000 high 8799999953\npatch 3 direct 4000000000 taken 0 residual 4000000000 err 0 low 4000000000 high 8799999953\npatch 4 direct 4000000000 taken 0 residual 4000000000 err 0 low 4000000000 high 8799999953\npatch 5 direct 4000000000 taken 0 residual 4000000000 err 0 low 4000000000 high 8799999953\nstatus 0\n";

// The shelf of a project and its photometry, in which the reads of these numbers fail.
fn shelf(alloc: Global, project: &str, failing: &[u64]) -> Result<MemShelf, Fail> {
    let mut files = Vec::new(alloc);
    files.push(file(alloc, "cube.toml", project)?)?;
    files.push(file(alloc, "one.ies", ONE)?)?;
    Ok(MemShelf::new(alloc, &files, failing)?)
}

// The third read would fail: the project is read, then the one file of its luminaires, and no other.
#[test]
fn a_file_that_three_luminaires_name_is_read_once(rt: HostRuntime) -> Result<(), Fail> {
    let alloc = rt.alloc();
    let project = format!(in alloc; "{CUBE}{TWO_MORE}")?;
    let mut shelf = shelf(alloc, &project, &[2])?;
    let mut out = MemSink::new(alloc, 1_000, &[])?;
    let mut notes = MemSink::new(alloc, 0, &[])?;
    let outcome = lux_in_memory(
        &rt,
        alloc,
        "run cube.toml --shooters 1",
        &mut shelf,
        &mut out,
        &mut notes,
        &FreeGate,
    )?;
    assert!(rt; matches!(outcome.answer, Answer::Done { .. }));
    assert_eq!(rt; out.written(), CUBE_REPORT.as_bytes());
    assert_eq!(rt; shelf.faults(), 0);
    Ok(())
}

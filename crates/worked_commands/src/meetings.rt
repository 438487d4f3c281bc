// Two shooters of one run that meet.
use crate::files::{file, lux_in_memory};
use lux_io::{Gate, MemShelf, MemSink};
use lux_top::Answer;
use std::sync::atomic::{AtomicBool, Ordering};
use std::test::Fail;

/// An office with four luminaires and a check.
pub const OFFICE: &str =
    "version = 1\n[room]\nwidth = 6000\ndepth = 4000\nheight = 3000\ncounts = [12, 8, 6]\nfloor = 200\nceiling = 700\nwalls = 500\n[solver]\nthreshold = 10000000\n[[luminaire]]\nfile = \"office.ies\"\nx = 1500\ny = 1000\nz = 2800\nrotation = 0\nlevel = 1000\n[[luminaire]]\nfile = \"office.ies\"\nx = 4500\ny = 1000\nz = 2800\nrotation = 0\nlevel = 1000\n[[luminaire]]\nfile = \"office.ies\"\nx = 1500\ny = 3000\nz = 2800\nrotation = 0\nlevel = 1000\n[[luminaire]]\nfile = \"office.ies\"\nx = 4500\ny = 3000\nz = 2800\nrotation = 0\nlevel = 1000\n[[check]]\nname = \"desk\"\nx = [500, 5500]\ny = [500, 3500]\nz = 750\npoints = [10, 6]\nmaintenance = 800\naverage = 500\nuniformity = 600\n";

/// The luminaires of the office.
pub const OFFICE_PANEL: &str =
    "IESNA:LM-63-2002\nTILT=NONE\n1 -1 1 10 1 1 2 0.6 0.6 0\n1 1 36\n0 10 20 30 40 50 60 70 80 90\n0\n1300 1280 1222 1126 996 836 650 445 226 0\n";

// How often one shooter looks for the other.
const LOOKS: u32 = 1_000_000_000;

// A gate that holds each of two shooters, once it has won a take, until the other has won one too. Where the other
// doesn't come, it tires and holds nobody again.
#[derive(Drop)]
struct Meeting {
    first_came: AtomicBool,
    second_came: AtomicBool,
    is_tired: AtomicBool,
}

impl Meeting {
    fn wait_for(&self, other: &AtomicBool) {
        if self.is_tired.load(Ordering::SeqCst) {
            return;
        }
        for _ in 0..LOOKS {
            if other.load(Ordering::SeqCst) {
                return;
            }
        }
        self.is_tired.store(true, Ordering::SeqCst);
    }
}

impl Gate for Meeting {
    fn at(&self, shooter: u32, _turn: u64, won: u64) {
        let (came, other) = match shooter {
            0 => (&self.first_came, &self.second_came),
            1 => (&self.second_came, &self.first_came),
            _ => return,
        };
        if won >= 1 {
            came.store(true, Ordering::SeqCst);
            self.wait_for(other);
        }
    }
}

// Two shooters of a run work at the same time: each is held within its pass until the other has won, so that neither ends
// before the other has begun.
#[test]
fn two_shooters_run_at_the_same_time(rt: HostRuntime) -> Result<(), Fail> {
    let alloc = rt.alloc();
    let mut files = Vec::new(alloc);
    files.push(file(alloc, "office.toml", OFFICE)?)?;
    files.push(file(alloc, "office.ies", OFFICE_PANEL)?)?;
    let mut shelf = MemShelf::new(alloc, &files, &[])?;
    let mut out = MemSink::new(alloc, 100_000, &[])?;
    let mut notes = MemSink::new(alloc, 0, &[])?;
    let gate = Meeting {
        first_came: AtomicBool::new(false),
        second_came: AtomicBool::new(false),
        is_tired: AtomicBool::new(false),
    };
    let outcome = lux_in_memory(
        &rt,
        alloc,
        "run office.toml --shooters 2",
        &mut shelf,
        &mut out,
        &mut notes,
        &gate,
    )?;
    assert!(rt; matches!(outcome.answer, Answer::Done { .. }));
    assert!(rt; gate.first_came.load(Ordering::SeqCst));
    assert!(rt; gate.second_came.load(Ordering::SeqCst));
    assert!(rt; !gate.is_tired.load(Ordering::SeqCst));
    Ok(())
}

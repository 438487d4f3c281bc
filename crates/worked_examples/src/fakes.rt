// Shelves and sinks in memory, and a gate.
use lux_io::{Failed, FreeGate, Gate, MemShelf, MemSink, Name, Shelf, ShelfFault, Sink};
use std::test::Fail;

#[test]
fn a_shelf_fails_where_it_is_told(rt: HostRuntime) -> Result<(), Fail> {
    let alloc = rt.alloc();
    let mut files = Vec::new(alloc);
    files.push((Name::new(alloc, "three")?, b"abc".to_vec(alloc)?))?;
    let three = Name::new(alloc, "three")?;
    let mut shelf = MemShelf::new(alloc, &files, &[1])?;
    let mut bytes = Vec::new(alloc);
    assert_eq!(rt; shelf.read(&three, &mut bytes, 3), Ok(()));
    assert_eq!(rt; bytes.as_slice(), b"abc".as_slice());
    assert_eq!(rt; shelf.read(&three, &mut bytes, 3), Err(ShelfFault::Failed));
    assert_eq!(rt; (shelf.faults(), shelf.overlong()), (1, 0));
    Ok(())
}

#[test]
fn a_sink_takes_half_of_a_piece_that_fails(rt: HostRuntime) -> Result<(), Fail> {
    let alloc = rt.alloc();
    let mut sink = MemSink::new(alloc, 8, &[1])?;
    assert_eq!(rt; sink.put(b"abc"), Ok(()));
    assert_eq!(rt; sink.put(b"defgh"), Err(Failed));
    assert_eq!(rt; sink.written(), b"abcde".as_slice());
    assert_eq!(rt; sink.faults(), 1);
    FreeGate.at(0, 0, 0);
    Ok(())
}

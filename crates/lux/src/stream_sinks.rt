// Standard output and standard error.
ghost use Rattle.std.specs.Prelude.{◌≤◌, length, take, IfOk, OnOk, OnErr};
ghost use Rattle.std.specs.Io.KnownBytes.{Appends, Keeps};
ghost use Rattle.lux.specs.Loads.{AppendsSome};

use crate::tries::MOST_TRIES;
use lux_io::{Failed, Sink};
use std::io;
use std::io::{ErrorKind, Write};

// Writes some of the bytes, from their front. A write that a signal stopped is tried again.
fn write_front<W: Write>(stream: &mut W, bytes: &[u8]) -> io::Result<usize>
    ensures few { IfOk result (λ count. count ≤ length bytes.now) }
    ensures written { IfOk result (λ count. Appends (W.contents stream.old) (W.contents stream.new) (take count bytes.now)) }
    ensures err { OnErr result (Keeps (W.contents stream.old) (W.contents stream.new)) }
{
    for _ in 0..MOST_TRIES {
        match stream.write(bytes) {
            Ok(count) => return Ok(count),
            Err(error) if error.kind() == ErrorKind::Interrupted => {}
            Err(error) => return Err(error),
        }
    }
    Err(io::Error::from(ErrorKind::TimedOut))
}

// Writes all of the piece, and flushes. A write that takes none of what is left is a failure.
fn write_whole<W: Write>(stream: &mut W, piece: &[u8]) -> Result<(), Failed>
    ensures ok { OnOk result (Appends (W.contents stream.old) (W.contents stream.new) piece.now) }
    ensures err { OnErr result (AppendsSome (W.contents stream.old) (W.contents stream.new) piece.now) }
{
    let mut written = 0;
    while written < piece.len() {
        match write_front(stream, &piece[written..]) {
            Ok(count) if count > 0 => written += count,
            _ => return Err(Failed),
        }
    }
    match stream.flush() {
        Ok(()) => Ok(()),
        Err(_) => Err(Failed),
    }
}

/// A stream of bytes. It tells none of them.
#[derive(Drop)]
pub struct StreamSink<W> {
    stream: W,
    faults: u64,
}

impl<W: Write> StreamSink<W> {
    ghost use Rattle.std.specs.Prelude.{◌≡◌};

    /// A sink to this stream, to which nothing was put yet.
    pub fn new(stream: W) -> Self
        ensures none_failed { result.faults ≡ 0 }
    {
        StreamSink { stream, faults: 0 }
    }
}

impl<W: Write> Sink for StreamSink<W> {
    ghost use Rattle.lux_io.specs.Sinks.{Puts};
    ghost use Rattle.lux.specs.Untold.{untold_sink};

    ghost state = { λ s. untold_sink s.faults };

    // Where the stream's own bytes are known, Ok has written the whole piece.
    fn put(&mut self, piece: &[u8]) -> Result<(), Failed>
        ensures puts { Puts (untold_sink self.old.faults) (untold_sink self.new.faults) piece.now result }
        ensures ok { OnOk result (Appends (W.contents self.old.stream) (W.contents self.new.stream) piece.now) }
        ensures err { OnErr result (AppendsSome (W.contents self.old.stream) (W.contents self.new.stream) piece.now) }
    {
        match write_whole(&mut self.stream, piece) {
            Ok(()) => Ok(()),
            Err(Failed) => {
                self.faults = self.faults.saturating_add(1);
                Err(Failed)
            }
        }
    }
}

#[cfg(test)]
mod tests {
    use super::*;
    use std::test::Fail;

    // Takes two bytes at a time, so many in all, and then none.
    #[derive(Drop)]
    struct Narrow {
        taken: Vec<u8>,
        left: usize,
    }

    impl Write for Narrow {
        fn write(&mut self, bytes: &[u8]) -> io::Result<usize> {
            let count = bytes.len().min(self.left).min(2);
            self.taken.extend_from_slice(&bytes[..count])?;
            self.left -= count;
            Ok(count)
        }

        fn flush(&mut self) -> io::Result<()> {
            Ok(())
        }
    }

    #[test]
    fn writes_a_piece_until_nothing_is_taken(rt: HostRuntime) -> Result<(), Fail> {
        let mut sink = StreamSink::new(Narrow {
            taken: Vec::new(rt.alloc()),
            left: 7,
        });
        assert_eq!(rt; sink.put(b"abcde"), Ok(()));
        assert_eq!(rt; sink.put(b""), Ok(()));
        assert_eq!(rt; sink.put(b"fgh"), Err(Failed));
        assert_eq!(rt; sink.faults, 1);
        assert_eq!(rt; sink.stream.taken.as_slice(), b"abcdefg".as_slice());
        Ok(())
    }
}

// Where bytes are put.
ghost use Rattle.lux_io.specs.Sinks.{SinkState, Puts};

use thiserror::Error;

/// A piece wasn't written, or not all of it.
#[derive(Clone, Copy, Debug, PartialEq, Eq, Error)]
#[error("cannot write")]
pub struct Failed;

/// What takes bytes, piece by piece. Contracts see all bytes so far, where the sink tells them, and how many pieces
/// failed.
pub trait Sink {
    ghost state: { Self → SinkState };

    /// Puts the piece behind what was put before. It fails only where the count of failed pieces has risen, and some of
    /// the piece's bytes, from its front, may then have been put. It takes no memory.
    fn put(&mut self, piece: &[u8]) -> Result<(), Failed>
        ensures { Puts (state self.old) (state self.new) piece.now result };
}

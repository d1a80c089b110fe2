// What a program writes.
ghost use Rattle.std.specs.Prelude.{◌<◌, IfOk, length};
ghost use Rattle.std.specs.Io.{WritesAtMost};
ghost use Rattle.std.specs.Io.KnownBytes.{WriteAppends};
ghost use Rattle.vale_ports.specs.Faults.{HasCause};
ghost use Rattle.vale_ports.specs.Streams.{SinkState};

use crate::Failed;

/// A place that bytes are written to.
pub trait Sink {
    /// The bytes that were written, where the sink tells them, and how often it has failed.
    ghost state: { Self → SinkState };

    /// Takes the front of `piece`, at least one byte of a piece that isn't empty, and answers how many bytes it took.
    /// `Failed` comes only where the count of faults rose.
    fn write(&mut self, piece: &[u8]) -> Result<usize, Failed>
        ensures bound { WritesAtMost result piece.now }
        ensures some { 0 < length piece.now → IfOk result (λ count. 0 < count) }
        ensures bytes { WriteAppends (state self.old).written (state self.new).written result piece.now }
        ensures cause { HasCause (state self.old).faults (state self.new).faults result };
}

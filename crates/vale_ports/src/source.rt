// What a program reads.
ghost use Rattle.std.specs.Io.{ReadsAtMost};
ghost use Rattle.std.specs.Io.KnownBytes.{ReadConsumes};
ghost use Rattle.vale_ports.specs.Faults.{HasCause};
ghost use Rattle.vale_ports.specs.Streams.{SourceState};

/// A source or a sink refused a call.
#[derive(Clone, Copy, Debug, PartialEq, Eq)]
pub struct Failed;

/// Bytes to be read.
pub trait Source {
    /// The bytes that are left, where the source tells them, and how often it has failed.
    ghost state: { Self → SourceState };

    /// Fills the front of `buf`, and answers how many bytes it got. Zero bytes into a buffer that isn't empty is the
    /// end. `Failed` comes only where the count of faults rose.
    fn read(&mut self, buf: &mut [u8]) -> Result<usize, Failed>
        ensures bound { ReadsAtMost result buf.new }
        ensures bytes { ReadConsumes (state self.old).left (state self.new).left result buf.new }
        ensures cause { HasCause (state self.old).faults (state self.new).faults result };
}

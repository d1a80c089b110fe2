// Standard input and output, or any other reader and writer.
use crate::{Failed, Sink, Source};
use std::io::{Read, Write};

/// A source over a reader. It tells what the reader tells: of standard input, nothing.
#[derive(Drop)]
pub struct StdSource<R: Read + Drop> {
    inner: R,
    faults: u64,
}

impl<R: Read + Drop> StdSource<R> {
    ghost use Rattle.std.specs.Prelude.{◌≡◌};

    /// A source over this reader.
    pub fn new(inner: R) -> Self
        ensures inner { result.inner ≡ inner }
        ensures faults { result.faults ≡ 0 }
    {
        StdSource { inner, faults: 0 }
    }
}

impl<R: Read + Drop> Source for StdSource<R> {
    ghost state = { λ s. record { left = R.remaining s.inner; faults = s.faults } };

    fn read(&mut self, buf: &mut [u8]) -> Result<usize, Failed> {
        match self.inner.read(buf) {
            Ok(count) => Ok(count),
            Err(_) => {
                self.faults = self.faults.saturating_add(1);
                Err(Failed)
            }
        }
    }
}

/// A sink over a writer. It tells what the writer tells: of standard output, nothing.
#[derive(Drop)]
pub struct StdSink<W: Write + Drop> {
    inner: W,
    faults: u64,
}

impl<W: Write + Drop> StdSink<W> {
    ghost use Rattle.std.specs.Prelude.{◌≡◌};

    /// A sink over this writer.
    pub fn new(inner: W) -> Self
        ensures inner { result.inner ≡ inner }
        ensures faults { result.faults ≡ 0 }
    {
        StdSink { inner, faults: 0 }
    }
}

impl<W: Write + Drop> Sink for StdSink<W> {
    ghost state = { λ s. record { written = W.contents s.inner; faults = s.faults } };

    fn write(&mut self, piece: &[u8]) -> Result<usize, Failed> {
        match self.inner.write(piece) {
            Ok(count) if count > 0 || piece.is_empty() => Ok(count),
            _ => {
                self.faults = self.faults.saturating_add(1);
                Err(Failed)
            }
        }
    }
}

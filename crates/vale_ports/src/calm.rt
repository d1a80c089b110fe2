// Kinds in memory that never fail.
use crate::files::first;
use crate::{Failed, FileList, Shelf, ShelfFault, Sink, Source};
use std::alloc::Global;

/// A shelf in memory, on which every name that wasn't put in is an empty file.
#[derive(Drop)]
pub struct CalmShelf {
    pub files: FileList,
}

impl CalmShelf {
    ghost use Rattle.std.specs.Prelude.{◌≡◌};

    /// A shelf with these files.
    pub fn new(files: FileList) -> Self
        ensures { result.files ≡ files }
    {
        CalmShelf { files }
    }
}

impl Shelf for CalmShelf {
    ghost use Rattle.std.specs.Prelude.{None, Some, [], unwrap_or};
    ghost use Rattle.vale_ports.specs.FileList.{lookup};

    ghost state = { λ s. record { files = Some (λ name. Some (unwrap_or (lookup s.files.files.items name) [])); faults = 0; last_fault = None } };

    fn read(&mut self, alloc: Global, name: &str, limit: u64) -> Result<Vec<u8>, ShelfFault> {
        let bytes = self.files.find(name).unwrap_or(&[]);
        Ok(Vec::from_slice(alloc, first(bytes, limit))?)
    }

    fn write(&mut self, alloc: Global, name: &str, bytes: &[u8]) -> Result<(), ShelfFault> {
        Ok(self.files.put(alloc, name, bytes)?)
    }
}

/// A source over bytes in memory.
#[derive(Drop)]
pub struct CalmSource<'a> {
    left: &'a [u8],
}

impl<'a> CalmSource<'a> {
    ghost use Rattle.std.specs.Prelude.{◌≡◌};

    /// A source of these bytes.
    pub fn new(bytes: &'a [u8]) -> Self
        ensures { result.left.now ≡ bytes.now }
    {
        CalmSource { left: bytes }
    }
}

impl Source for CalmSource<'_> {
    ghost use Rattle.std.specs.Prelude.{Some};

    ghost state = { λ s. record { left = Some s.left.now; faults = 0 } };

    fn read(&mut self, buf: &mut [u8]) -> Result<usize, Failed> {
        let count = buf.len().min(self.left.len());
        let (front, rest) = self.left.split_at(count);
        buf[..count].copy_from_slice(front);
        self.left = rest;
        Ok(count)
    }
}

/// A sink that keeps nothing, and so takes no memory.
#[derive(Clone, Copy, Debug)]
pub struct CalmSink;

impl Sink for CalmSink {
    ghost use Rattle.std.specs.Prelude.{None};

    ghost state = { λ _. record { written = None; faults = 0 } };

    fn write(&mut self, piece: &[u8]) -> Result<usize, Failed> {
        Ok(piece.len())
    }
}

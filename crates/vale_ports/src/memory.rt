// Kinds in memory that fail at the calls that a list names.
ghost use Rattle.std.specs.Prelude.{◌≡◌, ◌<◌, ◌≤◌, [], None, Some};
ghost use Rattle.vale_ports.specs.Faults.{Rose};

use crate::files::first;
use crate::{Failed, FileList, Shelf, ShelfCall, ShelfFault, Sink};
use std::alloc::Global;
use vale_base::Text;

/// A shelf in memory, which fails at the calls whose numbers, counted from 1, `failing` lists. A name that wasn't put
/// in isn't there.
#[derive(Drop)]
pub struct MemShelf<'a> {
    pub files: FileList,
    pub failing: &'a [u64],
    pub calls: u64,
    pub faults: u64,
    pub last_fault: Option<ShelfCall>,
}

impl<'a> MemShelf<'a> {
    /// A shelf with these files.
    pub fn new(files: FileList, failing: &'a [u64]) -> Self
        ensures files { result.files ≡ files }
        ensures failing { result.failing.now ≡ failing.now }
        ensures calls { result.calls ≡ 0 }
        ensures faults { result.faults ≡ 0 }
        ensures last { result.last_fault ≡ None }
    {
        MemShelf {
            files,
            failing,
            calls: 0,
            faults: 0,
            last_fault: None,
        }
    }

    // Counts a call, and says whether it is to fail.
    fn is_failing(&mut self) -> bool
        ensures files { self.new.files ≡ self.old.files }
        ensures faults { self.new.faults ≡ self.old.faults }
        ensures last { self.new.last_fault ≡ self.old.last_fault }
    {
        self.calls = self.calls.saturating_add(1);
        self.failing.contains(&self.calls)
    }

    fn fail(&mut self, call: ShelfCall) -> ShelfFault
        ensures failed { result ≡ ShelfFault.Failed }
        ensures files { self.new.files ≡ self.old.files }
        ensures rose { Rose self.old.faults self.new.faults }
        ensures later { self.old.faults ≤ self.new.faults }
        ensures last { self.new.last_fault ≡ Some call }
    {
        self.faults = self.faults.saturating_add(1);
        self.last_fault = Some(call);
        ShelfFault::Failed
    }
}

impl Shelf for MemShelf<'_> {
    ghost use Rattle.std.specs.Prelude.{Some};
    ghost use Rattle.vale_ports.specs.FileList.{lookup};

    ghost state = { λ s. record { files = Some (lookup s.files.files.items); faults = s.faults; last_fault = s.last_fault } };

    fn read(&mut self, alloc: Global, name: &str, limit: u64) -> Result<Vec<u8>, ShelfFault> {
        let call = ShelfCall {
            name: Text::from_slice(alloc, name.as_bytes())?,
            is_write: false,
        };
        let is_failing = self.is_failing();
        match self.files.find(name) {
            Some(bytes) if !is_failing => Ok(Vec::from_slice(alloc, first(bytes, limit))?),
            _ => Err(self.fail(call)),
        }
    }

    fn write(&mut self, alloc: Global, name: &str, bytes: &[u8]) -> Result<(), ShelfFault> {
        let call = ShelfCall {
            name: Text::from_slice(alloc, name.as_bytes())?,
            is_write: true,
        };
        if self.is_failing() {
            return Err(self.fail(call));
        }
        self.files.put(alloc, name, bytes)?;
        Ok(())
    }
}

/// A sink in memory, which takes at most `most` bytes at a call, and fails at the calls whose numbers, counted from 1,
/// `failing` lists. Where memory for a piece is wanting, it fails too and takes nothing.
#[derive(Drop)]
pub struct MemSink<'a> {
    pub bytes: Vec<u8>,
    pub most: usize,
    pub failing: &'a [u64],
    pub calls: u64,
    pub faults: u64,
    ghost takes_some: { 0 < most },
}

impl<'a> MemSink<'a> {
    /// A sink to which nothing was written yet.
    pub fn new(alloc: Global, most: usize, failing: &'a [u64]) -> Self
        requires { 0 < most }
        ensures bytes { result.bytes.items ≡ [] }
        ensures most { result.most ≡ most }
        ensures failing { result.failing.now ≡ failing.now }
        ensures calls { result.calls ≡ 0 }
        ensures faults { result.faults ≡ 0 }
    {
        MemSink {
            bytes: Vec::new(alloc),
            most,
            failing,
            calls: 0,
            faults: 0,
        }
    }
}

impl Sink for MemSink<'_> {
    ghost state = { λ s. record { written = Some s.bytes.items; faults = s.faults } };

    fn write(&mut self, piece: &[u8]) -> Result<usize, Failed> {
        self.calls = self.calls.saturating_add(1);
        let count = piece.len().min(self.most);
        if self.failing.contains(&self.calls)
            || self.bytes.extend_from_slice(&piece[..count]).is_err()
        {
            self.faults = self.faults.saturating_add(1);
            return Err(Failed);
        }
        Ok(count)
    }
}

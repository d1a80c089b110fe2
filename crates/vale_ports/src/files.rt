// Files in memory, in a list.
ghost use Rattle.std.specs.Prelude.{◌≡◌, ◌≤◌, length, take};

use std::alloc::Global;
use vale_base::{Memory, Text};

/// A name and the bytes under it.
#[derive(Drop)]
pub struct File {
    pub name: Text,
    pub bytes: Text,
}

/// Files, of which the first with a name counts.
#[derive(Drop)]
pub struct FileList {
    pub files: Vec<File>,
}

impl FileList {
    ghost use Rattle.std.specs.Prelude.{◌≡◌, [], ◌∷◌, None, Some, MatchOption, OnOk, OnErr};
    ghost use Rattle.vale_ports.specs.FileList.{lookup};

    /// No files. It takes no memory.
    pub fn new(alloc: Global) -> Self
        ensures { result.files.items ≡ [] }
    {
        FileList {
            files: Vec::new(alloc),
        }
    }

    /// The bytes under a name, or none where no file has it.
    pub fn find(&self, name: &str) -> Option<&[u8]>
        ensures { MatchOption result (lookup self.now.files.items name.now ≡ None) (λ bytes. lookup self.now.files.items name.now ≡ Some bytes.now) }
    {
        for file in &self.files {
            if file.name.as_slice() == name.as_bytes() {
                return Some(file.bytes.as_slice());
            }
        }
        None
    }

    /// Puts a file there, in front of any other with its name. Where memory is wanting, nothing changes.
    pub fn put(&mut self, alloc: Global, name: &str, bytes: &[u8]) -> Result<(), Memory>
        ensures ok { OnOk result (self.new.files.items ≡ record { name = name.now; bytes = bytes.now } ∷ self.old.files.items) }
        ensures err { OnErr result (self.new.files.items ≡ self.old.files.items) }
    {
        let file = File {
            name: Text::from_slice(alloc, name.as_bytes())?,
            bytes: Text::from_slice(alloc, bytes)?,
        };
        self.files.insert(0, file)?;
        Ok(())
    }
}

/// The first bytes, or all where there are fewer.
pub fn first(bytes: &[u8], limit: u64) -> &[u8]
    ensures value { result.now ≡ take limit bytes.now }
    ensures bound { length result.now ≤ limit }
{
    let count = limit.min(bytes.len() as u64);
    &bytes[..count as usize]
}

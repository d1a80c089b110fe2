// Files of the current folder.
ghost use Rattle.std.specs.Prelude.{◌≤◌, IfOk, length};

use crate::{Shelf, ShelfCall, ShelfFault};
use std::alloc::Global;
use std::fs;
use std::io::{self, ErrorKind, Read};
use std::rt::Files;
use vale_base::Text;

/// A shelf over the files of the current folder. It tells nothing of what they hold.
#[derive(Drop)]
pub struct DirShelf<R: Files + Drop> {
    rt: R,
    faults: u64,
    last_fault: Option<ShelfCall>,
}

impl<R: Files + Drop> DirShelf<R> {
    ghost use Rattle.std.specs.Prelude.{◌≡◌, IfOk, None};
    ghost use Rattle.vale_ports.specs.Shelf.{HasShelfCause, untold};

    /// The shelf of the current folder.
    pub fn new(rt: R) -> Self
        ensures faults { result.faults ≡ 0 }
        ensures last { result.last_fault ≡ None }
    {
        DirShelf {
            rt,
            faults: 0,
            last_fault: None,
        }
    }

    // Hands a result of the system on, and keeps the call where it failed.
    fn told<T: Drop>(&mut self, call: ShelfCall, answer: io::Result<T>) -> Result<T, ShelfFault>
        ensures value { IfOk result (λ value. answer ≡ Ok value) }
        ensures cause { HasShelfCause (untold self.old.faults self.old.last_fault) (untold self.new.faults self.new.last_fault) call result }
    {
        match answer {
            Ok(value) => Ok(value),
            Err(error) if error.kind() == ErrorKind::OutOfMemory => Err(ShelfFault::Memory),
            Err(_) => {
                self.faults = self.faults.saturating_add(1);
                self.last_fault = Some(call);
                Err(ShelfFault::Failed)
            }
        }
    }
}

// The first bytes of a file.
fn read_first<R: Files>(rt: &R, alloc: Global, name: &str, limit: u64) -> io::Result<Vec<u8>>
    ensures { IfOk result (λ bytes. length bytes.items ≤ limit) }
{
    let mut bytes = Vec::new(alloc);
    fs::open(rt, name)?.take(limit).read_to_end(&mut bytes)?;
    if bytes.len() as u64 > limit {
        bytes.truncate(limit as usize);
    }
    Ok(bytes)
}

impl<R: Files + Drop> Shelf for DirShelf<R> {
    ghost use Rattle.vale_ports.specs.Shelf.{untold};

    ghost state = { λ s. untold s.faults s.last_fault };

    fn read(&mut self, alloc: Global, name: &str, limit: u64) -> Result<Vec<u8>, ShelfFault> {
        let call = ShelfCall {
            name: Text::from_slice(alloc, name.as_bytes())?,
            is_write: false,
        };
        let answer = read_first(&self.rt, alloc, name, limit);
        self.told(call, answer)
    }

    fn write(&mut self, alloc: Global, name: &str, bytes: &[u8]) -> Result<(), ShelfFault> {
        let call = ShelfCall {
            name: Text::from_slice(alloc, name.as_bytes())?,
            is_write: true,
        };
        let answer = fs::write(&self.rt, name, bytes);
        self.told(call, answer)
    }
}

// Files by their names.
ghost use Rattle.std.specs.Prelude.{◌≡◌, ◌≤◌, true, false, IfOk, OnOk, length};

use std::alloc::{AllocError, AllocFailed, Global};
use vale_base::{Memory, Text};

/// Why a call of a shelf gave nothing: the shelf failed, or memory was wanting.
#[derive(Clone, Copy, Debug, PartialEq, Eq)]
pub enum ShelfFault {
    Failed,
    Memory,
}

/// A call of a shelf: the file's name, and whether it was a write.
#[derive(Drop)]
pub struct ShelfCall {
    pub name: Text,
    pub is_write: bool,
}

impl From<Memory> for ShelfFault {
    ghost use Rattle.std.specs.Prelude.{◌≡◌};
    ghost use Rattle.vale_ports.specs.declared.shelf.ShelfFault.TheVariants.{Memory as WantsMemory};

    ghost from_gives = { λ _ e. e ≡ WantsMemory };

    fn from(_: Memory) -> Self {
        ShelfFault::Memory
    }
}

impl From<AllocError> for ShelfFault {
    ghost use Rattle.std.specs.Prelude.{◌≡◌};
    ghost use Rattle.vale_ports.specs.declared.shelf.ShelfFault.TheVariants.{Memory as WantsMemory};

    ghost from_gives = { λ _ e. e ≡ WantsMemory };

    fn from(_: AllocError) -> Self {
        ShelfFault::Memory
    }
}

impl<T: Drop> From<AllocFailed<T>> for ShelfFault {
    ghost use Rattle.std.specs.Prelude.{◌≡◌};
    ghost use Rattle.vale_ports.specs.declared.shelf.ShelfFault.TheVariants.{Memory as WantsMemory};

    ghost from_gives = { λ _ e. e ≡ WantsMemory };

    fn from(_: AllocFailed<T>) -> Self {
        ShelfFault::Memory
    }
}

/// Files by their names.
pub trait Shelf {
    ghost use Rattle.vale_ports.specs.Shelf.{ShelfState, ReadsFile, KeepsFiles, KeepsOtherFiles, HasFile, HasShelfCause};

    /// The files, where the shelf tells them, how often it has failed, and the last call that failed.
    ghost state: { Self → ShelfState };

    /// The first `limit` bytes of a file, or all where there are fewer. A name that isn't there is a fault. `Failed`
    /// comes only where the count of faults rose; the last fault is then this call. `Memory` leaves both as they were.
    fn read(&mut self, alloc: Global, name: &str, limit: u64) -> Result<Vec<u8>, ShelfFault>
        ensures bytes { IfOk result (λ bytes. ReadsFile (state self.old).files name.now limit bytes.items) }
        ensures bound { IfOk result (λ bytes. length bytes.items ≤ limit) }
        ensures same { KeepsFiles (state self.old).files (state self.new).files }
        ensures cause { HasShelfCause (state self.old) (state self.new) (record { name = name.now; is_write = false }) result };

    /// Puts a file there, in place of any other with its name. After `Failed` what stands under its name isn't known,
    /// and after `Memory` nothing changed.
    fn write(&mut self, alloc: Global, name: &str, bytes: &[u8]) -> Result<(), ShelfFault>
        ensures ok { OnOk result (HasFile (state self.new).files name.now bytes.now) }
        ensures others { KeepsOtherFiles (state self.old).files (state self.new).files name.now }
        ensures memory { result ≡ Err ShelfFault.Memory → KeepsFiles (state self.old).files (state self.new).files }
        ensures cause { HasShelfCause (state self.old) (state self.new) (record { name = name.now; is_write = true }) result };
}

//! The trait of tile stores.
ghost use Rattle.std.specs.Prelude.{◌≡◌, ◌≤◌, ℕ, length, Option, IfOk, IfSome};
ghost use Rattle.farm_base.specs.Outside.{Outside};
ghost use Rattle.tile_store.specs.Stores.{StoreTold, StorePuts, Gets, whole, part};

use crate::staging::Staged;
use farm_base::{FileFault, NoMemory, file_fault};
use std::alloc::{AllocError, AllocFailed, Global};
use std::io;

/// Why a call on a store gave no answer.
#[derive(Clone, Copy, Debug, PartialEq, Eq)]
pub enum StoreFault {
    /// The store could not do it.
    Failed,
    /// Want of memory; all is as before.
    NoMemory,
}

impl From<NoMemory> for StoreFault {
    ghost use Rattle.tile_store.specs.declared.stores.StoreFault.TheVariants.{NoMemory};

    ghost from_gives = { λ _ e. e ≡ NoMemory };

    fn from(_refused: NoMemory) -> StoreFault {
        StoreFault::NoMemory
    }
}

impl From<FileFault> for StoreFault {
    ghost use Rattle.farm_base.specs.declared.files.FileFault.TheVariants as file;
    ghost use Rattle.tile_store.specs.declared.stores.StoreFault.TheVariants.{Failed, NoMemory};

    ghost from_gives = { λ fault e. (fault ≡ file.Failed → e ≡ Failed) × (fault ≡ file.NoMemory → e ≡ NoMemory) };

    fn from(fault: FileFault) -> StoreFault {
        match fault {
            FileFault::Failed => StoreFault::Failed,
            FileFault::NoMemory => StoreFault::NoMemory,
        }
    }
}

impl From<io::Error> for StoreFault {
    ghost use Rattle.std.specs.IoError.{error_kind};
    ghost use Rattle.std.specs.declared.io.ErrorKind.TheVariants.{OutOfMemory};
    ghost use Rattle.tile_store.specs.declared.stores.StoreFault.TheVariants.{NoMemory};

    ghost from_gives = { λ error e. (error_kind error ≡ OutOfMemory → e ≡ NoMemory) × (e ≡ NoMemory → error_kind error ≡ OutOfMemory) };

    fn from(error: io::Error) -> StoreFault {
        StoreFault::from(file_fault(&error))
    }
}

impl From<AllocError> for StoreFault {
    ghost use Rattle.tile_store.specs.declared.stores.StoreFault.TheVariants.{NoMemory};

    ghost from_gives = { λ _ e. e ≡ NoMemory };

    fn from(_refused: AllocError) -> StoreFault {
        StoreFault::NoMemory
    }
}

impl<T: Drop> From<AllocFailed<T>> for StoreFault {
    ghost use Rattle.tile_store.specs.declared.stores.StoreFault.TheVariants.{NoMemory};

    ghost from_gives = { λ _ e. e ≡ NoMemory };

    fn from(_refused: AllocFailed<T>) -> StoreFault {
        StoreFault::NoMemory
    }
}

/// A store of bytes under paths. Where a store tells, contracts know what each path holds and which
/// calls failed so far; a real store does not tell. No call changes whether it tells.
pub trait TileStore {
    /// What each path holds and which calls failed, where the store tells, and how many calls failed: a
    /// count that never falls, and stands still at its last value, `2^64 - 1`.
    ghost state: { Self → Outside StoreTold };

    /// Makes the path hold the bytes, and changes no other path. Failed comes only where the count of
    /// faults rose in this call; then what the path holds is unknown, and all other paths are as before.
    fn put(&mut self, alloc: Global, path: &str, bytes: &[u8]) -> Result<(), StoreFault>
        ensures { StorePuts (state self.old) (state self.new) path.now bytes.now result };

    /// As `put`, of bytes that were staged for the store and not put yet.
    fn put_staged(&mut self, alloc: Global, path: &str, staged: &Staged) -> Result<(), StoreFault>
        ensures { StorePuts (state self.old) (state self.new) path.now staged.now.bytes result };

    /// The bytes that the path holds; `None` exactly where it holds nothing. Changes no content. Failed
    /// comes only where the count of faults rose in this call.
    fn get(&mut self, alloc: Global, path: &str) -> Result<Option<Vec<u8>>, StoreFault>
        ensures { Gets whole (state self.old) (state self.new) path.now result };

    /// The bytes that the path holds from the offset on, at most `len` of them and no further than
    /// their end; `None` exactly where the path holds nothing. Changes no content. Failed comes only
    /// where the count of faults rose in this call.
    fn get_part(
        &mut self,
        alloc: Global,
        path: &str,
        offset: u64,
        len: u32,
    ) -> Result<Option<Vec<u8>>, StoreFault>
        ensures state { Gets (part offset len) (state self.old) (state self.new) path.now result }
        ensures short { IfOk result (λ found. IfSome found (λ v. length v.items ≤ len)) };

    /// The count of faults; changes nothing.
    fn faults(&self) -> u64
        ensures { result ≡ (state self.now).faults };

    /// Where the store tells, the count is the number of failed calls.
    ghost counted: { (s : Self) → IfSome (state s).told (λ t. (state s).faults ≡ length t.failed) };
}

//! Who has the folder `tiles`.
ghost use Rattle.std.specs.Prelude.{◌≡◌, IfErr};
ghost use Rattle.tile_store.specs.declared.stores.StoreFault.TheVariants.{Failed};

use crate::stores::StoreFault;
use std::alloc::Global;
use std::fs::{self, File, OpenOptions, TryLockError};
use std::sync::atomic::{AtomicBool, Ordering};
use std::{io, rt};

/// The folder of all that the store in files keeps.
pub(crate) const FOLDER: &str = "tiles";

/// The folder of what is staged, which no path leads to, nor a file beside one.
pub(crate) const STAGED: &str = "tiles/.new";

/// The file whose lock shows that a program has the folder, which no path leads to.
const LOCK: &str = "tiles/.lock";

/// The folder `tiles`, as a store and what stages for it share it: whether this program has it. What stages for the store
/// writes and removes nothing before that.
#[derive(Drop)]
pub struct Folder {
    is_ours: AtomicBool,
}

impl Folder {
    /// The folder, which this program does not have yet.
    pub fn new() -> Folder {
        Folder {
            is_ours: AtomicBool::new(false),
        }
    }

    /// Whether this program has the folder.
    pub(crate) fn is_ours(&self) -> bool {
        self.is_ours.load(Ordering::SeqCst)
    }

    /// Takes the folder for this program, and removes what another run has left of its staging. The answer is the file
    /// whose lock keeps others off as long as it is open. Failed where another program has it. Where the system gives no
    /// locks nobody is kept off, and nothing is removed.
    pub(crate) fn take<R: rt::Files<File = File>>(
        &self,
        alloc: Global,
        files: &R,
    ) -> Result<Option<File>, StoreFault>
        ensures { IfErr result (λ fault. fault ≡ Failed) }
    {
        let lock = locked(files)?;
        if lock.is_some() {
            let _unread = empty_staged(alloc, files);
        }
        self.is_ours.store(true, Ordering::SeqCst);
        Ok(lock)
    }
}

// The locked file; `None` where the system gives none, and Failed where another program has locked it.
fn locked<R: rt::Files<File = File>>(files: &R) -> Result<Option<File>, StoreFault>
    ensures { IfErr result (λ fault. fault ≡ Failed) }
{
    let Ok(file) = lock_file(files) else {
        return Ok(None);
    };
    match file.try_lock() {
        Ok(()) => Ok(Some(file)),
        Err(TryLockError::WouldBlock) => Err(StoreFault::Failed),
        Err(TryLockError::Error(_)) => Ok(None),
    }
}

// The file that is to be locked, made as needed. One that may only be read is good enough.
fn lock_file<R: rt::Files<File = File>>(files: &R) -> io::Result<File> {
    let _or_refused = fs::create_dir_all(files, FOLDER);
    let mut how = OpenOptions::new();
    how.read(true).write(true).create(true);
    match how.open(files, LOCK) {
        Ok(file) => Ok(file),
        Err(_) => fs::open(files, LOCK),
    }
}

// Removes the files in the folder of what is staged. The folder stays, with its group and its rights. Where it is a link,
// nothing is removed: what it leads to may be another's.
fn empty_staged<R: rt::Files>(alloc: Global, files: &R) -> io::Result<()> {
    if !fs::symlink_metadata(files, STAGED)?.is_dir() {
        return Ok(());
    }
    for entry in fs::read_dir(&(files, alloc), STAGED)? {
        let _or_refused = fs::remove_file(files, entry?.path());
    }
    Ok(())
}

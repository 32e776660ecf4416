//! Files that are read whole: the trait, its form in memory and the adapter over the real ones.
ghost use Rattle.std.specs.Prelude.{◌≡◌, ℕ, [], ◌∷◌, ◌++◌, length, Option, Some, IfOk, IfSome, OnOk, OnErr, option_map};
ghost use Rattle.farm_base.specs.Outside.{Outside, FilesTold, Reads, failed_read};
ghost use Rattle.farm_base.specs.InMemory as spec;
ghost use Rattle.farm_base.specs.InMemory.{content_of, read_of, files_state, next_count, GivesHeld, ReadsHeld};

use crate::memory::NoMemory;
use crate::texts::{Bytes, Text};
use std::alloc::{AllocError, AllocFailed, Global};
use std::marker::Model;

/// Why a read gave no bytes.
#[derive(Clone, Copy, Debug)]
pub enum FileFault {
    /// The read failed; a missing file is such a failure.
    Failed,
    /// Want of memory.
    NoMemory,
}

impl From<AllocError> for FileFault {
    ghost use Rattle.farm_base.specs.declared.files.FileFault.TheVariants.{NoMemory};

    ghost from_gives = { λ _ e. e ≡ NoMemory };

    fn from(_refused: AllocError) -> FileFault {
        FileFault::NoMemory
    }
}

impl<T: Drop> From<AllocFailed<T>> for FileFault {
    ghost use Rattle.farm_base.specs.declared.files.FileFault.TheVariants.{NoMemory};

    ghost from_gives = { λ _ e. e ≡ NoMemory };

    fn from(_refused: AllocFailed<T>) -> FileFault {
        FileFault::NoMemory
    }
}

impl From<NoMemory> for FileFault {
    ghost use Rattle.farm_base.specs.declared.files.FileFault.TheVariants.{NoMemory};

    ghost from_gives = { λ _ e. e ≡ NoMemory };

    fn from(_refused: NoMemory) -> FileFault {
        FileFault::NoMemory
    }
}

/// A call on files or on a store that failed: the name or path it was given, and whether it was a put.
#[derive(Drop)]
pub struct FailedCall {
    pub name: Text,
    pub put: bool,
}

/// Files that are read whole by their names. Where an object tells, contracts know what each name
/// holds and which calls failed so far; the real files do not tell.
pub trait Files {
    /// What each name holds and which calls failed, where the object tells, and how many calls failed:
    /// a count that never falls, and stands still at its last value, `2^64 - 1`.
    ghost state: { Self → Outside FilesTold };

    /// The bytes of the file of this name. Failed comes only where the count of faults rose in this
    /// call, and never changes what the files hold.
    fn read(&mut self, alloc: Global, name: &str) -> Result<Vec<u8>, FileFault>
        ensures { Reads (state self.old) (state self.new) name.now result };

    /// Where the object tells, the count is the number of failed calls.
    ghost counted: { (s : Self) → IfSome (state s).told (λ t. (state s).faults ≡ length t.failed) };
}

/// Named contents in memory, and the reads that are to fail.
#[derive(Drop)]
pub struct MemFiles {
    files: Vec<(Text, Bytes)>,
    reads: Vec<u64>,
    calls: u64,
    failed: Vec<FailedCall>,
}

impl Model for MemFiles {
    ghost use Rattle.farm_base.specs.InMemory.{FilesHeld};

    ghost Value = { FilesHeld };

    ghost view = { λ f. record {
      files = f.files.items;
      reads = f.reads.items;
      calls = f.calls;
      failed = f.failed.items;
    } };
}

impl MemFiles {
    /// Files with these contents. `reads` are the numbers, from 0, of the reads that are to fail. Of two
    /// contents of one name the first counts.
    pub fn new(
        alloc: Global,
        files: Vec<(Text, Bytes)>,
        reads: Vec<u64>,
    ) -> Result<MemFiles, NoMemory>
        ensures { IfOk result
            (λ f. f ≡ record { files = files.items; reads = reads.items; calls = 0; failed = [] }) }
    {
        Ok(MemFiles {
            files,
            reads,
            calls: 0,
            failed: Vec::new(alloc),
        })
    }

    /// The reads that failed so far, in order.
    pub fn failed(&self) -> &[FailedCall]
        ensures { result.now ≡ self.now.failed }
    {
        self.failed.as_slice()
    }
}

fn held<'a>(files: &'a [(Text, Bytes)], name: &str) -> Option<&'a Bytes>
    ensures { option_map (λ b. b.now) result ≡ content_of files.entry.now name.now }
{
    files.iter().find(|f| f.0.as_str() == name).map(|f| &f.1)
}

pub(crate) fn is_to_fail(numbers: &[u64], n: u64) -> bool
    ensures { result ≡ spec.is_to_fail numbers.now n }
{
    numbers.iter().any(|k| *k == n)
}

impl MemFiles {
    fn note(&mut self, alloc: Global, name: &str) -> Result<(), NoMemory>
        ensures done { OnOk result (self.new ≡ record self.old {
          calls = next_count self.old.calls;
          failed = self.old.failed ++ failed_read name.now ∷ [];
        }) }
        ensures refused { OnErr result (self.new ≡ self.old) }
    {
        self.failed.push(FailedCall {
            name: Text::of(alloc, name)?,
            put: false,
        })?;
        self.calls = self.calls.saturating_add(1);
        Ok(())
    }

    // The copy of a content that a read answers; after want of memory all is as before.
    fn give(
        &mut self,
        alloc: Global,
        bytes: Option<Vec<u8>>,
        name: &str,
    ) -> Result<Vec<u8>, FileFault>
        ensures { GivesHeld self.old self.new name.now (option_map (λ v. v.items) bytes) result }
    {
        match bytes {
            Some(copy) => {
                self.calls = self.calls.saturating_add(1);
                Ok(copy)
            }
            None => {
                self.note(alloc, name)?;
                Err(FileFault::Failed)
            }
        }
    }

    // What this read has, as a copy: nothing where it is to fail or no file has the name.
    fn copied(&self, alloc: Global, name: &str) -> Result<Option<Vec<u8>>, NoMemory>
        ensures { IfOk result (λ o. option_map (λ v. v.items) o ≡ read_of self.now name.now) }
    {
        if is_to_fail(self.reads.as_slice(), self.calls) {
            return Ok(None);
        }
        match held(self.files.as_slice(), name) {
            Some(bytes) => Ok(Some(Vec::from_slice(alloc, bytes.as_slice())?)),
            None => Ok(None),
        }
    }
}

impl Files for MemFiles {
    ghost use Rattle.std.specs.Prelude.{refl};
    ghost use Rattle.farm_base.specs.InMemory.{files_state};

    ghost state = { files_state };

    ghost counted = { λ f. refl };

    /// As the trait says, and exactly: Failed where this read is to fail or no file has the name.
    fn read(&mut self, alloc: Global, name: &str) -> Result<Vec<u8>, FileFault>
        ensures state { Reads (files_state self.old) (files_state self.new) name.now result }
        ensures exact { ReadsHeld self.old self.new name.now result }
    {
        let bytes = self.copied(alloc, name)?;
        self.give(alloc, bytes, name)
    }
}

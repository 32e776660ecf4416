//! The files of a case.
ghost use Rattle.std.specs.Prelude.{◌≡◌};

use farm_base::{FileFault, Files, MemFiles};
use std::alloc::Global;
use std::mem::replace;

/// The files beside the cases or, while there are such, others alone. They do not tell what they hold.
#[derive(Drop)]
pub struct CaseFiles<F> {
    all: F,
    alone: Option<MemFiles>,
    // the reads that fail, and how many there were
    fails: Vec<u64>,
    reads: u64,
    faults: u64,
}

impl<F: Files> CaseFiles<F> {
    /// These files.
    pub(crate) fn new(alloc: Global, all: F) -> CaseFiles<F> {
        CaseFiles {
            all,
            alone: None,
            fails: Vec::new(alloc),
            reads: 0,
            faults: 0,
        }
    }

    /// Until others are told, there are these files alone or, where none are told, all.
    pub(crate) fn keep_to(&mut self, alone: Option<MemFiles>) {
        drop(replace(&mut self.alone, alone));
    }

    /// The reads of these numbers are to fail, counted from 0 from now on.
    pub(crate) fn fail(&mut self, reads: Vec<u64>) {
        drop(replace(&mut self.fails, reads));
        self.reads = 0;
    }

    fn is_to_fail(&mut self) -> bool
        ensures { self.new.faults ≡ self.old.faults }
    {
        let read = self.reads;
        self.reads = read.saturating_add(1);
        self.fails.as_slice().iter().any(|number| *number == read)
    }

    fn read_any(&mut self, alloc: Global, name: &str) -> Result<Vec<u8>, FileFault>
        ensures { self.new.faults ≡ self.old.faults }
    {
        if self.is_to_fail() {
            return Err(FileFault::Failed);
        }
        match &mut self.alone {
            Some(files) => files.read(alloc, name),
            None => self.all.read(alloc, name),
        }
    }
}

impl<F: Files> Files for CaseFiles<F> {
    ghost use Rattle.farm_base.specs.Outside.{untold};

    ghost state = { λ f. untold f.faults };

    ghost counted = { λ _. tt };

    fn read(&mut self, alloc: Global, name: &str) -> Result<Vec<u8>, FileFault> {
        match self.read_any(alloc, name) {
            Ok(bytes) => Ok(bytes),
            Err(FileFault::NoMemory) => Err(FileFault::NoMemory),
            Err(FileFault::Failed) => {
                self.faults = self.faults.saturating_add(1);
                Err(FileFault::Failed)
            }
        }
    }
}

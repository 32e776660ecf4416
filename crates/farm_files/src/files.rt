//! One file: it is read, and what its bytes mean is judged.
ghost use Rattle.std.specs.Prelude.{Result};
ghost use Rattle.reading.specs.Steps.{seen};
ghost use Rattle.farm_files.specs.Course.{made, reads, judged};
ghost use Rattle.farm_files.specs.inner.Follows.{Follows, Says, Tells};

use exit_status::{FaultText, Stop, refused, unreadable};
use farm_base::{FileFault, Files};
use std::alloc::Global;

/// The bytes of the file of this name; Unreadable with its line where the read failed.
pub fn read_file<F: Files>(alloc: Global, files: &mut F, name: &str) -> Result<Vec<u8>, Stop>
    ensures { Follows (reads name.now made) (F.state files.old) (F.state files.new)
        (seen (λ v. v.items) result) }
{
    match files.read(alloc, name) {
        Ok(bytes) => Ok(bytes),
        Err(FileFault::Failed) => Err(unreadable(alloc, name)),
        Err(FileFault::NoMemory) => Err(Stop::NoMemory),
    }
}

/// What a reader answered of the bytes of the file of this name, a fault as the refusal that tells it.
#[tactic(auto, using(crate::proofs::Judged::judged_value, crate::proofs::Judged::judged_fault, crate::proofs::Judged::judged_wanting))]
pub fn checked<A: Drop, E: FaultText>(
    alloc: Global,
    name: &str,
    read: Result<A, E>,
) -> Result<A, Stop>
    ensures { (means : Result A E) → Tells E.text means read
        → Says (judged E.text name.now means) result }
{
    match read {
        Ok(value) => Ok(value),
        Err(fault) => {
            let text = fault.text(alloc)?;
            Err(refused(alloc, name, text.as_str()))
        }
    }
}

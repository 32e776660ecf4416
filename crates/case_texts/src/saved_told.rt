//! What the text of a saved farm is read as.
ghost use Rattle.farm_saved.specs.Savings.{IsSaving};

use farm_saved::{Saved, SavedFault, read_saved, write_saved};
use noted_puts::Letters;
use std::alloc::Global;

fn tell_fault(told: &mut Letters, fault: SavedFault) {
    match fault {
        SavedFault::Short(length) => told.put_with("saved 1 of", length),
        SavedFault::Magic => told.put("saved 2"),
        SavedFault::Kind(place) => told.put_with("saved 3 at", place),
        SavedFault::Order(place) => told.put_with("saved 4 at", place),
        SavedFault::Extra(place) => told.put_with("saved 5 at", place),
        SavedFault::NoMemory => told.cut(),
    }
}

fn tell_written(alloc: Global, told: &mut Letters, saved: &Saved, text: &[u8])
    requires { IsSaving saved.now }
{
    match write_saved(alloc, saved) {
        Ok(written) if written.as_slice() == text => told.put("read"),
        Ok(_) => told.put("written otherwise"),
        Err(_) => told.cut(),
    }
}

/// The fault of a saved farm's text, or that it is read and written again byte for byte.
pub(crate) fn tell_saved(alloc: Global, told: &mut Letters, text: &[u8]) {
    match read_saved(alloc, text) {
        Ok(saved) => {
            tell_written(alloc, told, &saved, text);
            drop(saved);
        }
        Err(fault) => tell_fault(told, fault),
    }
}

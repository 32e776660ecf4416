//! Faults of saved farms.
use crate::told::FaultText;
use farm_base::{NoMemory, Text};
use farm_saved::SavedFault;
use std::alloc::Global;

// The text of a saved farm's fault: its number.
impl FaultText for SavedFault {
    ghost use Rattle.exit_status.specs.SavedFaults.{saved_text};

    ghost text = { saved_text };

    fn text(self, alloc: Global) -> Result<Text, NoMemory> {
        match self {
            SavedFault::Short(_) => Text::of(alloc, "saved 1"),
            SavedFault::Magic => Text::of(alloc, "saved 2"),
            SavedFault::Kind(_) => Text::of(alloc, "saved 3"),
            SavedFault::Order(_) => Text::of(alloc, "saved 4"),
            SavedFault::Extra(_) => Text::of(alloc, "saved 5"),
            SavedFault::NoMemory => Err(NoMemory),
        }
    }
}

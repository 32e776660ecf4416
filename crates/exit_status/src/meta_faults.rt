//! Faults of META containers.
use crate::told::FaultText;
use farm_base::{MetaFault, NoMemory, Text};
use std::alloc::Global;

// The text of a container's fault: its number.
impl FaultText for MetaFault {
    ghost use Rattle.exit_status.specs.MetaFaults.{meta_text};

    ghost text = { meta_text };

    fn text(self, alloc: Global) -> Result<Text, NoMemory> {
        match self {
            MetaFault::Short(_) => Text::of(alloc, "meta 1"),
            MetaFault::Magic => Text::of(alloc, "meta 2"),
            MetaFault::Compressed => Text::of(alloc, "meta 3"),
            MetaFault::Count(_) => Text::of(alloc, "meta 4"),
            MetaFault::Place(_, _, _) => Text::of(alloc, "meta 5"),
            MetaFault::Index(_) => Text::of(alloc, "meta 6"),
        }
    }
}

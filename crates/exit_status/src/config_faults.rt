//! Faults of configurations.
ghost use Rattle.std.specs.Prelude.{◌≡◌, ◌++◌, IfOk, codes};
ghost use Rattle.std.specs.Fmt.{decimal};

use crate::told::FaultText;
use farm_base::{NoMemory, Text};
use farm_config::ConfigFault;
use std::alloc::Global;

// The text of a configuration's fault: its number, with the number of the key or the place of the map.
impl FaultText for ConfigFault {
    ghost use Rattle.exit_status.specs.ConfigFaults.{config_text};

    ghost text = { config_text };

    fn text(self, alloc: Global) -> Result<Text, NoMemory> {
        match self {
            ConfigFault::NotJson => Text::of(alloc, "config 1"),
            ConfigFault::Shape(key) => numbered(alloc, "config 2", key),
            ConfigFault::Range(key) => numbered(alloc, "config 3", key),
            ConfigFault::Double(place) => numbered(alloc, "config 4", place),
            ConfigFault::NoMemory => Err(NoMemory),
        }
    }
}

fn numbered(alloc: Global, fault: &str, number: u32) -> Result<Text, NoMemory>
    ensures { IfOk result (λ t. t ≡ fault.now ++ codes " at " ++ decimal number) }
{
    Ok(Text::from_string(format!(in alloc; "{fault} at {number}")?))
}

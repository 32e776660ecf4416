//! Faults of scripts and expiry lists.
use crate::told::FaultText;
use expiry_lists::ListFault;
use farm_base::{NoMemory, Text};
use script_lines::ScriptFault;
use std::alloc::Global;

// The text of a script's fault: its number, with the number of the line.
impl FaultText for ScriptFault {
    ghost use Rattle.exit_status.specs.LineFaults.{script_text};

    ghost text = { script_text };

    fn text(self, alloc: Global) -> Result<Text, NoMemory> {
        match self {
            ScriptFault::Line(number) => {
                Ok(Text::from_string(format!(in alloc; "script 1 at line {number}")?))
            }
            ScriptFault::NoMemory => Err(NoMemory),
        }
    }
}

// The text of an expiry list's fault: its number, with the number of the line.
impl FaultText for ListFault {
    ghost use Rattle.exit_status.specs.LineFaults.{list_text};

    ghost text = { list_text };

    fn text(self, alloc: Global) -> Result<Text, NoMemory> {
        match self {
            ListFault::Line(number) => {
                Ok(Text::from_string(format!(in alloc; "list 1 at line {number}")?))
            }
            ListFault::NoMemory => Err(NoMemory),
        }
    }
}

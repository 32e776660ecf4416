//! The whole text of a script.
ghost use Rattle.std.specs.Prelude.{◌≡◌};
ghost use Rattle.reading.specs.Steps.{Gives};
ghost use Rattle.script_lines.specs.Scripts.{script_in};
ghost use Rattle.script_lines.specs.declared.script.ScriptFault.TheVariants as fault;

use crate::lines::read_line;
use crate::script::{Script, ScriptFault};
use farm_base::{MOST_LINES, first_line};
use std::alloc::Global;

/// Reads a script: its lines that are not skipped, or the first line that is none. Lines end with a
/// newline, which the last may lack; one carriage return before it is dropped. Empty lines and those that
/// begin with `#` are skipped.
#[tactic(auto, using(crate::proofs::Loop::script_refused, reading::proofs::LineLoop::items_end))]
pub fn read_script(alloc: Global, bytes: &[u8]) -> Result<Script, ScriptFault>
    ensures { Gives fault.NoMemory (λ s. s) (script_in bytes.now) result }
{
    let mut lines = Vec::new(alloc);
    let mut rest = bytes;
    let mut number = 0;
    while let Some((line, behind)) = first_line(rest) {
        if number == MOST_LINES {
            return Err(ScriptFault::Line(number + 1));
        }
        number += 1;
        if let Some(line) = read_line(alloc, line, ScriptFault::Line(number))? {
            lines.push(line)?;
        }
        rest = behind;
    }
    Ok(Script { lines })
}

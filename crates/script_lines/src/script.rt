//! The lines of a script, and why a text was refused as one.
use farm_base::{NoMemory, Text};
use farm_history::Cmd;
use std::alloc::{AllocError, AllocFailed};
use std::marker::Model;

/// A line of a script, with its words in order. A map is told by its name, which need not be one of the
/// farm; connections are those of front 0.
#[derive(Drop)]
pub enum ScriptLine {
    /// `ask C CMD MAP Z X Y`: a connection asks for a tile of a map.
    Ask(u32, Cmd, Text, u32, u32, u32),
    /// `claim W`: a worker asks for a drawing to make.
    Claim(u32),
    /// `finish T`: the drawing of a ticket is made and finished.
    Finish(u64),
    /// `cut T`: the drawing of a ticket is finished without a picture.
    Cut(u64),
    /// `update N`.
    Update(u32),
    /// `expire Z X Y`.
    Expire(u32, u32, u32),
    /// `fetch MAP Z X Y`.
    Fetch(Text, u32, u32, u32),
    /// `look MAP Z X Y`.
    Look(Text, u32, u32, u32),
    /// `collect F`: a front takes its first reply.
    Collect(u32),
    /// `leave C`: a connection is left.
    Leave(u32),
    /// `tally`.
    Tally,
    /// `stop`.
    Stop,
    /// `restyle N`.
    Restyle(u32),
    /// `renew N`.
    Renew(u32),
}

/// A script: its lines that are not skipped, at most 1,000,000. Contracts see it as the list of them.
#[derive(Drop)]
pub struct Script {
    pub lines: Vec<ScriptLine>,
}

impl Model for Script {
    ghost use Rattle.std.specs.Prelude.{List, length, ◌≤◌};
    ghost use Rattle.farm_base.specs.Limits.{most_lines};
    ghost use Rattle.script_lines.specs.declared.script.ScriptLine.{ScriptLine};

    ghost Value = { List ScriptLine };

    ghost view = { λ s. s.lines.items };

    ghost invariant = { λ s. length s.lines.items ≤ most_lines };
}

/// Why a text is no script.
#[derive(Clone, Copy)]
pub enum ScriptFault {
    /// The first line that is none, by its number, counted from 1 over all lines. Line 1,000,001 is such
    /// a line.
    Line(u32),
    /// Want of memory.
    NoMemory,
}

impl From<NoMemory> for ScriptFault {
    ghost use Rattle.std.specs.Prelude.{◌≡◌};
    ghost use Rattle.script_lines.specs.declared.script.ScriptFault.TheVariants as fault;

    ghost from_gives = { λ _ e. e ≡ fault.NoMemory };

    fn from(_refused: NoMemory) -> ScriptFault {
        ScriptFault::NoMemory
    }
}

impl From<AllocError> for ScriptFault {
    ghost use Rattle.std.specs.Prelude.{◌≡◌};
    ghost use Rattle.script_lines.specs.declared.script.ScriptFault.TheVariants as fault;

    ghost from_gives = { λ _ e. e ≡ fault.NoMemory };

    fn from(_refused: AllocError) -> ScriptFault {
        ScriptFault::NoMemory
    }
}

impl<T: Drop> From<AllocFailed<T>> for ScriptFault {
    ghost use Rattle.std.specs.Prelude.{◌≡◌};
    ghost use Rattle.script_lines.specs.declared.script.ScriptFault.TheVariants as fault;

    ghost from_gives = { λ _ e. e ≡ fault.NoMemory };

    fn from(_refused: AllocFailed<T>) -> ScriptFault {
        ScriptFault::NoMemory
    }
}

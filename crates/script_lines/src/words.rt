//! The words of a line. Each reader is given the fault of its line.
ghost use Rattle.std.specs.Prelude.{◌≡◌, ◌≤◌, ◌<◌, ◌^◌};
ghost use Rattle.std.specs.Option.{ok_or};
ghost use Rattle.reading.specs.Steps.{seen};
ghost use Rattle.script_lines.specs.Lines as spec;
ghost use Rattle.script_lines.specs.inner.Lines as inner;

use crate::script::ScriptFault;
use farm_base::{cut, small_number};
use farm_history::Cmd;

/// The first word, and the words behind the space after it.
pub fn word(text: &str, fault: ScriptFault) -> Result<(&str, &str), ScriptFault>
    ensures { seen (λ p. (p.0.now, p.1.now)) result ≡ spec.word_of fault text.entry.now }
{
    cut(text, ' ').ok_or(fault)
}

pub fn number(word: &str, fault: ScriptFault) -> Result<u32, ScriptFault>
    ensures { result ≡ spec.number_of fault word.now }
{
    small_number(word).ok_or(fault)
}

pub fn ticket(word: &str, fault: ScriptFault) -> Result<u64, ScriptFault>
    ensures { result ≡ inner.ticket_of fault word.now }
{
    farm_base::number(word).ok_or(fault)
}

fn cmd(word: &str) -> Option<Cmd>
    ensures { result ≡ spec.cmd_of word.now }
{
    match word {
        "render" => Some(Cmd::Render),
        "prio" => Some(Cmd::Prio),
        "low" => Some(Cmd::Low),
        "bulk" => Some(Cmd::Bulk),
        "dirty" => Some(Cmd::Dirty),
        _ => None,
    }
}

pub fn command(word: &str, fault: ScriptFault) -> Result<Cmd, ScriptFault>
    ensures { result ≡ ok_or (spec.cmd_of word.now) fault }
{
    cmd(word).ok_or(fault)
}

fn map(word: &str, fault: ScriptFault) -> Result<&str, ScriptFault>
    ensures { seen (λ s. s.now) result ≡ inner.map_word fault word.entry.now }
{
    if word.is_empty() {
        Err(fault)
    } else {
        Ok(word)
    }
}

/// The three numbers of a tile: Z X Y.
#[tactic(auto, unfolding(crate::specs::Lines::line_tile))]
pub fn tile(text: &str, fault: ScriptFault) -> Result<(u32, u32, u32), ScriptFault>
    ensures { result ≡ spec.line_tile fault text.now }
{
    let (z, rest) = word(text, fault)?;
    let (x, y) = word(rest, fault)?;
    let z = number(z, fault)?;
    let x = number(x, fault)?;
    let y = number(y, fault)?;
    Ok((z, x, y))
}

/// A tile of a map: MAP Z X Y.
#[tactic(auto, unfolding(crate::specs::Lines::place_of))]
pub fn place(text: &str, fault: ScriptFault) -> Result<(&str, (u32, u32, u32)), ScriptFault>
    ensures { seen (λ p. (p.0.now, p.1)) result ≡ spec.place_of fault text.entry.now }
{
    let (name, rest) = word(text, fault)?;
    let name = map(name, fault)?;
    let tile = tile(rest, fault)?;
    Ok((name, tile))
}

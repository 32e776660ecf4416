//! One line of a script.
ghost use Rattle.std.specs.Prelude.{◌≡◌};
ghost use Rattle.reading.specs.Steps.{Gives};
ghost use Rattle.script_lines.specs.Lines as spec;
ghost use Rattle.script_lines.specs.inner.Lines as inner;
ghost use Rattle.script_lines.specs.Scripts.{is_skipped, line_read};
ghost use Rattle.script_lines.specs.declared.script.ScriptFault.TheVariants.{NoMemory};

use crate::script::{ScriptFault, ScriptLine};
use crate::words::{command, number, place, ticket, tile, word};
use farm_base::{Text, cut};
use reading::line_text;
use std::alloc::Global;

#[tactic(auto, unfolding(crate::specs::Lines::ask_of))]
fn ask(alloc: Global, text: &str, fault: ScriptFault) -> Result<ScriptLine, ScriptFault>
    ensures { Gives NoMemory (λ l. l) (spec.ask_of fault text.now) result }
{
    let (conn, rest) = word(text, fault)?;
    let (cmd, rest) = word(rest, fault)?;
    let conn = number(conn, fault)?;
    let cmd = command(cmd, fault)?;
    let (map, (z, x, y)) = place(rest, fault)?;
    Ok(ScriptLine::Ask(conn, cmd, Text::of(alloc, map)?, z, x, y))
}

fn fetch(alloc: Global, text: &str, fault: ScriptFault) -> Result<ScriptLine, ScriptFault>
    ensures { Gives NoMemory (λ l. l) (inner.fetch_of fault text.now) result }
{
    let (map, (z, x, y)) = place(text, fault)?;
    Ok(ScriptLine::Fetch(Text::of(alloc, map)?, z, x, y))
}

fn look(alloc: Global, text: &str, fault: ScriptFault) -> Result<ScriptLine, ScriptFault>
    ensures { Gives NoMemory (λ l. l) (inner.look_of fault text.now) result }
{
    let (map, (z, x, y)) = place(text, fault)?;
    Ok(ScriptLine::Look(Text::of(alloc, map)?, z, x, y))
}

fn expire(text: &str, fault: ScriptFault) -> Result<ScriptLine, ScriptFault>
    ensures { result ≡ inner.expire_of fault text.now }
{
    let (z, x, y) = tile(text, fault)?;
    Ok(ScriptLine::Expire(z, x, y))
}

#[tactic(auto, unfolding(crate::specs::Lines::line_named))]
fn named(
    alloc: Global,
    name: &str,
    rest: &str,
    fault: ScriptFault,
) -> Result<ScriptLine, ScriptFault>
    ensures { Gives NoMemory (λ l. l) (spec.line_named fault name.now rest.now) result }
{
    match name {
        "ask" => ask(alloc, rest, fault),
        "claim" => Ok(ScriptLine::Claim(number(rest, fault)?)),
        "finish" => Ok(ScriptLine::Finish(ticket(rest, fault)?)),
        "cut" => Ok(ScriptLine::Cut(ticket(rest, fault)?)),
        "update" => Ok(ScriptLine::Update(number(rest, fault)?)),
        "restyle" => Ok(ScriptLine::Restyle(number(rest, fault)?)),
        "renew" => Ok(ScriptLine::Renew(number(rest, fault)?)),
        "expire" => expire(rest, fault),
        "fetch" => fetch(alloc, rest, fault),
        "look" => look(alloc, rest, fault),
        "collect" => Ok(ScriptLine::Collect(number(rest, fault)?)),
        "leave" => Ok(ScriptLine::Leave(number(rest, fault)?)),
        _ => Err(fault),
    }
}

#[tactic(auto, unfolding(crate::specs::Lines::line_alone))]
fn alone(word: &str, fault: ScriptFault) -> Result<ScriptLine, ScriptFault>
    ensures { result ≡ spec.line_alone fault word.now }
{
    match word {
        "tally" => Ok(ScriptLine::Tally),
        "stop" => Ok(ScriptLine::Stop),
        _ => Err(fault),
    }
}

#[tactic(auto, unfolding(crate::specs::Lines::script_line_of))]
fn line(alloc: Global, line: &str, fault: ScriptFault) -> Result<ScriptLine, ScriptFault>
    ensures { Gives NoMemory (λ l. l) (spec.script_line_of fault line.now) result }
{
    match cut(line, ' ') {
        Some((name, rest)) => named(alloc, name, rest, fault),
        None => alone(line, fault),
    }
}

fn is_skipped(line: &[u8]) -> bool
    ensures { result ≡ is_skipped line.now }
{
    match line {
        [] => true,
        [first, ..] => *first == b'#',
    }
}

/// What a line says; nothing where it is skipped.
#[tactic(auto, unfolding(crate::specs::Scripts::line_read))]
pub fn read_line(
    alloc: Global,
    bytes: &[u8],
    fault: ScriptFault,
) -> Result<Option<ScriptLine>, ScriptFault>
    ensures { Gives NoMemory (λ o. o) (line_read fault bytes.now) result }
{
    if is_skipped(bytes) {
        return Ok(None);
    }
    let text = line_text(bytes, fault)?;
    Ok(Some(line(alloc, text, fault)?))
}

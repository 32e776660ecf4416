//! What a line is answered.
ghost use Rattle.std.specs.Prelude.{◌≡◌, ◌++◌, ◌||◌, Some, false, IfOk};
ghost use Rattle.farm_base.specs.Outside.{Puts};
ghost use Rattle.farm_history.specs.declared.answers.Fetched.{Fetched};
ghost use Rattle.reading.specs.Steps.{seen};
ghost use Rattle.script_answers.specs.Answers.{fetch_text};
ghost use Rattle.script_answers.specs.inner.Parts.{fetch_rest};
ghost use Rattle.script_text.specs.inner.Steps.{behind, is_failed_fetch};

use farm_base::{Bytes, NoMemory, Sink, SinkFault, Text};
use farm_plan::Fetched;
use script_answers::fetch_head;
use std::alloc::Global;
use std::marker::Model;

/// The answer of a line: its first line, the bytes of a tile behind it, which a newline ends, and whether
/// a call of the store failed. Contracts see the first two as all the bytes of the answer.
#[derive(Drop)]
pub(crate) struct LineAnswer {
    head: Text,
    tile: Option<Bytes>,
    failed: bool,
}

impl Model for LineAnswer {
    ghost use Rattle.std.specs.Prelude.{◌++◌};
    ghost use Rattle.script_text.specs.inner.Steps.{SaidSeen, behind};

    ghost Value = { SaidSeen };

    ghost view = { λ s. record { text = s.head ++ behind s.tile; failed = s.failed } };
}

/// An answer of one line, of an event in which a call of the store failed or none did.
#[tactic(auto, using(std::proofs::lemmas::Grind::common_steps))]
pub(crate) fn noted(line: Result<Text, NoMemory>, failed: bool) -> Result<LineAnswer, NoMemory>
    ensures { result ≡ seen (λ t. record { text = t; failed = failed }) line }
{
    Ok(LineAnswer {
        head: line?,
        tile: None,
        failed,
    })
}

/// An answer of one line.
pub(crate) fn said(line: Result<Text, NoMemory>) -> Result<LineAnswer, NoMemory>
    ensures { result ≡ seen (λ t. record { text = t; failed = false }) line }
{
    noted(line, false)
}

/// Whether a read of the store failed.
pub fn is_failed_fetch(answer: &Fetched) -> bool
    ensures { result ≡ is_failed_fetch answer.now }
{
    match answer {
        Fetched::GetFailed => true,
        _ => false,
    }
}

fn tile_of(answer: Fetched) -> Option<Bytes>
    ensures { behind result ≡ fetch_rest answer }
{
    match answer {
        Fetched::Clean(_, bytes) => Some(bytes),
        Fetched::Dirty(_, bytes) => Some(bytes),
        _ => None,
    }
}

/// The answer of a fetch.
#[tactic(auto, using(crate::proofs::Saying::fetch_parts))]
pub(crate) fn fetch_said(alloc: Global, answer: Fetched) -> Result<LineAnswer, NoMemory>
    ensures text { IfOk result (λ s. fetch_text answer ≡ Some s.text) }
    ensures failed { IfOk result (λ s. s.failed ≡ is_failed_fetch answer) }
{
    let head = fetch_head(alloc, &answer)?;
    let failed = is_failed_fetch(&answer);
    Ok(LineAnswer {
        head,
        tile: tile_of(answer),
        failed,
    })
}

#[tactic(auto, using(crate::proofs::Puts::puts_then, crate::proofs::Puts::puts_first))]
fn put_tile<O: Sink>(out: &mut O, bytes: &[u8]) -> Result<(), SinkFault>
    ensures { Puts (O.state out.old) (O.state out.new) (behind (Some bytes.now)) result }
{
    out.put(bytes)?;
    out.put(b"\n")
}

#[tactic(auto, using(crate::proofs::Puts::puts_nothing))]
fn put_behind<O: Sink>(out: &mut O, tile: &Option<Bytes>) -> Result<(), SinkFault>
    ensures { Puts (O.state out.old) (O.state out.new) (behind tile.now) result }
{
    match tile {
        Some(bytes) => put_tile(out, bytes.as_slice()),
        None => Ok(()),
    }
}

#[tactic(auto, using(crate::proofs::Puts::puts_then, crate::proofs::Puts::puts_first))]
fn put_parts<O: Sink>(out: &mut O, head: &str, tile: &Option<Bytes>) -> Result<(), SinkFault>
    ensures { Puts (O.state out.old) (O.state out.new) (head.now ++ behind tile.now) result }
{
    out.put(head.as_bytes())?;
    put_behind(out, tile)
}

/// Puts an answer, all of it or a front.
pub(crate) fn put_said<O: Sink>(out: &mut O, said: &LineAnswer) -> Result<(), SinkFault>
    ensures { Puts (O.state out.old) (O.state out.new) said.now.text result }
{
    put_parts(out, said.head.as_str(), &said.tile)
}

/// Whether a call of the store failed, by what was noted before and by an answer.
pub(crate) fn has_failed(said: &LineAnswer, before: bool) -> bool
    ensures { result ≡ (said.now.failed || before) }
{
    said.failed || before
}

//! What a line is answered.
ghost use Rattle.std.specs.Prelude.{◌≡◌, ℕ, List, Some, IfOk};
ghost use Rattle.plain_world.specs.declared.world.Tile.{Tile};
ghost use Rattle.std.specs.Option.{is_none};
ghost use Rattle.script_answers.specs.Answers as lines;
ghost use Rattle.control_front.specs.Control as spec;
ghost use Rattle.control_front.specs.declared.acts.Act.TheVariants as act;
ghost use Rattle.control_front.specs.inner.Doing.{Says, Answers};

use farm_base::{ApplyFault, NoMemory, Text};
use farm_history::{Renewed, Restyled, Tally, Updated};
use front_loop::{Disposition, Reason};
use script_answers::{expire_line, renew_line, tally_line, update_line};
use std::alloc::Global;

/// Says a text, if there is memory for it.
pub fn say(response: &mut Vec<u8>, text: &str) -> Disposition
    ensures { Says text.now response.old.items response.new.items result }
{
    match response.extend_from_slice(text.as_bytes()) {
        Ok(()) => Disposition::Stays,
        Err(_) => Disposition::Leaves(Reason::Starved),
    }
}

fn update_text(alloc: Global, answer: Updated) -> Result<Text, NoMemory>
    ensures { IfOk result (λ t. spec.update_text answer ≡ Some t) }
{
    match answer {
        Updated::Version(version) => update_line(alloc, Updated::Version(version)),
        Updated::NoUpdate => Text::of(alloc, "no update\n"),
        Updated::Refused(fault) => update_line(alloc, Updated::Refused(fault)),
    }
}

fn renew_text(alloc: Global, answer: Renewed) -> Result<Text, NoMemory>
    ensures { IfOk result (λ t. spec.renew_text answer ≡ Some t) }
{
    match answer {
        Renewed::Version(version, count) => renew_line(alloc, Renewed::Version(version, count)),
        Renewed::NoUpdate => Text::of(alloc, "no update\n"),
        Renewed::Refused(fault) => renew_line(alloc, Renewed::Refused(fault)),
    }
}

fn is_no_memory(fault: ApplyFault) -> bool
    ensures { result ≡ is_none (lines.fault_line fault) }
{
    match fault {
        ApplyFault::NoMemory => true,
        ApplyFault::NoLayer(_) => false,
        ApplyFault::NoFeature(_, _) => false,
        ApplyFault::TooMany(_) => false,
    }
}

fn update_starves(answer: Updated) -> bool
    ensures { result ≡ is_none (spec.update_text answer) }
{
    match answer {
        Updated::Refused(fault) => is_no_memory(fault),
        Updated::Version(_) => false,
        Updated::NoUpdate => false,
    }
}

fn renew_starves(answer: Renewed) -> bool
    ensures { result ≡ is_none (spec.renew_text answer) }
{
    match answer {
        Renewed::Refused(fault) => is_no_memory(fault),
        Renewed::Version(_, _) => false,
        Renewed::NoUpdate => false,
    }
}

/// Says what an update was answered.
pub fn say_update(alloc: Global, answer: Updated, response: &mut Vec<u8>) -> Disposition
    ensures { (lists : List (List Tile)) (n : ℕ)
        → Answers lists (act.Updates n answer) response.old.items response.new.items result }
{
    match update_text(alloc, answer) {
        Ok(text) => say(response, text.as_str()),
        Err(NoMemory) => {
            if update_starves(answer) {
                Disposition::Leaves(Reason::NoMemory)
            } else {
                Disposition::Leaves(Reason::Starved)
            }
        }
    }
}

/// Says what an update that expires what it reaches was answered.
pub fn say_renew(alloc: Global, answer: Renewed, response: &mut Vec<u8>) -> Disposition
    ensures { (lists : List (List Tile)) (n : ℕ)
        → Answers lists (act.Renews n answer) response.old.items response.new.items result }
{
    match renew_text(alloc, answer) {
        Ok(text) => say(response, text.as_str()),
        Err(NoMemory) => {
            if renew_starves(answer) {
                Disposition::Leaves(Reason::NoMemory)
            } else {
                Disposition::Leaves(Reason::Starved)
            }
        }
    }
}

fn say_made(response: &mut Vec<u8>, text: Result<Text, NoMemory>) -> Disposition
    ensures { (words : List ℕ) → IfOk text (λ t. t ≡ words)
        → Says words response.old.items response.new.items result }
{
    match text {
        Ok(text) => say(response, text.as_str()),
        Err(NoMemory) => Disposition::Leaves(Reason::Starved),
    }
}

/// Says what a restyle was answered.
pub fn say_restyle(alloc: Global, answer: Restyled, response: &mut Vec<u8>) -> Disposition
    ensures { Says (spec.restyle_text answer) response.old.items response.new.items result }
{
    let Restyled::Styled(count) = answer else {
        return say(response, "no restyle\n");
    };
    match format!(in alloc; "styled {count}\n") {
        Ok(line) => say(response, line.as_str()),
        Err(_) => Disposition::Leaves(Reason::Starved),
    }
}

/// Says the farm's counts.
pub fn say_tally(alloc: Global, answer: Tally, response: &mut Vec<u8>) -> Disposition
    ensures { Says (lines.tally_line answer) response.old.items response.new.items result }
{
    say_made(response, tally_line(alloc, answer))
}

/// Says how many clean metatiles the tiles of a list made dirty.
pub fn say_expired(alloc: Global, total: u64, response: &mut Vec<u8>) -> Disposition
    ensures { Says (lines.expire_line total) response.old.items response.new.items result }
{
    say_made(response, expire_line(alloc, total))
}

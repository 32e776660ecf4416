//! Drawings.
ghost use Rattle.std.specs.Prelude.{◌≡◌, ℕ, List, IfOk, Some};
ghost use Rattle.script_answers.specs.Answers as spec;
ghost use Rattle.script_answers.specs.inner.Parts as parts;

use farm_base::{NoMemory, Text};
use farm_history::{ClaimAnswer, Finished, Key};
use std::alloc::Global;

fn place_words(alloc: Global, key: Key) -> Result<Text, NoMemory>
    ensures { IfOk result (λ t. t ≡ parts.place_words key) }
{
    let (z, x, y) = (key.meta.z, key.meta.x, key.meta.y);
    Ok(Text::from_string(format!(in alloc; "{z} {x} {y}")?))
}

fn job_words(
    alloc: Global,
    ticket: u64,
    name: &str,
    place: &str,
    version: u64,
) -> Result<Text, NoMemory>
    ensures { IfOk result (λ t. t ≡ parts.job_words ticket name.now place.now version) }
{
    Ok(Text::from_string(format!(in alloc; "job {ticket} {name} {place} {version}\n")?))
}

fn job_line(
    alloc: Global,
    ticket: u64,
    name: &str,
    key: Key,
    version: u64,
) -> Result<Text, NoMemory>
    ensures { IfOk result (λ t. t ≡ parts.job_line ticket name.now key version) }
{
    let place = place_words(alloc, key)?;
    job_words(alloc, ticket, name, place.as_str(), version)
}

/// The line of a claim: `job T MAP Z X Y V` with the lowest tile of the metatile, `idle`, `crowded` or
/// `stopped`. `name` is the name of the job's map.
pub fn claim_line(alloc: Global, name: &str, answer: ClaimAnswer) -> Result<Text, NoMemory>
    ensures { (names : List (List ℕ)) → parts.NamesJob names name.now answer
        → IfOk result (λ t. t ≡ spec.claim_line names answer) }
{
    match answer {
        ClaimAnswer::Job(ticket, key, version) => job_line(alloc, ticket, name, key, version),
        ClaimAnswer::Idle => Text::of(alloc, "idle\n"),
        ClaimAnswer::Crowded => Text::of(alloc, "crowded\n"),
        ClaimAnswer::Stopped => Text::of(alloc, "stopped\n"),
    }
}

/// The line of the end of a drawing: `clean`, `dirty` or `putfailed`.
pub fn finish_line(alloc: Global, answer: Finished) -> Result<Text, NoMemory>
    ensures { IfOk result (λ t. spec.finish_line answer ≡ Some t) }
{
    match answer {
        Finished::Stored(true) => Text::of(alloc, "clean\n"),
        Finished::Stored(false) => Text::of(alloc, "dirty\n"),
        Finished::PutFailed => Text::of(alloc, "putfailed\n"),
        Finished::NoMemory => Err(NoMemory),
    }
}

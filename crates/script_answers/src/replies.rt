//! Replies and counts.
ghost use Rattle.std.specs.Prelude.{◌≡◌, IfOk, codes};
ghost use Rattle.farm_history.specs.declared.answers.Collected.TheVariants as collected;
ghost use Rattle.script_answers.specs.Answers as spec;

use crate::asks::numbered;
use farm_base::{NoMemory, Text};
use farm_history::{Collected, Outcome, Reply, Tally};
use std::alloc::Global;

fn outcome_word(outcome: Outcome) -> &'static str
    ensures { result.now ≡ spec.outcome_word outcome }
{
    match outcome {
        Outcome::Done => " done\n",
        Outcome::NotDone => " notdone\n",
        Outcome::Cut => " cut\n",
    }
}

fn reply_line(alloc: Global, reply: Reply) -> Result<Text, NoMemory>
    ensures { IfOk result (λ t. t ≡ spec.collect_line (collected.Reply reply)) }
{
    let (conn, ask) = (reply.conn.number, reply.ask);
    let outcome = outcome_word(reply.outcome);
    Ok(Text::from_string(format!(in alloc; "reply {conn} {ask}{outcome}")?))
}

/// The line of a collect: `reply C N` with `done`, `notdone` or `cut`, or `stopped` or `empty`.
pub fn collect_line(alloc: Global, answer: Collected) -> Result<Text, NoMemory>
    ensures { IfOk result (λ t. t ≡ spec.collect_line answer) }
{
    match answer {
        Collected::Reply(reply) => reply_line(alloc, reply),
        Collected::Stopped => Text::of(alloc, "stopped\n"),
        Collected::Empty => Text::of(alloc, "empty\n"),
    }
}

/// The line of a connection that was left, `left N`.
pub fn leave_line(alloc: Global, count: u32) -> Result<Text, NoMemory>
    ensures { IfOk result (λ t. t ≡ spec.number_line (codes "left ") count) }
{
    numbered(alloc, "left ", u64::from(count))
}

/// The line of the counts, `asks A done D stored S version V`.
pub fn tally_line(alloc: Global, tally: Tally) -> Result<Text, NoMemory>
    ensures { IfOk result (λ t. t ≡ spec.tally_line tally) }
{
    let (asks, done) = (tally.asks, tally.done);
    let (stored, version) = (tally.stored, tally.version);
    let line = format!(in alloc; "asks {asks} done {done} stored {stored} version {version}\n")?;
    Ok(Text::from_string(line))
}

//! Asks.
ghost use Rattle.std.specs.Prelude.{◌≡◌, IfOk};
ghost use Rattle.script_answers.specs.Answers as spec;

use farm_base::{NoMemory, Text};
use farm_history::{AskAnswer, Why};
use std::alloc::Global;

/// A word and a number, as a line.
pub(crate) fn numbered(alloc: Global, word: &str, number: u64) -> Result<Text, NoMemory>
    ensures { IfOk result (λ t. t ≡ spec.number_line word.now number) }
{
    Ok(Text::from_string(format!(in alloc; "{word}{number}\n")?))
}

fn why_number(why: Why) -> u64
    ensures { result ≡ spec.why_number why }
{
    match why {
        Why::Stopping => 1,
        Why::Unservable => 2,
        Why::Backlog => 3,
        Why::Overtaken => 4,
        Why::InDirty => 5,
        Why::Deferred => 6,
        Why::Dropped => 7,
    }
}

/// The line of an ask: `done`, `queued N`, `joined N`, `lifted N`, `notdone K` or `silent`.
pub fn ask_line(alloc: Global, answer: AskAnswer) -> Result<Text, NoMemory>
    ensures { IfOk result (λ t. t ≡ spec.ask_line answer) }
{
    match answer {
        AskAnswer::Done => Text::of(alloc, "done\n"),
        AskAnswer::Queued(number) => numbered(alloc, "queued ", number),
        AskAnswer::Joined(number) => numbered(alloc, "joined ", number),
        AskAnswer::Lifted(number) => numbered(alloc, "lifted ", number),
        AskAnswer::NotDone(why) => numbered(alloc, "notdone ", why_number(why)),
        AskAnswer::Silent => Text::of(alloc, "silent\n"),
    }
}

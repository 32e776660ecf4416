//! From words to values, by clap.
ghost use Rattle.std.specs.Prelude.{◌≡◌, ◌≢◌, ◌↔◌, List, ℕ, [], Some, None, Err, map, codes, string_bytes, unwrap_or, IfOk};
ghost use Rattle.clap.specs.Words.{app_of, fault_of, matches_of, rows_of, found_of, all_of, kind_of};
ghost use Rattle.clap.specs.declared.error.kind.ErrorKind.TheVariants.{OutOfMemory};
ghost use Rattle.farm_words.specs.Values.{farm_app, values_of, ArePlain};
ghost use Rattle.farm_words.specs.Forms.{Answers, IsRefused};

use crate::command::{Command, WordsFault};
use crate::forms::command;
use clap::error::ErrorKind;
use clap::{Arg, ArgAction, ArgMatches, Error};
use std::alloc::{AllocError, Global};

/// The command that the words spell, by clap's reading of a simple command whose positional words are
/// values: `render STYLE DATA T Z X Y`, `script CONFIG SCRIPT`, `serve CONFIG`, `load SEED N` or
/// `meta FILE`. The words are without the program's name. Refused exactly where clap refuses them or
/// they are none of these; where no word is empty or begins with `-`, clap gives the words themselves.
pub fn read_words(alloc: Global, words: &[String]) -> Result<Command, WordsFault>
    ensures plain { ArePlain (map string_bytes words.now)
        → Answers (map string_bytes words.now) result }
    ensures given { (values : List (List ℕ)) → values_of (map string_bytes words.now) ≡ Some values
        → Answers values result }
    ensures none { values_of (map string_bytes words.now) ≡ None → IsRefused result }
{
    read_values(alloc, words)
}

// The same, without the law on plain words.
fn read_values(alloc: Global, words: &[String]) -> Result<Command, WordsFault>
    ensures given { (values : List (List ℕ)) → values_of (map string_bytes words.now) ≡ Some values
        → Answers values result }
    ensures none { values_of (map string_bytes words.now) ≡ None → IsRefused result }
{
    let values = values(alloc, words)?;
    command(alloc, values.as_slice())
}

fn values<'a>(alloc: Global, words: &'a [String]) -> Result<Vec<&'a str>, WordsFault>
    ensures ok { IfOk result
        (λ v. values_of (map string_bytes words.entry.now) ≡ Some (map (λ s. s.now) v.items)) }
    ensures refused { result ≡ Err WordsFault.Refused
        → values_of (map string_bytes words.entry.now) ≡ None }
{
    match matched(alloc, words) {
        Ok(matches) => gathered(alloc, &matches),
        Err(fault) => Err(fault),
    }
}

fn gathered<'a>(alloc: Global, matches: &ArgMatches<'a>) -> Result<Vec<&'a str>, WordsFault>
    ensures ok { IfOk result (λ v. map (λ s. s.now) v.items
        ≡ unwrap_or (all_of (codes "words") (rows_of (found_of matches.entry.now))) []) }
    ensures memory { result ≡ Err WordsFault.Refused → ⊥ }
{
    let mut values = Vec::new(alloc);
    if let Some(given) = matches.get_strs("words") {
        values.extend_from_slice(given)?;
    }
    Ok(values)
}

fn farm_command<'a>(alloc: Global) -> Result<clap::Command<'a>, AllocError>
    ensures { IfOk result (λ c. app_of c ≡ farm_app) }
{
    let word = Arg::new(alloc, "words").action(ArgAction::Append);
    clap::Command::new(alloc, "tilefarm")
        .no_binary_name(true)
        .disable_help_flag(true)
        .arg(word)
}

fn matched<'a>(alloc: Global, words: &'a [String]) -> Result<ArgMatches<'a>, WordsFault>
    ensures ok { IfOk result (λ m. (fault_of farm_app (map string_bytes words.entry.now) ≡ [])
        × (rows_of (found_of m) ≡ matches_of farm_app (map string_bytes words.entry.now))) }
    ensures refused { result ≡ Err WordsFault.Refused
        → fault_of farm_app (map string_bytes words.entry.now) ≢ [] }
{
    let command = farm_command(alloc)?;
    match command.try_get_matches_from(words) {
        Ok(matches) => Ok(matches),
        Err(error) => Err(fault(&error)),
    }
}

fn fault(error: &Error) -> WordsFault
    ensures { (result ≡ WordsFault.NoMemory) ↔ (kind_of error.now ≡ OutOfMemory) }
{
    match error.kind() {
        ErrorKind::OutOfMemory => WordsFault::NoMemory,
        _ => WordsFault::Refused,
    }
}

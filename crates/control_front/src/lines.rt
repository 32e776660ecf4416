//! What a line says.
ghost use Rattle.std.specs.Prelude.{◌≡◌, option_map};
ghost use Rattle.control_front.specs.Lines as spec;

use crate::acts::Line;
use farm_base::{cut, small_number, without_return};
use std::str;

#[tactic(auto, unfolding(crate::specs::Lines::command_named))]
fn named(name: &str, words: &str) -> Line
    ensures { result ≡ spec.command_named name.now words.now }
{
    let Some(number) = small_number(words) else {
        return Line::Bad;
    };
    match name {
        "update" => Line::Update(number),
        "restyle" => Line::Restyle(number),
        "renew" => Line::Renew(number),
        "expire" => Line::Expire(number),
        _ => Line::Bad,
    }
}

#[tactic(auto, unfolding(crate::specs::Lines::command_alone))]
fn alone(word: &str) -> Line
    ensures { result ≡ spec.command_alone word.now }
{
    match word {
        "stats" => Line::Stats,
        "stop" => Line::Stop,
        _ => Line::Bad,
    }
}

#[tactic(auto, unfolding(crate::specs::Lines::control_line))]
fn control_line(text: &str) -> Line
    ensures { result ≡ spec.control_line text.now }
{
    match cut(text, ' ') {
        Some((name, words)) => named(name, words),
        None => alone(text),
    }
}

#[tactic(auto, unfolding(crate::specs::Lines::utf8_text), using(crate::proofs::Texts::text_known, crate::proofs::Texts::text_unknown))]
fn text(bytes: &[u8]) -> Option<&str>
    ensures { option_map (λ s. s.now) result ≡ spec.utf8_text bytes.entry.now }
{
    match str::from_utf8(bytes) {
        Ok(text) => Some(text),
        Err(_) => None,
    }
}

/// What a line says, whose newline is not among the bytes.
pub fn line_in(bytes: &[u8]) -> Line
    ensures { result ≡ spec.line_in bytes.now }
{
    match text(without_return(bytes)) {
        Some(text) => control_line(text),
        None => Line::Bad,
    }
}

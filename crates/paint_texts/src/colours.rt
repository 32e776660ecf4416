//! Colours.
ghost use Rattle.std.specs.Prelude.{◌≡◌, ◌↔◌, ◌+◌, ◌*◌, ◌≤◌, true, length, take, option_map, IfSome, Some};
ghost use Rattle.std.specs.List.{list_all, prefix_len};
ghost use Rattle.farm_base.specs.Digits.{is_digit};
ghost use Rattle.plain_shapes.specs.declared.colour.Colour.{Colour};
ghost use Rattle.paint_texts.specs.Colours as spec;

use crate::digits::{front_len, number};
use plain_shapes::Colour;

/// The colour of a text: `#rgb` (each digit doubled) or `#rrggbb` with hexadecimal digits of either
/// case; `rgb(r,g,b)` with numbers from 0 to 255, spaces round the numbers ignored; or one of the
/// sixteen names of HTML 4 in lower case. `None` exactly where the text is none of these. They are
/// Mapnik's colour texts, without its further names and its alpha.
pub fn colour(text: &str) -> Option<Colour>
    ensures value { result ≡ spec.colour_of text.now }
    ensures exact { (c : Colour) → (result ≡ Some c) ↔ spec.IsColour text.now c }
{
    read(text)
}

#[tactic(auto, unfolding(crate::specs::Colours::colour_of))]
fn read(text: &str) -> Option<Colour>
    ensures { result ≡ spec.colour_of text.now }
{
    let bytes = text.as_bytes();
    if let Some(colour) = hashed(bytes) {
        return Some(colour);
    }
    if let Some(colour) = mixed(bytes) {
        return Some(colour);
    }
    named(text)
}

#[tactic(auto, unfolding(crate::specs::Colours::colour_by_name))]
fn named(text: &str) -> Option<Colour>
    ensures { result ≡ spec.colour_by_name text.now }
{
    match text {
        "aqua" => Some(rgb(0, 255, 255)),
        "black" => Some(rgb(0, 0, 0)),
        "blue" => Some(rgb(0, 0, 255)),
        "fuchsia" => Some(rgb(255, 0, 255)),
        "gray" => Some(rgb(128, 128, 128)),
        "green" => Some(rgb(0, 128, 0)),
        "lime" => Some(rgb(0, 255, 0)),
        "maroon" => Some(rgb(128, 0, 0)),
        "navy" => Some(rgb(0, 0, 128)),
        "olive" => Some(rgb(128, 128, 0)),
        "purple" => Some(rgb(128, 0, 128)),
        "red" => Some(rgb(255, 0, 0)),
        "silver" => Some(rgb(192, 192, 192)),
        "teal" => Some(rgb(0, 128, 128)),
        "white" => Some(rgb(255, 255, 255)),
        "yellow" => Some(rgb(255, 255, 0)),
        _ => None,
    }
}

fn rgb(r: u8, g: u8, b: u8) -> Colour
    ensures { result ≡ spec.rgb r g b }
{
    Colour { r, g, b }
}

fn hex(c: u8) -> Option<u8>
    ensures value { result ≡ spec.hex c }
    ensures bound { IfSome result (λ n. n ≤ 15) }
{
    match c {
        b'0'..=b'9' => Some(c - b'0'),
        b'a'..=b'f' => Some(c - b'a' + 10),
        b'A'..=b'F' => Some(c - b'A' + 10),
        _ => None,
    }
}

fn two_digits(high: u8, low: u8) -> Option<u8>
    ensures { result ≡ spec.two_digits (spec.hex high) (spec.hex low) }
{
    let high = hex(high)?;
    let low = hex(low)?;
    Some(16 * high + low)
}

fn joined(r: Option<u8>, g: Option<u8>, b: Option<u8>) -> Option<Colour>
    ensures { result ≡ spec.three_channels r g b }
{
    Some(rgb(r?, g?, b?))
}

#[tactic(auto, unfolding(crate::specs::Colours::channels))]
fn channels(digits: &[u8]) -> Option<Colour>
    ensures { result ≡ spec.channels digits.now }
{
    match digits {
        [r, g, b] => joined(two_digits(*r, *r), two_digits(*g, *g), two_digits(*b, *b)),
        [r, s, g, h, b, c] => joined(two_digits(*r, *s), two_digits(*g, *h), two_digits(*b, *c)),
        _ => None,
    }
}

fn behind(sign: u8, text: &[u8]) -> Option<&[u8]>
    ensures { option_map (λ s. s.now) result ≡ spec.behind sign text.now }
{
    match text {
        [c, rest @ ..] => { if *c == sign { Some(rest) } else { None } }
        [] => None,
    }
}

#[tactic(auto, unfolding(crate::specs::Colours::hash_colour))]
fn hashed(text: &[u8]) -> Option<Colour>
    ensures { result ≡ spec.hash_colour text.now }
{
    channels(behind(b'#', text)?)
}

// The text without the spaces at its front.
fn trimmed(text: &[u8]) -> &[u8]
    ensures { result.now ≡ spec.without_spaces text.now }
{
    let spaces = spaces_len(text);
    &text[spaces..]
}

fn spaces_len(text: &[u8]) -> usize
    ensures value { result ≡ prefix_len spec.is_space text.now }
    ensures bound { result ≤ length text.now }
{
    text.iter().take_while(|c| **c == b' ').count()
}

// A number of one to three digits up to 255 between spaces, and what stands behind the sign that ends it.
#[tactic(auto, using(crate::proofs::Runs::front_digits), unfolding(crate::specs::Colours::number_before))]
fn part(sign: u8, text: &[u8]) -> Option<(u8, &[u8])>
    ensures { option_map (λ p. (p.0, p.1.now)) result ≡ spec.number_before sign text.now }
{
    let text = trimmed(text);
    part_of(sign, front_len(text), text)
}

fn part_of(sign: u8, len: usize, text: &[u8]) -> Option<(u8, &[u8])>
    requires len { len ≤ length text.now }
    requires digits { list_all is_digit (take len text.now) ≡ true }
    ensures { option_map (λ p. (p.0, p.1.now)) result ≡ spec.part_of sign len text.now }
{
    if len < 1 || len > 3 {
        return None;
    }
    let n = number(&text[..len]);
    if n > 255 {
        return None;
    }
    let rest = behind(sign, trimmed(&text[len..]))?;
    Some((n as u8, rest))
}

#[tactic(auto, unfolding(crate::specs::Colours::parts))]
fn parts(text: &[u8]) -> Option<Colour>
    ensures { result ≡ spec.parts text.now }
{
    let (r, text) = part(b',', text)?;
    let (g, text) = part(b',', text)?;
    let (b, text) = part(b')', text)?;
    if text.is_empty() {
        Some(rgb(r, g, b))
    } else {
        None
    }
}

#[tactic(auto, unfolding(crate::specs::Colours::rgb_colour))]
fn mixed(text: &[u8]) -> Option<Colour>
    ensures { result ≡ spec.rgb_colour text.now }
{
    if text.len() >= 4 && &text[..4] == b"rgb(".as_slice() {
        parts(&text[4..])
    } else {
        None
    }
}

//! From a path to its metatile.
ghost use Rattle.std.specs.Prelude.{◌≡◌, ◌≤◌, ◌<◌, ◌+◌, ◌*◌, ◌/◌, ◌%◌, ◌++◌, ◌∷◌, ℕ, List, length, IfSome, IsSomeAnd};
ghost use Rattle.std.specs.Fmt.{decimal};
ghost use Rattle.plain_world.specs.declared.world.Meta.{Meta};
ghost use Rattle.plain_world.specs.World.{IsMeta};
ghost use Rattle.tile_paths.specs.Paths.{IsName, path_of};
ghost use Rattle.tile_paths.specs.Paths as spec;

use crate::names::is_name;
use crate::writing::path;
use arrayvec::ArrayString;
use merc_fixed::{meta_of, tile};
use plain_world::Meta;

/// The name and the metatile of which this is the path; `None` exactly where it is the path of none. No command
/// calls it: a farm looks up paths that it made. Its test is the table of paths of `command_cases`.
pub fn read_path(text: &str) -> Option<(ArrayString<40>, Meta)>
    ensures some { IfSome result (λ found. IsName found.0.bytes × IsMeta found.1
        × (text.now ≡ path_of found.0.bytes found.1)) }

    // What is a path is read, as the name and the metatile that it was made of.
    ensures every { (name : List ℕ) (m : Meta) → IsName name → IsMeta m → text.now ≡ path_of name m
        → IsSomeAnd result (λ found. (found.0.bytes ≡ name) × (found.1 ≡ m)) }
{
    let Some(parts) = read_parts(text) else {
        return None;
    };
    if !is_name(parts.name) {
        return None;
    }
    let Ok(name) = ArrayString::from(parts.name) else {
        return None;
    };
    let Some(first) = tile(parts.z, parts.x, parts.y) else {
        return None;
    };
    let meta = meta_of(first);
    if path(parts.name, meta).as_str() != text {
        return None;
    }
    Some((name, meta))
}

/// What a path is made of, before it is known to be one.
#[derive(Clone, Copy)]
struct Parts<'a> {
    name: &'a str,
    z: u32,
    x: u32,
    y: u32,
}

fn read_number(text: &str, end: char) -> Option<(u8, &str)>
    requires { end < 48 }
    ensures { (n : ℕ) (rest : List ℕ) → n < 256 → text.now ≡ decimal n ++ end ∷ rest
        → IsSomeAnd result (λ found. (found.0 ≡ n) × (found.1.now ≡ rest)) }
{
    let Some((digits, rest)) = text.split_once(end) else {
        return None;
    };
    match digits.parse::<u8>() {
        Ok(number) => Some((number, rest)),
        Err(_) => None,
    }
}

fn read_name(text: &str) -> Option<(&str, &str)>
    ensures { (name rest : List ℕ) → IsName name → text.now ≡ name ++ 47 ∷ rest
        → IsSomeAnd result (λ found. (found.0.now ≡ name) × (found.1.now ≡ rest)) }
{
    text.split_once('/')
}

/// The five numbers of a path, from the first on.
#[derive(Clone, Copy)]
struct Five {
    h4: u8,
    h3: u8,
    h2: u8,
    h1: u8,
    h0: u8,
}

fn read_five(text: &str) -> Option<Five>
    ensures { (h4 h3 h2 h1 h0 : ℕ) → h4 < 256 → h3 < 256 → h2 < 256 → h1 < 256 → h0 < 256
        → text.now ≡ spec.five h4 h3 h2 h1 h0
        → IsSomeAnd result (λ found. found
        ≡ record { h4 = h4; h3 = h3; h2 = h2; h1 = h1; h0 = h0 }) }
{
    let Some((h4, rest)) = read_number(text, '/') else {
        return None;
    };
    let Some((h3, rest)) = read_number(rest, '/') else {
        return None;
    };
    let Some((h2, rest)) = read_number(rest, '/') else {
        return None;
    };
    let Some((h1, rest)) = read_number(rest, '/') else {
        return None;
    };
    let Some((h0, _)) = read_number(rest, '.') else {
        return None;
    };
    Some(Five { h4, h3, h2, h1, h0 })
}

fn read_parts(text: &str) -> Option<Parts<'_>>
    ensures { (name : List ℕ) (m : Meta) → IsName name → IsMeta m → text.now ≡ path_of name m
        → IsSomeAnd result (λ found. (found.name.now ≡ name) × (found.z ≡ m.z) × (found.x ≡ m.x)
        × (found.y ≡ m.y)) }
{
    let Some((name, rest)) = read_name(text) else {
        return None;
    };
    let Some((z, rest)) = read_number(rest, '/') else {
        return None;
    };
    let Some(five) = read_five(rest) else {
        return None;
    };
    Some(Parts {
        name,
        z: u32::from(z),
        x: high_bits(five),
        y: low_bits(five),
    })
}

fn high_bits(five: Five) -> u32
    ensures { result ≡ (((five.h4 / 16 * 16 + five.h3 / 16) * 16 + five.h2 / 16) * 16
        + five.h1 / 16) * 16 + five.h0 / 16 }
{
    let upper = |h: u8| -> u32 { u32::from(h / 16) };
    let four = ((upper(five.h4) * 16 + upper(five.h3)) * 16 + upper(five.h2)) * 16 + upper(five.h1);
    four * 16 + upper(five.h0)
}

fn low_bits(five: Five) -> u32
    ensures { result ≡ (((five.h4 % 16 * 16 + five.h3 % 16) * 16 + five.h2 % 16) * 16
        + five.h1 % 16) * 16 + five.h0 % 16 }
{
    let lower = |h: u8| -> u32 { u32::from(h % 16) };
    let four = ((lower(five.h4) * 16 + lower(five.h3)) * 16 + lower(five.h2)) * 16 + lower(five.h1);
    four * 16 + lower(five.h0)
}

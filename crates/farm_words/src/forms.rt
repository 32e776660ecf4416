//! From values to the command that they spell.
ghost use Rattle.std.specs.Prelude.{◌≡◌, ◌≤◌, ◌<◌, ◌^◌, ◌∷◌, ℕ, Some, map, codes, IfSome};
ghost use Rattle.std.specs.Fmt.{decimal};
ghost use Rattle.plain_world.specs.World.{IsTile, IsTileSize};
ghost use Rattle.plain_world.specs.declared.world.Tile.{Tile};
ghost use Rattle.farm_words.specs.Forms.{Answers};

use crate::command::{Command, WordsFault};
use farm_base::Text;
use merc_fixed::{is_tile_size, tile};
use plain_world::Tile;
use std::alloc::Global;

// The number that the text spells in decimal, without sign or leading zeros.
fn number(text: &str) -> Option<u64>
    ensures some { IfSome result (λ n. (text.now ≡ decimal n) × (n < 2 ^ 64)) }
    ensures every { (n : ℕ) → n < 2 ^ 64 → text.now ≡ decimal n → result ≡ Some n }
{
    farm_base::number(text)
}

fn small_number(text: &str) -> Option<u32>
    ensures some { IfSome result (λ n. text.now ≡ decimal n) }
    ensures every { (n : ℕ) → n < 2 ^ 32 → text.now ≡ decimal n → result ≡ Some n }
{
    farm_base::small_number(text)
}

#[tactic(auto, using(plain_world::proofs::Windows::size_bounds))]
fn tile_size(text: &str) -> Option<u32>
    ensures some { IfSome result (λ n. (text.now ≡ decimal n) × IsTileSize n) }
    ensures every { (n : ℕ) → IsTileSize n → text.now ≡ decimal n → result ≡ Some n }
{
    let size = small_number(text)?;
    if is_tile_size(size) { Some(size) } else { None }
}

fn spelled_tile(z: &str, x: &str, y: &str) -> Option<Tile>
    ensures some { IfSome result
        (λ t. (z.now ≡ decimal t.z) × (x.now ≡ decimal t.x) × (y.now ≡ decimal t.y) × IsTile t) }
    ensures every { (t : Tile) → IsTile t → z.now ≡ decimal t.z → x.now ≡ decimal t.x
        → y.now ≡ decimal t.y → result ≡ Some t }
{
    match (small_number(z), small_number(x), small_number(y)) {
        (Some(z), Some(x), Some(y)) => tile(z, x, y),
        _ => None,
    }
}

fn render(alloc: Global, rest: &[&str]) -> Result<Command, WordsFault>
    ensures { Answers (codes "render" ∷ map (λ v. v.now) rest.entry.now) result }
{
    let [style, data, size, z, x, y] = rest else {
        return Err(WordsFault::Refused);
    };
    let Some(size) = tile_size(size) else {
        return Err(WordsFault::Refused);
    };
    let Some(tile) = spelled_tile(z, x, y) else {
        return Err(WordsFault::Refused);
    };
    Ok(Command::Render(Text::of(alloc, style)?, Text::of(alloc, data)?, size, tile))
}

fn serve(alloc: Global, rest: &[&str]) -> Result<Command, WordsFault>
    ensures { Answers (codes "serve" ∷ map (λ v. v.now) rest.entry.now) result }
{
    let [config] = rest else {
        return Err(WordsFault::Refused);
    };
    Ok(Command::Serve(Text::of(alloc, config)?))
}

fn script(alloc: Global, rest: &[&str]) -> Result<Command, WordsFault>
    ensures { Answers (codes "script" ∷ map (λ v. v.now) rest.entry.now) result }
{
    let [config, script] = rest else {
        return Err(WordsFault::Refused);
    };
    Ok(Command::Script(Text::of(alloc, config)?, Text::of(alloc, script)?))
}

fn load(rest: &[&str]) -> Result<Command, WordsFault>
    ensures { Answers (codes "load" ∷ map (λ v. v.now) rest.entry.now) result }
{
    let [seed, features] = rest else {
        return Err(WordsFault::Refused);
    };
    let Some(seed) = number(seed) else {
        return Err(WordsFault::Refused);
    };
    let Some(features) = feature_count(features) else {
        return Err(WordsFault::Refused);
    };
    Ok(Command::Load(seed, features))
}

fn feature_count(text: &str) -> Option<u32>
    ensures some { IfSome result (λ n. (text.now ≡ decimal n) × (1 ≤ n) × (n ≤ 100000)) }
    ensures every { (n : ℕ) → 1 ≤ n → n ≤ 100000 → text.now ≡ decimal n → result ≡ Some n }
{
    match small_number(text) {
        Some(number) if number >= 1 && number <= 100_000 => Some(number),
        _ => None,
    }
}

fn meta(alloc: Global, rest: &[&str]) -> Result<Command, WordsFault>
    ensures { Answers (codes "meta" ∷ map (λ v. v.now) rest.entry.now) result }
{
    let [file] = rest else {
        return Err(WordsFault::Refused);
    };
    Ok(Command::Meta(Text::of(alloc, file)?))
}

/// The command that the values spell.
pub fn command(alloc: Global, values: &[&str]) -> Result<Command, WordsFault>
    ensures { Answers (map (λ v. v.now) values.entry.now) result }
{
    let [name, rest @ ..] = values else {
        return Err(WordsFault::Refused);
    };
    match *name {
        "render" => render(alloc, rest),
        "script" => script(alloc, rest),
        "serve" => serve(alloc, rest),
        "load" => load(rest),
        "meta" => meta(alloc, rest),
        _ => Err(WordsFault::Refused),
    }
}

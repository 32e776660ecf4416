//! The targets of requests.
ghost use Rattle.std.specs.Prelude.{◌≡◌, ◌≢◌, ◌^◌, ◌<◌, ◌∷◌, ◌++◌, ℕ, List, codes, IfSome, IfNone, IsSomeAnd};
ghost use Rattle.std.specs.Fmt.{decimal};
ghost use Rattle.tile_paths.specs.Paths.{IsName};
ghost use Rattle.tile_front.specs.Targets.{Place, Names, ending, place_of};

use farm_base::small_number;
use tile_paths::is_name;

/// What a target asks for.
#[derive(Clone, Copy)]
pub enum Kind {
    /// The tile itself.
    Tile,
    /// How it stands.
    Status,
    /// That it be drawn anew.
    Dirty,
}

/// What a target asks for, of which tile: the name of a map, which need not be there, and three numbers
/// of 32 bits, which need not be those of a tile.
#[derive(Clone, Copy)]
pub struct Target<'a> {
    pub kind: Kind,
    pub name: &'a str,
    pub z: u32,
    pub x: u32,
    pub y: u32,
}

/// What the target asks for: `/NAME/Z/X/Y.ppm`, and the same with `/status` or `/dirty` behind it. The
/// name is one that a map may have, and the numbers stand in decimal, without leading zeros. `None`
/// exactly where it is no such target.
pub fn read_target(text: &str) -> Option<Target<'_>>
    ensures some { IfSome result (λ t. Names text.entry.now t.kind (place_of t)) }
    ensures every { (k : Kind) (p : Place) → Names text.entry.now k p
        → IsSomeAnd result (λ t. (t.kind ≡ k) × (place_of t ≡ p)) }
{
    let Some(rest) = text.strip_prefix('/') else {
        return None;
    };
    let Some((name, rest)) = read_name(rest) else {
        return None;
    };
    let Some((z, rest)) = read_number(rest, '/') else {
        return None;
    };
    let Some((x, rest)) = read_number(rest, '/') else {
        return None;
    };
    let Some((y, rest)) = read_number(rest, '.') else {
        return None;
    };
    let Some(kind) = read_kind(rest) else {
        return None;
    };
    Some(Target {
        kind,
        name,
        z,
        x,
        y,
    })
}

fn read_name(text: &str) -> Option<(&str, &str)>
    ensures some { IfSome result
        (λ found. IsName found.0.now × (text.entry.now ≡ found.0.now ++ 47 ∷ found.1.now)) }
    ensures every { (name rest : List ℕ) → IsName name → text.entry.now ≡ name ++ 47 ∷ rest
        → IsSomeAnd result (λ found. (found.0.now ≡ name) × (found.1.now ≡ rest)) }
{
    let Some((name, rest)) = text.split_once('/') else {
        return None;
    };
    if !is_name(name) {
        return None;
    }
    Some((name, rest))
}

fn read_number(text: &str, end: char) -> Option<(u32, &str)>
    requires { end < 48 }
    ensures some { IfSome result
        (λ found. (found.0 < 2 ^ 32) × (text.entry.now ≡ decimal found.0 ++ end ∷ found.1.now)) }
    ensures every { (n : ℕ) (rest : List ℕ) → n < 2 ^ 32 → text.entry.now ≡ decimal n ++ end ∷ rest
        → IsSomeAnd result (λ found. (found.0 ≡ n) × (found.1.now ≡ rest)) }
{
    let Some((digits, rest)) = text.split_once(end) else {
        return None;
    };
    match small_number(digits) {
        Some(number) => Some((number, rest)),
        None => None,
    }
}

fn read_kind(text: &str) -> Option<Kind>
    ensures some { IfSome result (λ k. text.now ≡ ending k) }
    ensures every { (k : Kind) → text.now ≡ ending k → IsSomeAnd result (λ found. found ≡ k) }
{
    match text {
        "ppm" => Some(Kind::Tile),
        "ppm/status" => Some(Kind::Status),
        "ppm/dirty" => Some(Kind::Dirty),
        _ => None,
    }
}

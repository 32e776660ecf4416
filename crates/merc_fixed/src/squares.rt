//! The squares of tiles and metatiles, and where they overlap.
ghost use Rattle.std.specs.Prelude.{◌≡◌, ◌≤◌, ◌↔◌, ◌⊎◌, IsTrue};
ghost use Rattle.plain_world.specs.World.{IsTile, IsMeta, IsSquare, tile_square, meta_square, squares_meet, Overlap};
ghost use Rattle.plain_world.specs.Ancestors.{IsOver};

use plain_world::{Meta, Square, Tile};

/// The square of a metatile: `(z - 3, x / 8, y / 8)` from zoom 3 on, and below that the whole world.
pub fn meta_square(m: Meta) -> Square
    requires { IsMeta m }
    ensures value { result ≡ meta_square m }
    ensures valid { IsSquare result }
{
    if m.z >= 3 {
        Square {
            z: m.z - 3,
            x: m.x / 8,
            y: m.y / 8,
        }
    } else {
        Square { z: 0, x: 0, y: 0 }
    }
}

/// The square of a tile, which has its three numbers.
pub fn tile_square(t: Tile) -> Square
    requires { IsTile t }
    ensures value { result ≡ tile_square t }
    ensures valid { IsSquare result }
{
    Square {
        z: t.z,
        x: t.x,
        y: t.y,
    }
}

/// Whether some whole point of the world lies in both squares, which is where one is the other or its
/// ancestor in the quadtree.
pub fn overlaps(a: Square, b: Square) -> bool
    requires first { IsSquare a }
    requires second { IsSquare b }
    ensures test { result ≡ squares_meet a b }
    ensures meaning { IsTrue result ↔ Overlap a b }
    ensures ancestor { IsTrue result ↔ (IsOver a b ⊎ IsOver b a) }
{
    if a.z <= b.z {
        is_ancestor(a, b)
    } else {
        is_ancestor(b, a)
    }
}

fn is_ancestor(high: Square, low: Square) -> bool
    requires order { high.z ≤ low.z }
    requires zoom { low.z ≤ 18 }
    ensures { result ≡ squares_meet high low }
{
    let steps = low.z - high.z;
    low.x >> steps == high.x && low.y >> steps == high.y
}

//! Tiles and the metatiles that they lie in.
ghost use Rattle.std.specs.Prelude.{◌≡◌, ◌<◌, ◌≤◌, ◌^◌, ℕ, IfSome, IfNone};
ghost use Rattle.plain_world.specs.World.{IsTile, IsMeta, meta_of, tiles_across, index_place};
ghost use Rattle.merc_fixed.specs.Tiles.{tile_if_any};

use plain_world::{Meta, Tile};

/// The tile of this zoom, column and row; `None` exactly where the zoom is over 18 or the column or row
/// is not below `2^z`.
#[tactic(auto, unfolding(crate::specs::Tiles::tile_if_any))]
pub fn tile(z: u32, x: u32, y: u32) -> Option<Tile>
    ensures value { result ≡ tile_if_any z x y }
    ensures made { IfSome result (λ t. t ≡ record { z = z; x = x; y = y }) }
    ensures valid { IfSome result IsTile }
    ensures none { IfNone result (¬ (IsTile (record { z = z; x = x; y = y }))) }
{
    if z <= 18 && x < 1 << z && y < 1 << z {
        Some(Tile { z, x, y })
    } else {
        None
    }
}

/// The metatile that holds the tile: column and row are cut to multiples of 8.
pub fn meta_of(t: Tile) -> Meta
    requires { IsTile t }
    ensures value { result ≡ meta_of t }
    ensures valid { IsMeta result }
{
    Meta {
        z: t.z,
        x: t.x / 8 * 8,
        y: t.y / 8 * 8,
    }
}

/// How many tiles the metatile has side by side: the lesser of 8 and `2^z`.
pub fn tiles_across(m: Meta) -> u32
    requires { IsMeta m }
    ensures value { result ≡ tiles_across m }
    ensures some { 1 ≤ result }
    ensures few { result ≤ 8 }
{
    (1u32 << m.z).min(8)
}

/// The place of the tile in its metatile, by columns: from 0 to 63.
pub fn index_place(t: Tile) -> u32
    requires { IsTile t }
    ensures value { result ≡ index_place t }
    ensures few { result < 64 }
{
    t.x % 8 * 8 + t.y % 8
}

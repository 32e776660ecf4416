//! The pixel windows of tiles and metatiles.
ghost use Rattle.std.specs.Prelude.{◌≡◌, ◌<◌, ◌≤◌, ◌*◌, ◌^◌};
ghost use Rattle.plain_world.specs.World.{side_at, IsTile, IsMeta, IsTileSize, is_tile_size, IsWindow, InWorld, window_of, meta_window_of, centre};

use crate::tiles::tiles_across;
use plain_world::{Meta, Point, Tile, Window};

/// Whether tiles may be so many pixels wide and high: 16, 32, 64, 128, 256 or 512.
pub fn is_tile_size(n: u32) -> bool
    ensures { result ≡ is_tile_size n }
{
    matches!(n, 16 | 32 | 64 | 128 | 256 | 512)
}

/// The window of a tile of `size` by `size` pixels.
#[tactic(auto, using(plain_world::proofs::Windows::size_bounds))]
pub fn window(t: Tile, size: u32) -> Window
    requires tile { IsTile t }
    requires size { IsTileSize size }
    ensures value { result ≡ window_of t size }
    ensures valid { IsWindow result }
{
    let west = edge(t.z, t.x);
    let north = edge(t.z, t.y);
    Window {
        west,
        north,
        pixel: side(t.z) / size,
        cols: size,
        rows: size,
    }
}

/// The window of a metatile whose tiles have `size` by `size` pixels.
#[tactic(auto, using(plain_world::proofs::Windows::size_bounds))]
pub fn meta_window(m: Meta, size: u32) -> Window
    requires meta { IsMeta m }
    requires size { IsTileSize size }
    ensures value { result ≡ meta_window_of m size }
    ensures valid { IsWindow result }
{
    let pixels = size * tiles_across(m);
    let west = edge(m.z, m.x);
    let north = edge(m.z, m.y);
    Window {
        west,
        north,
        pixel: side(m.z) / size,
        cols: pixels,
        rows: pixels,
    }
}

/// The centre of the pixel in column `i` and row `j`.
pub fn centre(w: Window, i: u32, j: u32) -> Point
    requires window { IsWindow w }
    requires column { i < w.cols }
    requires row { j < w.rows }
    ensures value { result ≡ centre w i j }
    ensures valid { InWorld result }
{
    Point {
        x: w.west + i * w.pixel + w.pixel / 2,
        y: w.north + j * w.pixel + w.pixel / 2,
    }
}

fn side(z: u32) -> u32
    requires { z ≤ 18 }
    ensures { result ≡ side_at z }
{
    1 << (30 - z)
}

fn edge(z: u32, n: u32) -> u32
    requires zoom { z ≤ 18 }
    requires place { n < 2 ^ z }
    ensures { result ≡ n * side_at z }
{
    n * side(z)
}

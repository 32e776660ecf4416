//! What the text of a tile is made of beside its pixels: the head of a binary PPM text, and how long the text is.
//!
//! Another format of tiles begins here: who keeps or measures texts asks this module for both.
ghost use Rattle.std.specs.Prelude.{◌≡◌, ◌*◌, ◌^◌, ◌<◌, ◌≤◌, ◌+◌, [], length, IfOk, string_bytes};
ghost use Rattle.std.specs.Fmt.{decimal};
ghost use Rattle.plain_shapes.specs.Ppm.{ppm};
ghost use Rattle.plain_world.specs.World.{IsTileSize};

use farm_base::NoMemory;
use std::alloc::Global;

/// What stands before the pixels of a PPM text: the text of no pixels.
pub fn text_head(alloc: Global, cols: u32, rows: u32) -> Result<String, NoMemory>
    ensures { IfOk result (λ head. string_bytes head ≡ ppm cols rows []) }
{
    Ok(format!(in alloc; "P6\n{} {}\n255\n", cols, rows)?)
}

#[tactic(auto, using(crate::proofs::Lengths::two_digits, crate::proofs::Lengths::three_digits))]
fn digits_of(size: u32) -> u32
    requires { IsTileSize size }
    ensures value { result ≡ length (decimal size) }
    ensures few { result ≤ 3 }
{
    if size < 100 { 2 } else { 3 }
}

/// How long the text of a tile of this size is: its head, and three bytes for each pixel.
#[tactic(auto, using(crate::proofs::Lengths::few_pixels))]
pub fn text_len(size: u32) -> u32
    requires { IsTileSize size }
    ensures value { result ≡ 9 + 2 * length (decimal size) + 3 * (size * size) }
    ensures few { result < 2 ^ 20 }
{
    9 + 2 * digits_of(size) + 3 * (size * size)
}

//! A tile as a PPM text.
ghost use Rattle.std.specs.Prelude.{◌≡◌, IfOk, IsTrue};
ghost use Rattle.std.specs.List.{list_all};
ghost use Rattle.plain_world.specs.World.{IsTile, IsTileSize};
ghost use Rattle.plain_drawing.specs.Drawing.{drawn_tile};

use crate::canvas::Canvas;
use crate::layers::draw_map;
use data_versions::Snapshot;
use farm_base::NoMemory;
use merc_fixed::{Tile, window};
use plain_drawing::MapStyle;
use scale_rules::denominator;
use std::alloc::Global;
use tiled_image::TiledImage;

/// The tile of a map style over data, with `size` by `size` pixels, as a binary PPM text: exactly the plain
/// drawing, whose colour at the centre of each pixel is that of the background and of each symbolizer over it.
pub fn draw_tile(
    alloc: Global,
    style: &MapStyle,
    size: u32,
    t: Tile,
    snapshot: &Snapshot,
) -> Result<Vec<u8>, NoMemory>
    requires size { IsTileSize size }
    requires tile { IsTile t }
    ensures { IfOk result (λ v. v.items ≡ drawn_tile style.now size t snapshot.now) }
{
    let blank = TiledImage::over(alloc, 0, size, 1, style.background_color)?;
    let mut canvas = Canvas::of(alloc, window(t, size), blank);
    draw_map(alloc, denominator(t.z, size), style, snapshot, &mut canvas)?;
    let image = canvas.into_image();
    let mut text = Vec::new(alloc);
    image.put_part(0, 0, size, size, &mut text)?;
    Ok(text)
}

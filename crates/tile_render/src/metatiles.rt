//! All tiles of a metatile, cut from one picture.
ghost use Rattle.std.specs.Prelude.{◌≡◌, ◌+◌, ◌*◌, ◌^◌, ◌<◌, ◌≤◌, ◌++◌, IfOk, OnOk, IsTrue};
ghost use Rattle.std.specs.List.{list_all};
ghost use Rattle.plain_world.specs.World.{IsMeta, IsTileSize, tiles_across};
ghost use Rattle.plain_drawing.specs.Metatiles.{tiles_of};
ghost use Rattle.plain_drawing.specs.inner.PartTexts.{part_text, column_texts, part_texts};

use crate::canvas::Canvas;
use crate::layers::draw_map;
use data_versions::Snapshot;
use farm_base::{Bytes, NoMemory};
use merc_fixed::{Meta, meta_window, tiles_across};
use plain_drawing::MapStyle;
use scale_rules::denominator;
use std::alloc::Global;
use tiled_image::TiledImage;

/// The tiles of a metatile as binary PPM texts, in order of index place.
#[derive(Drop)]
pub struct DrawnMeta {
    pub meta: Meta,
    pub tiles: Vec<Bytes>,
}

// The text of the part of the image that is so many tiles from its west and north edge.
fn cut_tile(
    alloc: Global,
    image: &TiledImage,
    size: u32,
    col: u32,
    row: u32,
) -> Result<Bytes, NoMemory>
    requires some { 1 ≤ size }
    requires few { size ≤ 512 }
    requires col { col < 8 }
    requires row { row < 8 }
    requires in_cols { col * size + size ≤ image.now.cols }
    requires in_rows { row * size + size ≤ image.now.rows }
    ensures { IfOk result (λ tile. tile ≡ part_text image.now size col row) }
{
    let mut text = Vec::new(alloc);
    image.put_part(col * size, row * size, size, size, &mut text)?;
    Ok(Bytes::from_vec(text))
}

fn cut_column(
    alloc: Global,
    image: &TiledImage,
    size: u32,
    across: u32,
    col: u32,
    tiles: &mut Vec<Bytes>,
) -> Result<(), NoMemory>
    requires some { 1 ≤ size }
    requires few { size ≤ 512 }
    requires few_across { across ≤ 8 }
    requires col { col < across }
    requires cols { image.now.cols ≡ size * across }
    requires rows { image.now.rows ≡ size * across }
    ensures { OnOk result
        (tiles.new.items ≡ tiles.old.items ++ column_texts image.now size across col) }
{
    for row in 0..across {
        let tile = cut_tile(alloc, image, size, col, row)?;
        tiles.push(tile)?;
    }
    Ok(())
}

fn cut_tiles(
    alloc: Global,
    image: &TiledImage,
    size: u32,
    across: u32,
) -> Result<Vec<Bytes>, NoMemory>
    requires some { 1 ≤ size }
    requires few { size ≤ 512 }
    requires few_across { across ≤ 8 }
    requires cols { image.now.cols ≡ size * across }
    requires rows { image.now.rows ≡ size * across }
    ensures { IfOk result (λ tiles. tiles.items ≡ part_texts image.now size across) }
{
    let mut tiles = Vec::new(alloc);
    for col in 0..across {
        cut_column(alloc, image, size, across, col, &mut tiles)?;
    }
    Ok(tiles)
}

/// The picture of a metatile, whose parts are exactly its tiles, each its `draw_tile`. It is kept as the texts of these
/// tiles, with room for so many bytes before them.
pub fn draw_picture(
    alloc: Global,
    before: usize,
    style: &MapStyle,
    size: u32,
    m: Meta,
    snapshot: &Snapshot,
) -> Result<TiledImage, NoMemory>
    requires before { before ≤ 2 ^ 16 }
    requires size { IsTileSize size }
    requires meta { IsMeta m }
    ensures tiles { IfOk result
        (λ image. part_texts image size (tiles_across m) ≡ tiles_of style.now size m snapshot.now) }
    ensures cols { IfOk result (λ image. image.cols ≡ size * tiles_across m) }
    ensures rows { IfOk result (λ image. image.rows ≡ size * tiles_across m) }
{
    let across = tiles_across(m);
    let blank = TiledImage::over(alloc, before, size, across, style.background_color)?;
    let mut canvas = Canvas::of(alloc, meta_window(m, size), blank);
    draw_map(alloc, denominator(m.z, size), style, snapshot, &mut canvas)?;
    Ok(canvas.into_image())
}

/// The tiles of a metatile, each exactly its `draw_tile`, in order of index place. No command calls it: a worker draws
/// a metatile as its container (`draw_container` of `meta_drawing`), which copies no tile. Its tests are
/// `four_tiles_of_one_window` and `a_container_drawn_twice` of `farm_tests`.
#[tactic(auto, using(plain_world::proofs::Windows::size_bounds))]
pub fn draw_meta(
    alloc: Global,
    style: &MapStyle,
    size: u32,
    m: Meta,
    snapshot: &Snapshot,
) -> Result<DrawnMeta, NoMemory>
    requires size { IsTileSize size }
    requires meta { IsMeta m }
    ensures meta { IfOk result (λ drawn. drawn.meta ≡ m) }
    ensures tiles { IfOk result
        (λ drawn. drawn.tiles.items ≡ tiles_of style.now size m snapshot.now) }
{
    let image = draw_picture(alloc, 0, style, size, m, snapshot)?;
    let tiles = cut_tiles(alloc, &image, size, tiles_across(m))?;
    Ok(DrawnMeta { meta: m, tiles })
}

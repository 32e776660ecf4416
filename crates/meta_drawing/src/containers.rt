//! The container of a metatile, whose picture is drawn in it.
ghost use Rattle.std.specs.Prelude.{◌≡◌, ◌*◌, ◌<◌, ◌≤◌, ◌++◌, List, IfOk, OnOk};
ghost use Rattle.plain_world.specs.World.{IsMeta, IsTileSize, tiles_across};
ghost use Rattle.plain_shapes.specs.Features.{Layer};
ghost use Rattle.plain_drawing.specs.Styles.{MapStyle};
ghost use Rattle.plain_drawing.specs.Metatiles.{tiles_of};
ghost use Rattle.plain_drawing.specs.inner.PartTexts.{column_texts, part_texts};
ghost use Rattle.meta_container.specs.Container.{container_of, tile_bytes};

use data_versions::Snapshot;
use farm_base::NoMemory;
use merc_fixed::tiles_across;
use meta_container::{HEAD_BYTES, put_head};
use plain_drawing::MapStyle;
use plain_image::text_len;
use plain_world::Meta;
use std::alloc::Global;
use tile_render::draw_picture;
use tiled_image::TiledImage;

fn put_column(
    image: &TiledImage,
    size: u32,
    across: u32,
    col: u32,
    out: &mut Vec<u8>,
) -> Result<(), NoMemory>
    requires few { size ≤ 512 }
    requires few_across { across ≤ 8 }
    requires col { col < across }
    requires cols { image.now.cols ≡ size * across }
    requires rows { image.now.rows ≡ size * across }
    ensures { OnOk result
        (out.new.items ≡ out.old.items ++ tile_bytes (column_texts image.now size across col)) }
{
    for row in 0..across {
        image.put_part(col * size, row * size, size, size, out)?;
    }
    Ok(())
}

fn put_tiles(image: &TiledImage, size: u32, across: u32, out: &mut Vec<u8>) -> Result<(), NoMemory>
    requires few { size ≤ 512 }
    requires few_across { across ≤ 8 }
    requires cols { image.now.cols ≡ size * across }
    requires rows { image.now.rows ≡ size * across }
    ensures { OnOk result
        (out.new.items ≡ out.old.items ++ tile_bytes (part_texts image.now size across)) }
{
    for col in 0..across {
        put_column(image, size, across, col, out)?;
    }
    Ok(())
}

fn head_of(alloc: Global, size: u32, m: Meta) -> Result<Vec<u8>, NoMemory>
    requires size { IsTileSize size }
    requires meta { IsMeta m }
    ensures { (style : MapStyle) (layers : List Layer)
        → IfOk result (λ v. v.items ++ tile_bytes (tiles_of style size m layers)
        ≡ container_of m (tiles_of style size m layers)) }
{
    let mut head = Vec::with_capacity(alloc, HEAD_BYTES)?;
    put_head(&mut head, m, text_len(size))?;
    Ok(head)
}

/// Draws a metatile in a style over data, and gives it as the container of its tiles. The picture is drawn where the
/// container is to stand, which so takes no second memory. Were it not made of these tiles, they would be copied.
#[tactic(auto, using(plain_world::proofs::Windows::size_bounds))]
pub fn draw_container(
    alloc: Global,
    style: &MapStyle,
    size: u32,
    m: Meta,
    snapshot: &Snapshot,
) -> Result<Vec<u8>, NoMemory>
    requires size { IsTileSize size }
    requires meta { IsMeta m }
    ensures { IfOk result (λ v. v.items ≡ container_of m (tiles_of style.now size m snapshot.now)) }
{
    let mut head = head_of(alloc, size, m)?;
    let across = tiles_across(m);
    let image = draw_picture(alloc, HEAD_BYTES, style, size, m, snapshot)?;
    match image.into_texts(head.as_slice(), size, across) {
        Ok(container) => Ok(container),
        Err(image) => {
            put_tiles(&image, size, across, &mut head)?;
            Ok(head)
        }
    }
}

//! Covered pixels painted over the picture of their window, run by run.
ghost use Rattle.std.specs.Prelude.{◌≡◌, ◌≤◌, Bool, All};
ghost use Rattle.plain_world.specs.declared.world.Point.{Point};
ghost use Rattle.plain_world.specs.World.{IsWindow};
ghost use Rattle.plain_shapes.specs.inner.Canvas.{stepped};
ghost use Rattle.tile_render.specs.inner.Pieces.{IsPiece};
ghost use Rattle.tile_render.specs.inner.Covers.{RunsFit, Between, Consists};
ghost use Rattle.tile_render.specs.inner.Regions.{IsRegion, over_member};

use crate::pieces::{Piece, row_of, start_of};
use crate::regions::{Region, region_window};
use crate::symbolizers::Paint;
use plain_world::Window;
use raster_core::run_at;
use tiled_image::TiledImage;

// What lies under so many pieces is read before they are painted.
const TOGETHER: usize = 64;

// The red of what lies under the first pixel of a piece, or under the last one of its row where it has none.
fn red_under(w: Window, region: Region, piece: Piece, image: &TiledImage) -> u8
    requires window { IsWindow w }
    requires region { IsRegion w region }
    requires fits { IsPiece region.cols region.rows piece }
    requires cols { image.now.cols ≡ w.cols }
    requires rows { image.now.rows ≡ w.rows }
{
    let col = region.col + start_of(piece);
    let row = region.row + row_of(piece);
    image.pixel(col.min(w.cols - 1), row).r
}

// The opacity as it is. Before the k-th piece, and so many others with it, is painted, what lies under all of them is
// read: one after another they would wait for memory, of which each row is far from the one before. That it is read
// must be of some use, or it would be left out.
fn opacity_at(
    w: Window,
    region: Region,
    pieces: &[Piece],
    k: usize,
    opacity: u32,
    image: &TiledImage,
) -> u32
    requires window { IsWindow w }
    requires region { IsRegion w region }
    requires fits { All (IsPiece region.cols region.rows) pieces.now }
    requires cols { image.now.cols ≡ w.cols }
    requires rows { image.now.rows ≡ w.rows }
    requires opacity { opacity ≤ 1000 }
    ensures { result ≡ opacity }
{
    if k % TOGETHER != 0 {
        return opacity;
    }
    let mut reds = 0;
    for n in k..pieces.len().min(k.saturating_add(TOGETHER)) {
        reds |= red_under(w, region, pieces[n], image);
    }
    opacity.min(1000 + u32::from(reds))
}

/// Paints the pixels of pieces of the region that are apart. All others stay.
pub(crate) fn paint_pieces(
    w: Window,
    region: Region,
    pieces: &[Piece],
    paint: Paint,
    image: &mut TiledImage,
)
    requires window { IsWindow w }
    requires region { IsRegion w region }
    requires fits { All (IsPiece region.cols region.rows) pieces.now }
    requires cols { image.old.cols ≡ w.cols }
    requires rows { image.old.rows ≡ w.rows }
    requires opacity { paint.opacity ≤ 1000 }
    ensures painted { (member : Point → Bool) → Consists w region member pieces.now
        → image.new ≡ stepped w (over_member member paint.colour paint.opacity) image.old }
    ensures cols { image.new.cols ≡ image.old.cols }
    ensures rows { image.new.rows ≡ image.old.rows }
{
    for k in 0..pieces.len() {
        let piece = pieces[k];
        let row = row_of(piece);
        let start = start_of(piece);
        let opacity = opacity_at(w, region, pieces, k, paint.opacity, image);
        image.blend_run(
            region.row + row,
            region.col + start,
            region.col + piece.end,
            paint.colour,
            opacity,
        );
    }
}

/// Paints the pixels of the region that lie in runs between the crossings. All others stay.
pub(crate) fn paint_runs(
    w: Window,
    region: Region,
    places: &[u32],
    paint: Paint,
    image: &mut TiledImage,
)
    requires window { IsWindow w }
    requires region { IsRegion w region }
    requires fits { RunsFit w region places.now }
    requires cols { image.old.cols ≡ w.cols }
    requires rows { image.old.rows ≡ w.rows }
    requires opacity { paint.opacity ≤ 1000 }
    ensures painted { (member : Point → Bool) → Between w region member places.now
        → image.new ≡ stepped w (over_member member paint.colour paint.opacity) image.old }
    ensures cols { image.new.cols ≡ image.old.cols }
    ensures rows { image.new.rows ≡ image.old.rows }
{
    let near = region_window(w, region);
    let mut row = 0;
    let mut k = 0;
    while k < places.len() {
        let run = run_at(places, k, row, near);
        let start = region.col + run.start;
        let end = region.col + run.end;
        image.blend_run(
            region.row + run.row,
            start,
            end,
            paint.colour,
            paint.opacity,
        );
        row = run.row;
        k = run.next;
    }
}

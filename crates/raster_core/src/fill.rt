//! The filling of polygons.
ghost use Rattle.std.specs.Prelude.{◌≡◌, Bool, All, IfOk, OnOk, OnErr};
ghost use Rattle.std.specs.List.Sorted.{IsNonDecreasing};
ghost use Rattle.plain_world.specs.declared.world.Point.{Point};
ghost use Rattle.plain_world.specs.World.{InWorld, IsWindow, centres};
ghost use Rattle.plain_shapes.specs.Rings.{in_rings};
ghost use Rattle.plain_shapes.specs.inner.Canvas.{marked};
ghost use Rattle.raster_core.specs.inner.Toggles.{AllInside};
ghost use Rattle.raster_core.specs.inner.Crossings.{Crossings};

use crate::columns::{Crossed, list_corners, no_crossings};
use crate::edges::cross_rings;
use crate::parities::put_in_order;
use crate::runs::run_at;
use centre_spans::set_run;
use farm_base::NoMemory;
use plain_image::Mask;
use plain_shapes::Path;
use plain_world::Window;
use std::alloc::Global;

/// Finds the places where the edges of the rings are crossed, row by row from the west: how many of them a row has up to
/// a pixel is odd exactly where the pixel's centre lies in the rings. They come in the place of those that were found
/// before, whose memory they take: a polygon mostly has few, and to ask for memory takes as long as to find them.
pub fn find_crossings(
    alloc: Global,
    rings: &[Path],
    w: Window,
    crossed: &mut Crossed,
) -> Result<(), NoMemory>
    requires rings { All (All InWorld) rings.now }
    requires window { IsWindow w }
    ensures { OnOk result (Crossings w (in_rings rings.now) crossed.new.places.items) }
{
    crossed.places.clear();
    crossed.corners.clear();
    cross_rings(alloc, rings, w, crossed)?;
    list_corners(w, crossed)?;
    put_in_order(alloc, w, &mut crossed.places)
}

fn set_runs(places: &[u32], w: Window, mask: &mut Mask)
    requires window { IsWindow w }
    requires inside { AllInside w places.now }
    requires order { IsNonDecreasing places.now }
    requires cols { mask.old.cols ≡ w.cols }
    requires rows { mask.old.rows ≡ w.rows }
    ensures filled { (member : Point → Bool) → Crossings w member places.now
        → mask.new ≡ record mask.old { bits = marked member (centres w) mask.old.bits } }
    ensures cols { mask.new.cols ≡ mask.old.cols }
    ensures rows { mask.new.rows ≡ mask.old.rows }
{
    let mut k = 0;
    while k < places.len() {
        let run = run_at(places, k, 0, w);
        set_run(run.row, run.start, run.end, mask);
        k = run.next;
    }
}

/// Sets the bits of the mask whose pixel centre lies in the polygon of the rings, by even-odd filling
/// (Mapnik's and AGG's default rule): left and top edges belong to it, right and bottom ones do not. No
/// other bit changes, and after `NoMemory` none has. The points lie in the world, the window is a
/// tile's or a metatile's, and the mask has its sides. It takes some bytes for each row that an edge
/// crosses, at most some for each pixel of the window and 2 MB, and works along each edge's own rows, of which those
/// that have one column are taken together. No command calls it: `tile_render` paints the runs between the
/// crossings without a mask. Its test is `a_square_with_centres_on_its_edges` of `farm_tests`.
pub fn fill_mask(alloc: Global, rings: &[Path], w: Window, mask: &mut Mask) -> Result<(), NoMemory>
    requires rings { All (All InWorld) rings.now }
    requires window { IsWindow w }
    requires cols { mask.old.cols ≡ w.cols }
    requires rows { mask.old.rows ≡ w.rows }
    ensures filled { OnOk result (mask.new
        ≡ record mask.old { bits = marked (in_rings rings.now) (centres w) mask.old.bits }) }
    ensures refused { OnErr result (mask.new ≡ mask.old) }
    ensures cols { mask.new.cols ≡ mask.old.cols }
    ensures rows { mask.new.rows ≡ mask.old.rows }
{
    let mut crossed = no_crossings(alloc);
    find_crossings(alloc, rings, w, &mut crossed)?;
    set_runs(&crossed.places, w, mask);
    Ok(())
}

//! One symbolizer on one item.
ghost use Rattle.std.specs.Prelude.{◌≡◌, ◌≤◌, true, IsTrue, OnOk};
ghost use Rattle.plain_shapes.specs.declared.colour.Colour.{Colour};
ghost use Rattle.plain_shapes.specs.Blending.{blend};
ghost use Rattle.plain_drawing.specs.Styles.{is_paint};
ghost use Rattle.plain_drawing.specs.Drawing.{raster, painted_over};
ghost use Rattle.plain_drawing.specs.Drawing as drawing;
ghost use Rattle.plain_drawing.specs.inner.Pictures.{with_symbolizer};
ghost use Rattle.tile_render.specs.inner.Covers.{is_fill};
ghost use Rattle.tile_render.specs.inner.Items.{item_of};
ghost use Rattle.tile_render.specs.inner.Regions.{IsRegion, HoldsCovered};

use crate::canvas::Canvas;
use crate::covers::{cover, is_fill, region_of};
use crate::items::Item;
use crate::regions::Region;
use farm_base::NoMemory;
use geo_model::Feature;
use plain_drawing::{Grid, Symbolizer};
use plain_shapes::{Colour, Geometry};
use std::alloc::Global;

/// What is painted over covered pixels: a colour, in an opacity in thousandths.
#[derive(Clone, Copy)]
pub(crate) struct Paint {
    pub colour: Colour,
    pub opacity: u32,
}

// What the symbolizer paints. A RasterSymbolizer has no colour of its own, so it paints in no opacity.
fn paint_of(symbolizer: Symbolizer) -> Paint
    requires { IsTrue (is_paint symbolizer) }
    ensures opacity { result.opacity ≤ 1000 }
    ensures value { (d : Colour)
        → painted_over d symbolizer ≡ blend result.colour result.opacity d }
{
    match symbolizer {
        Symbolizer::Polygon { fill, fill_opacity } => Paint {
            colour: fill,
            opacity: fill_opacity,
        },
        Symbolizer::Line {
            stroke,
            stroke_opacity,
            ..
        } => Paint {
            colour: stroke,
            opacity: stroke_opacity,
        },
        Symbolizer::Markers { fill, opacity, .. } => Paint {
            colour: fill,
            opacity,
        },
        Symbolizer::Raster { .. } => Paint {
            colour: Colour { r: 0, g: 0, b: 0 },
            opacity: 0,
        },
    }
}

// Paints a grid in its own colours, by a RasterSymbolizer; the others cover nothing of it.
fn draw_on_grid(
    alloc: Global,
    grid: &Grid,
    symbolizer: Symbolizer,
    canvas: &mut Canvas,
) -> Result<(), NoMemory>
    requires paint { IsTrue (is_paint symbolizer) }
    ensures drawn { OnOk result (canvas.new.image
        ≡ with_symbolizer canvas.old.window (raster grid.now) canvas.old.image symbolizer) }
    ensures window { canvas.new.window ≡ canvas.old.window }
{
    match symbolizer {
        Symbolizer::Polygon { .. } => Ok(()),
        Symbolizer::Line { .. } => Ok(()),
        Symbolizer::Markers { .. } => Ok(()),
        Symbolizer::Raster { opacity } => canvas.blend_grid(alloc, grid, opacity),
    }
}

// Paints the polygon of the feature in a region that has all that is filled; nothing else is filled.
fn fill_region(
    alloc: Global,
    region: Region,
    feature: &Feature,
    symbolizer: Symbolizer,
    canvas: &mut Canvas,
) -> Result<(), NoMemory>
    requires paint { IsTrue (is_paint symbolizer) }
    requires kind { is_fill symbolizer ≡ true }
    requires region { IsRegion canvas.old.window region }
    requires holds { HoldsCovered canvas.old.window region feature.now symbolizer }
    ensures drawn { OnOk result (canvas.new.image ≡ with_symbolizer canvas.old.window
        (drawing.feature feature.now) canvas.old.image symbolizer) }
    ensures window { canvas.new.window ≡ canvas.old.window }
{
    match feature.geometry() {
        Geometry::Points(_) => Ok(()),
        Geometry::Lines(_) => Ok(()),
        Geometry::Polygon(rings) => {
            canvas.fill(alloc, region, rings.as_slice(), paint_of(symbolizer))
        }
    }
}

// Paints what the symbolizer covers of the feature in a region that has all of it: a polygon between the crossings of its
// edges; strokes and marks in full opacity with a brush, since a pixel of two of their parts may be painted twice, and in
// less once all that is covered is known.
fn draw_region(
    alloc: Global,
    region: Region,
    feature: &Feature,
    symbolizer: Symbolizer,
    canvas: &mut Canvas,
) -> Result<(), NoMemory>
    requires paint { IsTrue (is_paint symbolizer) }
    requires region { IsRegion canvas.old.window region }
    requires holds { HoldsCovered canvas.old.window region feature.now symbolizer }
    ensures drawn { OnOk result (canvas.new.image ≡ with_symbolizer canvas.old.window
        (drawing.feature feature.now) canvas.old.image symbolizer) }
    ensures window { canvas.new.window ≡ canvas.old.window }
{
    if is_fill(symbolizer) {
        return fill_region(alloc, region, feature, symbolizer, canvas);
    }
    let paint = paint_of(symbolizer);
    if paint.opacity == 1000 {
        return canvas.brush(alloc, region, feature, symbolizer, paint.colour);
    }
    match cover(alloc, canvas.window(), region, feature, symbolizer)? {
        Some(covered) => {
            canvas.paint(&covered, paint);
            Ok(())
        }
        None => Ok(()),
    }
}

fn draw_on_feature(
    alloc: Global,
    feature: &Feature,
    symbolizer: Symbolizer,
    canvas: &mut Canvas,
) -> Result<(), NoMemory>
    requires paint { IsTrue (is_paint symbolizer) }
    ensures drawn { OnOk result (canvas.new.image ≡ with_symbolizer canvas.old.window
        (drawing.feature feature.now) canvas.old.image symbolizer) }
    ensures window { canvas.new.window ≡ canvas.old.window }
{
    match region_of(canvas.window(), feature, symbolizer) {
        Some(region) => draw_region(alloc, region, feature, symbolizer, canvas),
        None => Ok(()),
    }
}

/// Paints what the symbolizer covers of the item.
pub(crate) fn draw_symbolizer(
    alloc: Global,
    item: Item<'_>,
    symbolizer: Symbolizer,
    canvas: &mut Canvas,
) -> Result<(), NoMemory>
    requires paint { IsTrue (is_paint symbolizer) }
    ensures drawn { OnOk result (canvas.new.image
        ≡ with_symbolizer canvas.old.window (item_of item.entry) canvas.old.image symbolizer) }
    ensures window { canvas.new.window ≡ canvas.old.window }
{
    match item {
        Item::Feature(feature) => draw_on_feature(alloc, feature, symbolizer, canvas),
        Item::Raster(grid) => draw_on_grid(alloc, grid, symbolizer, canvas),
    }
}

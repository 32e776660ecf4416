//! Which pixels of a window a symbolizer covers on a feature.
ghost use Rattle.std.specs.Prelude.{◌≡◌, ℕ, ◌*◌, ◌^◌, ◌<◌, ◌≤◌, false, IsTrue, IfOk, OnOk, IfSome, MatchOption, ⊤};
ghost use Rattle.drawing_reach.specs.inner.Spreads.{spread_across, spread_down};
ghost use Rattle.plain_world.specs.declared.world.Point.{Point};
ghost use Rattle.plain_world.specs.World.{IsWindow, centre};
ghost use Rattle.plain_shapes.specs.Limits.{most_width};
ghost use Rattle.plain_shapes.specs.declared.colour.Colour.{Colour};
ghost use Rattle.plain_shapes.specs.Strokes.{half_of};
ghost use Rattle.plain_drawing.specs.declared.style.Symbolizer.TheVariants as paint;
ghost use Rattle.plain_drawing.specs.Styles.{is_paint};
ghost use Rattle.plain_drawing.specs.Drawing.{covers};
ghost use Rattle.plain_image.specs.Surfaces.{Becomes, Marks};
ghost use Rattle.tile_render.specs.inner.Regions.{IsRegion, HoldsCovered};
ghost use Rattle.tile_render.specs.inner.Covers.{is_fill, is_points, Covers};
ghost use Rattle.tile_render.specs.inner.Pieces.{PiecesTell};

use crate::pieces::{Piece, in_order, no_pieces};
use crate::regions::{Region, region_near, region_window};
use farm_base::NoMemory;
use geo_model::Feature;
use mark_core::mark_points;
use plain_drawing::Symbolizer;
use plain_image::Surface;
use plain_shapes::{Geometry, LineCap};
use plain_world::Window;
use std::alloc::Global;
use stroke_core::{stroke_lines, stroke_rings};

/// Which pixels of a window are covered: those of pieces of a region, which are apart and in order, and no other.
#[derive(Drop)]
pub(crate) struct Covered {
    pub region: Region,
    pub pieces: Vec<Piece>,
}

fn half_of(width: u64, pixel: u32) -> u32
    requires width { width ≤ 100 * most_width }
    requires pixel { pixel ≤ 2 ^ 26 }
    ensures value { result ≡ half_of width pixel }
    ensures few { result ≤ 2 ^ 31 }
{
    (width * u64::from(pixel) / 200) as u32
}

// How far from a feature's points a symbolizer may paint, in world units: to the west and east, and to the
// north and south.
fn spread(symbolizer: Symbolizer, pixel: u32) -> (u64, u64)
    requires paint { IsTrue (is_paint symbolizer) }
    requires pixel { pixel ≤ 2 ^ 26 }
    ensures across { result.0 ≡ spread_across pixel symbolizer }
    ensures down { result.1 ≡ spread_down pixel symbolizer }
    ensures little_across { result.0 ≤ 2 ^ 32 }
    ensures little_down { result.1 ≤ 2 ^ 32 }
{
    match symbolizer {
        Symbolizer::Polygon { .. } => (0, 0),
        Symbolizer::Line { stroke_width, .. } => {
            let half = u64::from(half_of(stroke_width, pixel));
            (half + half, half + half)
        }
        Symbolizer::Markers { width, height, .. } => {
            let a = half_of(width, pixel);
            let b = half_of(height, pixel);
            (u64::from(a), u64::from(b))
        }
        Symbolizer::Raster { .. } => (0, 0),
    }
}

// Covers the pixels of lines that are stroked, or of the outlines of a polygon's rings; points have no strokes.
fn stroke<K: Surface>(
    alloc: Global,
    w: Window,
    feature: &Feature,
    width: u64,
    cap: LineCap,
    surface: &mut K,
) -> Result<(), NoMemory>
    requires window { IsWindow w }
    requires width { width ≤ 100 * most_width }
    requires cols { K.cols surface.old ≡ w.cols }
    requires rows { K.rows surface.old ≡ w.rows }
    ensures drawn { (colour : Colour) (opacity : ℕ) → OnOk result
        (Marks K.shows (λ c. covers w.pixel feature.now.geometry c
        (paint.Line colour width opacity cap)) w surface.old surface.new) }
    ensures shows { Becomes K.shows (λ _ _. ⊤) surface.old surface.new }
{
    let half = half_of(width, w.pixel);
    match feature.geometry() {
        Geometry::Points(_) => Ok(()),
        Geometry::Lines(lines) => stroke_lines(alloc, lines.as_slice(), half, cap, w, surface),
        Geometry::Polygon(rings) => stroke_rings(rings.as_slice(), half, w, surface),
    }
}

// Covers the pixels of an ellipse at each point of a shape that is points; other shapes have no marks.
fn mark<K: Surface>(w: Window, feature: &Feature, width: u64, height: u64, surface: &mut K)
    requires window { IsWindow w }
    requires width { width ≤ 100 * most_width }
    requires height { height ≤ 100 * most_width }
    requires cols { K.cols surface.old ≡ w.cols }
    requires rows { K.rows surface.old ≡ w.rows }
    ensures { (colour : Colour) (opacity : ℕ)
        → Marks K.shows (λ c. covers w.pixel feature.now.geometry c
        (paint.Markers colour width height opacity)) w surface.old surface.new }
{
    match feature.geometry() {
        Geometry::Points(points) => {
            let a = half_of(width, w.pixel);
            let b = half_of(height, w.pixel);
            mark_points(points, a, b, w, surface);
        }
        Geometry::Lines(_) => {}
        Geometry::Polygon(_) => {}
    }
}

/// Whether the symbolizer fills polygons.
pub(crate) fn is_fill(symbolizer: Symbolizer) -> bool
    ensures { result ≡ is_fill symbolizer }
{
    match symbolizer {
        Symbolizer::Polygon { .. } => true,
        Symbolizer::Line { .. } => false,
        Symbolizer::Markers { .. } => false,
        Symbolizer::Raster { .. } => false,
    }
}

/// Covers the pixels of a window whose centres the symbolizer, which fills nothing, covers on the feature.
pub(crate) fn cover_on<K: Surface>(
    alloc: Global,
    w: Window,
    feature: &Feature,
    symbolizer: Symbolizer,
    surface: &mut K,
) -> Result<(), NoMemory>
    requires window { IsWindow w }
    requires paint { IsTrue (is_paint symbolizer) }
    requires kind { is_fill symbolizer ≡ false }
    requires cols { K.cols surface.old ≡ w.cols }
    requires rows { K.rows surface.old ≡ w.rows }
    ensures drawn { OnOk result (Marks K.shows
        (λ c. covers w.pixel feature.now.geometry c symbolizer) w surface.old surface.new) }
    ensures shows { Becomes K.shows (λ _ _. ⊤) surface.old surface.new }
{
    match symbolizer {
        Symbolizer::Polygon { .. } => Ok(()),
        Symbolizer::Line {
            stroke_width,
            stroke_linecap,
            ..
        } => stroke(alloc, w, feature, stroke_width, stroke_linecap, surface),
        Symbolizer::Markers { width, height, .. } => {
            mark(w, feature, width, height, surface);
            Ok(())
        }
        Symbolizer::Raster { .. } => Ok(()),
    }
}

fn is_points(geometry: &Geometry) -> bool
    ensures { result ≡ is_points geometry.now }
{
    match geometry {
        Geometry::Points(_) => true,
        Geometry::Lines(_) => false,
        Geometry::Polygon(_) => false,
    }
}

fn suits(geometry: &Geometry, symbolizer: Symbolizer) -> bool
    ensures { result ≡ false → (pixel : ℕ) (c : Point)
        → covers pixel geometry.now c symbolizer ≡ false }
{
    match symbolizer {
        Symbolizer::Polygon { .. } => true,
        Symbolizer::Line { .. } => !is_points(geometry),
        Symbolizer::Markers { .. } => is_points(geometry),
        Symbolizer::Raster { .. } => false,
    }
}

// The pixels of a symbolizer that fills nothing, in pieces; none where it covers no shape of that kind.
fn in_pieces(
    alloc: Global,
    w: Window,
    feature: &Feature,
    symbolizer: Symbolizer,
) -> Result<Option<Vec<Piece>>, NoMemory>
    requires window { IsWindow w }
    requires paint { IsTrue (is_paint symbolizer) }
    requires kind { is_fill symbolizer ≡ false }
    ensures { IfOk result (λ found. MatchOption found
        ((c : Point) → covers w.pixel feature.now.geometry c symbolizer ≡ false)
        (λ pieces. PiecesTell w (λ c. covers w.pixel feature.now.geometry c symbolizer) pieces.items)) }
{
    if !suits(feature.geometry(), symbolizer) {
        return Ok(None);
    }
    let mut pieces = no_pieces(alloc, w.cols, w.rows);
    cover_on(alloc, w, feature, symbolizer, &mut pieces)?;
    let found = in_order(pieces)?;
    Ok(Some(found))
}

/// What the symbolizer, which fills nothing, covers of a region that has all that is covered; nothing where there is none.
pub(crate) fn cover(
    alloc: Global,
    w: Window,
    region: Region,
    feature: &Feature,
    symbolizer: Symbolizer,
) -> Result<Option<Covered>, NoMemory>
    requires window { IsWindow w }
    requires region { IsRegion w region }
    requires paint { IsTrue (is_paint symbolizer) }
    requires kind { is_fill symbolizer ≡ false }
    requires holds { HoldsCovered w region feature.now symbolizer }
    ensures { IfOk result (λ found. Covers w feature.now symbolizer found) }
{
    match in_pieces(alloc, region_window(w, region), feature, symbolizer)? {
        Some(pieces) => Ok(Some(Covered { region, pieces })),
        None => Ok(None),
    }
}

/// The region near the feature, which has each pixel of the window whose centre the symbolizer covers on it;
/// none where there is no such pixel.
pub(crate) fn region_of(w: Window, feature: &Feature, symbolizer: Symbolizer) -> Option<Region>
    requires window { IsWindow w }
    requires paint { IsTrue (is_paint symbolizer) }
    ensures region { IfSome result (λ r. IsRegion w r) }
    ensures holds { MatchOption result
        ((j i : ℕ) → i < w.cols → j < w.rows
        → covers w.pixel feature.now.geometry (centre w i j) symbolizer ≡ false)
        (λ r. HoldsCovered w r feature.now symbolizer) }
{
    let (across, down) = spread(symbolizer, w.pixel);
    region_near(w, feature.bbox(), across, down)
}

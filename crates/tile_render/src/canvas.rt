//! A window and its picture.
use crate::brushes::Brush;
use crate::covers::{Covered, cover_on};
use crate::grids::blend_grid;
use crate::painting::{paint_pieces, paint_runs};
use crate::regions::{Region, region_window};
use crate::symbolizers::Paint;
use farm_base::NoMemory;
use geo_model::Feature;
use plain_drawing::{Grid, Symbolizer};
use plain_shapes::{Colour, Path};
use plain_world::Window;
use raster_core::{Crossed, find_crossings, no_crossings};
use std::alloc::Global;
use std::marker::Model;
use tiled_image::TiledImage;

/// A window and the picture of it, which has a pixel for each of the window's. The crossings of one polygon are found where
/// those of the one before were, and it is counted how often something is painted. Contracts see the window and the picture.
#[derive(Drop)]
pub(crate) struct Canvas {
    window: Window,
    image: TiledImage,
    crossed: Crossed,
    painted: usize,
}

impl Model for Canvas {
    ghost use Rattle.tile_render.specs.inner.Canvases.{Canvas, IsCanvas};

    ghost Value = { Canvas };

    ghost view = { λ m. record { window = m.window; image = m.image } };

    ghost invariant = { λ m. IsCanvas m.window m.image };
}

impl Canvas {
    ghost use Rattle.std.specs.Prelude.{◌≡◌, ◌≤◌, Bool, false, IsTrue, All, OnOk};
    ghost use Rattle.plain_world.specs.declared.world.Point.{Point};
    ghost use Rattle.plain_world.specs.World.{InWorld, IsWindow};
    ghost use Rattle.plain_shapes.specs.Rings.{in_rings};
    ghost use Rattle.plain_shapes.specs.inner.Canvas.{stepped};
    ghost use Rattle.plain_drawing.specs.declared.style.Symbolizer.TheVariants as paint;
    ghost use Rattle.plain_drawing.specs.Styles.{is_paint};
    ghost use Rattle.plain_drawing.specs.Drawing.{covers, raster_over};
    ghost use Rattle.tile_render.specs.inner.Canvases.{IsCanvas};
    ghost use Rattle.tile_render.specs.inner.Covers.{is_fill, Consists};
    ghost use Rattle.tile_render.specs.inner.Pieces.{IsPiece};
    ghost use Rattle.tile_render.specs.inner.Regions.{IsRegion, Holds, HoldsCovered, over_member};

    /// The canvas of a window whose picture this is.
    pub(crate) fn of(alloc: Global, window: Window, image: TiledImage) -> Canvas
        requires valid { IsWindow window }
        requires cols { image.cols ≡ window.cols }
        requires rows { image.rows ≡ window.rows }
        ensures { result ≡ record { window = window; image = image } }
    {
        Canvas {
            window,
            image,
            crossed: no_crossings(alloc),
            painted: 0,
        }
    }

    /// Its window.
    pub(crate) fn window(&self) -> Window
        ensures value { result ≡ self.now.window }
        ensures valid { IsWindow result }
    {
        self.window
    }

    /// How often something was painted, about: nothing rests on it.
    pub(crate) fn painted(&self) -> usize {
        self.painted
    }

    /// The picture, when it is painted.
    pub(crate) fn into_image(self) -> TiledImage
        ensures value { result ≡ self.image }
        ensures valid { IsCanvas self.window self.image }
    {
        self.image
    }

    /// Paints the pixels that are covered. All others stay.
    pub(crate) fn paint(&mut self, covered: &Covered, paint: Paint)
        requires region { IsRegion self.old.window covered.now.region }
        requires fits { All (IsPiece covered.now.region.cols covered.now.region.rows)
            covered.now.pieces.items }
        requires opacity { paint.opacity ≤ 1000 }
        ensures painted { (member : Point → Bool)
            → Consists self.old.window covered.now.region member covered.now.pieces.items
            → self.new.image
            ≡ stepped self.old.window (over_member member paint.colour paint.opacity)
            self.old.image }
        ensures window { self.new.window ≡ self.old.window }
    {
        self.painted = self.painted.saturating_add(1);
        paint_pieces(
            self.window,
            covered.region,
            &covered.pieces,
            paint,
            &mut self.image,
        );
    }

    /// Paints the pixels whose centres lie in the rings, which lie in the region. All others stay.
    pub(crate) fn fill(
        &mut self,
        alloc: Global,
        region: Region,
        rings: &[Path],
        paint: Paint,
    ) -> Result<(), NoMemory>
        requires region { IsRegion self.old.window region }
        requires rings { All (All InWorld) rings.now }
        requires opacity { paint.opacity ≤ 1000 }
        requires holds { Holds self.old.window region (in_rings rings.now) }
        ensures drawn { OnOk result (self.new.image ≡ stepped self.old.window
            (over_member (in_rings rings.now) paint.colour paint.opacity) self.old.image) }
        ensures window { self.new.window ≡ self.old.window }
    {
        self.painted = self.painted.saturating_add(1);
        let near = region_window(self.window, region);
        find_crossings(alloc, rings, near, &mut self.crossed)?;
        paint_runs(
            self.window,
            region,
            &self.crossed.places,
            paint,
            &mut self.image,
        );
        Ok(())
    }

    /// Paints in full opacity what the symbolizer, which fills nothing, covers of the feature in a region that
    /// has all of it. Each part is painted as it is found.
    pub(crate) fn brush(
        &mut self,
        alloc: Global,
        region: Region,
        feature: &Feature,
        symbolizer: Symbolizer,
        colour: Colour,
    ) -> Result<(), NoMemory>
        requires paint { IsTrue (is_paint symbolizer) }
        requires kind { is_fill symbolizer ≡ false }
        requires region { IsRegion self.old.window region }
        requires holds { HoldsCovered self.old.window region feature.now symbolizer }
        ensures drawn { OnOk result (self.new.image ≡ stepped self.old.window
            (over_member (λ c. covers self.old.window.pixel feature.now.geometry c symbolizer)
            colour 1000) self.old.image) }
        ensures window { self.new.window ≡ self.old.window }
    {
        self.painted = self.painted.saturating_add(1);
        let near = region_window(self.window, region);
        // Read for what it says of the picture: it has a pixel for each place.
        let _cols = self.image.cols();
        let mut brush = Brush {
            image: &mut self.image,
            region,
            colour,
        };
        cover_on(alloc, near, feature, symbolizer, &mut brush)
    }

    /// Paints the grid over all pixels whose centres it holds.
    pub(crate) fn blend_grid(
        &mut self,
        alloc: Global,
        grid: &Grid,
        opacity: u32,
    ) -> Result<(), NoMemory>
        requires { opacity ≤ 1000 }
        ensures blended { OnOk result (self.new.image ≡ stepped self.old.window
            (λ c d. raster_over grid.now c d (paint.Raster opacity)) self.old.image) }
        ensures window { self.new.window ≡ self.old.window }
    {
        blend_grid(alloc, self.window, grid, opacity, &mut self.image)
    }
}

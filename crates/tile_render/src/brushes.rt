//! Covered pixels painted straight on the picture.
use crate::regions::Region;
use plain_image::Surface;
use plain_shapes::Colour;
use tiled_image::TiledImage;

/// A region of a picture on which a pixel that is covered is painted at once, at full opacity: painting it
/// again changes nothing, so no mask need say which pixels are.
#[derive(Drop)]
pub(crate) struct Brush<'a> {
    pub image: &'a mut TiledImage,
    pub region: Region,
    pub colour: Colour,
}

impl<'a> Surface for Brush<'a> {
    ghost use Rattle.tile_render.specs.inner.Brushes.{brush_cols, brush_rows, ShowsBits};

    ghost cols = { brush_cols };

    ghost rows = { brush_rows };

    ghost shows = { ShowsBits };

    fn cover(&mut self, j: u32, from: u32, end: u32) {
        if from < end {
            let west = self.region.col;
            self.image.blend_run(
                self.region.row + j,
                west + from,
                west + end,
                self.colour,
                1000,
            );
        }
    }

    fn known(&self, _j: u32) -> (u32, u32) {
        (0, 0)
    }
}

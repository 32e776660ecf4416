//! A picture: one colour for each pixel, by rows.
use crate::colours::Colours;
use crate::heads::text_head;
use crate::{Mask, blending, pixels};
use farm_base::NoMemory;
use plain_shapes::Colour;
use std::alloc::Global;
use std::marker::Model;

/// An image, by rows. Contracts see its sides and its pixels, row by row. Its sides are 1 to 4,096.
#[derive(Drop)]
pub struct Image {
    cols: u32,
    rows: u32,
    pixels: Colours,
}

impl Model for Image {
    ghost use Rattle.std.specs.Prelude.{length};
    ghost use Rattle.plain_shapes.specs.Images.{Pixels, IsRaster};

    ghost Value = { Pixels };

    ghost view = { λ m. record { cols = m.cols; rows = m.rows; pixels = m.pixels } };

    ghost invariant = { λ m. IsRaster m.cols m.rows (length m.pixels) };
}

impl Image {
    ghost use Rattle.std.specs.Prelude.{◌≡◌, ◌+◌, ◌-◌, ◌*◌, ◌<◌, ◌≤◌, ◌++◌, ℕ, IfOk, OnOk, flat_map, slice_set, slice_get, slice_index_or, Some, replicate, length, Ok};
    ghost use Rattle.plain_shapes.specs.Blending.{blend};
    ghost use Rattle.plain_shapes.specs.Images.{IsRaster, IsSides};
    ghost use Rattle.plain_shapes.specs.inner.Canvas.{painted, cut_of};
    ghost use Rattle.plain_shapes.specs.Ppm.{pixel_bytes, ppm};
    ghost use Rattle.plain_image.specs.PpmText.{ppm_of};

    /// An image of these sides that is all of one colour. Sides are 1 to 4,096.
    pub fn new(alloc: Global, cols: u32, rows: u32, c: Colour) -> Result<Image, NoMemory>
        requires { IsSides cols rows }
        ensures { IfOk result
            (λ m. m ≡ record { cols = cols; rows = rows; pixels = replicate (rows * cols) c }) }
    {
        let pixels = Colours::of_one(alloc, rows, cols, c)?;
        Ok(Image::of_pixels(cols, rows, pixels))
    }

    /// The three bytes of each pixel, by rows.
    pub fn into_bytes(self) -> Vec<u8>
        ensures items { result.items ≡ flat_map pixel_bytes self.pixels }
        ensures len { length result.items ≡ 3 * (self.rows * self.cols) }
    {
        self.pixels.into_bytes()
    }

    /// How many columns it has.
    pub fn cols(&self) -> u32
        ensures value { result ≡ self.now.cols }
        ensures raster { IsRaster self.now.cols self.now.rows (length self.now.pixels) }
    {
        self.cols
    }

    /// How many rows it has.
    pub fn rows(&self) -> u32
        ensures { result ≡ self.now.rows }
    {
        self.rows
    }

    /// The colour of the pixel in column `i` and row `j`, which is inside.
    pub fn pixel(&self, i: u32, j: u32) -> Colour
        requires col { i < self.now.cols }
        requires row { j < self.now.rows }
        ensures { slice_get self.now.pixels (j * self.now.cols + i) ≡ Some result }
    {
        self.pixels.at(j as usize * self.cols as usize + i as usize)
    }

    /// Paints the pixels that the mask covers with the colour `c`, in an opacity of 0 to 1,000
    /// thousandths: each channel d of such a pixel becomes `(s*a + d*(1000-a) + 500) div 1000`, with
    /// s the painted channel and a the opacity. All others stay.
    pub fn paint(&mut self, mask: &Mask, c: Colour, opacity: u32)
        requires cols { mask.now.cols ≡ self.old.cols }
        requires rows { mask.now.rows ≡ self.old.rows }
        requires opacity { opacity ≤ 1000 }
        ensures { self.new
            ≡ record self.old { pixels = painted c opacity mask.now.bits self.old.pixels } }
    {
        pixels::paint(mask.bits(), c, opacity, &mut self.pixels);
    }

    /// Paints the one pixel in column `i` and row `j`, which is inside, by the formula of `paint`.
    pub fn blend(&mut self, i: u32, j: u32, c: Colour, opacity: u32)
        requires col { i < self.old.cols }
        requires row { j < self.old.rows }
        requires opacity { opacity ≤ 1000 }
        ensures { self.new ≡ record self.old {
          pixels = slice_set self.old.pixels (j * self.old.cols + i)
              (blend c opacity (slice_index_or self.old.pixels (j * self.old.cols + i) c));
        } }
    {
        let place = j as usize * self.cols as usize + i as usize;
        let under = self.pixels.at(place);
        self.pixels.put(place, blending::over(c, opacity, under));
    }

    /// The image of a part of it: `cols` columns from `col` on and `rows` rows from `row` on. The part
    /// is inside and has sides of at least 1.
    pub fn cut(
        &self,
        alloc: Global,
        col: u32,
        row: u32,
        cols: u32,
        rows: u32,
    ) -> Result<Image, NoMemory>
        requires some_col { 1 ≤ cols }
        requires some_row { 1 ≤ rows }
        requires in_cols { col + cols ≤ self.now.cols }
        requires in_rows { row + rows ≤ self.now.rows }
        ensures { IfOk result (λ m. m ≡ cut_of self.now col row cols rows) }
    {
        let pixels = self.pixels.cut(alloc, self.cols, col, row, cols, rows)?;
        Ok(Image::of_pixels(cols, rows, pixels))
    }

    /// The image as a binary PPM text (Netpbm's P6): `P6`, a newline, the columns, a space, the rows, a
    /// newline, `255`, a newline, and then three bytes for each pixel, by rows. `read_ppm` gives the image
    /// back. No command calls it: the tiles that a command draws are kept as such texts. Its test is
    /// `the_text_of_an_image` of `farm_tests`.
    pub fn write_ppm(&self, alloc: Global) -> Result<Vec<u8>, NoMemory>
        ensures text { IfOk result
            (λ v. v.items ≡ ppm self.now.cols self.now.rows self.now.pixels) }
        ensures reads_back { IfOk result (λ v. ppm_of v.items ≡ Ok self.now) }
    {
        let head = text_head(alloc, self.cols, self.rows)?;
        pixels::bytes_after(alloc, head.as_str(), &self.pixels)
    }

    /// The image of these pixels.
    pub(crate) fn of_pixels(cols: u32, rows: u32, pixels: Colours) -> Image
        requires { IsRaster cols rows (length pixels) }
        ensures { result ≡ record { cols = cols; rows = rows; pixels = pixels } }
    {
        Image { cols, rows, pixels }
    }
}

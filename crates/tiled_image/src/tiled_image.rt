//! A square image that is kept as the texts of its tiles.
ghost use Rattle.std.specs.Prelude.{◌≡◌, ◌+◌, ◌*◌, ◌/◌, ◌%◌, ◌^◌, ◌≤◌, ◌<◌, [], IfOk, string_bytes};
ghost use Rattle.plain_world.specs.World.{IsTileSize};
ghost use Rattle.plain_drawing.specs.Drawing.{pixels_text};

use crate::tile_texts::TileTexts;
use farm_base::NoMemory;
use plain_image::text_head;
use plain_shapes::Colour;
use std::alloc::Global;
use std::marker::Model;

/// A square image that is kept as the binary PPM texts of its square tiles, by columns, one behind another, with room for
/// other bytes before them: where a container is to hold them, none of its pixels is copied. The rows of a tile lie close
/// together, so that what is painted near a place lies near in memory. Contracts see its sides and its pixels, row by row.
#[derive(Drop)]
pub struct TiledImage {
    texts: TileTexts,
    grid: Grid,
}

// How the tiles stand: two so often multiplied is the side of one, and so many stand side by side.
#[derive(Clone, Copy)]
struct Grid {
    shift: u32,
    across: u32,
}

impl Model for TiledImage {
    ghost use Rattle.std.specs.Prelude.{◌*◌};
    ghost use Rattle.plain_shapes.specs.Images.{Pixels};
    ghost use Rattle.tiled_image.specs.inner.Tiles.{IsTiled, joined};

    ghost Value = { Pixels };

    ghost view = { λ m. record {
      cols = m.texts.side * m.grid.across;
      rows = m.texts.side * m.grid.across;
      pixels = joined m.texts.side m.grid.across m.texts.tiles;
    } };

    ghost invariant = { λ m. IsTiled m.grid.shift m.grid.across m.texts };
}

fn shift_of(size: u32) -> u32
    requires { IsTileSize size }
    ensures value { size ≡ 2 ^ result }
    ensures few { result ≤ 9 }
{
    match size {
        16 => 4,
        32 => 5,
        64 => 6,
        128 => 7,
        256 => 8,
        _ => 9,
    }
}

impl Grid {
    fn tile_at(self, i: u32, j: u32) -> usize
        requires few { self.across ≤ 8 }
        requires small { self.shift ≤ 9 }
        ensures { result ≡ i / 2 ^ self.shift * self.across + j / 2 ^ self.shift }
    {
        (i >> self.shift) as usize * self.across as usize + (j >> self.shift) as usize
    }

    fn place_at(self, i: u32, j: u32) -> usize
        requires { self.shift ≤ 9 }
        ensures { result ≡ j % 2 ^ self.shift * 2 ^ self.shift + i % 2 ^ self.shift }
    {
        let col = i - (i >> self.shift << self.shift);
        let row = j - (j >> self.shift << self.shift);
        ((row << self.shift) + col) as usize
    }

    fn tile_end(self, i: u32) -> u32
        requires small { self.shift ≤ 9 }
        requires col { i < 2 ^ 16 }
        ensures { result ≡ (i / 2 ^ self.shift + 1) * 2 ^ self.shift }
    {
        ((i >> self.shift) + 1) << self.shift
    }
}

impl TiledImage {
    ghost use Rattle.std.specs.Prelude.{◌≡◌, ◌+◌, ◌-◌, ◌*◌, ◌^◌, ◌<◌, ◌≤◌, ◌++◌, ℕ, IfOk, OnOk, MatchResult, flat_map, slice_set, slice_get, slice_index_or, Some, replicate, length, take, drop};
    ghost use Rattle.plain_world.specs.World.{IsTileSize};
    ghost use Rattle.plain_shapes.specs.Blending.{blend};
    ghost use Rattle.plain_shapes.specs.Images.{IsRaster};
    ghost use Rattle.plain_shapes.specs.inner.Canvas.{cut_of, cut_rows};
    ghost use Rattle.plain_shapes.specs.Ppm.{pixel_bytes};
    ghost use Rattle.plain_drawing.specs.Drawing.{pixels_text};
    ghost use Rattle.plain_drawing.specs.inner.PartTexts.{part_texts};
    ghost use Rattle.plain_image.specs.Runs.{run_changed};

    /// An image of `across` by `across` tiles of `size` by `size` pixels that is all of one colour, with room for so many
    /// bytes before the texts.
    pub fn over(
        alloc: Global,
        before: usize,
        size: u32,
        across: u32,
        c: Colour,
    ) -> Result<TiledImage, NoMemory>
        requires before { before ≤ 2 ^ 16 }
        requires size { IsTileSize size }
        requires some { 1 ≤ across }
        requires few { across ≤ 8 }
        ensures { IfOk result (λ m. m ≡ record {
          cols = size * across;
          rows = size * across;
          pixels = replicate (size * across * (size * across)) c;
        }) }
    {
        let texts = TileTexts::over(alloc, before, size, across * across, c)?;
        Ok(TiledImage {
            texts,
            grid: Grid {
                shift: shift_of(size),
                across,
            },
        })
    }

    /// How many columns it has.
    pub fn cols(&self) -> u32
        ensures value { result ≡ self.now.cols }
        ensures raster { IsRaster self.now.cols self.now.rows (length self.now.pixels) }
    {
        self.texts.side() * self.grid.across
    }

    /// How many rows it has.
    pub fn rows(&self) -> u32
        ensures { result ≡ self.now.rows }
    {
        self.texts.side() * self.grid.across
    }

    /// The colour of the pixel in column `i` and row `j`, which is inside.
    pub fn pixel(&self, i: u32, j: u32) -> Colour
        requires col { i < self.now.cols }
        requires row { j < self.now.rows }
        ensures { slice_get self.now.pixels (j * self.now.cols + i) ≡ Some result }
    {
        let tile = self.grid.tile_at(i, j);
        let place = self.grid.place_at(i, j);
        self.texts.at(tile, place)
    }

    /// Paints the one pixel in column `i` and row `j`, which is inside, with the colour `c`, in an opacity of 0 to 1,000
    /// thousandths: each channel d becomes `(s*a + d*(1000-a) + 500) div 1000`, with s the painted channel and a the opacity.
    pub fn blend(&mut self, i: u32, j: u32, c: Colour, opacity: u32)
        requires col { i < self.old.cols }
        requires row { j < self.old.rows }
        requires opacity { opacity ≤ 1000 }
        ensures { self.new ≡ record self.old {
          pixels = slice_set self.old.pixels (j * self.old.cols + i)
              (blend c opacity (slice_index_or self.old.pixels (j * self.old.cols + i) c));
        } }
    {
        // Opened, so that its columns are known to be few.
        let _tiles = &self.texts;
        self.blend_run(j, i, i + 1, c, opacity);
    }

    /// Paints the pixels of row `j` from the column `start` on and before the column `end`, which are inside, by the
    /// formula of `blend`.
    pub fn blend_run(&mut self, j: u32, start: u32, end: u32, c: Colour, opacity: u32)
        requires row { j < self.old.rows }
        requires order { start ≤ end }
        requires cols { end ≤ self.old.cols }
        requires opacity { opacity ≤ 1000 }
        ensures { self.new ≡ record self.old {
          pixels = run_changed (blend c opacity) (j * self.old.cols + start) (end - start)
              self.old.pixels;
        } }
    {
        let mut from = start;
        while from < end {
            let until = end.min(self.grid.tile_end(from));
            let tile = self.grid.tile_at(from, j);
            let place = self.grid.place_at(from, j);
            let count = (until - from) as usize;
            self.texts.paint_run(tile, place, place + count, c, opacity);
            from = until;
        }
    }

    /// Appends the binary PPM text of a part of it: `cols` columns from `col` on and `rows` rows from `row` on, which are
    /// inside.
    pub fn put_part(
        &self,
        col: u32,
        row: u32,
        cols: u32,
        rows: u32,
        out: &mut Vec<u8>,
    ) -> Result<(), NoMemory>
        requires in_cols { col + cols ≤ self.now.cols }
        requires in_rows { row + rows ≤ self.now.rows }
        ensures { OnOk result (out.new.items
            ≡ out.old.items ++ pixels_text cols rows (cut_of self.now col row cols rows).pixels) }
    {
        // Opened, so that its rows are known to be few.
        let _tiles = &self.texts;
        let head = text_head(*out.allocator(), cols, rows)?;
        out.extend_from_slice(head.as_str().as_bytes())?;
        self.put_rows(col, row, cols, rows, out)
    }

    /// The texts of its parts of `size` by `size` pixels, by columns, `across` side by side, behind these bytes: its own
    /// bytes, where it was made of such tiles with room for as many bytes before them. Else it comes back.
    pub fn into_texts(self, front: &[u8], size: u32, across: u32) -> Result<Vec<u8>, TiledImage>
        ensures { MatchResult result (λ v. v.items ≡ front.now
            ++ flat_map (λ text. text) (part_texts self size across)) (λ image. image ≡ self) }
    {
        if self.texts.before() == front.len()
            && self.texts.side() == size
            && self.grid.across == across
        {
            Ok(self.texts.into_bytes(front))
        } else {
            Err(self)
        }
    }

    fn put_rows(
        &self,
        col: u32,
        row: u32,
        cols: u32,
        rows: u32,
        out: &mut Vec<u8>,
    ) -> Result<(), NoMemory>
        requires raster { IsRaster self.now.cols self.now.rows (length self.now.pixels) }
        requires in_cols { col + cols ≤ self.now.cols }
        requires in_rows { row + rows ≤ self.now.rows }
        ensures { OnOk result (out.new.items ≡ out.old.items
            ++ flat_map pixel_bytes (cut_rows self.now.cols col row cols rows self.now.pixels)) }
    {
        for j in row..row + rows {
            self.put_row(j, col, col + cols, out)?;
        }
        Ok(())
    }

    // Appends the bytes of the pixels of row `j` from the column `start` on and before the column `end`.
    fn put_row(&self, j: u32, start: u32, end: u32, out: &mut Vec<u8>) -> Result<(), NoMemory>
        requires row { j < self.now.rows }
        requires order { start ≤ end }
        requires cols { end ≤ self.now.cols }
        ensures { OnOk result (out.new.items ≡ out.old.items ++ flat_map pixel_bytes
            (take (end - start) (drop (j * self.now.cols + start) self.now.pixels))) }
    {
        let mut from = start;
        while from < end {
            let to = end.min(self.grid.tile_end(from));
            let tile = self.grid.tile_at(from, j);
            let place = self.grid.place_at(from, j);
            out.extend_from_slice(self.texts.run(tile, place, place + (to - from) as usize))?;
            from = to;
        }
        Ok(())
    }
}

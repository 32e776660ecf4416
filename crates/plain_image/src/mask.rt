//! One bit for each pixel of a window: which pixels are covered.
use farm_base::NoMemory;
use std::alloc::Global;
use std::marker::Model;

/// A mask over the pixels of a window, by rows: which of them are covered. Contracts see its sides
/// and its bits, row by row. Its sides are 1 to 4,096.
#[derive(Drop)]
pub struct Mask {
    cols: u32,
    rows: u32,
    bits: Vec<bool>,
}

impl Model for Mask {
    ghost use Rattle.std.specs.Prelude.{length};
    ghost use Rattle.plain_shapes.specs.Images.{Bits, IsRaster};

    ghost Value = { Bits };

    ghost view = { λ m. record { cols = m.cols; rows = m.rows; bits = m.bits.items } };

    ghost invariant = { λ m. IsRaster m.cols m.rows (length m.bits.items) };
}

impl Mask {
    ghost use Rattle.std.specs.Prelude.{◌≡◌, ◌+◌, ◌*◌, ◌<◌, ◌≤◌, ℕ, IfOk, slice_set, slice_get, Some, replicate, false, true, length};
    ghost use Rattle.plain_shapes.specs.Images.{IsRaster, IsSides};

    /// A mask of these sides that covers nothing. Sides are 1 to 4,096.
    pub fn new(alloc: Global, cols: u32, rows: u32) -> Result<Mask, NoMemory>
        requires { IsSides cols rows }
        ensures { IfOk result
            (λ m. m ≡ record { cols = cols; rows = rows; bits = replicate (rows * cols) false }) }
    {
        let bits = vec![in alloc; false; rows as usize * cols as usize]?;
        Ok(Mask { cols, rows, bits })
    }

    /// How many columns it has.
    pub fn cols(&self) -> u32
        ensures value { result ≡ self.now.cols }
        ensures raster { IsRaster self.now.cols self.now.rows (length self.now.bits) }
    {
        self.cols
    }

    /// How many rows it has.
    pub fn rows(&self) -> u32
        ensures { result ≡ self.now.rows }
    {
        self.rows
    }

    /// Its bits, row by row.
    pub fn bits(&self) -> &[bool]
        ensures value { result.now ≡ self.now.bits }
        ensures count { length result.now ≡ self.now.rows * self.now.cols }
    {
        self.bits.as_slice()
    }

    /// Covers the pixel in column `i` and row `j`, which is inside.
    pub fn set(&mut self, i: u32, j: u32)
        requires col { i < self.old.cols }
        requires row { j < self.old.rows }
        ensures { self.new
            ≡ record self.old { bits = slice_set self.old.bits (j * self.old.cols + i) true } }
    {
        self.bits[j as usize * self.cols as usize + i as usize] = true;
    }

    /// Whether the pixel in column `i` and row `j`, which is inside, is covered.
    pub fn has(&self, i: u32, j: u32) -> bool
        requires col { i < self.now.cols }
        requires row { j < self.now.rows }
        ensures { slice_get self.now.bits (j * self.now.cols + i) ≡ Some result }
    {
        self.bits[j as usize * self.cols as usize + i as usize]
    }
}

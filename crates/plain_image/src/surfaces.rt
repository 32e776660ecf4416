//! What pixels are covered on, run by run.
ghost use Rattle.std.specs.Prelude.{◌≡◌, ℕ, ◌+◌, ◌-◌, ◌*◌, ◌<◌, ◌≤◌, true, false, slice_index_or};
ghost use Rattle.plain_shapes.specs.Images.{Bits};
ghost use Rattle.plain_image.specs.Runs.{run_changed};
ghost use Rattle.plain_image.specs.Surfaces.{Becomes, Knows};

use crate::Mask;

/// What pixels are covered on: a mask, or what shows covered pixels in another way. Contracts see its sides
/// and the bits that it shows.
pub trait Surface {
    /// How many columns it has.
    ghost cols: { Self → ℕ };

    /// How many rows it has.
    ghost rows: { Self → ℕ };

    /// Whether it shows these bits, over what the surface was at some time before. Of a mask they are its
    /// bits, whatever it was.
    ghost shows: { Self → Self → Bits → Type 0 };

    /// Covers the pixels of row `j` from the column `from` on and before the column `end`.
    fn cover(&mut self, j: u32, from: u32, end: u32)
        requires row { j < rows self.old }
        requires end { end ≤ cols self.old }
        ensures bits { Becomes shows (λ old new. new ≡ record old {
          bits = run_changed (λ _. true) (j * cols self.old + from) (end - from) old.bits;
        }) self.old self.new }
        ensures cols { cols self.new ≡ cols self.old }
        ensures rows { rows self.new ≡ rows self.old };

    /// Some columns of row `j` whose pixels are covered already: from the first number on and before the second one. None
    /// may be known.
    fn known(&self, j: u32) -> (u32, u32)
        requires row { j < rows self.now }
        ensures covered { Knows shows (λ bits. (i : ℕ) → i < cols self.now → result.0 ≤ i → i < result.1
            → slice_index_or bits.bits (j * cols self.now + i) false ≡ true) self.now };
}

impl Surface for Mask {
    ghost use Rattle.std.specs.Prelude.{◌≡◌};

    ghost cols = { λ m. m.cols };

    ghost rows = { λ m. m.rows };

    ghost shows = { λ _ m bits. m ≡ bits };

    fn cover(&mut self, j: u32, from: u32, end: u32) {
        for i in from..end {
            self.set(i, j);
        }
    }

    fn known(&self, _j: u32) -> (u32, u32) {
        (0, 0)
    }
}

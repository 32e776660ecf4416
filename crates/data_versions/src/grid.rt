//! Rectangles in parts of a box. A box has 256 by 256 parts; columns are counted from the west, rows from the north.
ghost use Rattle.std.specs.Prelude.{◌≡◌, ◌≤◌, ◌<◌};
ghost use Rattle.data_versions.specs.inner.Grids.{scale_of, part_of, on_grid, grid_meets};

use geo_model::Bounds;
use std::marker::Model;

// Into so many shares a part is cut on its way across or down.
const SHARES_OF_PART: u64 = 17_179_869_184;

// The shares of 256 parts.
const SHARES_OF_WAY: u64 = 4_398_046_511_104;

/// A box, and how many shares of a part a step across and a step down is. They are divided once for all the
/// rectangles that are looked for. Contracts see the box.
#[derive(Drop)]
pub(crate) struct Grid {
    bounds: Bounds,
    across: u64,
    down: u64,
}

impl Model for Grid {
    ghost use Rattle.std.specs.Prelude.{◌≡◌};
    ghost use Rattle.geo_model.specs.declared.bounds.Bounds.{Bounds};
    ghost use Rattle.data_versions.specs.inner.Grids.{scale_of};

    ghost Value = { Bounds };

    ghost view = { λ g. g.bounds };

    ghost invariant = { λ g. (g.across ≡ scale_of g.bounds.west g.bounds.east)
        × (g.down ≡ scale_of g.bounds.north g.bounds.south) };
}

/// The first and the last column, and the first and the last row, of parts that a rectangle meets.
#[derive(Clone, Copy)]
pub(crate) struct GridBox {
    pub west: u8,
    pub north: u8,
    pub east: u8,
    pub south: u8,
}

impl GridBox {
    /// Whether both meet one part. All four are asked, so that the compiler can ask many at once.
    pub(crate) fn meets(self, other: GridBox) -> bool
        ensures { result ≡ grid_meets self other }
    {
        (self.west <= other.east)
            & (other.west <= self.east)
            & (self.north <= other.south)
            & (other.north <= self.south)
    }
}

fn scale_of(low: u32, high: u32) -> u64
    ensures { result ≡ scale_of low high }
{
    SHARES_OF_WAY / (u64::from(high.saturating_sub(low)) + 1)
}

// In which of 256 equal parts of the way from `low` to `high` the place lies, or the place of the way that is nearest to it.
fn part_at(low: u32, high: u32, place: u32, scale: u64) -> u8
    requires { scale ≡ scale_of low high }
    ensures { result ≡ part_of low high place }
{
    let inside = low.max(high.min(place));
    (u64::from(inside - low) * scale / SHARES_OF_PART) as u8
}

impl Grid {
    /// The parts of the box.
    pub(crate) fn of(bounds: Bounds) -> Grid
        ensures { result ≡ bounds }
    {
        Grid {
            bounds,
            across: scale_of(bounds.west, bounds.east),
            down: scale_of(bounds.north, bounds.south),
        }
    }

    /// The same parts once more.
    pub(crate) fn again(&self) -> Grid
        ensures { result ≡ self.now }
    {
        Grid {
            bounds: self.bounds,
            across: self.across,
            down: self.down,
        }
    }

    fn column(&self, x: u32) -> u8
        ensures { result ≡ part_of self.now.west self.now.east x }
    {
        part_at(self.bounds.west, self.bounds.east, x, self.across)
    }

    fn row(&self, y: u32) -> u8
        ensures { result ≡ part_of self.now.north self.now.south y }
    {
        part_at(self.bounds.north, self.bounds.south, y, self.down)
    }

    /// The rectangle in parts. What lies outside the box counts for the part that is nearest.
    pub(crate) fn place(&self, b: Bounds) -> GridBox
        ensures { result ≡ on_grid self.now b }
    {
        GridBox {
            west: self.column(b.west),
            north: self.row(b.north),
            east: self.column(b.east),
            south: self.row(b.south),
        }
    }
}

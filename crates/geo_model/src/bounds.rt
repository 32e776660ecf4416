//! The bounding box of a list of points.
ghost use Rattle.std.specs.Prelude.{◌≡◌, fold};
ghost use Rattle.geo_model.specs.Bounds.{box_with, meets, no_bounds, bounds_of};

use plain_shapes::Path;
use plain_world::Point;

/// A rectangle of the world by its least and greatest coordinates, which belong to it.
#[derive(Clone, Copy)]
pub struct Bounds {
    pub west: u32,
    pub north: u32,
    pub east: u32,
    pub south: u32,
}

/// The world's side in units.
pub(crate) const WORLD: u32 = 1 << 30;

impl Bounds {
    /// Whether the two rectangles, borders included, have a point in common.
    pub fn meets(&self, other: &Bounds) -> bool
        ensures { result ≡ meets self.now other.now }
    {
        // All four are asked at once: which of them fails is not foreseen, and a wrong guess takes longer than they do.
        (self.west <= other.east)
            & (other.west <= self.east)
            & (self.north <= other.south)
            & (other.north <= self.south)
    }
}

// The rectangle widened so that it holds the point too.
fn widened(b: Bounds, p: Point) -> Bounds
    ensures { result ≡ box_with b p }
{
    Bounds {
        west: b.west.min(p.x),
        north: b.north.min(p.y),
        east: b.east.max(p.x),
        south: b.south.max(p.y),
    }
}

fn widened_by(b: Bounds, path: &Path) -> Bounds
    ensures { result ≡ fold box_with b path.now }
{
    path.points.iter().fold(b, |b, p| widened(b, *p))
}

/// The bounding box of the paths' points.
pub(crate) fn bounds_of(paths: &[Path]) -> Bounds
    ensures { result ≡ bounds_of paths.now }
{
    let nothing = Bounds {
        west: WORLD,
        north: WORLD,
        east: 0,
        south: 0,
    };
    paths.iter().fold(nothing, |b, path| widened_by(b, path))
}

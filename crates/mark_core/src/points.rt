//! Marks at all points of a path.
ghost use Rattle.std.specs.Prelude.{◌≡◌, ◌≤◌, ◌^◌, All};
ghost use Rattle.plain_world.specs.World.{InWorld, IsWindow};
ghost use Rattle.plain_shapes.specs.Strokes.{on_marks};
ghost use Rattle.plain_image.specs.Surfaces.{Marks};

use crate::ellipses::Ellipse;
use centre_spans::mark;
use plain_image::Surface;
use plain_shapes::Path;
use plain_world::{Point, Window};

fn mark_each<K: Surface>(points: &[Point], a: u32, b: u32, w: Window, mask: &mut K)
    requires points { All InWorld points.now }
    requires a { a ≤ 2 ^ 31 }
    requires b { b ≤ 2 ^ 31 }
    requires window { IsWindow w }
    requires cols { K.cols mask.old ≡ w.cols }
    requires rows { K.rows mask.old ≡ w.rows }
    ensures marks { Marks K.shows (on_marks points.now a b) w mask.old mask.new }
    ensures cols { K.cols mask.new ≡ K.cols mask.old }
    ensures rows { K.rows mask.new ≡ K.rows mask.old }
{
    for p in points {
        mark(&Ellipse { centre: *p, a, b }, w, mask);
    }
}

/// Covers the pixels whose centre one of the marks holds, of a mask by setting their bits: an ellipse round
/// each point, `a` wide and `b` high to each side, in world units of at most `2^31`; where one of them is 0
/// none is covered. No other pixel changes. The points lie in the world, the window is a tile's or a
/// metatile's, and the mask, or what stands for it, has its sides.
pub fn mark_points<K: Surface>(points: &Path, a: u32, b: u32, w: Window, mask: &mut K)
    requires points { All InWorld points.now }
    requires a { a ≤ 2 ^ 31 }
    requires b { b ≤ 2 ^ 31 }
    requires window { IsWindow w }
    requires cols { K.cols mask.old ≡ w.cols }
    requires rows { K.rows mask.old ≡ w.rows }
    ensures marks { Marks K.shows (on_marks points.now a b) w mask.old mask.new }
    ensures cols { K.cols mask.new ≡ K.cols mask.old }
    ensures rows { K.rows mask.new ≡ K.rows mask.old }
{
    mark_each(&points.points, a, b, w, mask);
}

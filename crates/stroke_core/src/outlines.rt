//! Outlines of rings.
ghost use Rattle.std.specs.Prelude.{◌≡◌, ◌≤◌, ◌^◌, All, IsOk};
ghost use Rattle.plain_world.specs.World.{InWorld, IsWindow};
ghost use Rattle.plain_shapes.specs.Strokes.{on_ring, on_outline};
ghost use Rattle.plain_image.specs.Surfaces.{Marks};

use crate::lines::mark_rounded;
use farm_base::NoMemory;
use plain_image::Surface;
use plain_shapes::Path;
use plain_world::{Point, Window};

// Covers the pixels of the outline of a ring, which is closed from its last point to its first.
fn mark_ring<K: Surface>(half: u32, ps: &[Point], w: Window, mask: &mut K)
    requires half { half ≤ 2 ^ 31 }
    requires points { All InWorld ps.now }
    requires window { IsWindow w }
    requires cols { K.cols mask.old ≡ w.cols }
    requires rows { K.rows mask.old ≡ w.rows }
    ensures marks { Marks K.shows (λ c. on_ring half c ps.now) w mask.old mask.new }
    ensures cols { K.cols mask.new ≡ K.cols mask.old }
    ensures rows { K.rows mask.new ≡ K.rows mask.old }
{
    if ps.is_empty() {
        return;
    }
    mark_rounded(half, ps[ps.len() - 1], ps, w, mask);
}

fn stroke_ring<K: Surface>(half: u32, ring: &Path, w: Window, mask: &mut K)
    requires half { half ≤ 2 ^ 31 }
    requires points { All InWorld ring.now }
    requires window { IsWindow w }
    requires cols { K.cols mask.old ≡ w.cols }
    requires rows { K.rows mask.old ≡ w.rows }
    ensures marks { Marks K.shows (λ c. on_ring half c ring.now) w mask.old mask.new }
    ensures cols { K.cols mask.new ≡ K.cols mask.old }
    ensures rows { K.rows mask.new ≡ K.rows mask.old }
{
    mark_ring(half, &ring.points, w, mask);
}

/// Covers the pixels whose centre lies on the outline of one of the rings, of a mask by setting their bits:
/// in the body of one of its closed segments, or in the disk at one of its points. `half` is half the
/// stroke's width in world units, at most `2^31`. No other pixel changes. It takes no memory, so it is never
/// refused. The points lie in the world, the window is a tile's or a metatile's, and the mask, or what stands
/// for it, has its sides.
pub fn stroke_rings<K: Surface>(
    rings: &[Path],
    half: u32,
    w: Window,
    mask: &mut K,
) -> Result<(), NoMemory>
    requires half { half ≤ 2 ^ 31 }
    requires rings { All (All InWorld) rings.now }
    requires window { IsWindow w }
    requires cols { K.cols mask.old ≡ w.cols }
    requires rows { K.rows mask.old ≡ w.rows }
    ensures ok { IsOk result }
    ensures drawn { Marks K.shows (on_outline rings.now half) w mask.old mask.new }
    ensures cols { K.cols mask.new ≡ K.cols mask.old }
    ensures rows { K.rows mask.new ≡ K.rows mask.old }
{
    for ring in rings {
        stroke_ring(half, ring, w, mask);
    }
    Ok(())
}

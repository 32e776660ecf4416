//! The region of a window that is near a feature, so that no more than its pixels is looked at.
ghost use Rattle.std.specs.Prelude.{◌≡◌, ℕ, ◌+◌, ◌*◌, ◌^◌, ◌<◌, ◌≤◌, false, IfSome, MatchOption};
ghost use Rattle.plain_world.specs.World.{IsWindow, centre};
ghost use Rattle.drawing_reach.specs.inner.Spreads.{Beside};
ghost use Rattle.tile_render.specs.inner.Regions.{IsRegion, InRegion, HasNoCentre, region_window, around};

use centre_spans::first_at;
use geo_model::Bounds;
use plain_shapes::MOST_WIDTH;
use plain_world::Window;

/// Some columns and rows of a window: a rectangle of its pixels.
#[derive(Clone, Copy)]
pub(crate) struct Region {
    pub col: u32,
    pub row: u32,
    pub cols: u32,
    pub rows: u32,
}

/// The region as a window of its own.
pub(crate) fn region_window(w: Window, region: Region) -> Window
    requires window { IsWindow w }
    requires region { IsRegion w region }
    ensures value { result ≡ region_window w region }
    ensures valid { IsWindow result }
{
    Window {
        west: w.west + region.col * w.pixel,
        north: w.north + region.row * w.pixel,
        pixel: w.pixel,
        cols: region.cols,
        rows: region.rows,
    }
}

/// The columns and rows whose centres lie in the rectangle widened by so many units to the west and east,
/// and by so many to the north and south; none where there is no such centre.
pub(crate) fn region_near(w: Window, b: Bounds, across: u64, down: u64) -> Option<Region>
    requires window { IsWindow w }
    requires across { across ≤ 2 ^ 32 }
    requires down { down ≤ 2 ^ 32 }
    ensures region { IfSome result (λ r. IsRegion w r) }
    ensures holds { MatchOption result
        ((j i : ℕ) → i < w.cols → j < w.rows → Beside b across down (centre w i j) → ⊥)
        (λ r. (j i : ℕ) → i < w.cols → j < w.rows → Beside b across down (centre w i j)
        → InRegion r i j) }
{
    let west = u64::from(b.west).saturating_sub(across);
    let east = u64::from(b.east) + across;
    let north = u64::from(b.north).saturating_sub(down);
    let south = u64::from(b.south) + down;
    let left = first_at(w.west, w.pixel, w.cols, west);
    let right = first_at(w.west, w.pixel, w.cols, east + 1);
    let top = first_at(w.north, w.pixel, w.rows, north);
    let bottom = first_at(w.north, w.pixel, w.rows, south + 1);
    if left < right && top < bottom {
        Some(Region {
            col: left,
            row: top,
            cols: right - left,
            rows: bottom - top,
        })
    } else {
        None
    }
}

/// Whether a centre of the window may lie in the rectangle. One that is as wide and as high as a pixel has a centre of the
/// grid, mostly one of the window: it is not looked for.
pub(crate) fn may_have_centre(w: Window, b: Bounds) -> bool
    requires { IsWindow w }
    ensures { result ≡ false → HasNoCentre w b }
{
    let across = b.east.saturating_sub(b.west);
    let down = b.south.saturating_sub(b.north);
    (across >= w.pixel && down >= w.pixel) || region_near(w, b, 0, 0).is_some()
}

/// The window's rectangle widened by 64 pixels on each side, and cut to the world: what no feature farther
/// off paints.
pub(crate) fn around(w: Window) -> Bounds
    requires { IsWindow w }
    ensures value { result ≡ around w }
    ensures across { result.west ≤ result.east }
    ensures down { result.north ≤ result.south }
{
    let margin = MOST_WIDTH * u64::from(w.pixel);
    let east = u64::from(w.west + w.cols * w.pixel) + margin;
    let south = u64::from(w.north + w.rows * w.pixel) + margin;
    Bounds {
        west: u64::from(w.west).saturating_sub(margin) as u32,
        north: u64::from(w.north).saturating_sub(margin) as u32,
        east: east.min(1 << 30) as u32,
        south: south.min(1 << 30) as u32,
    }
}

//! Scales: the denominator of a zoom, and whether a rule or a layer is active at it.
//!
//! What is proved: scale denominators and what is active at one: each function equals its definition, `None` exactly
//! outside its range.
#![tactic(auto)]

ghost use Rattle.std.specs.Prelude.{◌≡◌, ◌*◌, ◌^◌, ◌<◌, ◌≤◌};
ghost use Rattle.plain_world.specs.World.{IsTileSize};
ghost use Rattle.plain_drawing.specs.Rules.{denominator_of, is_active};

/// The scale denominator of zoom `z`, which is at most 18, with tiles of `size` pixels, rounded down: that of
/// zoom 0 at 256 pixels is 559082264 (the standard scales of Mapnik and OGC), and each zoom halves it.
pub fn denominator(z: u32, size: u32) -> u64
    requires zoom { z ≤ 18 }
    requires size { IsTileSize size }
    ensures value { result ≡ denominator_of z size }
    ensures fits { 100 * result < 2 ^ 64 }
{
    559082264 * 256 / (u64::from(size) << z)
}

/// Whether a scale is active at denominator `d`: from its least bound on, and below its greatest one where it
/// has one. Both bounds are in hundredths.
pub fn active(min: u64, max: Option<u64>, d: u64) -> bool
    requires { 100 * d < 2 ^ 64 }
    ensures { result ≡ is_active min max d }
{
    min <= 100 * d
        && match max {
            Some(max) => 100 * d < max,
            None => true,
        }
}

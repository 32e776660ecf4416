//! Bounding boxes widened by a margin, and the squares that hold a point of one.
ghost use Rattle.std.specs.Prelude.{◌≡◌, ◌^◌, ◌<◌, ◌≤◌, ◌↔◌, IsTrue, All, length, take, drop, true, false, IsPermutation};
ghost use Rattle.std.specs.List.{list_any};
ghost use Rattle.plain_world.specs.World.{IsSquare, IsTileSize, side_at};
ghost use Rattle.plain_shapes.specs.Reach.{margin_of};
ghost use Rattle.expiry_lists.specs.Boxes.{Holds, is_near, comes_near};

use geo_model::Bounds;
use plain_world::Square;

#[tactic(auto, using(plain_world::proofs::Windows::side_most))]
fn side_at(z: u32) -> u64
    requires { z ≤ 18 }
    ensures value { result ≡ side_at z }
    ensures small { result ≤ 2 ^ 30 }
{
    1 << (30 - z)
}

/// 64 pixels of tiles of that size at that zoom, in units.
#[tactic(auto, using(plain_world::proofs::Windows::size_bounds))]
pub fn margin_of(size: u32, z: u32) -> u64
    requires size { IsTileSize size }
    requires zoom { z ≤ 18 }
    ensures value { result ≡ margin_of size z }
    ensures small { result ≤ 2 ^ 36 }
{
    64 * side_at(z) / u64::from(size)
}

// Whether the stretch from `least` to `greatest`, widened by the margin on both sides, holds a number of the
// stretch of so many units that stands at that place.
fn is_near(least: u32, greatest: u32, place: u32, units: u64, margin: u64) -> bool
    requires place { place < 2 ^ 18 }
    requires units { units ≤ 2 ^ 30 }
    requires margin { margin ≤ 2 ^ 36 }
    ensures { result ≡ is_near least greatest place units margin }
{
    let from = u64::from(place) * units;
    u64::from(least) < from + units + margin && from <= u64::from(greatest) + margin
}

/// Whether the square holds a point of the box widened by the margin.
pub fn comes_near(b: Bounds, margin: u64, s: Square) -> bool
    requires margin { margin ≤ 2 ^ 36 }
    requires square { IsSquare s }
    ensures value { result ≡ comes_near b margin s }
    ensures meaning { b.west ≤ b.east → b.north ≤ b.south → (IsTrue result ↔ Holds s b margin) }
{
    let side = side_at(s.z);
    let across = is_near(b.west, b.east, s.x, side, margin);
    let down = is_near(b.north, b.south, s.y, side, margin);
    across && down
}

/// Whether the square holds a point of some of the boxes widened by the margin.
pub fn some_comes_near(boxes: &[Bounds], margin: u64, s: Square) -> bool
    requires margin { margin ≤ 2 ^ 36 }
    requires square { IsSquare s }
    ensures { result ≡ list_any (λ b. comes_near b margin s) boxes.now }
{
    boxes.iter().any(|b| comes_near(*b, margin, s))
}

/// Puts the boxes that, widened by the margin, hold a point of the square before the others, and counts them.
pub fn gather(boxes: &mut [Bounds], margin: u64, s: Square) -> usize
    requires margin { margin ≤ 2 ^ 36 }
    requires square { IsSquare s }
    ensures moved { IsPermutation boxes.old boxes.new }
    ensures few { result ≤ length boxes.new }
    ensures near { All (λ b. comes_near b margin s ≡ true) (take result boxes.new) }
    ensures others { All (λ b. comes_near b margin s ≡ false) (drop result boxes.new) }
{
    let mut near = 0;
    for i in 0..boxes.len() {
        if comes_near(boxes[i], margin, s) {
            boxes.swap(near, i);
            near += 1;
        }
    }
    near
}

//! What a feature reaches: its bounding box, widened by 64 pixels on each side. Within it lies all that any
//! symbolizer paints of the feature, so a change of the feature changes no tile outside. And what an update of a
//! farm reaches: the boxes of the features that it names, and the marks of the metatiles that these reach.
//!
//! What is proved: `reaches`: some point of the square lies in the feature's bounding box widened by 64 pixels on each
//! side, both ways; `box_of`: the box by which many squares are tested says the same. What an update reaches:
//! `named_boxes` gives the bounding boxes of the features that it names, old and new, looked up by their ids (by a
//! table of them where many are named); `mark_maps_dirty` makes dirty exactly the marks that these reach, on every map
//! and zoom, and counts those that were clean.
#![tactic(auto)]

ghost use Rattle.std.specs.Prelude.{◌≡◌, ℕ, ◌≤◌, ◌↔◌, IsTrue};
ghost use Rattle.plain_world.specs.World.{IsSquare, IsTileSize};
ghost use Rattle.plain_world.specs.declared.world.Square.{Square};
ghost use Rattle.plain_shapes.specs.Reach.{Reaches, feature_reaches};
ghost use Rattle.reach_box.specs.Boxes.{IsBox, box_reaches};

mod boxes;
mod dirties;

pub use boxes::{boxes_reach, named_boxes};
pub use dirties::mark_maps_dirty;
use expiry_lists::{comes_near, margin_of};
use geo_model::{Bounds, Feature};
use plain_world::Square;

/// Whether the bounding box reaches the square, for tiles of `size` by `size` pixels at zoom `z`.
pub fn box_reaches(b: Bounds, size: u32, z: u32, s: Square) -> bool
    requires size { IsTileSize size }
    requires zoom { z ≤ 18 }
    requires square { IsSquare s }
    ensures { result ≡ box_reaches b size z s }
{
    comes_near(b, margin_of(size, z), s)
}

/// Whether the feature reaches the square, for tiles of `size` by `size` pixels at zoom `z`: whether some point
/// of the square lies in the feature's bounding box, widened by 64 pixels on each side, borders included.
pub fn reaches(f: &Feature, size: u32, z: u32, s: Square) -> bool
    requires size { IsTileSize size }
    requires zoom { z ≤ 18 }
    requires square { IsSquare s }
    ensures test { result ≡ feature_reaches f.now size z s }
    ensures meaning { IsTrue result ↔ Reaches f.now size z s }
{
    let _shape = f.geometry();
    box_reaches(box_of(f), size, z, s)
}

/// The feature's bounding box, which reaches what the feature reaches.
pub fn box_of(f: &Feature) -> Bounds
    ensures sound { IsBox result }
    ensures reach { (size z : ℕ) (s : Square)
        → box_reaches result size z s ≡ feature_reaches f.now size z s }
{
    let _shape = f.geometry();
    f.bbox()
}

//! Marks of the metatiles that boxes reach.
ghost use Rattle.std.specs.Prelude.{◌≡◌, ◌==◌, ◌<◌, ◌≤◌, ◌&&◌, ℕ, All, length, slice_get, IsPermutation};
ghost use Rattle.std.specs.Int.{bit_at};
ghost use Rattle.farm_history.specs.Plans.{AreApart};
ghost use Rattle.farm_plan.specs.Plans.{IsMapPlan};
ghost use Rattle.expiry_lists.specs.Marks.{shown_key};
ghost use Rattle.reach_box.specs.Marks.{Expires, is_reached};
ghost use Rattle.reach_box.specs.inner.Sizes.{has_size};

use expiry_lists::Marks;
use farm_plan::MapPlan;
use geo_model::Bounds;

/// How many sizes a map's tiles may have: 16 pixels, and each the double of the one before.
const SIZES: u32 = 6;

fn bit_if(place: usize, there: bool) -> u64
    requires { place < 64 }
    ensures { (m : ℕ) → (bit_at result m == 1) ≡ (there && (m == place)) }
{
    if there { 1 << place } else { 0 }
}

fn word_of(maps: &[MapPlan], size: u32) -> u64
    requires { length maps.now ≤ 16 }
    ensures { (m : ℕ) → (bit_at result m == 1) ≡ has_size (slice_get maps.now m) size }
{
    let mut word = 0;
    for (place, plan) in maps.iter().enumerate() {
        word |= bit_if(place, plan.tile == size);
    }
    word
}

/// Makes dirty what the boxes reach of the maps, and counts what was clean of it, which is told up to
/// `2^64 - 1`. All maps whose tiles have one size are walked together. The boxes end in another order.
pub fn mark_maps_dirty(marks: &mut Marks, maps: &[MapPlan], boxes: &mut [Bounds]) -> u64
    requires few { length maps.now ≤ 16 }
    requires maps { All IsMapPlan maps.now }
    ensures dirties { Expires (is_reached maps.now boxes.old)
        marks.old.shown marks.new.shown result }
    ensures apart { AreApart shown_key marks.old.shown }
    ensures moved { IsPermutation boxes.old boxes.new }
{
    marks.law_apart();
    let mut clean: u64 = 0;
    for i in 0..SIZES {
        let size = 16 << i;
        let word = word_of(maps, size);
        clean = clean.saturating_add(marks.expire_bits_boxes(word, size, boxes));
    }
    clean
}

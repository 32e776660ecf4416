//! Expiries of one place, of all places and of one key: a write of one spot each.
ghost use Rattle.std.specs.Prelude.{◌≡◌, ◌≢◌, ◌==◌, ◌<◌, ℕ, not, position, Some, bit_and, true, false};
ghost use Rattle.std.specs.Map.{keys_of};
ghost use Rattle.farm_history.specs.declared.keys.Key.{Key};
ghost use Rattle.farm_history.specs.Plans.{same_key};
ghost use Rattle.expiry_lists.specs.inner.Nodes.{at_bits, has_bit, has_spot, is_clean_at, live_word, lives_at, parent, spot_of, IsTree, Quieter};
ghost use Rattle.expiry_lists.specs.inner.Walks.{Walks};

use crate::nodes::{Nodes, bit_of, place_of};
use crate::table::Spot;
use farm_history::Key;

/// Whether some map of the mask may have a clean key at the place or below it.
pub fn is_live(nodes: &Nodes, place: Key, mask: u64) -> bool
    ensures { result ≡ not (bit_and (live_word (spot_of nodes.now.spots place)) mask == 0) }
{
    match nodes.spot(place) {
        Some(spot) => spot.live & mask != 0,
        None => false,
    }
}

// Makes the marks at a place dirty, whose spot stands there, of the maps whose bits are in the mask, and counts what was
// clean.
fn mark_spot_dirty(nodes: &mut Nodes, at: usize, place: Key, spot: Spot, mask: u64) -> u64
    requires tree { IsTree nodes.old.entries nodes.old.spots }
    requires at { position (same_key place) (keys_of nodes.old.spots) ≡ Some at }
    requires found { spot_of nodes.old.spots place ≡ Some spot }
    ensures walks { Walks (at_bits place mask) nodes.old nodes.new result }
    ensures keys { keys_of nodes.new.entries ≡ keys_of nodes.old.entries }
    ensures places { keys_of nodes.new.spots ≡ keys_of nodes.old.spots }
{
    let _before = nodes.len();
    let count = nodes.take_own(at, place, spot, mask);
    let _after = nodes.len();
    count
}

/// Makes the marks at a place dirty of the maps whose bits are in the mask, and counts what was clean.
pub fn mark_place_dirty(nodes: &mut Nodes, place: Key, mask: u64) -> u64
    requires { IsTree nodes.old.entries nodes.old.spots }
    ensures walks { Walks (at_bits place mask) nodes.old nodes.new result }
    ensures keys { keys_of nodes.new.entries ≡ keys_of nodes.old.entries }
{
    let _count = nodes.len();
    match nodes.find_spot(place) {
        Some((at, spot)) => mark_spot_dirty(nodes, at, place, spot, mask),
        None => 0,
    }
}

/// Makes the mark of a key dirty, and counts what was clean: 0 or 1.
pub fn mark_one_dirty(nodes: &mut Nodes, key: Key) -> u64
    requires { IsTree nodes.old.entries nodes.old.spots }
    ensures walks { Walks (same_key key) nodes.old nodes.new result }
    ensures keys { keys_of nodes.new.entries ≡ keys_of nodes.old.entries }
{
    mark_place_dirty(nodes, place_of(key), bit_of(key))
}

/// The same as for a place's maps, and no map of the mask is live at the place any more.
pub fn settle_place(nodes: &mut Nodes, place: Key, mask: u64) -> u64
    requires tree { IsTree nodes.old.entries nodes.old.spots }
    requires quiet_below { (p : Key) (b : ℕ) → 3 < p.meta.z → has_bit mask b ≡ true
        → lives_at nodes.old.spots p b ≡ true → parent p ≢ place }
    ensures walks { Walks (at_bits place mask) nodes.old nodes.new result }
    ensures quiet { (b : ℕ) → has_bit mask b ≡ true → lives_at nodes.new.spots place b ≡ false }
{
    let _before = nodes.len();
    let count = mark_place_dirty(nodes, place, mask);
    let _after = nodes.len();
    hush(nodes, place, mask);
    count
}

fn hush(nodes: &mut Nodes, place: Key, mask: u64)
    requires tree { IsTree nodes.old.entries nodes.old.spots }
    requires dirty { (k : Key) → at_bits place mask k ≡ true → is_clean_at nodes.old.entries k ≡ false }
    requires quiet_below { (p : Key) (b : ℕ) → 3 < p.meta.z → has_bit mask b ≡ true
        → lives_at nodes.old.spots p b ≡ true → parent p ≢ place }
    ensures entries { nodes.new.entries ≡ nodes.old.entries }
    ensures tree { IsTree nodes.new.entries nodes.new.spots }
    ensures there { (p : Key) → has_spot nodes.new.spots p ≡ has_spot nodes.old.spots p }
    ensures quieter { Quieter nodes.old.spots nodes.new.spots }
    ensures quiet { (b : ℕ) → has_bit mask b ≡ true → lives_at nodes.new.spots place b ≡ false }
    ensures room { nodes.new.room ≡ nodes.old.room }
    ensures free { nodes.new.free ≡ nodes.old.free }
{
    let Some((at, spot)) = nodes.find_spot(place) else {
        return;
    };
    let live = spot.live & !mask;
    nodes.put_live(at, place, spot, live);
}

/// Makes all marks dirty, spot by spot and not along the tree, and counts what was clean.
pub fn settle_all(nodes: &mut Nodes) -> u64
    requires { IsTree nodes.old.entries nodes.old.spots }
    ensures walks { Walks (λ k. true) nodes.old nodes.new result }
{
    let _nodes = nodes.len();
    let mut count = 0;
    for i in 0..nodes.spots() {
        let (place, spot) = nodes.spot_at(i);
        count += mark_spot_dirty(nodes, i, place, spot, u64::MAX);
    }
    count
}

//! Spots on the way from a group's root to a place, and the marks of keys whose places have one.
ghost use Rattle.std.specs.Prelude.{◌≡◌, ◌==◌, ◌^◌, ◌<◌, ◌≤◌, ◌+◌, ◌&&◌, not, true, false, if◌then◌else◌, None, Some, Option, ℕ, bit_and};
ghost use Rattle.farm_history.specs.declared.keys.Key.{Key};
ghost use Rattle.farm_history.specs.Plans.{same_key};
ghost use Rattle.plain_world.specs.World.{IsMeta};
ghost use Rattle.expiry_lists.specs.Marks.{mark_of};
ghost use Rattle.expiry_lists.specs.inner.Nodes.{has_bit, has_node, has_spot, bit_of, lives_at, live_word, parent, place_of, shown_of, spot_of, IsTree};
ghost use Rattle.expiry_lists.specs.inner.Waking.{path_len, Wakes};

use crate::nodes::Nodes;
use crate::walks::{ROOT_ZOOM, parent};
use farm_history::{Key, Mark};

fn is_awake(nodes: &Nodes, place: Key, mask: u64) -> bool
    ensures { result ≡ (has_spot nodes.now.spots place
        && (bit_and (live_word (spot_of nodes.now.spots place)) mask == mask)) }
{
    match nodes.spot(place) {
        Some(spot) => spot.live & mask == mask,
        None => false,
    }
}

// Gives the place a spot, where it has none, and makes the maps of the mask live there.
fn wake_one(nodes: &mut Nodes, place: Key, mask: u64)
    requires tree { IsTree nodes.old.entries nodes.old.spots }
    requires meta { IsMeta place.meta }
    requires group { place.map < 2 ^ 26 }
    requires rooted { 3 < place.meta.z → has_spot nodes.old.spots (parent place) ≡ true }
    requires live_above { (b : ℕ) → 3 < place.meta.z → has_bit mask b ≡ true → lives_at nodes.old.spots (parent place) b ≡ true }
    requires free { has_spot nodes.old.spots place ≡ false → 1 ≤ nodes.old.free }
    ensures wakes { Wakes place mask nodes.old nodes.new }
    ensures free { nodes.old.free ≤ nodes.new.free + 1 }
    ensures there { has_spot nodes.old.spots place ≡ true → nodes.new.free ≡ nodes.old.free }
{
    match nodes.find_spot(place) {
        Some((at, spot)) => {
            let live = spot.live | mask;
            nodes.put_live(at, place, spot, live);
        }
        None => nodes.add_spot(place, mask),
    }
}

/// Gives the place and those above it spots, where they have none, and makes the maps of the mask live there.
pub fn wake(nodes: &mut Nodes, place: Key, mask: u64)
    requires tree { IsTree nodes.old.entries nodes.old.spots }
    requires meta { IsMeta place.meta }
    requires group { place.map < 2 ^ 26 }
    requires free { has_spot nodes.old.spots place ≡ false → path_len place ≤ nodes.old.free }
    ensures wakes { Wakes place mask nodes.old nodes.new }
    ensures free { nodes.old.free ≤ nodes.new.free + path_len place }
    ensures there { has_spot nodes.old.spots place ≡ true → nodes.new.free ≡ nodes.old.free }
{
    if is_awake(nodes, place, mask) {
        return;
    }
    if place.meta.z <= ROOT_ZOOM {
        wake_one(nodes, place, mask);
        return;
    }
    wake(nodes, parent(place), mask);
    wake_one(nodes, place, mask);
}

/// Gives the key, whose place has a spot, that mark in place of what it had.
pub fn put_mark(nodes: &mut Nodes, key: Key, mark: Mark)
    requires tree { IsTree nodes.old.entries nodes.old.spots }
    requires meta { IsMeta key.meta }
    requires there { has_spot nodes.old.spots (place_of key) ≡ true }
    requires live { 3 ≤ key.meta.z → mark.clean ≡ true
        → lives_at nodes.old.spots (place_of key) (bit_of key) ≡ true }
    requires room { has_node nodes.old.entries key ≡ false → 1 ≤ nodes.old.room }
    ensures tree { IsTree nodes.new.entries nodes.new.spots }
    ensures marks { (k : Key) → mark_of (shown_of nodes.new.entries) k
        ≡ (if same_key key k then Some mark else mark_of (shown_of nodes.old.entries) k) }
    ensures there { (p : Key) → has_spot nodes.new.spots p ≡ has_spot nodes.old.spots p }
    ensures room { nodes.old.room ≤ nodes.new.room + 1 }
    ensures known { has_node nodes.old.entries key ≡ true → nodes.new.room ≡ nodes.old.room }
    ensures free { nodes.new.free ≡ nodes.old.free }
{
    let _before = nodes.len();
    nodes.give(key, mark);
    let _after = nodes.len();
}

/// Takes its mark from a key.
pub fn drop_mark(nodes: &mut Nodes, key: Key)
    requires { IsTree nodes.old.entries nodes.old.spots }
    ensures tree { IsTree nodes.new.entries nodes.new.spots }
    ensures marks { (k : Key) → mark_of (shown_of nodes.new.entries) k
        ≡ (if same_key key k then None else mark_of (shown_of nodes.old.entries) k) }
    ensures there { (p : Key) → has_spot nodes.new.spots p ≡ has_spot nodes.old.spots p }
    ensures room { nodes.new.room ≡ nodes.old.room }
    ensures free { nodes.new.free ≡ nodes.old.free }
{
    let _before = nodes.len();
    nodes.take(key);
    let _after = nodes.len();
}

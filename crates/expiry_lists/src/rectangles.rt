//! Marks in a rectangle at one zoom, found entry by entry of the table.
ghost use Rattle.std.specs.Prelude.{◌≡◌, ◌&&◌};
ghost use Rattle.std.specs.Map.{keys_of};
ghost use Rattle.farm_history.specs.Plans.{same_key};
ghost use Rattle.plain_world.specs.World.{IsMeta};
ghost use Rattle.expiry_lists.specs.Marks.{is_in_box};
ghost use Rattle.expiry_lists.specs.inner.Nodes.{IsTree};
ghost use Rattle.expiry_lists.specs.inner.Walks.{Walks};

use crate::boxes::comes_near;
use crate::nodes::Nodes;
use crate::places::mark_one_dirty;
use farm_history::Key;
use geo_model::Bounds;
use merc_fixed::meta_square;

// Whether the key is of that map and zoom, and the box holds a point of its square.
fn is_in_box(key: Key, map: u32, z: u32, b: Bounds) -> bool
    requires { IsMeta key.meta }
    ensures { result ≡ is_in_box map z b key }
{
    let near = comes_near(b, 0, meta_square(key.meta));
    map == key.map && key.meta.z == z && near
}

// Makes the key dirty where it is of that map and zoom and in the box, and counts what was clean: 0 or 1.
fn mark_key_dirty(nodes: &mut Nodes, key: Key, map: u32, z: u32, b: Bounds) -> u64
    requires meta { IsMeta key.meta }
    requires tree { IsTree nodes.old.entries nodes.old.spots }
    ensures walks { Walks (λ k. same_key key k && is_in_box map z b k)
        nodes.old nodes.new result }
    ensures keys { keys_of nodes.new.entries ≡ keys_of nodes.old.entries }
{
    if is_in_box(key, map, z, b) {
        mark_one_dirty(nodes, key)
    } else {
        0
    }
}

/// Makes the keys of that map and zoom dirty whose squares hold a point of the box, and counts what was clean.
pub fn mark_box_dirty(nodes: &mut Nodes, map: u32, z: u32, b: Bounds) -> u64
    requires { IsTree nodes.old.entries nodes.old.spots }
    ensures walks { Walks (is_in_box map z b) nodes.old nodes.new result }
{
    let mut count = 0;
    for i in 0..nodes.len() {
        let (key, _mark) = nodes.at(i);
        count += mark_key_dirty(nodes, key, map, z, b);
    }
    count
}

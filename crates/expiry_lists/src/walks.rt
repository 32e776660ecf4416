//! Walks over the quadtree of a group of maps: down from a place over the live spots, and up to the root, with a mask
//! of the maps that are meant.
ghost use Rattle.std.specs.Prelude.{◌≡◌, ◌<◌, ◌≤◌, ◌-◌, ◌&&◌, ◌+◌, ◌*◌, ◌==◌, ℕ, true, false, IsPermutation};
ghost use Rattle.std.specs.List.{list_any};
ghost use Rattle.farm_history.specs.Plans.{overlaps, same_key};
ghost use Rattle.plain_world.specs.World.{IsTile, IsTileSize};
ghost use Rattle.expiry_lists.specs.Marks.{is_of_map, some_meets, is_near_bits, is_near_boxes, is_near_zooms};
ghost use Rattle.expiry_lists.specs.inner.Nodes.{at_bits, bit_of, has_bit, lives_at, parent, place_of, IsTree};
ghost use Rattle.expiry_lists.specs.inner.Tiles.{world_key, is_flat, key_over, is_of_maps};
ghost use Rattle.expiry_lists.specs.inner.Walks.{child, under_bits, above_bits, IsNode, Walks};

use crate::boxes::{gather, margin_of, some_comes_near};
use crate::nodes::Nodes;
use crate::places::{is_live, mark_place_dirty, settle_place};
use farm_history::Key;
use geo_model::Bounds;
use merc_fixed::meta_square;
use plain_world::{Meta, Tile};

/// The zoom of the metatiles that have the whole world for their square and are above no others.
pub const ROOT_ZOOM: u32 = 3;

/// The last zoom.
const LAST_ZOOM: u32 = 18;

fn child(key: Key, j: u32) -> Key
    requires node { IsNode key }
    requires quarter { j < 4 }
    requires above { key.meta.z < 18 }
    ensures value { result ≡ child j key }
    ensures node { IsNode result }
{
    Key {
        map: key.map,
        meta: Meta {
            z: key.meta.z + 1,
            x: key.meta.x * 2 + 8 * (j % 2),
            y: key.meta.y * 2 + 8 * (j / 2),
        },
    }
}

/// The key whose square the key's square is a quarter of.
pub fn parent(key: Key) -> Key
    requires node { IsNode key }
    requires below { 3 < key.meta.z }
    ensures value { result ≡ parent key }
    ensures node { IsNode result }
{
    Key {
        map: key.map,
        meta: Meta {
            z: key.meta.z - 1,
            x: key.meta.x / 16 * 8,
            y: key.meta.y / 16 * 8,
        },
    }
}

/// Whether some key of the groups from zoom 3 on may be clean. No clause tells the answer: it chooses between two
/// ways to expire the whole world that both are exact, for their speed alone.
pub fn is_some_live(nodes: &Nodes, groups: &[u32]) -> bool {
    groups.iter().any(|group| is_live(nodes, world_key(*group, ROOT_ZOOM), u64::MAX))
}

/// Makes the key and all below it dirty, and counts what was clean. It goes down over live nodes alone,
/// and leaves none live.
pub fn mark_below_dirty(nodes: &mut Nodes, top: Key, mask: u64) -> u64
    requires node { IsNode top }
    requires tree { IsTree nodes.old.entries nodes.old.spots }
    ensures walks { Walks (under_bits (18 - top.meta.z) top mask) nodes.old nodes.new result }
    ensures quiet { (b : ℕ) → has_bit mask b ≡ true → lives_at nodes.new.spots top b ≡ false }
{
    let _count = nodes.len();
    if top.meta.z == LAST_ZOOM {
        return settle_place(nodes, top, mask);
    }
    if !is_live(nodes, top, mask) {
        return 0;
    }
    let first = mark_below_dirty(nodes, child(top, 0), mask);
    let second = mark_below_dirty(nodes, child(top, 1), mask);
    let third = mark_below_dirty(nodes, child(top, 2), mask);
    let fourth = mark_below_dirty(nodes, child(top, 3), mask);
    let own = settle_place(nodes, top, mask);
    first + second + third + fourth + own
}

/// Makes all keys above the key dirty, and counts what was clean.
pub fn mark_above_dirty(nodes: &mut Nodes, low: Key, mask: u64) -> u64
    requires node { IsNode low }
    requires tree { IsTree nodes.old.entries nodes.old.spots }
    ensures walks { Walks (above_bits (low.meta.z - 3) low mask) nodes.old nodes.new result }
{
    let _count = nodes.len();
    if low.meta.z == ROOT_ZOOM {
        return 0;
    }
    let up = parent(low);
    let above = mark_above_dirty(nodes, up, mask);
    above + mark_place_dirty(nodes, up, mask)
}

// Makes dirty the keys at or below the key that some of the boxes is near, each at its own zoom, and counts
// what was clean. It goes down over live nodes alone that some box is near, with the boxes that are: what no
// box is near has nothing below it that one is. The boxes end in another order.
#[cycle(boxes)]
fn mark_boxes_dirty(nodes: &mut Nodes, top: Key, mask: u64, size: u32, boxes: &mut [Bounds]) -> u64
    requires node { IsNode top }
    requires size { IsTileSize size }
    requires tree { IsTree nodes.old.entries nodes.old.spots }
    ensures walks { Walks (λ k. under_bits (18 - top.meta.z) top mask k && some_meets size boxes.old k)
        nodes.old nodes.new result }
    ensures moved { IsPermutation boxes.old boxes.new }
{
    let _count = nodes.len();
    let margin = margin_of(size, top.meta.z);
    let near = gather(boxes, margin, meta_square(top.meta));
    if near == 0 {
        return 0;
    }
    mark_near_dirty(nodes, top, mask, size, &mut boxes[..near])
}

#[cycle(boxes)]
fn mark_near_dirty(nodes: &mut Nodes, top: Key, mask: u64, size: u32, boxes: &mut [Bounds]) -> u64
    requires node { IsNode top }
    requires size { IsTileSize size }
    requires tree { IsTree nodes.old.entries nodes.old.spots }
    requires near { some_meets size boxes.old top ≡ true }
    ensures walks { Walks (λ k. under_bits (18 - top.meta.z) top mask k && some_meets size boxes.old k)
        nodes.old nodes.new result }
    ensures moved { IsPermutation boxes.old boxes.new }
{
    let _count = nodes.len();
    if top.meta.z == LAST_ZOOM {
        return mark_place_dirty(nodes, top, mask);
    }
    if !is_live(nodes, top, mask) {
        return 0;
    }
    let first = mark_boxes_dirty(nodes, child(top, 0), mask, size, boxes);
    let second = mark_boxes_dirty(nodes, child(top, 1), mask, size, boxes);
    let third = mark_boxes_dirty(nodes, child(top, 2), mask, size, boxes);
    let fourth = mark_boxes_dirty(nodes, child(top, 3), mask, size, boxes);
    let own = mark_place_dirty(nodes, top, mask);
    first + second + third + fourth + own
}

fn world_key(map: u32, z: u32) -> Key
    ensures { result ≡ world_key map z }
{
    let meta = Meta { z, x: 0, y: 0 };
    Key { map, meta }
}

fn key_over(map: u32, t: Tile) -> Key
    requires { IsTile t }
    ensures value { result ≡ key_over map t }
    ensures node { IsNode result }
{
    let meta = if t.z <= 15 {
        Meta {
            z: t.z + 3,
            x: t.x * 8,
            y: t.y * 8,
        }
    } else {
        Meta {
            z: 18,
            x: (t.x >> (t.z - 15)) * 8,
            y: (t.y >> (t.z - 15)) * 8,
        }
    };
    Key { map, meta }
}

// Makes the keys of zooms 0, 1 and 2 dirty of the maps of the mask, and counts what was clean.
fn mark_flat_dirty(nodes: &mut Nodes, group: u32, mask: u64) -> u64
    requires { IsTree nodes.old.entries nodes.old.spots }
    ensures walks { Walks (λ k. is_flat group (place_of k) && has_bit mask (bit_of k)) nodes.old nodes.new result }
{
    let _count = nodes.len();
    let first = mark_place_dirty(nodes, world_key(group, 0), mask);
    let second = mark_place_dirty(nodes, world_key(group, 1), mask);
    let third = mark_place_dirty(nodes, world_key(group, 2), mask);
    first + second + third
}

// Makes the group's keys dirty whose squares overlap the tile's, and counts what was clean.
fn mark_tile_dirty(nodes: &mut Nodes, group: u32, t: Tile) -> u64
    requires tile { IsTile t }
    requires tree { IsTree nodes.old.entries nodes.old.spots }
    ensures walks { Walks (λ k. is_of_map group (place_of k) && overlaps t k) nodes.old nodes.new result }
{
    let _count = nodes.len();
    let top = key_over(group, t);
    let flat = mark_flat_dirty(nodes, group, u64::MAX);
    let above = mark_above_dirty(nodes, top, u64::MAX);
    let below = mark_below_dirty(nodes, top, u64::MAX);
    flat + above + below
}

/// Makes the keys of these groups dirty whose squares overlap the tile's, and counts what was clean.
pub fn mark_groups_dirty(nodes: &mut Nodes, groups: &[u32], t: Tile) -> u64
    requires tile { IsTile t }
    requires tree { IsTree nodes.old.entries nodes.old.spots }
    ensures walks { Walks (λ k. is_of_maps groups.now (place_of k) && overlaps t k) nodes.old nodes.new result }
{
    let _count = nodes.len();
    let mut count = 0;
    for group in groups {
        count += mark_tile_dirty(nodes, *group, t);
    }
    count
}

/// Makes the map's keys dirty, and counts what was clean.
pub fn mark_map_dirty(nodes: &mut Nodes, map: u32) -> u64
    requires { IsTree nodes.old.entries nodes.old.spots }
    ensures walks { Walks (is_of_map map) nodes.old nodes.new result }
{
    let _count = nodes.len();
    let mask = 1 << (map % 64);
    let flat = mark_flat_dirty(nodes, map / 64, mask);
    let below = mark_below_dirty(nodes, world_key(map / 64, ROOT_ZOOM), mask);
    flat + below
}

// Makes the keys of that zoom, up to 2, dirty of the maps of the mask where some of the boxes is near the world, and
// counts what was clean.
fn mark_world_dirty(nodes: &mut Nodes, at: World, z: u32, size: u32, boxes: &[Bounds]) -> u64
    requires zoom { z ≤ 2 }
    requires size { IsTileSize size }
    requires tree { IsTree nodes.old.entries nodes.old.spots }
    ensures walks { Walks (λ k. at_bits (world_key at.group z) at.mask k && some_meets size boxes.now k)
        nodes.old nodes.new result }
{
    let place = world_key(at.group, z);
    let margin = margin_of(size, z);
    if some_comes_near(boxes, margin, meta_square(place.meta)) {
        mark_place_dirty(nodes, place, at.mask)
    } else {
        0
    }
}

/// Some maps of a group.
#[derive(Clone, Copy)]
pub struct World {
    pub group: u32,
    /// A bit for each that is meant.
    pub mask: u64,
}

/// Makes the keys of these maps dirty that some of the boxes is near, each at its own zoom, and counts what was clean.
/// The boxes end in another order.
pub fn mark_group_boxes_dirty(nodes: &mut Nodes, at: World, size: u32, boxes: &mut [Bounds]) -> u64
    requires size { IsTileSize size }
    requires tree { IsTree nodes.old.entries nodes.old.spots }
    ensures walks { Walks (λ k. (is_of_map at.group (place_of k) && has_bit at.mask (bit_of k)) && is_near_zooms size boxes.old k) nodes.old nodes.new result }
    ensures moved { IsPermutation boxes.old boxes.new }
{
    let _count = nodes.len();
    let first = mark_world_dirty(nodes, at, 0, size, boxes);
    let second = mark_world_dirty(nodes, at, 1, size, boxes);
    let third = mark_world_dirty(nodes, at, 2, size, boxes);
    let below = mark_boxes_dirty(nodes, world_key(at.group, ROOT_ZOOM), at.mask, size, boxes);
    first + second + third + below
}

/// Makes the keys of the first 64 maps dirty whose bits are in the mask, likewise.
pub fn mark_bits_boxes_dirty(nodes: &mut Nodes, mask: u64, size: u32, boxes: &mut [Bounds]) -> u64
    requires size { IsTileSize size }
    requires tree { IsTree nodes.old.entries nodes.old.spots }
    ensures walks { Walks (is_near_bits mask size boxes.old) nodes.old nodes.new result }
    ensures moved { IsPermutation boxes.old boxes.new }
{
    let at = World { group: 0, mask };
    mark_group_boxes_dirty(nodes, at, size, boxes)
}

/// Makes the map's keys dirty that some of the boxes is near, likewise.
pub fn mark_map_boxes_dirty(nodes: &mut Nodes, map: u32, size: u32, boxes: &mut [Bounds]) -> u64
    requires size { IsTileSize size }
    requires tree { IsTree nodes.old.entries nodes.old.spots }
    ensures walks { Walks (is_near_boxes map size boxes.old) nodes.old nodes.new result }
    ensures moved { IsPermutation boxes.old boxes.new }
{
    let mask = 1 << (map % 64);
    let at = World {
        group: map / 64,
        mask,
    };
    mark_group_boxes_dirty(nodes, at, size, boxes)
}

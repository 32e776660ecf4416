//! Marks: what is shown of metatiles, and whether it is clean.
ghost use Rattle.std.specs.Prelude.{◌≡◌, ◌≤◌, ◌<◌, ◌+◌, ◌%◌, ◌==◌, ◌↔◌, IsTrue, ℕ, [], Some, None, IsSome, IfOk, OnOk, option_map, if◌then◌else◌, true, false, vec_len, vec_capacity, IsPermutation};
ghost use Rattle.std.specs.List.{list_any};
ghost use Rattle.farm_history.specs.declared.keys.Key.{Key};
ghost use Rattle.farm_history.specs.Plans.{same_key, overlaps, AreApart};
ghost use Rattle.farm_history.specs.Replays.{are_rising, kept_of, kept_version};
ghost use Rattle.plain_world.specs.World.{IsMeta, IsTile, IsTileSize};
ghost use Rattle.expiry_lists.specs.inner.Nodes.{has_bit};
ghost use Rattle.expiry_lists.specs.Marks.{shown_key, mark_of, dirtied_marks, clean_marks, is_of_map, is_near_boxes, is_near_bits, is_in_box, rectangle, clean_version, InBox};

use crate::keeping::{clean_entries, sort_by_key};
use crate::nodes::Nodes;
use crate::places::{mark_one_dirty, settle_all};
use crate::rectangles::mark_box_dirty;
use crate::waking::{drop_mark, put_mark, wake};
use crate::walks::{
    is_some_live, mark_bits_boxes_dirty, mark_groups_dirty, mark_map_boxes_dirty, mark_map_dirty,
};
use farm_base::NoMemory;
use farm_history::{Kept, Key, Mark};
use geo_model::Bounds;
use plain_world::Tile;
use std::alloc::Global;
use std::marker::Model;

/// What is shown of metatiles, each with its data version and whether it is clean, in a quadtree for
/// each group of 64 maps.
#[derive(Drop)]
pub struct Marks {
    nodes: Nodes,
    /// The groups of maps that have spots.
    groups: Vec<u32>,
}

impl Model for Marks {
    ghost use Rattle.std.specs.Prelude.{◌/◌, ◌-◌, min, vec_len, vec_capacity};
    ghost use Rattle.expiry_lists.specs.inner.Nodes.{has_bit};
    ghost use Rattle.expiry_lists.specs.Marks.{MarksSeen};
    ghost use Rattle.expiry_lists.specs.inner.Nodes.{shown_of};
    ghost use Rattle.expiry_lists.specs.inner.Keeping.{IsKept};

    ghost Value = { MarksSeen };

    ghost view = { λ m. record { shown = shown_of m.nodes.entries; room = min m.nodes.room (min (m.nodes.free / 16) (vec_capacity m.groups - vec_len m.groups)) } };

    ghost invariant = { λ m. IsKept m.groups.items m.nodes };
}

/// How many spots a key may need.
const PATH: usize = 16;

impl Marks {
    /// Nothing is shown.
    pub fn new(alloc: Global) -> Marks
        ensures { result.shown ≡ [] }
    {
        Marks {
            nodes: Nodes::new(alloc),
            groups: Vec::new(alloc),
        }
    }

    /// Makes room to show one key more.
    pub fn reserve_one(&mut self) -> Result<(), NoMemory>
        ensures shown { self.new.shown ≡ self.old.shown }
        ensures room { self.old.room ≤ self.new.room }
        ensures reserved { OnOk result (1 ≤ self.new.room) }
    {
        self.nodes.reserve(PATH)?;
        self.groups.reserve(1)?;
        Ok(())
    }

    /// The mark of a key; `None` exactly where it is not shown.
    pub fn of(&self, key: Key) -> Option<Mark>
        ensures { result ≡ mark_of self.now.shown key }
    {
        self.nodes.mark_of(key)
    }

    /// Shows a key with that version, clean or dirty, in place of what was shown of it. It takes no memory: a
    /// key that is not shown yet takes a place of those reserved.
    pub fn show(&mut self, key: Key, version: u64, clean: bool)
        requires meta { IsMeta key.meta }
        requires place { mark_of self.old.shown key ≡ None → 1 ≤ self.old.room }
        ensures marks { (k : Key) → mark_of self.new.shown k ≡ (if same_key key k
            then Some (record { version = version; clean = clean }) else mark_of self.old.shown k) }
        ensures room { self.old.room ≤ self.new.room + 1 }
        ensures free { IsSome (mark_of self.old.shown key) → self.new.room ≡ self.old.room }
    {
        let _count = self.nodes.len();
        let place = Key {
            map: key.map / 64,
            meta: key.meta,
        };
        let mask = clean_bit(key.map, clean);
        add_group(&mut self.groups, place.map);
        wake(&mut self.nodes, place, mask);
        put_mark(&mut self.nodes, key, Mark { version, clean });
    }

    /// Shows nothing of a key.
    pub fn hide(&mut self, key: Key)
        ensures marks { (k : Key) → mark_of self.new.shown k
            ≡ (if same_key key k then None else mark_of self.old.shown k) }
        ensures room { self.new.room ≡ self.old.room }
    {
        drop_mark(&mut self.nodes, key);
    }

    /// Makes dirty what overlaps the tile, on every map and zoom, and counts what was clean of it.
    pub fn expire(&mut self, t: Tile) -> u64
        requires { IsTile t }
        ensures shown { self.new.shown ≡ dirtied_marks (overlaps t) self.old.shown }
        ensures count { result ≡ clean_marks (overlaps t) self.old.shown }
        ensures apart { AreApart shown_key self.old.shown }
        ensures room { self.new.room ≡ self.old.room }
    {
        let _count = self.nodes.len();
        // A tile of zoom 0 overlaps all: a pass over the table takes a small part of the time of a walk.
        if t.z == 0 && is_some_live(&self.nodes, &self.groups) {
            return settle_all(&mut self.nodes);
        }
        mark_groups_dirty(&mut self.nodes, &self.groups, t)
    }

    /// Makes dirty what is shown of the map, and counts what was clean of it.
    pub fn expire_map(&mut self, map: u32) -> u64
        ensures shown { self.new.shown ≡ dirtied_marks (is_of_map map) self.old.shown }
        ensures count { result ≡ clean_marks (is_of_map map) self.old.shown }
        ensures apart { AreApart shown_key self.old.shown }
        ensures room { self.new.room ≡ self.old.room }
    {
        let _count = self.nodes.len();
        mark_map_dirty(&mut self.nodes, map)
    }

    /// Makes dirty what is shown of the map where the metatile's square holds a point of some box, widened by 64
    /// pixels of tiles of `size` by `size` pixels at the metatile's zoom, and counts what was clean of it. The
    /// boxes end in another order.
    pub fn expire_boxes(&mut self, map: u32, size: u32, boxes: &mut [Bounds]) -> u64
        requires { IsTileSize size }
        ensures shown { self.new.shown ≡ dirtied_marks (is_near_boxes map size boxes.old) self.old.shown }
        ensures count { result ≡ clean_marks (is_near_boxes map size boxes.old) self.old.shown }
        ensures moved { IsPermutation boxes.old boxes.new }
        ensures apart { AreApart shown_key self.old.shown }
        ensures room { self.new.room ≡ self.old.room }
    {
        let _count = self.nodes.len();
        mark_map_boxes_dirty(&mut self.nodes, map, size, boxes)
    }

    /// The same for those of the first 64 maps whose bits are in the word, in one walk.
    pub fn expire_bits_boxes(&mut self, word: u64, size: u32, boxes: &mut [Bounds]) -> u64
        requires { IsTileSize size }
        ensures shown { self.new.shown ≡ dirtied_marks (is_near_bits word size boxes.old) self.old.shown }
        ensures count { result ≡ clean_marks (is_near_bits word size boxes.old) self.old.shown }
        ensures moved { IsPermutation boxes.old boxes.new }
        ensures apart { AreApart shown_key self.old.shown }
        ensures room { self.new.room ≡ self.old.room }
    {
        let _count = self.nodes.len();
        mark_bits_boxes_dirty(&mut self.nodes, word, size, boxes)
    }

    /// Makes dirty what is shown of the map at zoom `z` where the metatile's square holds a point of the
    /// rectangle, whose edges belong to it, and counts what was clean of it. It goes over all that is shown.
    pub fn expire_box(
        &mut self,
        map: u32,
        z: u32,
        west: u32,
        north: u32,
        east: u32,
        south: u32,
    ) -> u64
        requires zoom { z ≤ 18 }
        requires across { west ≤ east }
        requires down { north ≤ south }
        ensures shown { let b = rectangle west north east south in
            self.new.shown ≡ dirtied_marks (is_in_box map z b) self.old.shown }
        ensures count { let b = rectangle west north east south in
            result ≡ clean_marks (is_in_box map z b) self.old.shown }
        ensures meaning { (k : Key) → let b = rectangle west north east south in
            IsTrue (is_in_box map z b k) ↔ InBox map z b k }
        ensures apart { AreApart shown_key self.old.shown }
        ensures room { self.new.room ≡ self.old.room }
    {
        let _count = self.nodes.len();
        let b = Bounds {
            west,
            north,
            east,
            south,
        };
        mark_box_dirty(&mut self.nodes, map, z, b)
    }

    /// Makes a key dirty, where it is shown.
    pub fn expire_one(&mut self, key: Key)
        ensures shown { self.new.shown ≡ dirtied_marks (same_key key) self.old.shown }
        ensures apart { AreApart shown_key self.old.shown }
        ensures room { self.new.room ≡ self.old.room }
    {
        let _count = self.nodes.len();
        let _count = mark_one_dirty(&mut self.nodes, key);
    }

    /// No key is shown twice.
    pub fn law_apart(&self)
        ensures { AreApart shown_key self.now.shown }
    {
        let _count = self.nodes.len();
    }

    /// What is clean, with its versions, by map, zoom, column and row.
    pub fn kept(&self, alloc: Global) -> Result<Vec<Kept>, NoMemory>
        ensures clean { IfOk result (λ v. (k : Key) → option_map kept_version (kept_of v.items k)
            ≡ clean_version (mark_of self.now.shown k)) }
        ensures rising { IfOk result (λ v. are_rising v.items ≡ true) }
        ensures apart { AreApart shown_key self.now.shown }
    {
        let _count = self.nodes.len();
        let mut kept = clean_entries(alloc, &self.nodes)?;
        sort_by_key(&mut kept);
        Ok(kept)
    }
}

fn clean_bit(map: u32, clean: bool) -> u64
    ensures { clean ≡ true → has_bit result (map % 64) ≡ true }
{
    if clean { 1 << (map % 64) } else { 0 }
}

fn lists(maps: &[u32], map: u32) -> bool
    ensures { result ≡ list_any (λ m. m == map) maps.now }
{
    maps.iter().any(|m| *m == map)
}

fn add_group(maps: &mut Vec<u32>, map: u32)
    requires { list_any (λ m. m == map) maps.old.items ≡ false
        → vec_len maps.old < vec_capacity maps.old }
    ensures added { list_any (λ m. m == map) maps.new.items ≡ true }
    ensures others { (m : ℕ) → list_any (λ n. n == m) maps.old.items ≡ true
        → list_any (λ n. n == m) maps.new.items ≡ true }
    ensures room { vec_capacity maps.new ≡ vec_capacity maps.old }
    ensures len { vec_len maps.new ≤ vec_len maps.old + 1 }
    ensures free { list_any (λ m. m == map) maps.old.items ≡ true → maps.new ≡ maps.old }
{
    if !lists(maps, map) {
        maps.push_reserved(map);
    }
}

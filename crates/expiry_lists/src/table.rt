//! The tables of versions and of spots: each with its key, in the order in which they came.
ghost use Rattle.std.specs.Prelude.{◌≡◌, ◌+◌, ◌<◌, ◌≤◌, ◌^◌, [], ◌∷◌, ◌++◌, length, slice_get, position, option_map, Some, None, OnOk};
ghost use Rattle.std.specs.List.{IsDistinct};
ghost use Rattle.std.specs.Map.{keys_of};
ghost use Rattle.indexmap.specs.IndexMap.{set_value_at};
ghost use Rattle.farm_history.specs.Plans.{same_key};
ghost use Rattle.expiry_lists.specs.inner.Nodes.{spot_of, version_of};

use crate::hashing::KeyHashing;
use farm_base::NoMemory;
use farm_history::Key;
use indexmap::IndexMap;
use std::alloc::Global;
use std::marker::Model;

/// What is kept of a place for the 64 maps of a group: a bit for each whose key there is clean, and one for each that
/// may have a clean key there or below.
#[derive(Clone, Copy)]
pub struct Spot {
    pub own: u64,
    pub live: u64,
}

/// The versions by their keys, without one where nothing is shown any more, and the spots by theirs. Each keeps its
/// place.
#[derive(Drop)]
pub struct Tables {
    versions: IndexMap<Key, Option<u64>, KeyHashing>,
    spots: IndexMap<Key, Spot, KeyHashing>,
}

impl Model for Tables {
    ghost use Rattle.indexmap.specs.IndexMap.{spare};
    ghost use Rattle.expiry_lists.specs.inner.Nodes.{TablesSeen};

    ghost Value = { TablesSeen };

    ghost view = { λ t. record { versions = t.versions.entries; spots = t.spots.entries; room = spare t.versions; free = spare t.spots } };
}

impl Tables {
    /// No versions and no spots.
    pub fn new(alloc: Global) -> Tables
        ensures versions { result.versions ≡ [] }
        ensures spots { result.spots ≡ [] }
    {
        Tables {
            versions: IndexMap::with_hasher(alloc, KeyHashing),
            spots: IndexMap::with_hasher(alloc, KeyHashing),
        }
    }

    /// Makes room for one version and so many spots more.
    pub fn reserve(&mut self, spots: usize) -> Result<(), NoMemory>
        ensures versions { self.new.versions ≡ self.old.versions }
        ensures spots { self.new.spots ≡ self.old.spots }
        ensures room { self.old.room ≤ self.new.room }
        ensures free { self.old.free ≤ self.new.free }
        ensures reserved { OnOk result ((1 ≤ self.new.room) × (spots ≤ self.new.free)) }
    {
        self.versions.reserve(1)?;
        self.spots.reserve(spots)?;
        Ok(())
    }

    /// How many keys there are; no two are one.
    pub fn len(&self) -> usize
        ensures len { result ≡ length self.now.versions }
        ensures small { result < 2 ^ 64 }
        ensures unique { IsDistinct same_key (keys_of self.now.versions) }
    {
        self.versions.len()
    }

    /// How many spots there are; no two have one key.
    pub fn spots(&self) -> usize
        ensures len { result ≡ length self.now.spots }
        ensures unique { IsDistinct same_key (keys_of self.now.spots) }
    {
        self.spots.len()
    }

    /// The key at a place with its version.
    pub fn at(&self, place: usize) -> (Key, Option<u64>)
        requires { place < length self.now.versions }
        ensures { slice_get self.now.versions place ≡ Some result }
    {
        let (key, version) = self.versions.get_index(place).unwrap();
        (*key, *version)
    }

    /// The version of a key.
    pub fn version(&self, key: Key) -> Option<Option<u64>>
        ensures { result ≡ version_of self.now.versions key }
    {
        self.versions.get(&key).copied()
    }

    /// The place and the version of a key.
    pub fn find(&self, key: Key) -> Option<(usize, Option<u64>)>
        ensures place { option_map (λ f. f.0) result ≡ position (same_key key) (keys_of self.now.versions) }
        ensures version { option_map (λ f. f.1) result ≡ version_of self.now.versions key }
    {
        let (place, _, version) = self.versions.get_full(&key)?;
        Some((place, *version))
    }

    /// Puts another version at a place, where there is one.
    pub fn put_at(&mut self, place: usize, version: Option<u64>)
        ensures versions { self.new.versions ≡ set_value_at self.old.versions place version }
        ensures spots { self.new.spots ≡ self.old.spots }
        ensures room { self.new.room ≡ self.old.room }
        ensures free { self.new.free ≡ self.old.free }
    {
        if let Some(there) = self.versions.get_index_mut(place) {
            *there = version;
        }
    }

    /// Adds the version of a key that has none, in the room that was made for it.
    pub fn add(&mut self, key: Key, version: Option<u64>)
        requires absent { version_of self.old.versions key ≡ None }
        requires room { 1 ≤ self.old.room }
        ensures versions { self.new.versions ≡ self.old.versions ++ (key, version) ∷ [] }
        ensures spots { self.new.spots ≡ self.old.spots }
        ensures room { self.old.room ≤ self.new.room + 1 }
        ensures free { self.new.free ≡ self.old.free }
    {
        self.versions.insert(key, version).unwrap();
    }

    /// The spot at a place, with its key.
    pub fn spot_at(&self, place: usize) -> (Key, Spot)
        requires { place < length self.now.spots }
        ensures { slice_get self.now.spots place ≡ Some result }
    {
        let (key, spot) = self.spots.get_index(place).unwrap();
        (*key, *spot)
    }

    /// The place and the spot of a key.
    pub fn find_spot(&self, key: Key) -> Option<(usize, Spot)>
        ensures place { option_map (λ f. f.0) result ≡ position (same_key key) (keys_of self.now.spots) }
        ensures spot { option_map (λ f. f.1) result ≡ spot_of self.now.spots key }
    {
        let (place, _, spot) = self.spots.get_full(&key)?;
        Some((place, *spot))
    }

    /// The spot of a key.
    pub fn spot(&self, key: Key) -> Option<Spot>
        ensures { result ≡ spot_of self.now.spots key }
    {
        self.spots.get(&key).copied()
    }

    /// Puts another spot at a place, where there is one.
    pub fn put_spot_at(&mut self, place: usize, spot: Spot)
        ensures versions { self.new.versions ≡ self.old.versions }
        ensures spots { self.new.spots ≡ set_value_at self.old.spots place spot }
        ensures room { self.new.room ≡ self.old.room }
        ensures free { self.new.free ≡ self.old.free }
    {
        if let Some(there) = self.spots.get_index_mut(place) {
            *there = spot;
        }
    }

    /// Adds the spot of a key that has none, in the room that was made for it.
    pub fn add_spot(&mut self, key: Key, spot: Spot)
        requires absent { spot_of self.old.spots key ≡ None }
        requires free { 1 ≤ self.old.free }
        ensures versions { self.new.versions ≡ self.old.versions }
        ensures spots { self.new.spots ≡ self.old.spots ++ (key, spot) ∷ [] }
        ensures room { self.new.room ≡ self.old.room }
        ensures free { self.old.free ≤ self.new.free + 1 }
    {
        self.spots.insert(key, spot).unwrap();
    }
}

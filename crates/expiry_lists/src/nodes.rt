//! The nodes and the spots that marks are kept in: what a table of versions and one of spots say together.
ghost use Rattle.std.specs.Prelude.{◌≡◌, ◌^◌, ◌+◌, ◌<◌, ◌≤◌, ◌∷◌, ◌++◌, [], length, position, slice_get, option_map, bit_and, bit_or, OnOk, Option, Some, None, if◌then◌else◌, true, false};
ghost use Rattle.std.specs.Int.{bit_not, w64};
ghost use Rattle.std.specs.List.{IsDistinct};
ghost use Rattle.std.specs.Map.{keys_of, set_value};
ghost use Rattle.farm_history.specs.Plans.{same_key};
ghost use Rattle.farm_history.specs.declared.keys.Key.{Key};
ghost use Rattle.expiry_lists.specs.inner.Nodes.{at_bits, bit_of, has_node, has_spot, is_clean_at, node_of, node_mark, owns_at, place_of, seen_mark, shown_of, spot_of, version_of, Gives, Owns};
ghost use Rattle.expiry_lists.specs.inner.Walks.{Dirties};

use crate::table::{Spot, Tables};
use farm_base::NoMemory;
use farm_history::{Key, Mark};
use std::alloc::Global;
use std::marker::Model;

/// A node for each key that was shown, and a spot for each place.
#[derive(Drop)]
pub struct Nodes {
    tables: Tables,
}

impl Model for Nodes {
    ghost use Rattle.expiry_lists.specs.inner.Nodes.{NodeTable, seen_nodes, AreOwned};

    ghost Value = { NodeTable };

    ghost view = { λ n. record { entries = seen_nodes n.tables.spots n.tables.versions; spots = n.tables.spots; room = n.tables.room; free = n.tables.free } };

    ghost invariant = { λ n. AreOwned (seen_nodes n.tables.spots n.tables.versions) n.tables.spots };
}

/// The place of a key, for its group of 64 maps.
pub fn place_of(key: Key) -> Key
    ensures { result ≡ place_of key }
{
    Key {
        map: key.map / 64,
        meta: key.meta,
    }
}

/// The bit of a key's map in the words of its group.
pub fn bit_of(key: Key) -> u64
    ensures { result ≡ 2 ^ bit_of key }
{
    1 << (key.map % 64)
}

// Whether the key's map has its bit among its place's own.
fn owns(tables: &Tables, key: Key) -> bool
    ensures { result ≡ owns_at tables.now.spots (place_of key) (bit_of key) }
{
    match tables.spot(place_of(key)) {
        Some(spot) => spot.own >> (key.map % 64) & 1 != 0,
        None => false,
    }
}

// A word with one bit set or cleared.
fn with_bit(word: u64, bit: u64, set: bool) -> u64
    ensures { result ≡ (if set then bit_or word bit else bit_and word (bit_not w64 bit)) }
{
    if set { word | bit } else { word & !bit }
}

// Sets the key's bit among its place's own, which has a spot then, or clears it.
fn set_own(tables: &mut Tables, key: Key, clean: bool)
    requires { clean ≡ true → has_spot tables.old.spots (place_of key) ≡ true }
    ensures versions { tables.new.versions ≡ tables.old.versions }
    ensures owns { Owns key clean tables.old.spots tables.new.spots }
    ensures room { tables.new.room ≡ tables.old.room }
    ensures free { tables.new.free ≡ tables.old.free }
{
    let Some((at, spot)) = tables.find_spot(place_of(key)) else {
        return;
    };
    let own = with_bit(spot.own, bit_of(key), clean);
    tables.put_spot_at(at, Spot { own, ..spot });
}

// Gives a key that version, in the room that was made for it where it has none.
fn set_version(tables: &mut Tables, key: Key, version: u64)
    requires { version_of tables.old.versions key ≡ None → 1 ≤ tables.old.room }
    ensures versions { (k : Key) → version_of tables.new.versions k
        ≡ (if same_key key k then Some (Some version) else version_of tables.old.versions k) }
    ensures spots { tables.new.spots ≡ tables.old.spots }
    ensures room { tables.old.room ≤ tables.new.room + 1 }
    ensures known { (version_of tables.old.versions key ≡ None → false ≡ true) → tables.new.room ≡ tables.old.room }
    ensures free { tables.new.free ≡ tables.old.free }
{
    match tables.find(key) {
        Some((place, _)) => tables.put_at(place, Some(version)),
        None => tables.add(key, Some(version)),
    }
}

// Takes its version from a key.
fn drop_version(tables: &mut Tables, key: Key)
    ensures versions { (k : Key) → version_of tables.new.versions k
        ≡ (if same_key key k then option_map (λ v. None) (version_of tables.old.versions k)
        else version_of tables.old.versions k) }
    ensures spots { tables.new.spots ≡ tables.old.spots }
    ensures room { tables.new.room ≡ tables.old.room }
    ensures free { tables.new.free ≡ tables.old.free }
{
    if let Some((place, _)) = tables.find(key) {
        tables.put_at(place, None);
    }
}

impl Nodes {
    /// No nodes and no spots.
    pub fn new(alloc: Global) -> Nodes
        ensures entries { result.entries ≡ [] }
        ensures spots { result.spots ≡ [] }
    {
        Nodes {
            tables: Tables::new(alloc),
        }
    }

    /// Makes room for one node and so many spots more.
    pub fn reserve(&mut self, spots: usize) -> Result<(), NoMemory>
        ensures entries { self.new.entries ≡ self.old.entries }
        ensures spots { self.new.spots ≡ self.old.spots }
        ensures room { self.old.room ≤ self.new.room }
        ensures free { self.old.free ≤ self.new.free }
        ensures reserved { OnOk result ((1 ≤ self.new.room) × (spots ≤ self.new.free)) }
    {
        self.tables.reserve(spots)
    }

    /// How many nodes there are; no two have one key.
    pub fn len(&self) -> usize
        ensures len { result ≡ length self.now.entries }
        ensures small { result < 2 ^ 64 }
        ensures unique { IsDistinct same_key (keys_of self.now.entries) }
    {
        self.tables.len()
    }

    /// How many spots there are; no two have one key.
    pub fn spots(&self) -> usize
        ensures len { result ≡ length self.now.spots }
        ensures unique { IsDistinct same_key (keys_of self.now.spots) }
    {
        self.tables.spots()
    }

    /// The spot at a place, with its key.
    pub fn spot_at(&self, place: usize) -> (Key, Spot)
        requires { place < length self.now.spots }
        ensures { slice_get self.now.spots place ≡ Some result }
    {
        self.tables.spot_at(place)
    }

    /// The key at a place with its mark.
    pub fn at(&self, place: usize) -> (Key, Option<Mark>)
        requires { place < length self.now.entries }
        ensures { slice_get self.now.entries place ≡ Some (result.0, record { mark = result.1 }) }
    {
        let (key, version) = self.tables.at(place);
        (key, seen(&self.tables, key, version))
    }

    /// The mark of a key; no two nodes have one key.
    pub fn mark_of(&self, key: Key) -> Option<Mark>
        ensures mark { result ≡ node_mark (node_of self.now.entries key) }
        ensures unique { IsDistinct same_key (keys_of self.now.entries) }
    {
        let _count = self.tables.len();
        match self.tables.version(key) {
            Some(version) => seen(&self.tables, key, version),
            None => None,
        }
    }

    /// The spot of a place.
    pub fn spot(&self, place: Key) -> Option<Spot>
        ensures { result ≡ spot_of self.now.spots place }
    {
        self.tables.spot(place)
    }

    /// The spot of a place, with where it stands.
    pub fn find_spot(&self, place: Key) -> Option<(usize, Spot)>
        ensures place { option_map (λ f. f.0) result ≡ position (same_key place) (keys_of self.now.spots) }
        ensures spot { option_map (λ f. f.1) result ≡ spot_of self.now.spots place }
    {
        self.tables.find_spot(place)
    }

    /// Adds the spot of a place that has none, with these live bits, in the room that was made for it.
    pub fn add_spot(&mut self, place: Key, live: u64)
        requires absent { spot_of self.old.spots place ≡ None }
        requires free { 1 ≤ self.old.free }
        ensures entries { self.new.entries ≡ self.old.entries }
        ensures spots { self.new.spots ≡ self.old.spots ++ (place, record { own = 0; live = live }) ∷ [] }
        ensures room { self.new.room ≡ self.old.room }
        ensures free { self.old.free ≤ self.new.free + 1 }
    {
        self.tables.add_spot(place, Spot { own: 0, live });
    }

    /// Gives the spot of a place, which stands there, other live bits.
    pub fn put_live(&mut self, at: usize, place: Key, spot: Spot, live: u64)
        requires at { position (same_key place) (keys_of self.old.spots) ≡ Some at }
        requires found { spot_of self.old.spots place ≡ Some spot }
        ensures entries { self.new.entries ≡ self.old.entries }
        ensures spots { self.new.spots
            ≡ set_value (same_key place) self.old.spots (record spot { live = live }) }
        ensures room { self.new.room ≡ self.old.room }
        ensures free { self.new.free ≡ self.old.free }
    {
        self.tables.put_spot_at(at, Spot { live, ..spot });
    }

    /// Makes the keys at a place dirty of the maps of the mask, and counts what was clean. Their bits are taken from the
    /// own ones of its spot, which stands there.
    pub fn take_own(&mut self, at: usize, place: Key, spot: Spot, mask: u64) -> u64
        requires at { position (same_key place) (keys_of self.old.spots) ≡ Some at }
        requires found { spot_of self.old.spots place ≡ Some spot }
        ensures dirties { Dirties (at_bits place mask) (shown_of self.old.entries)
            (shown_of self.new.entries) result }
        ensures keys { keys_of self.new.entries ≡ keys_of self.old.entries }
        ensures spots { self.new.spots ≡ set_value (same_key place) self.old.spots
            (record spot { own = bit_and spot.own (bit_not w64 mask) }) }
        ensures room { self.new.room ≡ self.old.room }
        ensures free { self.new.free ≡ self.old.free }
    {
        let _count = self.tables.len();
        let count = (spot.own & mask).count_ones();
        let own = spot.own & !mask;
        self.tables.put_spot_at(at, Spot { own, ..spot });
        u64::from(count)
    }

    /// Gives a key whose place has a spot that mark, in the room that was made for it where it has no node.
    pub fn give(&mut self, key: Key, mark: Mark)
        requires there { has_spot self.old.spots (place_of key) ≡ true }
        requires room { has_node self.old.entries key ≡ false → 1 ≤ self.old.room }
        ensures nodes { Gives key (Some (record { mark = Some mark })) self.old.entries self.new.entries }
        ensures owns { Owns key mark.clean self.old.spots self.new.spots }
        ensures own { (k : Key) → is_clean_at self.new.entries k ≡ true
            → owns_at self.new.spots (place_of k) (bit_of k) ≡ true }
        ensures room { self.old.room ≤ self.new.room + 1 }
        ensures known { has_node self.old.entries key ≡ true → self.new.room ≡ self.old.room }
        ensures free { self.new.free ≡ self.old.free }
    {
        set_own(&mut self.tables, key, mark.clean);
        set_version(&mut self.tables, key, mark.version);
    }

    /// Takes its mark from a key.
    pub fn take(&mut self, key: Key)
        ensures nodes { Gives key (option_map (λ n. record { mark = None }) (node_of self.old.entries key))
            self.old.entries self.new.entries }
        ensures owns { Owns key false self.old.spots self.new.spots }
        ensures own { (k : Key) → is_clean_at self.new.entries k ≡ true
            → owns_at self.new.spots (place_of k) (bit_of k) ≡ true }
        ensures room { self.new.room ≡ self.old.room }
        ensures free { self.new.free ≡ self.old.free }
    {
        set_own(&mut self.tables, key, false);
        drop_version(&mut self.tables, key);
    }
}

// The mark of a key that has that version.
fn seen(tables: &Tables, key: Key, version: Option<u64>) -> Option<Mark>
    ensures { result ≡ seen_mark tables.now.spots key version }
{
    match version {
        Some(version) => Some(Mark {
            version,
            clean: owns(tables, key),
        }),
        None => None,
    }
}

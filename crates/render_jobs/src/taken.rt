//! The drawings under way.
ghost use Rattle.std.specs.Prelude.{◌≡◌, ◌&&◌, ◌||◌, ◌==◌, not, map as map_list, filter, find};
ghost use Rattle.std.specs.List.{list_any};
ghost use Rattle.std.specs.Vec.{vec_capacity};
ghost use Rattle.plain_world.specs.World.{IsMeta, IsTile};
ghost use Rattle.farm_history.specs.Lists.{Each};
ghost use Rattle.farm_history.specs.Plans.{same_key};
ghost use Rattle.farm_history.specs.Plans as plans;
ghost use Rattle.expiry_lists.specs.Marks.{is_of_map};
ghost use Rattle.farm_history.specs.Seen.{overtaken_by};

use farm_history::Key;
use merc_fixed::{meta_square, overlaps, tile_square};
use plain_world::Tile;
use std::marker::Model;

/// A drawing under way: its ticket, its metatile, the data version at its claim, and whether something has
/// touched the metatile since.
#[derive(Clone, Copy, Drop)]
pub struct Taken {
    pub ticket: u64,
    pub key: Key,
    pub version: u64,
    pub touched: bool,
}

impl Model for Taken {
    ghost use Rattle.farm_history.specs.Seen.{Taken};

    ghost Value = { Taken };

    ghost view = { λ t. record {
      ticket = t.ticket;
      key = t.key;
      version = t.version;
      touched = t.touched;
    } };

    ghost inverse = { λ t. record { ticket = t.ticket; key = t.key; version = t.version; touched = t.touched } };
}

/// The drawing of the ticket.
pub fn taken_of(taken: &[Taken], ticket: u64) -> Option<Taken>
    ensures { result ≡ find (λ t. t.ticket == ticket) taken.now }
{
    for one in taken {
        if one.ticket == ticket {
            return Some(*one);
        }
    }
    None
}

/// Whether the metatile is being drawn, and was touched since that drawing's claim.
pub fn is_overtaken(taken: &[Taken], key: Key) -> bool
    ensures { result ≡ list_any (λ t. same_key t.key key && t.touched) taken.now }
{
    taken.iter().any(|one| one.key == key && one.touched)
}

/// The drawing of the ticket is over.
pub fn drop_taken(taken: &mut Vec<Taken>, ticket: u64)
    ensures items { taken.new.items ≡ filter (λ t. not (t.ticket == ticket)) taken.old.items }
    ensures capacity { vec_capacity taken.new ≡ vec_capacity taken.old }
{
    taken.retain(|one| one.ticket != ticket);
}

/// The drawing, which something touches where that is said.
pub fn overtaken(one: Taken, meets: bool) -> Taken
    ensures { result ≡ record {
      ticket = one.ticket;
      key = one.key;
      version = one.version;
      touched = meets || one.touched;
    } }
{
    Taken {
        ticket: one.ticket,
        key: one.key,
        version: one.version,
        touched: meets || one.touched,
    }
}

/// Notes that the metatile was touched.
pub fn touch_key(taken: &mut [Taken], key: Key)
    ensures { taken.new ≡ map_list (overtaken_by (λ k. same_key key k)) taken.old }
{
    for one in taken.iter_mut() {
        *one = overtaken(*one, key == one.key);
    }
}

#[tactic(auto, unfolding(farm_history::specs::Plans::overlaps))]
fn meets(tile: Tile, key: Key) -> bool
    requires tile { IsTile tile }
    requires key { IsMeta key.meta }
    ensures { result ≡ plans.overlaps tile key }
{
    overlaps(tile_square(tile), meta_square(key.meta))
}

/// Notes that the metatiles that the tile overlaps were touched.
pub fn touch_tile(taken: &mut [Taken], tile: Tile)
    requires tile { IsTile tile }
    requires keys { Each (λ t. IsMeta t.key.meta) taken.old }
    ensures { taken.new ≡ map_list (overtaken_by (plans.overlaps tile)) taken.old }
{
    for one in taken.iter_mut() {
        *one = overtaken(*one, meets(tile, one.key));
    }
}

/// Notes that the metatiles of the map were touched.
pub fn touch_map(taken: &mut [Taken], map: u32)
    ensures { taken.new ≡ map_list (overtaken_by (is_of_map map)) taken.old }
{
    for one in taken.iter_mut() {
        *one = overtaken(*one, map == one.key.map);
    }
}

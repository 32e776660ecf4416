//! Expiries and changes of style: what they touch.
ghost use Rattle.std.specs.Prelude.{◌≡◌, ◌<◌, ◌^◌, Bool, List, ◌∷◌, length, slice_get, option_map, IfSome};
ghost use Rattle.farm_history.specs.Entries.{Entry, Expire, Restyle};
ghost use Rattle.farm_core.specs.Answers.{Lasts};
ghost use Rattle.farm_refinement.specs.Stands.{StandsFor};
ghost use Rattle.plain_world.specs.World.{IsTile};
ghost use Rattle.farm_history.specs.Plans.{overlaps};
ghost use Rattle.expiry_lists.specs.Marks.{is_of_map};
ghost use Rattle.farm_core.specs.inner.Effects.{Dirties};

use crate::farm::Farm;
use farm_plan::Restyled;
use plain_world::Tile;
use render_jobs::{touch_map, touch_tile};
use tile_store::TileStore;

impl<D> Farm<D> {
    fn mark_tile_dirty(&mut self, tile: Tile) -> u64
        requires { IsTile tile }
        ensures { Dirties (overlaps tile) self.old self.new result }
    {
        touch_tile(self.taken.as_mut_slice(), tile);
        self.marks.expire(tile)
    }

    fn mark_map_dirty(&mut self, map: u32) -> u64
        ensures { Dirties (is_of_map map) self.old self.new result }
    {
        touch_map(self.taken.as_mut_slice(), map);
        self.marks.expire_map(map)
    }
}

impl<D> Farm<D> {
    fn styled_map(&self, number: u32) -> Option<u32>
        ensures map { result ≡ option_map (λ r. r.map) (slice_get self.now.plan.restyles number) }
        ensures in_table { IfSome result (λ map. map < length self.now.plan.maps) }
    {
        let restyle = self.own.setup().restyle(number)?;
        Some(restyle.map)
    }
}

impl<D: TileStore> Farm<D> {
    /// Expires a tile: everything that it overlaps, on every map and zoom, is dirty from now on. Answers how many
    /// metatiles were clean before.
    pub fn expire(&mut self, t: Tile) -> u64
        requires turns { self.old.counts.turns < 2 ^ 63 }
        requires tile { IsTile t }
        ensures step { (store_tells : Bool) (h : List Entry)
            → StandsFor D.state store_tells self.old h
            → StandsFor D.state store_tells self.new (Expire t result ∷ h) }
        ensures kept { Lasts D.state self.old self.new }
        ensures store { self.new.store ≡ self.old.store }
    {
        self.count_turn();
        self.mark_tile_dirty(t)
    }

    /// Gives a map the style of the number, which is of that map; all of the map is touched. Answers Styled with
    /// how many of its metatiles were clean, and NoRestyle exactly where the table has no style of that number.
    /// The map's name, tile size and greatest zoom stay.
    pub fn restyle(&mut self, number: u32) -> Restyled
        requires { self.old.counts.turns < 2 ^ 63 }
        ensures step { (store_tells : Bool) (h : List Entry)
            → StandsFor D.state store_tells self.old h
            → StandsFor D.state store_tells self.new (Restyle number result ∷ h) }
        ensures kept { Lasts D.state self.old self.new }
        ensures store { self.new.store ≡ self.old.store }
    {
        self.count_turn();
        match self.styled_map(number) {
            Some(map) => {
                self.styled[map as usize] = Some(number);
                Restyled::Styled(self.mark_map_dirty(map))
            }
            None => Restyled::NoRestyle,
        }
    }
}

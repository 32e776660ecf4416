//! The farm, and what it keeps for good.
ghost use Rattle.std.specs.Prelude.{◌≡◌, ◌<◌, ◌==◌, Bool, false, List, Some, codes, length, option_map, slice_get};
ghost use Rattle.std.specs.List.{ends_with};
ghost use Rattle.farm_plan.specs.Plans.{maps_in};
ghost use Rattle.tile_store.specs.Stores.{StorePuts};
ghost use Rattle.farm_history.specs.Entries.{Entry};
ghost use Rattle.farm_plan.specs.Plans.{AreRanged};
ghost use Rattle.farm_refinement.specs.Stands.{StandsFor};

use expiry_lists::Marks;
use farm_history::Saved;
use farm_plan::Past;
use farm_refinement::Counts;
use render_jobs::{Share, Taken};
use render_queues::Queues;
use std::alloc::Global;
use std::marker::Model;
use std::snapshot::Snapshot as Seen;
use tile_store::{StoreFault, TileStore};

/// A farm over a store: its plan, the newest data, what is shown, what waits and what is being drawn.
///
/// Contracts see it as the record `FarmSeen`. Every event is one call by `&mut self`, and each list of calls
/// is a legal history.
#[derive(Drop)]
pub struct Farm<D> {
    pub(crate) own: Share,
    pub(crate) spares: Vec<Share>,
    pub(crate) saved: Option<Saved>,
    pub(crate) first: Seen<D>,
    pub(crate) store: D,
    pub(crate) changes: Vec<Past>,
    pub(crate) styled: Vec<Option<u32>>,
    // The drawings under way. The queues hold their keys too: there a key stands once, waiting or taken.
    pub(crate) taken: Vec<Taken>,
    pub(crate) queues: Queues,
    pub(crate) marks: Marks,
    pub(crate) counts: Counts,
}

impl<D> Model for Farm<D> {
    ghost use Rattle.std.specs.Prelude.{length};
    ghost use Rattle.std.specs.Vec.{vec_capacity};
    ghost use Rattle.farm_refinement.specs.Seen.{FarmSeen};
    ghost use Rattle.farm_core.specs.inner.Rooms.{IsRoomy};
    ghost use Rattle.plain_filters.specs.inner.FilterCodes.{filter_code};
    ghost use Rattle.std.specs.Coded.{codes};

    ghost Value = { FarmSeen D };

    ghost coded = { Prim.hlevel (codes, filter_code) };

    ghost view = { λ f. record {
      plan = f.own.plan;
      saved = f.saved;
      first = f.first.value;
      store = f.store;
      data_now = f.own.data_now;
      changes = f.changes.items;
      styled = f.styled.items;
      taken = f.taken.items;
      queues = f.queues;
      marks = f.marks;
      counts = f.counts;
    } };

    ghost invariant = { λ f. IsRoomy f.own f.spares.items f.taken.items f.queues f.styled.items
        f.counts (vec_capacity f.spares) (vec_capacity f.taken) };
}

impl<D> Farm<D> {
    /// How many events there were so far.
    pub fn turns(&self) -> u64
        ensures { result ≡ self.now.counts.turns }
    {
        self.counts.turns
    }

    /// What is true of the plan of each farm: the symbolizers of all its styles are within their ranges, which the
    /// law on what is sent as clean asks for. Nothing else happens.
    pub fn law_ranged(&self)
        ensures { AreRanged self.now.plan }
    {
        self.own.setup().law_ranged();
    }

    /// How many maps the plan has.
    pub fn maps(&self) -> u32
        ensures { result ≡ length self.now.plan.maps }
    {
        self.own.setup().maps().len() as u32
    }

    /// The place of the map of the name; nothing exactly where the plan has none of that name.
    pub fn map_of(&self, name: &[u8]) -> Option<u32>
        ensures { result ≡ maps_in self.now.plan name.now }
    {
        self.own.setup().map_of(name)
    }

    /// The name of the map at the place, which the plan has.
    pub fn map_name(&self, map: u32) -> &str
        requires { map < length self.now.plan.maps }
        ensures { Some result.now ≡ option_map (λ m. m.name) (slice_get self.now.plan.maps map) }
    {
        self.own.setup().map_name(map)
    }

    /// The store, and with it all that was put; the farm is over.
    pub fn into_store(self) -> D
        ensures { result ≡ self.store }
    {
        let Farm {
            store,
            queues,
            marks,
            ..
        } = self;
        drop(queues);
        drop(marks);
        store
    }
}

impl<D: TileStore> Farm<D> {
    /// Puts something beside the metatiles; it is no event. The path does not end in `.meta`. Failed comes only
    /// where the store's count of faults rose.
    pub fn put_beside(&mut self, alloc: Global, path: &str, bytes: &[u8]) -> Result<(), StoreFault>
        requires { ends_with (λ a b. a == b) path.now (codes ".meta") ≡ false }
        ensures store { StorePuts (D.state self.old.store) (D.state self.new.store)
            path.now bytes.now result }
        ensures farm { self.new ≡ record self.old { store = self.new.store } }
        ensures stands { (store_tells : Bool) (h : List Entry)
            → StandsFor D.state store_tells self.old h
            → StandsFor D.state store_tells self.new h }
    {
        self.store.put(alloc, path, bytes)
    }
}

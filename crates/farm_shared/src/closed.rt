//! What is left of a shared farm.
ghost use Rattle.std.specs.Prelude.{◌≡◌, ◌==◌, ℕ, Bool, false, List, codes, IfOk};
ghost use Rattle.std.specs.List.{ends_with};
ghost use Rattle.tile_store.specs.Stores.{StorePuts};
ghost use Rattle.farm_history.specs.Entries.{Entry};
ghost use Rattle.farm_history.specs.Replays.{IsSaved};
ghost use Rattle.farm_plan.specs.Drawings.{plan_of};
ghost use Rattle.farm_saved.specs.Savings.{IsSaving};
ghost use Rattle.farm_refinement.specs.Stands.{StandsFor};
ghost use Rattle.farm_shared.specs.Afters.{IsAfter};

use crate::shared::Seat;
use farm_base::NoMemory;
use farm_core::Farm;
use farm_history::Saved;
use std::alloc::Global;
use std::marker::Model;
use std::snapshot::Snapshot;
use tile_store::{StoreFault, TileStore};

/// A farm that was shared, and its whole history, of which no bytes are kept.
#[derive(Drop)]
pub struct Closed<D: TileStore> {
    pub(crate) farm: Farm<D>,
    pub(crate) last: Snapshot<Seat<D>>,
}

impl<D: TileStore> Model for Closed<D> {
    ghost use Rattle.std.specs.Prelude.{ℕ, List};
    ghost use Rattle.farm_history.specs.Entries.{Entry};
    ghost use Rattle.farm_refinement.specs.Seen.{FarmSeen};
    ghost use Rattle.plain_filters.specs.inner.FilterCodes.{filter_code};
    ghost use Rattle.std.specs.Coded.{codes};

    ghost Value = { FarmSeen D × List (ℕ × Entry) };

    ghost coded = { Prim.hlevel (codes, filter_code) };

    ghost view = { λ c. (c.farm, c.last.value.seen) };
}

impl<D: TileStore> Closed<D> {
    /// What is kept over an orderly stop, as `Farm::saved`.
    pub fn saved(&self, alloc: Global) -> Result<Saved, NoMemory>
        ensures saved { IfOk result
            (λ s. (store_tells : Bool) (h : List Entry) → StandsFor D.state store_tells self.now.0 h
            → IsSaved (plan_of self.now.0.plan) h s) }
        ensures sound { IfOk result
            (λ s. (store_tells : Bool) (h : List Entry) → StandsFor D.state store_tells self.now.0 h
            → IsSaving s) }
    {
        self.farm.saved(alloc)
    }

    /// Puts something beside the metatiles; it is no event. The path does not end in `.meta`. Failed comes only
    /// where the store's count of faults rose.
    pub fn put_beside(&mut self, alloc: Global, path: &str, bytes: &[u8]) -> Result<(), StoreFault>
        requires { ends_with (λ a b. a == b) path.now (codes ".meta") ≡ false }
        ensures store { StorePuts (D.state self.old.0.store) (D.state self.new.0.store) path.now
            bytes.now result }
        ensures farm { self.new ≡ (record self.old.0 { store = self.new.0.store }, self.old.1) }
        ensures stands { (log : List (ℕ × Entry)) → IsAfter D.state self.old.0 log
            → IsAfter D.state self.new.0 log }
    {
        self.farm.put_beside(alloc, path, bytes)
    }

    /// The store, and with it all that was put.
    pub fn into_store(self) -> D
        ensures { result ≡ self.0.store }
    {
        let Closed { farm, last: _ } = self;
        farm.into_store()
    }
}

//! What is kept of a farm over an orderly stop.
ghost use Rattle.std.specs.Prelude.{◌≡◌, Bool, List, IfOk};
ghost use Rattle.farm_history.specs.Entries.{Entry};
ghost use Rattle.farm_history.specs.Replays.{IsSaved};
ghost use Rattle.farm_plan.specs.Drawings.{plan_of};
ghost use Rattle.farm_saved.specs.Savings.{IsSaving};
ghost use Rattle.farm_refinement.specs.Stands.{StandsFor};
ghost use Rattle.farm_core.specs.inner.Saves.{IsSavingOf};

use crate::farm::Farm;
use farm_base::NoMemory;
use farm_history::Saved;
use std::alloc::Global;
use tile_store::TileStore;

impl<D> Farm<D> {
    fn kept(&self, alloc: Global) -> Result<Saved, NoMemory>
        ensures { IfOk result (IsSavingOf self.now) }
    {
        Ok(Saved {
            styles: Vec::from_slice(alloc, self.styled.as_slice())?,
            updates: Vec::from_slice(alloc, self.changes.as_slice())?,
            clean: self.marks.kept(alloc)?,
        })
    }
}

impl<D: TileStore> Farm<D> {
    /// What is kept over an orderly stop: for each map the number of its last style, the updates that
    /// succeeded, in order, and exactly the clean metatiles, with their versions, by map, zoom, column and row.
    /// What is dirty is not kept.
    pub fn saved(&self, alloc: Global) -> Result<Saved, NoMemory>
        ensures saved { IfOk result
            (λ s. (store_tells : Bool) (h : List Entry) → StandsFor D.state store_tells self.now h
            → IsSaved (plan_of self.now.plan) h s) }
        ensures sound { IfOk result
            (λ s. (store_tells : Bool) (h : List Entry) → StandsFor D.state store_tells self.now h
            → IsSaving s) }
    {
        self.kept(alloc)
    }
}

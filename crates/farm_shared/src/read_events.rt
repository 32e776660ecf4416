//! What is read of the farm: tiles, how metatiles stand, and counts.
use crate::event::Event;
use farm_core::Farm;
use farm_history::{Fetched, Looked, Spot, Tally};
use std::alloc::Global;
use tile_store::TileStore;

/// The bytes of a spot's tile are read.
#[derive(Drop)]
pub struct Fetch {
    pub alloc: Global,
    pub spot: Spot,
}

impl Event for Fetch {
    ghost use Rattle.std.specs.Prelude.{⊤};
    ghost use Rattle.farm_history.specs.Entries as entries;

    type Answer = Fetched;

    ghost entry = { λ e answer. entries.Fetch e.spot answer };

    ghost need = { λ _ _ _ _ _. ⊤ };

    ghost promise = { λ _ _ _ _ _. ⊤ };

    fn run<D: TileStore>(self, farm: &mut Farm<D>) -> Fetched {
        farm.fetch(self.alloc, self.spot)
    }
}

/// It is looked how a spot's metatile stands.
#[derive(Drop)]
pub struct Look {
    pub spot: Spot,
}

impl Event for Look {
    ghost use Rattle.std.specs.Prelude.{⊤};
    ghost use Rattle.farm_history.specs.Entries as entries;

    type Answer = Looked;

    ghost entry = { λ e answer. entries.Look e.spot answer };

    ghost need = { λ _ _ _ _ _. ⊤ };

    ghost promise = { λ _ _ _ _ _. ⊤ };

    fn run<D: TileStore>(self, farm: &mut Farm<D>) -> Looked {
        farm.look(self.spot)
    }
}

/// The farm's counts are read.
#[derive(Drop)]
pub struct Count;

impl Event for Count {
    ghost use Rattle.std.specs.Prelude.{⊤};
    ghost use Rattle.farm_history.specs.Entries as entries;

    type Answer = Tally;

    ghost entry = { λ _ answer. entries.Tally answer };

    ghost need = { λ _ _ _ _ _. ⊤ };

    ghost promise = { λ _ _ _ _ _. ⊤ };

    fn run<D: TileStore>(self, farm: &mut Farm<D>) -> Tally {
        farm.tally()
    }
}

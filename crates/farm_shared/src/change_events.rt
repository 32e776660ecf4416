//! Changes of the farm: updates, renews, styles, expiries and the stop.
use crate::event::{Event, Wakes};
use farm_base::Worn;
use farm_core::Farm;
use farm_history::{Renewed, Restyled, Updated};
use plain_world::Tile;
use std::alloc::Global;
use tile_store::TileStore;

/// The update of the number is applied to the newest data.
#[derive(Drop)]
pub struct Update {
    pub alloc: Global,
    pub number: u32,
}

impl Event for Update {
    ghost use Rattle.std.specs.Prelude.{⊤};
    ghost use Rattle.farm_history.specs.Entries as entries;

    type Answer = Updated;

    ghost entry = { λ e answer. entries.Update e.number answer };

    ghost need = { λ _ _ _ _ _. ⊤ };

    ghost promise = { λ _ _ _ _ _. ⊤ };

    fn run<D: TileStore>(self, farm: &mut Farm<D>) -> Updated {
        farm.update(self.alloc, self.number)
    }
}

/// The update of the number is applied, and what it reaches expires.
#[derive(Drop)]
pub struct Renew {
    pub alloc: Global,
    pub number: u32,
}

impl Event for Renew {
    ghost use Rattle.std.specs.Prelude.{⊤};
    ghost use Rattle.farm_history.specs.Entries as entries;

    type Answer = Renewed;

    ghost entry = { λ e answer. entries.Renew e.number answer };

    ghost need = { λ _ _ _ _ _. ⊤ };

    ghost promise = { λ _ _ _ _ _. ⊤ };

    fn run<D: TileStore>(self, farm: &mut Farm<D>) -> Renewed {
        farm.renew(self.alloc, self.number)
    }
}

/// A map is given the style of the number.
#[derive(Drop)]
pub struct Restyle {
    pub number: u32,
}

impl Event for Restyle {
    ghost use Rattle.std.specs.Prelude.{⊤};
    ghost use Rattle.farm_history.specs.Entries as entries;

    type Answer = Restyled;

    ghost entry = { λ e answer. entries.Restyle e.number answer };

    ghost need = { λ _ _ _ _ _. ⊤ };

    ghost promise = { λ _ _ _ _ _. ⊤ };

    fn run<D: TileStore>(self, farm: &mut Farm<D>) -> Restyled {
        farm.restyle(self.number)
    }
}

/// A tile expires. It is answered how many metatiles were clean and are dirty.
#[derive(Drop)]
pub struct Expire {
    pub tile: Tile,
}

impl Event for Expire {
    ghost use Rattle.std.specs.Prelude.{⊤};
    ghost use Rattle.plain_world.specs.World.{IsTile};
    ghost use Rattle.farm_history.specs.Entries as entries;

    type Answer = u64;

    ghost entry = { λ e answer. entries.Expire e.tile answer };

    ghost need = { λ e _ _ _ _. IsTile e.tile };

    ghost promise = { λ _ _ _ _ _. ⊤ };

    fn run<D: TileStore>(self, farm: &mut Farm<D>) -> u64 {
        farm.expire(self.tile)
    }
}

/// The farm is stopped for good.
#[derive(Drop)]
pub struct Stop;

impl Event for Stop {
    ghost use Rattle.std.specs.Prelude.{⊤};
    ghost use Rattle.farm_history.specs.Entries as entries;

    type Answer = ();

    ghost entry = { λ _ _. entries.Stop };

    ghost need = { λ _ _ _ _ _. ⊤ };

    ghost promise = { λ _ _ _ _ _. ⊤ };

    fn run<D: TileStore>(self, farm: &mut Farm<D>) {
        farm.stop()
    }

    fn wakes(_answer: &Result<(), Worn>) -> Wakes {
        Wakes::Everybody
    }
}

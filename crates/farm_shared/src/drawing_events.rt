//! What workers do: claims and ends of drawings.
use crate::event::{Event, Wakes};
use farm_base::Worn;
use farm_core::{Claimed, Drawn, Farm, Job};
use farm_history::Finished;
use std::alloc::Global;
use tile_store::TileStore;

/// A worker, by its number, asks for a drawing to make. A job is the seat's to finish.
#[derive(Drop)]
pub struct Claim {
    pub worker: u32,
}

impl Event for Claim {
    ghost use Rattle.std.specs.Prelude.{⊤};
    ghost use Rattle.farm_history.specs.Entries as entries;
    ghost use Rattle.farm_core.specs.Answers.{claim_answer};
    ghost use Rattle.farm_shared.specs.Promises.{GivesJob};

    type Answer = Claimed;

    ghost entry = { λ e answer. entries.Claim e.worker (claim_answer answer) };

    ghost need = { λ _ _ _ _ _. ⊤ };

    ghost promise = { λ e answer log plan saved. GivesJob e.worker answer log plan saved };

    fn run<D: TileStore>(self, farm: &mut Farm<D>) -> Claimed {
        farm.claim(self.worker)
    }
}

/// A worker hands back its drawing, on the seat that claimed its job.
#[derive(Drop)]
pub struct Finish {
    pub alloc: Global,
    pub job: Job,
    pub drawn: Drawn,
}

impl Event for Finish {
    ghost use Rattle.std.specs.Prelude.{⊤};
    ghost use Rattle.farm_history.specs.Entries as entries;
    ghost use Rattle.farm_core.specs.Answers.{IsDrawingOf, is_drawn};
    ghost use Rattle.farm_shared.specs.Afters.{MayFinish};

    type Answer = Finished;

    ghost entry = { λ e answer. entries.Finish e.job.ticket (is_drawn e.drawn) answer };

    ghost need = { λ e n seen plan saved. MayFinish plan saved n seen e.job × IsDrawingOf e.job e.drawn };

    ghost promise = { λ _ _ _ _ _. ⊤ };

    fn run<D: TileStore>(self, farm: &mut Farm<D>) -> Finished {
        farm.finish(self.alloc, self.job, self.drawn)
    }

    // In one of the fronts somebody may wait for the drawing. Its end puts at most its own metatile in a queue, and
    // who ended it claims next.
    fn wakes(_answer: &Result<Finished, Worn>) -> Wakes {
        Wakes::Fronts
    }
}

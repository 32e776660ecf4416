//! A farm begun over a store.
ghost use Rattle.std.specs.Prelude.{◌≡◌, true};
ghost use Rattle.farm_plan.specs.Plans.{IsPlan};
ghost use Rattle.farm_call.specs.Beginnings.{Begins};
ghost use Rattle.farm_call.specs.inner.Setups.{Empties};
ghost use Rattle.farm_call.specs.inner.Setups as steps;

use crate::resumed::{SAVED_PATH, begin_by, start};
use exit_status::Stop;
use farm_core::{Farm, FarmPlan};
use std::alloc::Global;
use tile_store::{StoreFault, TileStore};

// Why a call ends in which the store did not do what it was asked.
fn stop_of(fault: StoreFault) -> Stop
    ensures { result ≡ steps.stop_of fault }
{
    match fault {
        StoreFault::Failed => Stop::StoreFailed,
        StoreFault::NoMemory => Stop::NoMemory,
    }
}

// Puts no bytes where a saved farm stands, so that a run that does not end in order leaves none.
fn empty_saved<D: TileStore>(alloc: Global, farm: Farm<D>) -> Result<Farm<D>, (D, Stop)>
    ensures { Empties D.state farm result }
{
    let mut farm = farm;
    match farm.put_beside(alloc, SAVED_PATH, b"") {
        Ok(()) => Ok(farm),
        Err(fault) => Err((farm.into_store(), stop_of(fault))),
    }
}

fn begin_saved<D: TileStore>(alloc: Global, plan: FarmPlan, store: D) -> Result<Farm<D>, (D, Stop)>
    requires { IsPlan plan }
    ensures { Begins D.state plan true store result }
{
    let mut store = store;
    let found = match store.get(alloc, SAVED_PATH) {
        Ok(found) => found,
        Err(fault) => return Err((store, stop_of(fault))),
    };
    let farm = begin_by(alloc, plan, store, &found)?;
    empty_saved(alloc, farm)
}

/// A farm of the plan, begun over the store: where it is to resume, by what is saved there, and else anew. Err is the
/// store and why: what is saved is refused, by the line of its first fault; a call of the store failed; or memory is
/// wanting.
///
/// Where it is to resume, no bytes are put in the place of what was saved once the farm has begun, so that only a run that
/// ends in order leaves a saved farm.
pub fn begin<D: TileStore>(
    alloc: Global,
    plan: FarmPlan,
    resume: bool,
    store: D,
) -> Result<Farm<D>, (D, Stop)>
    requires { IsPlan plan }
    ensures { Begins D.state plan resume store result }
{
    if resume {
        begin_saved(alloc, plan, store)
    } else {
        start(alloc, plan, store)
    }
}

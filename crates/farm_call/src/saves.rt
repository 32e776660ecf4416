//! What is saved of a farm that stopped in order.
ghost use Rattle.std.specs.Prelude.{◌≡◌};
ghost use Rattle.farm_shared.specs.Shared.{IsAfter};
ghost use Rattle.farm_call.specs.Savings.{Saves};
ghost use Rattle.farm_call.specs.inner.Puts.{PutsText};

use crate::resumed::SAVED_PATH;
use exit_status::Stop;
use farm_saved::write_saved;
use farm_shared::Closed;
use std::alloc::Global;
use tile_store::{StoreFault, TileStore};

fn put_saved<D: TileStore>(alloc: Global, closed: &mut Closed<D>, text: &[u8]) -> Result<(), Stop>
    ensures { PutsText D.state closed.old closed.new text.now result }
{
    match closed.put_beside(alloc, SAVED_PATH, text) {
        Ok(()) => Ok(()),
        Err(StoreFault::Failed) => Err(Stop::StoreFailed),
        Err(StoreFault::NoMemory) => Err(Stop::NoMemory),
    }
}

/// Saves in the store what is clean at the end of the farm's history, and what it was drawn of. StoreFailed where the put
/// failed; NoMemory, and then nothing was put.
pub fn save<D: TileStore>(alloc: Global, closed: &mut Closed<D>) -> Result<(), Stop>
    requires { IsAfter D.state closed.old.0 closed.old.1 }
    ensures saves { Saves D.state closed.old.0 closed.new.0 closed.old.1 result }
    ensures history { closed.new.1 ≡ closed.old.1 }
{
    let saved = match closed.saved(alloc) {
        Ok(saved) => saved,
        Err(_) => return Err(Stop::NoMemory),
    };
    match write_saved(alloc, &saved) {
        Ok(text) => put_saved(alloc, closed, text.as_slice()),
        Err(_) => Err(Stop::NoMemory),
    }
}

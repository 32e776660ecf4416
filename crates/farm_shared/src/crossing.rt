//! What crosses threads. Each fact is stated of a whole type, since the check opens a type to its bottom where
//! none is at hand.
ghost use Rattle.std.specs.Thread.{IsSend, IsSync};
ghost use Rattle.farm_shared.specs.contracts.shared.Names as names_type;
ghost use Rattle.farm_shared.specs.contracts.shared.Seat as seat_type;
ghost use Rattle.farm_shared.specs.contracts.shared.SharedFarm as shared_type;
ghost use Rattle.farm_shared.specs.contracts.turned.Turned as turned_type;

use crate::shared::{Names, Seat, SharedFarm};
use farm_core::cross_farm;
use tile_store::TileStore;

fn sends<T: Send>()
    ensures { IsSend T.row }
{}

fn syncs<T: Sync>()
    ensures { IsSync T.row }
{}

fn cross_turned<D: TileStore + Send>()
    ensures { IsSend (turned_type.the_row D.row) }
{
    cross_farm::<D>();
}

fn cross_seat<D: TileStore + Send>()
    ensures { IsSend (seat_type.the_row D.row D.TileStore) }
{
    cross_turned::<D>();
    sends::<Seat<D>>();
}

fn cross_names()
    ensures { IsSync names_type.the_row }
{
    syncs::<Names>();
}

fn cross_shared<D: TileStore + Send>()
    ensures { IsSync (shared_type.the_row D.row D.TileStore) }
{
    cross_turned::<D>();
    cross_names();
    syncs::<SharedFarm<D>>();
}

/// Seats and the shared farm cross threads, wherever the store does. A function that starts threads calls it
/// first, and so does a closure that starts threads again: what it does not see, it cannot rest on.
pub fn cross<D: TileStore + Send>()
    ensures seat { IsSend (seat_type.the_row D.row D.TileStore) }
    ensures farm { IsSync (shared_type.the_row D.row D.TileStore) }
{
    cross_seat::<D>();
    cross_shared::<D>();
}

//! A front is served on a shared farm.
ghost use Rattle.std.specs.Prelude.{◌≡◌, ◌+◌, []};
ghost use Rattle.farm_base.specs.Outside.{Counted};
ghost use Rattle.farm_shared.specs.Seats.{plain};
ghost use Rattle.front_loop.specs.FarmAdapters.{shared_rules};
ghost use Rattle.front_loop.specs.Serving.{FrontRun};
ghost use Rattle.reactor_ports.specs.declared.ends.FrontEnd.TheVariants as ended;
ghost use Rattle.turn_cell.specs.SeatStates.{IsSeatOf, Knows, SameSeat};

use crate::adapter::FarmAdapter;
use crate::{Context, Front, serve};
use farm_base::Bell;
use farm_shared::Seat;
use reactor_ports::{FrontDone, Ports};
use std::sync::Wait;
use tile_store::TileStore;

/// Serves a front on a shared farm until it ends, as `crate::serve`. It may wait.
pub fn serve_shared<R: Wait, D: TileStore, B: Bell, F: Front, P: Ports>(
    work: &Context<'_, R, FarmAdapter<'_, D, B>, F>,
    seat: &mut Seat<D>,
    ports: &mut P,
) -> FrontDone
    requires seat { IsSeatOf work.now.farm.now.farm.now seat.old }
    requires known { Knows seat.old }
    requires number { seat.old.number ≡ (shared_rules F.rules work.now).number + 1 }
    requires fresh { seat.old.mine ≡ [] }
    ensures seat { IsSeatOf work.now.farm.now.farm.now seat.new }
    ensures same { SameSeat seat.old seat.new }
    ensures known { Knows seat.new }
    ensures served { FrontRun (shared_rules F.rules work.now) (P.state ports.old).told
        (P.state ports.new).told (plain seat.new.mine) result.end result.rests.items result.starved
        seat.new.worn }
    ensures broken { result.end ≡ ended.Broken
        → Counted (P.state ports.old).faults (P.state ports.new).faults }
{
    serve(work, seat, ports)
}

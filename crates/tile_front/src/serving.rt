//! The front's call.
ghost use Rattle.std.specs.Prelude.{◌≡◌, ◌+◌, []};
ghost use Rattle.farm_base.specs.Outside.{Counted};
ghost use Rattle.reactor_ports.specs.declared.ends.FrontEnd.TheVariants as ended;
ghost use Rattle.front_loop.specs.Serving.{FrontRun};
ghost use Rattle.turn_cell.specs.SeatStates.{IsSeatOf, Knows, SameSeat};
ghost use Rattle.farm_shared.specs.Seats.{plain};
ghost use Rattle.farm_shared.specs.Shared.{maps_of};
ghost use Rattle.tile_front.specs.Tiles.{tile_rules};

use crate::Tiles;
use farm_base::Bell;
use farm_shared::{Alarms, Seat, SharedFarm};
use front_loop::{Context, FarmAdapter, serve_shared};
use reactor_ports::{FrontDone, Ports};
use std::alloc::Global;
use std::sync::Wait;
use tile_store::TileStore;

/// Serves tiles over HTTP until the front ends, as the front of that number; it may wait. A
/// connection has one request: `GET` of `/NAME/Z/X/Y.ppm`, or of the same with `/status` or `/dirty`
/// behind it. It is closed when its answer was sent whole. No command makes this call: a run takes
/// the front itself.
pub fn serve<R: Wait, P: Ports, B: Bell, D: TileStore>(
    rt: &R,
    alloc: Global,
    front: u32,
    farm: &SharedFarm<D>,
    seat: &mut Seat<D>,
    ports: &mut P,
    alarms: &Alarms<'_, B>,
) -> FrontDone
    requires seat { IsSeatOf farm.now seat.old }
    requires known { Knows seat.old }
    requires number { seat.old.number ≡ front + 1 }
    requires fresh { seat.old.mine ≡ [] }
    ensures seat { IsSeatOf farm.now seat.new }
    ensures same { SameSeat seat.old seat.new }
    ensures known { Knows seat.new }
    ensures served { FrontRun (tile_rules front (maps_of farm.now)) (P.state ports.old).told
        (P.state ports.new).told (plain seat.new.mine) result.end result.rests.items result.starved
        seat.new.worn }
    ensures broken { result.end ≡ ended.Broken
        → Counted (P.state ports.old).faults (P.state ports.new).faults }
{
    let adapter = FarmAdapter { farm, alarms };
    let work = Context {
        rt,
        alloc,
        front: &Tiles { front },
        farm: &adapter,
    };
    serve_shared(&work, seat, ports)
}

//! Three fronts in three threads, and what follows when they have ended.
ghost use Rattle.std.specs.Prelude.{◌≡◌, true, []};
ghost use Rattle.std.specs.Thread.{IsSend, IsSync};
ghost use Rattle.front_loop.specs.Kinds.{IsUnbegun};
ghost use Rattle.farm_runs.specs.Actors.{HasEnded, HasServed, IsFrontSeat, with_front_seats};
ghost use Rattle.farm_shared.specs.Shared.{maps_of};
ghost use Rattle.farm_shared.specs.Seats.{plain};
ghost use Rattle.turn_cell.specs.SeatStates.{IsSeatOf, Knows, SameSeat};

use crate::each_front::{EachFront, RunActors};
use crate::serving::FrontServing;
use farm_base::{Bell, Bells};
use farm_shared::{Seat, SharedFarm, cross};
use reactor_ports::{FrontDone, FrontEnd, Ports};
use std::alloc::Global;
use std::rt::Clock;
use std::sync::Wait;
use std::thread::{Threads, join_mut};
use tile_store::TileStore;

/// A front that is not begun stops the farm, and ends for want of memory.
#[tactic(auto, using(crate::proofs::Acting::stopped, crate::proofs::Acting::worn))]
pub fn turn_away<R: Wait, D: TileStore>(
    rt: &R,
    alloc: Global,
    farm: &SharedFarm<D>,
    seat: &mut Seat<D>,
) -> FrontDone
    requires seat { IsSeatOf farm.now seat.old }
    requires unused { seat.old.mine ≡ [] }
    ensures seat { IsSeatOf farm.now seat.new }
    ensures same { SameSeat seat.old seat.new }
    ensures left { IsUnbegun (plain seat.new.mine) result seat.new.worn }
{
    let end = match farm.stop(rt, seat) {
        Ok(()) => FrontEnd::NoMemory,
        Err(_) => FrontEnd::Worn,
    };
    FrontDone {
        end,
        rests: Vec::new(alloc),
        starved: 0,
    }
}

/// The three fronts, each in a thread of its own, through its own seat and on its own ports.
pub fn serve_fronts<
    R: Threads + Wait + Clock + Sync,
    D: TileStore + Send,
    F: FrontServing + Sync,
    G: FrontServing + Sync,
    H: FrontServing + Sync,
    P: Ports + Send,
    B: Bell + Sync,
>(
    rt: &R,
    actors: &RunActors<F, G, H>,
    farm: &SharedFarm<D>,
    seats: &mut EachFront<Seat<D>>,
    p: &mut P,
    q: &mut P,
    r: &mut P,
    bells: &Bells<B>,
) -> EachFront<FrontDone>
    requires renderd { IsFrontSeat farm.now
        (F.number actors.now.fronts.renderd (maps_of farm.now)) seats.old.renderd }
    requires tiles { IsFrontSeat farm.now
        (G.number actors.now.fronts.tiles (maps_of farm.now)) seats.old.tiles }
    requires control { IsFrontSeat farm.now
        (H.number actors.now.fronts.control (maps_of farm.now)) seats.old.control }
    ensures renderd { HasServed farm.now
        (F.leaves actors.now.fronts.renderd (maps_of farm.now))
        seats.old.renderd seats.new.renderd (P.state p.old) (P.state p.new) result.renderd }
    ensures tiles { HasServed farm.now (G.leaves actors.now.fronts.tiles (maps_of farm.now))
        seats.old.tiles seats.new.tiles (P.state q.old) (P.state q.new) result.tiles }
    ensures control { HasServed farm.now
        (H.leaves actors.now.fronts.control (maps_of farm.now))
        seats.old.control seats.new.control (P.state r.old) (P.state r.new) result.control }
{
    cross::<D>();
    let one = &mut seats.renderd;
    let two = &mut seats.tiles;
    let three = &mut seats.control;
    let start = &actors.start;
    let (renderd, (tiles, control)) = join_mut(
        rt,
        &mut || -> FrontDone
            requires { IsFrontSeat farm.now
                (F.number actors.now.fronts.renderd (maps_of farm.now)) one.now }
            ensures { HasServed farm.entry.now
                (F.leaves actors.entry.now.fronts.renderd (maps_of farm.entry.now))
                one.entry.now
                one.exit.now (P.state p.entry.now) (P.state p.exit.now) result }
        {
            actors
                .fronts
                .renderd
                .serve_front(rt, start, farm, one, p, bells)
        },
        &mut || -> (FrontDone, FrontDone)
            requires { IsSync R.row × IsSync B.row × IsSend P.row × IsSend D.row × IsSync F.row
                × IsSync G.row × IsSync H.row
                × IsFrontSeat farm.now
                (G.number actors.now.fronts.tiles (maps_of farm.now)) two.now
                × IsFrontSeat farm.now
                (H.number actors.now.fronts.control (maps_of farm.now)) three.now }
            ensures { HasServed farm.entry.now
                (G.leaves actors.entry.now.fronts.tiles (maps_of farm.entry.now))
                two.entry.now
                two.exit.now (P.state q.entry.now) (P.state q.exit.now) result.0
                × HasServed farm.entry.now
                (H.leaves actors.entry.now.fronts.control (maps_of farm.entry.now))
                three.entry.now
                three.exit.now (P.state r.entry.now) (P.state r.exit.now) result.1 }
        {
            cross::<D>();
            join_mut(
                rt,
                &mut || -> FrontDone
                    requires { IsFrontSeat farm.now
                        (G.number actors.now.fronts.tiles (maps_of farm.now)) two.now }
                    ensures { HasServed farm.entry.now
                        (G.leaves actors.entry.now.fronts.tiles (maps_of farm.entry.now))
                        two.entry.now two.exit.now (P.state q.entry.now)
                        (P.state q.exit.now) result }
                {
                    actors
                        .fronts
                        .tiles
                        .serve_front(rt, start, farm, two, q, bells)
                },
                &mut || -> FrontDone
                    requires { IsFrontSeat farm.now
                        (H.number actors.now.fronts.control (maps_of farm.now)) three.now }
                    ensures { HasServed farm.entry.now
                        (H.leaves actors.entry.now.fronts.control (maps_of farm.entry.now))
                        three.entry.now three.exit.now (P.state r.entry.now)
                        (P.state r.exit.now) result }
                {
                    actors
                        .fronts
                        .control
                        .serve_front(rt, start, farm, three, r, bells)
                },
            )
        },
    );
    EachFront {
        renderd,
        tiles,
        control,
    }
}

/// Joins the seats of the fronts, which have ended, into the first seat, and then stops the farm: whether the Stop
/// was entered, which fails only where all turns were drawn.
pub fn end_fronts<R: Wait, D: TileStore>(
    rt: &R,
    farm: &SharedFarm<D>,
    own: &mut Seat<D>,
    seats: EachFront<Seat<D>>,
) -> bool
    requires own { IsSeatOf farm.now own.old }
    requires first { own.old.first ≡ true }
    requires renderd { IsSeatOf farm.now seats.renderd }
    requires tiles { IsSeatOf farm.now seats.tiles }
    requires control { IsSeatOf farm.now seats.control }
    ensures { HasEnded farm.now own.old own.new seats result }
{
    let EachFront {
        renderd,
        tiles,
        control,
    } = seats;
    farm.join(own, renderd);
    farm.join(own, tiles);
    farm.join(own, control);
    match farm.stop(rt, own) {
        Ok(()) => true,
        Err(_) => false,
    }
}

//! A whole run: workers and fronts beside each other.
ghost use Rattle.std.specs.Prelude.{◌≡◌, ◌<◌, ℕ, All, length, slice_index_or};
ghost use Rattle.std.specs.Thread.{IsSend, IsSync};
ghost use Rattle.farm_history.specs.Entries.{Entry};
ghost use Rattle.turn_cell.specs.SeatStates.{SeatState};
ghost use Rattle.farm_shared.specs.declared.turned.Turned.{Turned};
ghost use Rattle.farm_runs.specs.declared.pool.Actor.{Actor};
ghost use Rattle.farm_runs.specs.Actors.{AreStanding, HasWorked, HaveServed, IsReady, each_port, three};
ghost use Rattle.farm_shared.specs.Shared.{maps_of};

use crate::each_front::{EachFront, RunActors};
use crate::fronts::{end_fronts, serve_fronts};
use crate::pool::{Actor, work_all};
use crate::serving::FrontServing;
use farm_base::{Bell, Bells};
use farm_shared::{Alarms, Seat, SharedFarm, cross};
use reactor_ports::{FrontDone, Ports, ThreePorts};
use std::rt::Clock;
use std::sync::Wait;
use std::thread::{Threads, join_mut};
use tile_store::{Stage, TileStore};

/// The first seat of a farm, and those of its fronts until they are joined into it.
#[derive(Drop)]
pub struct FrontSeats<S> {
    pub own: S,
    pub seats: Option<EachFront<S>>,
}

/// All seats of a run.
#[derive(Drop)]
pub struct RunSeats<S> {
    pub front_seats: FrontSeats<S>,
    pub pool: Vec<Actor<S>>,
}

/// Runs the workers and the three fronts, each in a thread of its own and through its own seat. When the fronts have
/// ended, their seats are joined into the first, which then stops the farm; so the workers end too. Answers what
/// the fronts answered, and whether that Stop was entered: it is not only where all turns were drawn. It may wait.
pub fn run_actors<
    R: Threads + Wait + Clock + Sync,
    D: TileStore + Send,
    F: FrontServing + Sync,
    G: FrontServing + Sync,
    H: FrontServing + Sync,
    P: Ports + Send,
    B: Bell + Send + Sync,
    T: Stage + Sync,
>(
    rt: &R,
    actors: &RunActors<F, G, H>,
    farm: &SharedFarm<D>,
    run_seats: &mut RunSeats<Seat<D>>,
    ports: &mut ThreePorts<P, B>,
    gate: &T,
) -> (EachFront<FrontDone>, bool)
    requires pool { All (λ a. IsReady farm.now a) run_seats.old.pool.items }
    requires front_seats { AreStanding farm.now
        (F.number actors.now.fronts.renderd (maps_of farm.now))
        (G.number actors.now.fronts.tiles (maps_of farm.now))
        (H.number actors.now.fronts.control (maps_of farm.now)) run_seats.old.front_seats }
    ensures long { length run_seats.new.pool.items ≡ length run_seats.old.pool.items }
    ensures pool { (i : ℕ) (d : Actor (SeatState (Turned D) Entry))
        → i < length run_seats.old.pool.items
        → HasWorked farm.now (slice_index_or run_seats.old.pool.items i d)
        (slice_index_or run_seats.new.pool.items i d) }
    ensures fronts { HaveServed farm.now
        (F.leaves actors.now.fronts.renderd (maps_of farm.now))
        (G.leaves actors.now.fronts.tiles (maps_of farm.now))
        (H.leaves actors.now.fronts.control (maps_of farm.now)) run_seats.old.front_seats
        run_seats.new.front_seats
        (each_port P.state ports.old) (each_port P.state ports.new) result.0 result.1 }
{
    cross::<D>();
    let bells = &ports.bells;
    let p = &mut ports.renderd;
    let q = &mut ports.tiles;
    let r = &mut ports.control;
    let pool = &mut run_seats.pool;
    let front_seats = &mut run_seats.front_seats;
    let barrier = &actors.start.barrier;
    let alloc = actors.start.alloc;
    let (_, done) = join_mut(
        rt,
        &mut || -> ()
            requires { IsSync R.row × IsSync B.row × IsSync T.row × IsSend D.row
                × All (λ a. IsReady farm.now a) pool.now.items }
            ensures long { length pool.exit.now.items ≡ length pool.entry.now.items }
            ensures each { (i : ℕ) (d : Actor (SeatState (Turned D) Entry))
                → i < length pool.entry.now.items
                → HasWorked farm.entry.now (slice_index_or pool.entry.now.items i d)
                (slice_index_or pool.exit.now.items i d) }
        { work_all(rt, alloc, farm, pool.as_mut_slice(), gate, barrier, bells) },
        &mut || -> (EachFront<FrontDone>, bool)
            requires { IsSync R.row × IsSync B.row × IsSend P.row × IsSend D.row × IsSync F.row
                × IsSync G.row × IsSync H.row
                × AreStanding farm.now
                (F.number actors.now.fronts.renderd (maps_of farm.now))
                (G.number actors.now.fronts.tiles (maps_of farm.now))
                (H.number actors.now.fronts.control (maps_of farm.now)) front_seats.now }
            ensures { HaveServed farm.entry.now
                (F.leaves actors.entry.now.fronts.renderd (maps_of farm.entry.now))
                (G.leaves actors.entry.now.fronts.tiles (maps_of farm.entry.now))
                (H.leaves actors.entry.now.fronts.control (maps_of farm.entry.now))
                front_seats.entry.now front_seats.exit.now
                (three (P.state p.entry.now) (P.state q.entry.now) (P.state r.entry.now))
                (three (P.state p.exit.now) (P.state q.exit.now) (P.state r.exit.now)) result.0
                result.1 }
        {
            // Borrowed whole: the clauses above speak of all of it.
            let standing = &mut *front_seats;
            let Some(seats) = standing.seats.take() else {
                unreachable!()
            };
            let mut seats = seats;
            let done = serve_fronts(rt, actors, farm, &mut seats, p, q, r, bells);
            let entered = end_fronts(rt, farm, &mut standing.own, seats);
            let alarms = Alarms {
                workers: barrier.sleepers.as_slice(),
                bells,
            };
            alarms.ring_all();
            (done, entered)
        },
    );
    done
}

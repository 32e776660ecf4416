//! A run from the farm that it begins with to what is left of it.
ghost use Rattle.std.specs.Prelude.{◌≡◌, ◌≤◌, ◌<◌, ◌+◌, Bool, [], length, IfErr, IfOk};
ghost use Rattle.std.specs.Vec.{vec_capacity, vec_len};
ghost use Rattle.farm_base.specs.Limits.{most_turns};
ghost use Rattle.farm_refinement.specs.Stands.{StandsFor};
ghost use Rattle.farm_core.specs.Begins.{origin};
ghost use Rattle.farm_plan.specs.Plans.{AreRanged, maps_in};
ghost use Rattle.farm_shared.specs.Shared.{MayTell, lasting_of, maps_of};
ghost use Rattle.farm_runs.specs.Actors.{each_port, leaving};
ghost use Rattle.front_loop.specs.Leaves.{IsFront};
ghost use Rattle.turn_cell.specs.SeatStates.{IsSeatOf, first_of};
ghost use Rattle.farm_runs.specs.Promise.{RunsWell};
ghost use Rattle.farm_runs.specs.inner.Chain.{IsSet};

use crate::barrier::StartBarrier;
use crate::each_front::{EachFront, Fronts, RunActors, RunStart};
use crate::ending::close_run;
use crate::pool::Actor;
use crate::seating::{Parking, parking_for, seat_fronts, seat_pool};
use crate::serving::Threaded;
use crate::together::{FrontSeats, RunSeats, run_actors};
use crossbeam_utils::sync::Parker;
use farm_base::Bell;
use farm_core::Farm;
use farm_plan::Tally;
use farm_shared::{Closed, Seat, SharedFarm};
use front_loop::Front;
use reactor_ports::{FrontDone, Ports, ThreePorts};
use std::alloc::Global;
use std::rt::Clock;
use std::sync::Wait;
use std::thread::Threads;
use tile_store::{Stage, TileStore};

/// What is left of a run.
#[derive(Drop)]
pub struct Run<D: TileStore> {
    /// The farm, with its whole history.
    pub closed: Closed<D>,
    /// What the fronts answered.
    pub fronts: EachFront<FrontDone>,
    /// Whether the farm was stopped by the run's own turn, after the fronts: not only where all turns were drawn.
    pub stopped: bool,
    /// The farm's counts, taken last; nothing only where all turns were drawn.
    pub tally: Option<Tally>,
    /// Whether a worker ended since all turns were drawn.
    pub worn: bool,
}

// The seats of a run: those of the fronts and of the workers are split from the first.
fn set_seats<D: TileStore>(
    farm: &SharedFarm<D>,
    own: Seat<D>,
    parkers: Vec<Parker>,
    pool: Vec<Actor<Seat<D>>>,
) -> RunSeats<Seat<D>>
    requires own { own ≡ first_of farm.now }
    requires seat { IsSeatOf farm.now own }
    requires few { vec_len parkers ≤ 16 }
    requires room { vec_len parkers ≤ vec_capacity pool }
    requires empty { pool.items ≡ [] }
    ensures { IsSet farm.now (vec_len parkers) result }
{
    let mut own = own;
    let mut pool = pool;
    let seats = seat_fronts(farm, &mut own);
    seat_pool(farm, &mut own, parkers, &mut pool);
    RunSeats {
        front_seats: FrontSeats {
            own,
            seats: Some(seats),
        },
        pool,
    }
}

fn act<
    R: Threads + Wait + Clock + Sync,
    D: TileStore + Send,
    F: Front + Sync,
    G: Front + Sync,
    H: Front + Sync,
    P: Ports + Send,
    B: Bell + Send + Sync,
    T: Stage + Sync,
>(
    rt: &R,
    farm: SharedFarm<D>,
    actors: &RunActors<Threaded<F>, Threaded<G>, Threaded<H>>,
    run_seats: RunSeats<Seat<D>>,
    ports: &mut ThreePorts<P, B>,
    gate: &T,
) -> Run<D>
where
    F::ConnState: Send,
    G::ConnState: Send,
    H::ConnState: Send,
    requires set { IsSet farm (length run_seats.pool.items) run_seats }
    requires limit { farm.about.limit ≡ most_turns }
    requires workers { length run_seats.pool.items ≡ farm.about.first.value.farm.plan.workers }
    requires ranged { AreRanged farm.about.first.value.farm.plan }
    requires renderd { IsFront 0 (F.rules actors.now.fronts.renderd.front (maps_of farm)) }
    requires tiles { IsFront 1 (G.rules actors.now.fronts.tiles.front (maps_of farm)) }
    requires control { IsFront 2 (H.rules actors.now.fronts.control.front (maps_of farm)) }
    ensures { RunsWell D.state farm.about.first.value.farm result.closed.0 result.closed.1
        (leaving F.rules actors.now.fronts.renderd.front (maps_of farm))
        (leaving G.rules actors.now.fronts.tiles.front (maps_of farm))
        (leaving H.rules actors.now.fronts.control.front (maps_of farm))
        (each_port P.state ports.old) (each_port P.state ports.new)
        result.fronts
        (record { worn = result.worn; stopped = result.stopped; tally = result.tally }) }
{
    let mut run_seats = run_seats;
    let (fronts, stopped) = run_actors(rt, actors, &farm, &mut run_seats, ports, gate);
    let RunSeats { front_seats, pool } = run_seats;
    let FrontSeats { own, seats: _ } = front_seats;
    let (closed, tally, worn) = close_run(rt, farm, own, pool);
    Run {
        closed,
        fronts,
        stopped,
        tally,
        worn,
    }
}

/// Runs a farm until its fronts have ended, with so many workers, each actor in a thread of its own,
/// and answers what is left. Each part of what is promised is a field of `RunsWell`. Where memory is
/// wanting before the threads start, the farm comes back, and no port was touched. It may wait.
pub fn run_farm<
    R: Threads + Wait + Clock + Sync,
    D: TileStore + Send,
    F: Front + Sync + Drop,
    G: Front + Sync + Drop,
    H: Front + Sync + Drop,
    P: Ports + Send,
    B: Bell + Send + Sync,
    T: Stage + Sync,
>(
    rt: &R,
    alloc: Global,
    farm: Farm<D>,
    workers: u32,
    fronts: Fronts<F, G, H>,
    ports: &mut ThreePorts<P, B>,
    gate: &T,
) -> Result<Run<D>, Farm<D>>
where
    F::ConnState: Send,
    G::ConnState: Send,
    H::ConnState: Send,
    requires stands { (store_tells : Bool) → MayTell D.state (lasting_of D.state farm) store_tells
        → StandsFor D.state store_tells farm (origin farm.plan farm.saved) }
    requires short { length (origin farm.plan farm.saved) < most_turns }
    requires workers { workers ≡ farm.plan.workers }
    requires few { workers ≤ 16 }
    requires renderd { IsFront 0 (F.rules fronts.renderd (maps_in farm.plan)) }
    requires tiles { IsFront 1 (G.rules fronts.tiles (maps_in farm.plan)) }
    requires control { IsFront 2 (H.rules fronts.control (maps_in farm.plan)) }
    ensures ran { IfOk result (λ r. RunsWell D.state farm r.closed.0 r.closed.1
        (leaving F.rules fronts.renderd (maps_in farm.plan))
        (leaving G.rules fronts.tiles (maps_in farm.plan))
        (leaving H.rules fronts.control (maps_in farm.plan))
        (each_port P.state ports.old) (each_port P.state ports.new)
        r.fronts (record { worn = r.worn; stopped = r.stopped; tally = r.tally })) }
    ensures back { IfErr result (λ f. (f ≡ farm) × (ports.new ≡ ports.old)) }
{
    let Ok(parking) = parking_for(alloc, workers) else {
        return Err(farm);
    };
    let Ok(pool) = Vec::with_capacity(alloc, workers as usize) else {
        return Err(farm);
    };
    farm.law_ranged();
    let (shared, own) = SharedFarm::new(alloc, farm)?;
    let Parking { parkers, sleepers } = parking;
    let start = RunStart {
        barrier: StartBarrier::new(workers as u64 + 3, sleepers),
        alloc,
    };
    let Fronts {
        renderd,
        tiles,
        control,
    } = fronts;
    let fronts = Fronts {
        renderd: Threaded { front: renderd },
        tiles: Threaded { front: tiles },
        control: Threaded { front: control },
    };
    let actors = RunActors { fronts, start };
    let run_seats = set_seats(&shared, own, parkers, pool);
    Ok(act(rt, shared, &actors, run_seats, ports, gate))
}

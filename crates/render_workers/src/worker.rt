//! A worker.
ghost use Rattle.std.specs.Prelude.{◌≡◌, true};
ghost use Rattle.turn_cell.specs.SeatStates.{IsSeatOf, Knows, SameSeat};
ghost use Rattle.render_workers.specs.Rounds.{Worked};
ghost use Rattle.render_workers.specs.inner.Nexts.{AddsRound, IsWornOut};
ghost use Rattle.render_workers.specs.declared.worker.WorkEnd.{WorkEnd};

use crate::drawing::{draw, stage};
use crossbeam_utils::sync::Parker;
use farm_base::{Bell, Gate};
use farm_core::Claimed;
use farm_shared::{Alarms, Seat, SharedFarm};
use std::alloc::Global;
use std::sync::Wait;
use tile_store::{Stage, TileStore};

/// How a worker ends.
#[derive(Clone, Copy)]
pub enum WorkEnd {
    /// Its claim was answered Stopped.
    Stopped,
    /// All turns of the farm were drawn.
    Worn,
}

/// What a worker does after a round.
#[derive(Clone, Copy)]
enum Next {
    /// It claims again.
    Again,
    /// It sleeps until it is woken, and then claims again.
    Rest,
    /// It ends.
    End(WorkEnd),
}

// Claims. A job is drawn after the gate let it pass, staged while no turn is taken, and handed back; then the
// fronts are woken, and what its staging has left is removed.
fn round<R: Wait, D: TileStore, G: Stage, B: Bell>(
    rt: &R,
    alloc: Global,
    farm: &SharedFarm<D>,
    seat: &mut Seat<D>,
    worker: u32,
    gate: &G,
    alarms: &Alarms<'_, B>,
) -> Next
    requires { IsSeatOf farm.now seat.old }
    ensures seat { IsSeatOf farm.now seat.new }
    ensures same { SameSeat seat.old seat.new }
    ensures known { Knows seat.new }
    ensures entries { AddsRound worker result seat.old seat.new }
    ensures worn { IsWornOut result seat.new }
{
    let Ok(claimed) = farm.claim(rt, seat, worker) else {
        return Next::End(WorkEnd::Worn);
    };
    match claimed {
        Claimed::Job(job) => {
            gate.before_draw(job.ticket);
            let ticket = job.ticket;
            let drawn = draw(alloc, &job);
            let drawn = stage(gate, alloc, &job, drawn);
            let finished = farm.finish(rt, seat, alloc, job, drawn);
            alarms.ring_fronts();
            gate.clear(alloc, ticket);
            let Ok(_answer) = finished else {
                return Next::End(WorkEnd::Worn);
            };
            Next::Again
        }
        Claimed::Idle | Claimed::Crowded => Next::Rest,
        Claimed::Stopped => Next::End(WorkEnd::Stopped),
    }
}

/// Works until the farm is stopped, as the worker of that number, through a seat of its own. It claims; on a job
/// it passes the gate, draws outside the lock, hands back and wakes the fronts; with nothing to claim it sleeps until
/// it is woken. Want of memory in a drawing is handed back as such, and does not end the worker. Stopped comes only
/// where a claim of this call was answered so, Worn only where all turns of the farm were drawn. It may wait.
pub fn work<R: Wait, D: TileStore, G: Stage, B: Bell>(
    rt: &R,
    alloc: Global,
    farm: &SharedFarm<D>,
    seat: &mut Seat<D>,
    worker: u32,
    nap: &Parker,
    gate: &G,
    alarms: &Alarms<'_, B>,
) -> WorkEnd
    requires { IsSeatOf farm.now seat.old }
    ensures seat { IsSeatOf farm.now seat.new }
    ensures same { SameSeat seat.old seat.new }
    ensures entries { Worked worker result seat.old seat.new }
    ensures worn { result ≡ WorkEnd.Worn → seat.new.worn ≡ true }
{
    for _ in rt.forever() {
        match round(rt, alloc, farm, seat, worker, gate, alarms) {
            Next::Again => {}
            Next::Rest => nap.park(rt),
            Next::End(end) => return end,
        }
    }
    unreachable!()
}

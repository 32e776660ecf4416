//! The workers in their threads.
ghost use Rattle.std.specs.Prelude.{◌≡◌, ◌<◌, ℕ, All, length, slice_index_or};
ghost use Rattle.std.specs.Thread.{IsSend, IsSync};
ghost use Rattle.farm_history.specs.Entries.{Entry};
ghost use Rattle.turn_cell.specs.SeatStates.{SeatState};
ghost use Rattle.farm_shared.specs.declared.turned.Turned.{Turned};
ghost use Rattle.farm_runs.specs.declared.pool.Actor.{Actor};
ghost use Rattle.farm_runs.specs.Actors.{HasWorked, IsReady};

use crate::barrier::StartBarrier;
use crossbeam_utils::sync::Parker;
use farm_base::{Bell, Bells};
use farm_shared::{Alarms, Seat, SharedFarm, cross};
use render_workers::{WorkEnd, work};
use std::alloc::Global;
use std::rt::Clock;
use std::sync::Wait;
use std::thread::{Threads, for_each_mut};
use tile_store::{Stage, TileStore};

/// A worker: its number, its seat, what it sleeps on, and how it ended. It has not ended where it was not begun.
#[derive(Drop)]
pub struct Actor<S> {
    pub worker: u32,
    pub seat: S,
    pub parker: Parker,
    pub end: Option<WorkEnd>,
}

// A worker in its thread: it works where all actors have begun.
#[tactic(auto, using(crate::proofs::Acting::began, crate::proofs::Acting::not_begun))]
fn work_post<R: Wait + Clock, D: TileStore, G: Stage, B: Bell>(
    rt: &R,
    alloc: Global,
    farm: &SharedFarm<D>,
    actor: &mut Actor<Seat<D>>,
    gate: &G,
    barrier: &StartBarrier,
    bells: &Bells<B>,
)
    requires { IsReady farm.now actor.old }
    ensures { HasWorked farm.now actor.old actor.new }
{
    if barrier.begin(rt) {
        let alarms = Alarms {
            workers: barrier.sleepers.as_slice(),
            bells,
        };
        let end = work(
            rt,
            alloc,
            farm,
            &mut actor.seat,
            actor.worker,
            &actor.parker,
            gate,
            &alarms,
        );
        actor.end = Some(end);
        alarms.ring_all();
    }
}

/// All workers, each in a thread of its own.
pub fn work_all<
    R: Threads + Wait + Clock + Sync,
    D: TileStore + Send,
    G: Stage + Sync,
    B: Bell + Sync,
>(
    rt: &R,
    alloc: Global,
    farm: &SharedFarm<D>,
    pool: &mut [Actor<Seat<D>>],
    gate: &G,
    barrier: &StartBarrier,
    bells: &Bells<B>,
)
    requires { All (λ a. IsReady farm.now a) pool.old }
    ensures long { length pool.new ≡ length pool.old }
    ensures each { (i : ℕ) (d : Actor (SeatState (Turned D) Entry)) → i < length pool.old
        → HasWorked farm.now (slice_index_or pool.old i d) (slice_index_or pool.new i d) }
{
    cross::<D>();
    for_each_mut(
        rt,
        pool,
        16,
        &|_, actor| { work_post(rt, alloc, farm, actor, gate, barrier, bells) },
    );
}

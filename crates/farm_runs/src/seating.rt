//! The seats of a run.
ghost use Rattle.std.specs.Prelude.{◌≡◌, ◌≤◌, ◌+◌, true, [], All, length, None, IfOk};
ghost use Rattle.std.specs.Vec.{vec_capacity, vec_len};
ghost use Rattle.farm_runs.specs.Actors.{IsFrontSeat, IsReady};
ghost use Rattle.farm_runs.specs.inner.Chain.{IsStart, Numbered};
ghost use Rattle.turn_cell.specs.SeatStates.{IsSeatOf, Knows, split_left, split_right};

use crate::each_front::EachFront;
use crate::pool::Actor;
use crossbeam_utils::sync::{Parker, Unparker};
use farm_base::NoMemory;
use farm_shared::{Seat, SharedFarm};
use std::alloc::Global;
use tile_store::TileStore;

/// What the workers sleep on, and what wakes them.
#[derive(Drop)]
pub struct Parking {
    pub parkers: Vec<Parker>,
    pub sleepers: Vec<Unparker>,
}

/// As many of both as there are workers.
pub fn parking_for(alloc: Global, workers: u32) -> Result<Parking, NoMemory>
    ensures { IfOk result (λ n. vec_len n.parkers ≡ workers) }
{
    let mut parkers = Vec::new(alloc);
    let mut sleepers = Vec::new(alloc);
    for _ in 0..workers {
        let parker = Parker::new(alloc)?;
        sleepers.push(parker.unparker().clone()?)?;
        parkers.push(parker)?;
    }
    Ok(Parking { parkers, sleepers })
}

fn take_seat<D: TileStore>(farm: &SharedFarm<D>, own: &mut Seat<D>) -> Seat<D>
    requires seat { IsSeatOf farm.now own.old }
    requires first { own.old.first ≡ true }
    ensures own { own.new ≡ split_left own.old }
    ensures new { result ≡ split_right own.old }
    ensures known { Knows result }
{
    let Ok(seat) = farm.split(own) else {
        unreachable!()
    };
    seat
}

/// The seats of the fronts, which are the first to be split.
pub fn seat_fronts<D: TileStore>(farm: &SharedFarm<D>, own: &mut Seat<D>) -> EachFront<Seat<D>>
    requires seat { IsSeatOf farm.now own.old }
    requires first { own.old.first ≡ true }
    requires unsplit { own.old.splits ≡ 0 }
    ensures own { own.new ≡ split_left (split_left (split_left own.old)) }
    ensures renderd { IsFrontSeat farm.now 0 result.renderd }
    ensures tiles { IsFrontSeat farm.now 1 result.tiles }
    ensures control { IsFrontSeat farm.now 2 result.control }
{
    let renderd = take_seat(farm, own);
    let tiles = take_seat(farm, own);
    let control = take_seat(farm, own);
    EachFront {
        renderd,
        tiles,
        control,
    }
}

/// The workers, each with a seat that is split next and with something to sleep on; there is room for all of them.
pub fn seat_pool<D: TileStore>(
    farm: &SharedFarm<D>,
    own: &mut Seat<D>,
    parkers: Vec<Parker>,
    pool: &mut Vec<Actor<Seat<D>>>,
)
    requires own { IsStart farm.now 0 own.old }
    requires few { vec_len parkers ≤ 16 }
    requires room { vec_len parkers ≤ vec_capacity pool.old }
    requires empty { pool.old.items ≡ [] }
    ensures own { IsStart farm.now (vec_len parkers) own.new }
    ensures long { length pool.new.items ≡ vec_len parkers }
    ensures ready { All (λ a. IsReady farm.now a) pool.new.items }
    ensures numbered { Numbered 0 pool.new.items }
{
    let mut parkers = parkers;
    let mut worker = 0;
    while let Some(parker) = parkers.pop() {
        let seat = take_seat(farm, own);
        let actor = Actor {
            worker,
            seat,
            parker,
            end: None,
        };
        let Ok(()) = pool.push(actor) else {
            unreachable!()
        };
        worker += 1;
    }
}

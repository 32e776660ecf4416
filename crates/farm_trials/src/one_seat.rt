//! The life of one metatile through the first seat that is split from a shared farm, which asks, claims, finishes and
//! collects: it is expired while it is drawn, asked for then, and drawn anew. Each call has the answer that a farm of one
//! thread gives. That a job may not be finished twice needs no call: its seat has handed it over.
ghost use Rattle.std.specs.Prelude.{◌≡◌, IfSome};
ghost use Rattle.farm_plan.specs.Plans.{IsPlan};
ghost use Rattle.turn_cell.specs.SeatStates.{IsSeatOf, first_of};
ghost use Rattle.farm_trials.specs.Seats.{IsFront};

use crate::plans::inputs;
use farm_core::{Claimed, Farm, FarmPlan, Job};
use farm_files::ScriptInputs;
use farm_history::{
    AskAnswer, Cmd, Collected, Conn, Fetched, Finished, Looked, Outcome, Spot, Why,
};
use farm_shared::{Seat, SharedFarm};
use plain_world::{Meta, Tile};
use render_workers::draw;
use std::alloc::Global;
use std::sync::Wait;
use tile_store::{MemStore, TileStore};

/// The one tile of zoom 0, and its metatile.
const WORLD: Spot = Spot {
    map: Some(0),
    z: 0,
    x: 0,
    y: 0,
};

const META: Meta = Meta { z: 0, x: 0, y: 0 };

/// A tile of zoom 5.
const WITHIN: Tile = Tile { z: 5, x: 3, y: 3 };

fn ask<R: Wait, D: TileStore>(
    rt: &R,
    farm: &SharedFarm<D>,
    seat: &mut Seat<D>,
    number: u32,
) -> Option<AskAnswer>
    requires { IsFront farm.now seat.old }
    ensures { IsFront farm.now seat.new }
{
    let conn = Conn { front: 0, number };
    farm.ask(rt, seat, conn, Cmd::Render, WORLD).ok()
}

// Whether the reply is to this ask of this connection, which has what it asked for.
fn is_reply(collected: Option<Collected>, number: u32, ask: u64) -> bool {
    match collected {
        Some(Collected::Reply(reply)) => {
            reply.conn == Conn { front: 0, number }
                && reply.ask == ask
                && reply.outcome == Outcome::Done
        }
        _ => false,
    }
}

fn collect<R: Wait, D: TileStore>(
    rt: &R,
    farm: &SharedFarm<D>,
    seat: &mut Seat<D>,
) -> Option<Collected>
    requires { IsFront farm.now seat.old }
    ensures { IsFront farm.now seat.new }
{
    farm.collect(rt, seat, 0).ok()
}

fn is_job(job: &Job, ticket: u64) -> bool {
    job.ticket == ticket && job.map == 0 && job.meta == META && job.version == 0
}

fn draw_expired<R: Wait, D: TileStore>(
    rt: &R,
    farm: &SharedFarm<D>,
    seat: &mut Seat<D>,
    alloc: Global,
) -> bool
    requires { IsFront farm.now seat.old }
    ensures { IsFront farm.now seat.new }
{
    let Ok(Claimed::Job(job)) = farm.claim(rt, seat, 0) else {
        return false;
    };
    let is_first = is_job(&job, 0);
    let conn = Conn {
        front: 0,
        number: 2,
    };
    let expired = farm.expire(rt, seat, WITHIN);
    let asked = farm.ask(rt, seat, conn, Cmd::Render, WORLD);
    let drawn = draw(alloc, &job);
    let finished = farm.finish(rt, seat, alloc, job, drawn);
    is_first
        && matches!(expired, Ok(0))
        && matches!(asked, Ok(AskAnswer::NotDone(Why::Overtaken)))
        && matches!(finished, Ok(Finished::Stored(false)))
}

fn draw_anew<R: Wait, D: TileStore>(
    rt: &R,
    farm: &SharedFarm<D>,
    seat: &mut Seat<D>,
    alloc: Global,
) -> bool
    requires { IsFront farm.now seat.old }
    ensures { IsFront farm.now seat.new }
{
    let Ok(Claimed::Job(job)) = farm.claim(rt, seat, 0) else {
        return false;
    };
    let is_second = is_job(&job, 1);
    let drawn = draw(alloc, &job);
    let finished = farm.finish(rt, seat, alloc, job, drawn);
    is_second && matches!(finished, Ok(Finished::Stored(true)))
}

fn begin<R: Wait, D: TileStore>(
    rt: &R,
    farm: &SharedFarm<D>,
    seat: &mut Seat<D>,
    alloc: Global,
) -> [bool; 5]
    requires { IsFront farm.now seat.old }
    ensures { IsFront farm.now seat.new }
{
    let first = ask(rt, farm, seat, 0);
    let second = ask(rt, farm, seat, 1);
    let is_asked = matches!(first, Some(AskAnswer::Queued(0)))
        && matches!(second, Some(AskAnswer::Joined(1)));
    let is_drawn = draw_expired(rt, farm, seat, alloc);
    let first = collect(rt, farm, seat);
    let second = collect(rt, farm, seat);
    let third = collect(rt, farm, seat);
    [
        is_asked,
        is_drawn,
        is_reply(first, 0, 0),
        is_reply(second, 1, 1),
        matches!(third, Some(Collected::Empty)),
    ]
}

// What was expired is asked for again and drawn anew.
fn go_on<R: Wait, D: TileStore>(
    rt: &R,
    farm: &SharedFarm<D>,
    seat: &mut Seat<D>,
    alloc: Global,
) -> [bool; 5]
    requires { IsFront farm.now seat.old }
    ensures { IsFront farm.now seat.new }
{
    let lifted = ask(rt, farm, seat, 2);
    let looked = farm.look(rt, seat, WORLD);
    let is_drawn = draw_anew(rt, farm, seat, alloc);
    let done = ask(rt, farm, seat, 2);
    let fetched = farm.fetch(rt, seat, alloc, WORLD);
    [
        matches!(lifted, Some(AskAnswer::Lifted(2))),
        matches!(looked, Ok(Looked::Dirty(0))),
        is_drawn,
        matches!(done, Some(AskAnswer::Done)),
        matches!(&fetched, Ok(Fetched::Clean(0, bytes)) if bytes.as_slice().len() == 781),
    ]
}

/// A shared farm of this plan, over a store in memory, and its first seat.
#[tactic(auto, using(farm_shared::proofs::Shares::is_short))]
pub(crate) fn share(alloc: Global, plan: FarmPlan) -> Option<(SharedFarm<MemStore>, Seat<MemStore>)>
    requires { IsPlan plan }
    ensures { IfSome result (λ made. IsSeatOf made.0 made.1 × (made.1 ≡ first_of made.0)) }
{
    let Ok(store) = MemStore::new(alloc, Vec::new(alloc), Vec::new(alloc), Vec::new(alloc)) else {
        drop(plan);
        return None;
    };
    let Ok(farm) = Farm::start(alloc, plan, store) else {
        return None;
    };
    SharedFarm::new(alloc, farm).ok()
}

fn live<R: Wait>(rt: &R, alloc: Global, plan: FarmPlan) -> Option<[[bool; 5]; 2]>
    requires { IsPlan plan }
{
    let Some((farm, first)) = share(alloc, plan) else {
        return None;
    };
    let mut first = first;
    let mut seat = farm.split(&mut first).unwrap();
    let begun = begin(rt, &farm, &mut seat, alloc);
    let later = go_on(rt, &farm, &mut seat, alloc);
    farm.join(&mut first, seat);
    drop(farm.close(first));
    Some([begun, later])
}

/// The life of a metatile through one seat.
pub fn the_life_of_a_metatile<R: Wait>(rt: &R, alloc: Global) -> Option<[[bool; 5]; 2]> {
    let Some(ScriptInputs { inputs, script }) = inputs(alloc) else {
        return None;
    };
    drop(script);
    live(rt, alloc, inputs.plan)
}

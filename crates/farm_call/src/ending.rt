//! The end of a farm that has served.
ghost use Rattle.std.specs.Prelude.{◌≡◌, ◌≤◌, ◌<◌, ◌||◌, [], ◌∷◌, ◌++◌, not, is_none};
ghost use Rattle.std.specs.Vec.{vec_capacity, vec_len};
ghost use Rattle.farm_shared.specs.Shared.{IsAfter};
ghost use Rattle.farm_call.specs.Serves.{fronts_of};
ghost use Rattle.farm_call.specs.inner.Steps.{EndsRun};

use crate::left::{Done, Left};
use crate::reasons::why_ended;
use crate::winding::wind_up;
use farm_base::Sink;
use farm_plan::Tally;
use farm_runs::{EachFront, Run};
use reactor_ports::FrontDone;
use std::alloc::Global;
use tile_store::TileStore;

fn add(all: &mut Vec<FrontDone>, done: FrontDone)
    requires room { vec_len all.old < vec_capacity all.old }
    ensures items { all.new.items ≡ all.old.items ++ done ∷ [] }
    ensures room { vec_capacity all.old ≤ vec_capacity all.new }
{
    let Ok(()) = all.push(done) else {
        unreachable!()
    };
}

fn in_order(room: Vec<FrontDone>, fronts: EachFront<FrontDone>) -> Vec<FrontDone>
    requires empty { room.items ≡ [] }
    requires room { 3 ≤ vec_capacity room }
    ensures { result.items ≡ fronts_of fronts }
{
    let mut all = room;
    let EachFront {
        renderd,
        tiles,
        control,
    } = fronts;
    add(&mut all, renderd);
    add(&mut all, tiles);
    add(&mut all, control);
    all
}

fn is_worn_out(worn: bool, stopped: bool, tally: &Option<Tally>) -> bool
    ensures { result ≡ (worn || not stopped || is_none tally.now) }
{
    worn || !stopped || tally.is_none()
}

/// Ends a farm that has run: it is saved where it is to resume and ended in order, and the line of its counts is put.
pub fn end_run<D: TileStore, O: Sink>(
    alloc: Global,
    resume: bool,
    room: Vec<FrontDone>,
    run: Run<D>,
    out: &mut O,
) -> Done<D>
    requires after { IsAfter D.state run.closed.0 run.closed.1 }
    requires empty { room.items ≡ [] }
    requires room { 3 ≤ vec_capacity room }
    ensures { EndsRun D.state resume run (O.state out.old) (O.state out.new) result }
{
    let Run {
        closed,
        fronts,
        stopped,
        tally,
        worn,
    } = run;
    let mut closed = closed;
    let ends = [fronts.renderd.end, fronts.tiles.end, fronts.control.end];
    let why = why_ended(is_worn_out(worn, stopped, &tally), &ends);
    let end = wind_up(alloc, resume, why, tally, &mut closed, out);
    Done {
        end,
        left: Left::Farm(closed),
        fronts: in_order(room, fronts),
    }
}

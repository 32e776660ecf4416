//! The end of a run: all seats are joined, the counts are taken, and the farm is closed.
ghost use Rattle.std.specs.Prelude.{◌≡◌, ◌+◌, true, length};
ghost use Rattle.std.specs.List.{list_any};
ghost use Rattle.farm_history.specs.Lists.{Each};
ghost use Rattle.turn_cell.specs.SeatStates.{IsSeatOf, Knows};
ghost use Rattle.turn_cell.specs.Turns.{StartsWith};
ghost use Rattle.farm_runs.specs.Promise.{is_worker_worn};
ghost use Rattle.farm_runs.specs.inner.Chain.{IsEnd, IsSpent, ends_in, first_seat_after};

use crate::pool::Actor;
use farm_plan::Tally;
use farm_shared::{Closed, Seat, SharedFarm};
use render_workers::WorkEnd;
use std::sync::Wait;
use tile_store::TileStore;

// Whether a worker ended since all turns were drawn.
fn ended_worn(end: &Option<WorkEnd>) -> bool
    ensures { result ≡ is_worker_worn end.now }
{
    matches!(end, Some(WorkEnd::Worn))
}

// Joins the workers' seats into the first, from the last one on: whether a worker ended since all turns were drawn.
fn gather<D: TileStore>(farm: &SharedFarm<D>, own: &mut Seat<D>, pool: Vec<Actor<Seat<D>>>) -> bool
    requires seat { IsSeatOf farm.now own.old }
    requires first { own.old.first ≡ true }
    requires known { Knows own.old }
    requires pool { Each (λ a. IsSpent farm.now a) pool.items }
    ensures own { own.new ≡ first_seat_after own.old pool.items }
    ensures seat { IsSeatOf farm.now own.new }
    ensures known { Knows own.new }
    ensures longer { StartsWith own.new.seen own.old.seen }
    ensures worn { result ≡ list_any is_worker_worn (ends_in pool.items) }
{
    let mut pool = pool;
    let mut worn = false;
    while let Some(actor) = pool.pop() {
        let Actor {
            worker: _,
            seat,
            parker: _,
            end,
        } = actor;
        farm.join(own, seat);
        worn = ended_worn(&end) || worn;
    }
    worn
}

/// Ends a run whose threads have ended: joins all seats into the first, takes the farm's counts, and closes it. Answers
/// what is left, the counts, which are not had only where all turns were drawn, and whether a worker ended for that.
pub fn close_run<R: Wait, D: TileStore>(
    rt: &R,
    farm: SharedFarm<D>,
    own: Seat<D>,
    pool: Vec<Actor<Seat<D>>>,
) -> (Closed<D>, Option<Tally>, bool)
    requires seat { IsSeatOf farm own }
    requires first { own.first ≡ true }
    requires known { Knows own }
    requires pool { Each (λ a. IsSpent farm a) pool.items }
    requires whole { own.splits ≡ length own.joined + length pool.items }
    ensures end { IsEnd D.state farm own pool.items result.1 result.0 }
    ensures worn { result.2 ≡ list_any is_worker_worn (ends_in pool.items) }
{
    let mut own = own;
    let worn = gather(&farm, &mut own, pool);
    let tally = match farm.tally(rt, &mut own) {
        Ok(tally) => Some(tally),
        Err(_) => None,
    };
    (farm.close(own), tally, worn)
}

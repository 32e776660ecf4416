//! One step of generated work.
ghost use Rattle.std.specs.Prelude.{◌≡◌, ◌≢◌, ◌<◌, ◌+◌, ◌^◌, ◌||◌, Bool, List, true, false};
ghost use Rattle.farm_base.specs.Limits.{most_turns};
ghost use Rattle.plain_world.specs.World.{IsTile};
ghost use Rattle.farm_history.specs.Entries.{Entry};
ghost use Rattle.farm_history.specs.Plans.{spot_tile};
ghost use Rattle.farm_refinement.specs.Stands.{StandsFor};
ghost use Rattle.farm_core.specs.Answers.{Lasts};
ghost use Rattle.load_command.specs.inner.Progress.{Expires, weight, Grows, Draws, CollectsAll, FetchesOne, Steps};
ghost use Rattle.farm_history.specs.declared.answers.Finished.TheVariants as finished;
ghost use Rattle.farm_history.specs.declared.answers.Fetched.TheVariants as fetched;
ghost use Rattle.work_gen.specs.declared.stepping.Step.{Step};

use farm_base::NoMemory;
use farm_core::{Claimed, Drawn, Farm};
use farm_plan::{Cmd, Collected, Conn, Fetched, Finished, Spot};
use meta_drawing::draw_job;
use plain_world::Tile;
use script_text::{is_failed_fetch, is_failed_finish};
use std::alloc::Global;
use tile_store::TileStore;
use work_gen::Step;

/// The connection of all asks.
const LOADER: Conn = Conn {
    front: 0,
    number: 0,
};

/// What a step fetched, and whether a call of the store failed in it.
#[derive(Drop)]
pub(crate) struct StepSeen {
    pub(crate) fetched: Fetched,
    pub(crate) failed: bool,
}

fn expire_marked<D: TileStore>(farm: &mut Farm<D>, step: Step)
    requires stands { (store_tells : Bool) × (g : List Entry)
        × StandsFor D.state store_tells farm.old g × (weight g < most_turns) }
    requires tile { IsTile (spot_tile step.spot) }
    ensures grows { (store_tells : Bool) (g : List Entry) → StandsFor D.state store_tells farm.old g
        → Grows D.state store_tells farm.new (weight g + 1) (Expires step g) }
    ensures kept { Lasts D.state farm.old farm.new }
{
    if step.expire {
        let Spot { map: _, z, x, y } = step.spot;
        farm.expire(Tile { z, x, y });
    }
}

fn is_wanting(answer: Finished) -> bool
    ensures yes { result ≡ true → answer ≡ finished.NoMemory }
    ensures no { result ≡ false → answer ≢ finished.NoMemory }
{
    match answer {
        Finished::NoMemory => true,
        _ => false,
    }
}

// Claims what waits first; a job is drawn and finished. Answers whether its put failed.
fn draw_next<D: TileStore>(alloc: Global, farm: &mut Farm<D>) -> Result<bool, NoMemory>
    requires stands { (store_tells : Bool) × (g : List Entry)
        × StandsFor D.state store_tells farm.old g × (weight g < most_turns) }
    ensures grows { (store_tells : Bool) (g : List Entry) (step : Step)
        → StandsFor D.state store_tells farm.old g
        → Grows D.state store_tells farm.new (weight g + 2) (Draws step g result) }
    ensures kept { Lasts D.state farm.old farm.new }
{
    let job = match farm.claim(0) {
        Claimed::Job(job) => job,
        _ => return Ok(false),
    };
    let bytes = match draw_job(alloc, &job) {
        Ok(bytes) => bytes,
        Err(_) => return Err(NoMemory),
    };
    let answer = farm.finish(alloc, job, Drawn::Bytes(bytes));
    if is_wanting(answer) {
        return Err(NoMemory);
    }
    Ok(is_failed_finish(answer))
}

fn collect_all<D: TileStore>(farm: &mut Farm<D>)
    requires stands { (store_tells : Bool) × (g : List Entry)
        × StandsFor D.state store_tells farm.old g × (weight g < most_turns) }
    ensures grows { (store_tells : Bool) (g : List Entry) → StandsFor D.state store_tells farm.old g
        → Grows D.state store_tells farm.new (weight g + 1) (CollectsAll g) }
    ensures kept { Lasts D.state farm.old farm.new }
{
    while let Collected::Reply(_) = farm.collect(0) {}
}

fn is_short(answer: &Fetched) -> bool
    ensures yes { result ≡ true → answer.now ≡ fetched.NoMemory }
    ensures no { result ≡ false → answer.now ≢ fetched.NoMemory }
{
    match answer {
        Fetched::NoMemory => true,
        _ => false,
    }
}

fn either(one: bool, other: bool) -> bool
    ensures { result ≡ (one || other) }
{
    one || other
}

// Fetches the tile of a spot; `lost` tells whether a call of the store failed in the step before.
fn fetch_one<D: TileStore>(
    alloc: Global,
    farm: &mut Farm<D>,
    spot: Spot,
    lost: bool,
) -> Result<StepSeen, NoMemory>
    requires stands { (store_tells : Bool) × (g : List Entry)
        × StandsFor D.state store_tells farm.old g × (weight g < most_turns) }
    ensures grows { (store_tells : Bool) (g : List Entry) → StandsFor D.state store_tells farm.old g
        → Grows D.state store_tells farm.new (weight g + 1) (FetchesOne spot lost g result) }
    ensures kept { Lasts D.state farm.old farm.new }
{
    let fetched = farm.fetch(alloc, spot);
    if is_short(&fetched) {
        return Err(NoMemory);
    }
    let failed = either(is_failed_fetch(&fetched), lost);
    Ok(StepSeen { fetched, failed })
}

/// Runs a step: its tile is expired, if so marked, and asked for; what waits first is drawn; the replies are
/// collected; and the tile is fetched.
pub(crate) fn run_step<D: TileStore>(
    alloc: Global,
    farm: &mut Farm<D>,
    step: &Step,
) -> Result<StepSeen, NoMemory>
    requires stands { (store_tells : Bool) × (g : List Entry)
        × StandsFor D.state store_tells farm.old g × (weight g < 2 ^ 61) }
    requires tile { IsTile (spot_tile step.now.spot) }
    ensures grows { (store_tells : Bool) (g : List Entry) → StandsFor D.state store_tells farm.old g
        → Grows D.state store_tells farm.new (weight g + 7) (Steps step.now g result) }
    ensures kept { Lasts D.state farm.old farm.new }
{
    expire_marked(farm, *step);
    farm.ask(LOADER, Cmd::Render, step.spot);
    let lost = match draw_next(alloc, farm) {
        Ok(lost) => lost,
        Err(_) => return Err(NoMemory),
    };
    collect_all(farm);
    fetch_one(alloc, farm, step.spot, lost)
}

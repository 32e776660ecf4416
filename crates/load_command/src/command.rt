//! The whole of generated work.
ghost use Rattle.std.specs.Prelude.{◌≡◌, ◌≤◌, Bool, List, [], length, None};
ghost use Rattle.plain_world.specs.World.{IsTile};
ghost use Rattle.farm_history.specs.Lists.{Each};
ghost use Rattle.farm_history.specs.Plans.{spot_tile};
ghost use Rattle.farm_refinement.specs.Stands.{StandsFor};
ghost use Rattle.farm_core.specs.Answers.{Lasts};
ghost use Rattle.farm_core.specs.Begins.{Begins};
ghost use Rattle.work_gen.specs.Work.{work_plan};
ghost use Rattle.script_text.specs.Left.{Leaves};
ghost use Rattle.load_command.specs.Runs.{Loads, LoadsOn};
ghost use Rattle.load_command.specs.inner.Progress.{Runs, TellsLine};

use crate::steps::run_step;
use crate::totals::Totals;
use exit_status::{Stop, put};
use farm_base::{NoMemory, Sink};
use farm_core::Farm;
use std::alloc::Global;
use tile_store::TileStore;
use work_gen::{Step, plan, steps};

fn run_steps<D: TileStore>(
    alloc: Global,
    farm: &mut Farm<D>,
    steps: &[Step],
) -> Result<Totals, NoMemory>
    requires stands { (store_tells : Bool) × StandsFor D.state store_tells farm.old [] }
    requires tiles { Each (λ s. IsTile (spot_tile s.spot)) steps.now }
    requires few { length steps.now ≤ 32 }
    ensures run { (store_tells : Bool) → StandsFor D.state store_tells farm.old []
        → Runs D.state store_tells farm.new steps.now result }
    ensures kept { Lasts D.state farm.old farm.new }
{
    let mut totals = Totals::none();
    for step in steps {
        let seen = match run_step(alloc, farm, step) {
            Ok(seen) => seen,
            Err(_) => return Err(NoMemory),
        };
        totals = totals.with(&seen);
    }
    Ok(totals)
}

fn tell<O: Sink>(out: &mut O, line: &str, failed: bool) -> Result<(), Stop>
    ensures { TellsLine (O.state out.old) (O.state out.new) line.now failed result }
{
    put(out, line.as_bytes())?;
    if failed {
        return Err(Stop::StoreFailed);
    }
    Ok(())
}

// Runs all steps of the work on a farm that just began, and puts the line that sums it up.
fn work_on<D: TileStore, O: Sink>(
    alloc: Global,
    farm: &mut Farm<D>,
    seed: u64,
    features: u32,
    out: &mut O,
) -> Result<(), Stop>
    requires few { features ≤ 100000 }
    requires stands { (store_tells : Bool) × StandsFor D.state store_tells farm.old [] }
    ensures run { (store_tells : Bool) → StandsFor D.state store_tells farm.old []
        → LoadsOn seed features (λ h. StandsFor D.state store_tells farm.new h) (O.state out.old)
        (O.state out.new) result }
    ensures kept { Lasts D.state farm.old farm.new }
{
    let all = steps(seed, features);
    let totals = match run_steps(alloc, farm, all.as_slice()) {
        Ok(totals) => totals,
        Err(_) => return Err(Stop::NoMemory),
    };
    match totals.line(alloc, features) {
        Ok(line) => tell(out, line.as_str(), totals.has_failed()),
        Err(_) => Err(Stop::NoMemory),
    }
}

fn run_on<D: TileStore, O: Sink>(
    alloc: Global,
    farm: Farm<D>,
    seed: u64,
    features: u32,
    out: &mut O,
) -> (Result<(), Stop>, D)
    requires few { features ≤ 100000 }
    requires begins { (store : D) × Begins D.state (work_plan seed features) None store farm }
    ensures { (store : D) → Begins D.state (work_plan seed features) None store farm
        → Leaves D.state (work_plan seed features)
        store result.1 (λ stands. LoadsOn seed features stands (O.state out.old)
        (O.state out.new) result.0) }
{
    let mut farm = farm;
    let end = work_on(alloc, &mut farm, seed, features, out);
    (end, farm.into_store())
}

/// Runs generated work over the store and puts the line that sums it up: a farm of the plan of so many
/// features, from 1 to 100,000, is started over the store; for each of the 32 steps its tile is expired, if so
/// marked, and asked for, what waits is drawn, the replies are collected, and the tile is fetched. Hands the
/// store back with what was put into it.
///
/// A call of the store that fails does not stop it; then the end is StoreFailed. SinkFailed where the put of
/// the line failed. NoMemory is the first want of memory, and then nothing is put on `out`.
pub fn load<O: Sink, D: TileStore>(
    alloc: Global,
    seed: u64,
    features: u32,
    out: &mut O,
    store: D,
) -> (Result<(), Stop>, D)
    requires { features ≤ 100000 }
    ensures { Loads D.state seed features store result.1 (O.state out.old)
        (O.state out.new) result.0 }
{
    let Ok(plan) = plan(alloc, seed, features) else {
        return (Err(Stop::NoMemory), store);
    };
    match Farm::start(alloc, plan, store) {
        Ok(farm) => run_on(alloc, farm, seed, features, out),
        Err(store) => (Err(Stop::NoMemory), store),
    }
}

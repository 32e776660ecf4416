//! A script on a farm of one thread, by the call that answers its end alone.
ghost use Rattle.std.specs.Prelude.{None};
ghost use Rattle.farm_core.specs.Begins.{Begins};
ghost use Rattle.farm_plan.specs.Plans.{IsPlan};

use crate::plans::inputs;
use farm_base::{MemSink, Sink};
use farm_core::{Farm, FarmPlan};
use farm_files::ScriptInputs;
use script_text::{Script, ScriptEnd, run};
use std::alloc::Global;
use tile_store::{MemStore, TileStore};

const ANSWERS: &[u8] =
    b"queued 0\njoined 1\njob 0 default 0 0 0 0\nidle\nclean\nnojob\nreply 0 0 done\nreply 1 1 done\nempty\ndone\n";

fn run_on<D: TileStore + Drop, O: Sink>(
    alloc: Global,
    farm: Farm<D>,
    script: &Script,
    out: &mut O,
) -> ScriptEnd
    requires { (store : D) × Begins D.state farm.plan None store farm }
{
    let mut farm = farm;
    let end = run(alloc, &mut farm, script, out);
    drop(farm.into_store());
    end
}

fn run_over<O: Sink>(
    alloc: Global,
    plan: FarmPlan,
    script: &Script,
    out: &mut O,
) -> Option<ScriptEnd>
    requires { IsPlan plan }
{
    let Ok(store) = MemStore::new(alloc, Vec::new(alloc), Vec::new(alloc), Vec::new(alloc)) else {
        drop(plan);
        return None;
    };
    let Ok(farm) = Farm::start(alloc, plan, store) else {
        return None;
    };
    Some(run_on(alloc, farm, script, out))
}

fn end_of<O: Sink>(alloc: Global, out: &mut O) -> Option<ScriptEnd> {
    let ScriptInputs { inputs, script } = inputs(alloc)?;
    let end = run_over(alloc, inputs.plan, &script, out);
    drop(script);
    end
}

/// A script on a farm of one thread.
pub fn a_script_is_answered(alloc: Global) -> Option<[bool; 2]> {
    let mut out = MemSink::new(alloc, 1000, Vec::new(alloc)).ok()?;
    let end = end_of(alloc, &mut out);
    Some([matches!(end, Some(ScriptEnd::Done)), out.bytes() == ANSWERS])
}

//! The files are read in order, a farm is started, and the script runs on it.
ghost use Rattle.std.specs.Prelude.{◌≡◌, None};
ghost use Rattle.farm_plan.specs.Plans.{IsPlan};
ghost use Rattle.farm_core.specs.Begins.{Begins};
ghost use Rattle.farm_files.specs.Courses.{script_course};
ghost use Rattle.script_text.specs.Left.{Leaves};
ghost use Rattle.script_command.specs.Scripts.{Scripts, ScriptsOn};
ghost use Rattle.script_command.specs.inner.Runs.{Runs, command_end};

use exit_status::Stop;
use farm_base::{Files, Sink};
use farm_core::Farm;
use farm_files::{ScriptInputs, script_files};
use script_text::{Script, ScriptEnd, ScriptRun, run_noting};
use std::alloc::Global;
use tile_store::TileStore;

fn end_of(run: ScriptRun) -> Result<(), Stop>
    ensures { result ≡ command_end run.failed run.end }
{
    match run.end {
        ScriptEnd::Done => {
            if run.failed {
                Err(Stop::StoreFailed)
            } else {
                Ok(())
            }
        }
        ScriptEnd::SinkFailed => Err(Stop::SinkFailed),
        ScriptEnd::NoMemory => Err(Stop::NoMemory),
    }
}

fn run_on<D: TileStore, O: Sink>(
    alloc: Global,
    farm: Farm<D>,
    script: &Script,
    out: &mut O,
) -> (Result<(), Stop>, D)
    requires { (store : D) × Begins D.state farm.plan None store farm }
    ensures { (store : D) → Begins D.state farm.plan None store farm
        → Leaves D.state farm.plan store result.1 (λ stands. ScriptsOn farm.plan script.now stands
        (O.state out.old) (O.state out.new) result.0) }
{
    let mut farm = farm;
    let run = run_noting(alloc, &mut farm, script, out);
    (end_of(run), farm.into_store())
}

fn run_over<D: TileStore, O: Sink>(
    alloc: Global,
    scripted: ScriptInputs,
    out: &mut O,
    store: D,
) -> (Result<(), Stop>, D)
    requires { IsPlan scripted.inputs.plan }
    ensures { Scripts D.state scripted store result.1 (O.state out.old) (O.state out.new) result.0 }
{
    let ScriptInputs { inputs, script } = scripted;
    match Farm::start(alloc, inputs.plan, store) {
        Ok(farm) => run_on(alloc, farm, &script, out),
        Err(store) => (Err(Stop::NoMemory), store),
    }
}

/// Runs the script of one file on the farm of another, its configuration, over the store. The files are read
/// in this order, each checked before the next is read: the configuration, the styles of its maps, each with
/// its rasters, its restyles likewise, the data, the updates, the expiry lists, the script. The first that is
/// refused or cannot be read ends the command, and then nothing is put and the store is as it was. Else each
/// answer is put on `out` before the next line is run. Hands the store back with what was put into it.
///
/// A call of the store that fails does not stop it; then the end is StoreFailed. SinkFailed at the first put on
/// `out` that failed, NoMemory at the first want of memory, but for that of a line `cut`.
pub fn script<F: Files, O: Sink, D: TileStore>(
    alloc: Global,
    config: &str,
    script: &str,
    files: &mut F,
    out: &mut O,
    store: D,
) -> (Result<(), Stop>, D)
    ensures { Runs D.state (script_course config.now script.now) (F.state files.old)
        (F.state files.new) store result.1 (O.state out.old) (O.state out.new) result.0 }
{
    match script_files(alloc, files, config, script) {
        Ok(scripted) => run_over(alloc, scripted, out, store),
        Err(stop) => (Err(stop), store),
    }
}

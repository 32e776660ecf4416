//! A whole script.
ghost use Rattle.std.specs.Prelude.{◌≡◌, ◌<◌, Bool, List};
ghost use Rattle.farm_base.specs.Limits.{most_turns};
ghost use Rattle.farm_history.specs.Entries.{Entry};
ghost use Rattle.farm_refinement.specs.Stands.{StandsFor};
ghost use Rattle.farm_core.specs.Answers.{Lasts};
ghost use Rattle.script_text.specs.Runs.{Runs};

use crate::answers::answer;
use crate::ends::ScriptEnd;
use crate::said::{has_failed, put_said};
use farm_base::Sink;
use farm_core::Farm;
use script_lines::Script;
use std::alloc::Global;
use tile_store::TileStore;

/// How a script ended, and whether a call of the store failed.
#[derive(Clone, Copy)]
pub struct ScriptRun {
    pub end: ScriptEnd,
    pub failed: bool,
}

/// Runs a script on a farm, which stands for some history and was called fewer than `2^62` times: each line
/// is asked, and its answer put, before the next. It goes on after a failed call of the store. It ends with
/// SinkFailed at the first put that fails, and with NoMemory at the first line that finds no memory, but for
/// the drawing of a line `cut`. Answers also whether a call of the store failed.
pub fn run_noting<D: TileStore, O: Sink>(
    alloc: Global,
    farm: &mut Farm<D>,
    script: &Script,
    out: &mut O,
) -> ScriptRun
    requires few { farm.old.counts.turns < most_turns }
    requires stands { (store_tells : Bool) × (g : List Entry)
        × StandsFor D.state store_tells farm.old g }
    ensures run { (store_tells : Bool) (g : List Entry) → StandsFor D.state store_tells farm.old g
        → Runs farm.old.plan script.now g (λ h. StandsFor D.state store_tells farm.new h)
        (O.state out.old) (O.state out.new) result.failed result.end }
    ensures kept { Lasts D.state farm.old farm.new }
{
    let mut hand = Vec::new(alloc);
    let mut failed = false;
    for line in script.lines.as_slice() {
        let said = match answer(alloc, farm, &mut hand, line) {
            Ok(said) => said,
            Err(_) => {
                return ScriptRun {
                    end: ScriptEnd::NoMemory,
                    failed,
                };
            }
        };
        match put_said(out, &said) {
            Ok(()) => {}
            Err(_) => {
                return ScriptRun {
                    end: ScriptEnd::SinkFailed,
                    failed,
                };
            }
        }
        failed = has_failed(&said, failed);
    }
    ScriptRun {
        end: ScriptEnd::Done,
        failed,
    }
}

/// Runs a script as `run_noting` does, and answers its end alone.
pub fn run<D: TileStore, O: Sink>(
    alloc: Global,
    farm: &mut Farm<D>,
    script: &Script,
    out: &mut O,
) -> ScriptEnd
    requires few { farm.old.counts.turns < most_turns }
    requires stands { (store_tells : Bool) × (g : List Entry)
        × StandsFor D.state store_tells farm.old g }
    ensures run { (store_tells : Bool) (g : List Entry) → StandsFor D.state store_tells farm.old g
        → (failed : Bool)
        × Runs farm.old.plan script.now g (λ h. StandsFor D.state store_tells farm.new h)
        (O.state out.old) (O.state out.new) failed result }
    ensures kept { Lasts D.state farm.old farm.new }
{
    run_noting(alloc, farm, script, out).end
}

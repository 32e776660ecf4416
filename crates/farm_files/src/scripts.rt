//! The files of the commands that run a farm.
ghost use Rattle.std.specs.Prelude.{◌≡◌, IfOk};
ghost use Rattle.script_lines.specs.Scripts.{script_in};
ghost use Rattle.exit_status.specs.LineFaults.{script_text};
ghost use Rattle.farm_files.specs.Course.{file};
ghost use Rattle.farm_files.specs.inner.Follows.{Follows};
ghost use Rattle.farm_plan.specs.Plans.{IsPlan};
ghost use Rattle.farm_files.specs.Courses.{inputs_course, script_course, serve_course};

use crate::configs::{addressed_file, config_file};
use crate::files::{checked, read_file};
use crate::inputs::{FarmInputs, farm_inputs};
use exit_status::Stop;
use farm_base::Files;
use farm_config::Config;
use script_lines::{Script, read_script};
use std::alloc::Global;
use std::marker::Model;

/// What the files of a script say: the farm that it runs on, and its lines.
#[derive(Drop)]
pub struct ScriptInputs {
    pub inputs: FarmInputs,
    pub script: Script,
}

impl Model for ScriptInputs {
    ghost use Rattle.farm_files.specs.Inputs.{ScriptInputs};
    ghost use Rattle.plain_filters.specs.inner.FilterCodes.{filter_code};
    ghost use Rattle.std.specs.Coded.{codes};

    ghost Value = { ScriptInputs };

    ghost coded = { Prim.hlevel (codes, filter_code) };

    ghost view = { λ s. record { inputs = s.inputs; script = s.script } };
}

/// What the files of a farm that listens say: its configuration, and what the files of this say.
#[derive(Drop)]
pub struct ServeInputs {
    pub config: Config,
    pub inputs: FarmInputs,
}

impl Model for ServeInputs {
    ghost use Rattle.farm_files.specs.Inputs.{ServeInputs};
    ghost use Rattle.plain_filters.specs.inner.FilterCodes.{filter_code};
    ghost use Rattle.std.specs.Coded.{codes};

    ghost Value = { ServeInputs };

    ghost coded = { Prim.hlevel (codes, filter_code) };

    ghost view = { λ s. record { config = s.config; inputs = s.inputs } };
}

#[tactic(auto, using(crate::proofs::Judged::file_stops))]
fn script_file<F: Files>(alloc: Global, files: &mut F, name: &str) -> Result<Script, Stop>
    ensures { Follows (file script_in script_text name.now) (F.state files.old)
        (F.state files.new) result }
{
    let bytes = read_file(alloc, files, name)?;
    checked(alloc, name, read_script(alloc, bytes.as_slice()))
}

fn named_inputs<F: Files>(alloc: Global, files: &mut F, config: Config) -> Result<FarmInputs, Stop>
    ensures follows { Follows (inputs_course config) (F.state files.old)
        (F.state files.new) result }
    ensures valid { IfOk result (λ i. IsPlan i.plan) }
{
    farm_inputs(alloc, files, &config)
}

/// Reads a configuration, the files that it names, and a script, in this order. The addresses count for
/// nothing. It ends at the first file that is refused or cannot be read.
pub fn script_files<F: Files>(
    alloc: Global,
    files: &mut F,
    config_name: &str,
    script_name: &str,
) -> Result<ScriptInputs, Stop>
    ensures follows { Follows (script_course config_name.now script_name.now) (F.state files.old)
        (F.state files.new) result }
    ensures valid { IfOk result (λ s. IsPlan s.inputs.plan) }
{
    let config = config_file(alloc, files, config_name)?;
    let inputs = named_inputs(alloc, files, config)?;
    match script_file(alloc, files, script_name) {
        Ok(script) => Ok(ScriptInputs { inputs, script }),
        Err(stop) => {
            drop(inputs);
            Err(stop)
        }
    }
}

/// Reads a configuration with all three addresses, and the files that it names. It ends at the first file
/// that is refused or cannot be read.
pub fn serve_files<F: Files>(
    alloc: Global,
    files: &mut F,
    config_name: &str,
) -> Result<ServeInputs, Stop>
    ensures follows { Follows (serve_course config_name.now) (F.state files.old)
        (F.state files.new) result }
    ensures valid { IfOk result (λ s. IsPlan s.inputs.plan) }
{
    let config = addressed_file(alloc, files, config_name)?;
    match farm_inputs(alloc, files, &config) {
        Ok(inputs) => Ok(ServeInputs { config, inputs }),
        Err(stop) => {
            drop(config);
            Err(stop)
        }
    }
}

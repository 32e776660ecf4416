//! Configuration files.
ghost use Rattle.std.specs.Prelude.{◌≡◌};
ghost use Rattle.farm_config.specs.Tables.{config_in};
ghost use Rattle.exit_status.specs.ConfigFaults.{config_text};
ghost use Rattle.farm_files.specs.Course.{file};
ghost use Rattle.farm_files.specs.inner.Follows.{Follows};
ghost use Rattle.reading.specs.Steps.{Gives};
ghost use Rattle.farm_config.specs.declared.fault.ConfigFault.TheVariants as fault;
ghost use Rattle.farm_files.specs.Addresses.{addressed_in, addressed_of};

use crate::files::{checked, read_file};
use exit_status::Stop;
use farm_base::Files;
use farm_config::{Config, ConfigFault, read_config};
use std::alloc::Global;

/// Reads a configuration's file and checks it.
#[tactic(auto, using(crate::proofs::Judged::file_stops))]
pub(crate) fn config_file<F: Files>(
    alloc: Global,
    files: &mut F,
    name: &str,
) -> Result<Config, Stop>
    ensures { Follows (file config_in config_text name.now) (F.state files.old)
        (F.state files.new) result }
{
    let bytes = read_file(alloc, files, name)?;
    checked(alloc, name, read_config(alloc, bytes.as_slice()))
}

// The same configuration, if it names all three addresses; else the Shape of the first that it lacks.
#[tactic(auto, unfolding(crate::specs::Addresses::addressed_of))]
fn addressed(config: Config) -> Result<Config, ConfigFault>
    ensures { result ≡ addressed_of config }
{
    if !config.renderd.is_some() {
        drop(config);
        return Err(ConfigFault::Shape(7));
    }
    if !config.tiles.is_some() {
        drop(config);
        return Err(ConfigFault::Shape(8));
    }
    if !config.control.is_some() {
        drop(config);
        return Err(ConfigFault::Shape(9));
    }
    Ok(config)
}

/// Reads a configuration that names all three addresses; the lack of one comes after all other faults.
#[tactic(auto, unfolding(crate::specs::Addresses::addressed_in))]
pub fn addressed_config(alloc: Global, bytes: &[u8]) -> Result<Config, ConfigFault>
    ensures { Gives fault.NoMemory (λ c. c) (addressed_in bytes.now) result }
{
    addressed(read_config(alloc, bytes)?)
}

/// Reads the configuration's file of a farm that is to listen, and checks it.
#[tactic(auto, using(crate::proofs::Judged::file_stops))]
pub(crate) fn addressed_file<F: Files>(
    alloc: Global,
    files: &mut F,
    name: &str,
) -> Result<Config, Stop>
    ensures { Follows (file addressed_in config_text name.now) (F.state files.old)
        (F.state files.new) result }
{
    let bytes = read_file(alloc, files, name)?;
    checked(alloc, name, addressed_config(alloc, bytes.as_slice()))
}

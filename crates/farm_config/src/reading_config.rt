//! The whole text.
ghost use Rattle.std.specs.Prelude.{◌≡◌, ◌≤◌, length, IfOk, IsTrue};
ghost use Rattle.std.specs.List.{list_all};
ghost use Rattle.serde_json.specs.View.{view};
ghost use Rattle.reading.specs.Steps.{Gives};
ghost use Rattle.farm_history.specs.Limits.{AreLimits};
ghost use Rattle.farm_config.specs.Configs.{restyle_known};
ghost use Rattle.farm_config.specs.Limits.{most_maps, most_files, most_workers};
ghost use Rattle.farm_config.specs.Tables as spec;
ghost use Rattle.farm_config.specs.declared.fault.ConfigFault.TheVariants as fault;
ghost use Rattle.farm_config.specs.inner.Parts.{service_of, start_of, config_by_parts};

use crate::config::{Config, MapEntry, RestyleEntry};
use crate::fault::ConfigFault;
use crate::files::files;
use crate::kinds::{address_or_none, file_at, number_or, truth_or_false};
use crate::limits::MOST_WORKERS;
use crate::maps::maps;
use crate::opening::open_config;
use crate::queue_limits::limits_or_greatest;
use crate::restyles::restyles;
use farm_base::Text;
use farm_history::Limits;
use reading::read_json;
use serde_json::Value;
use std::alloc::Global;

/// How the farm serves.
#[derive(Drop)]
struct Service {
    workers: u32,
    limits: Limits,
    renderd: Option<Text>,
    tiles: Option<Text>,
    control: Option<Text>,
}

#[tactic(auto, unfolding(crate::specs::inner::Parts::service_of))]
fn read_service(alloc: Global, object: &Value) -> Result<Service, ConfigFault>
    ensures value { Gives fault.NoMemory (λ x. x) (service_of (view object.now)) result }
    ensures some_workers { IfOk result (λ s. 1 ≤ s.workers) }
    ensures few_workers { IfOk result (λ s. s.workers ≤ most_workers) }
    ensures limits_fit { IfOk result (λ s. AreLimits s.limits) }
{
    let workers = number_or(object, "workers", 5, 1, MOST_WORKERS, 2)?;
    let limits = limits_or_greatest(object.get("limits"))?;
    let renderd = address_or_none(alloc, object, "renderd", 7)?;
    let tiles = address_or_none(alloc, object, "tiles", 8)?;
    let control = address_or_none(alloc, object, "control", 9)?;
    Ok(Service {
        workers,
        limits,
        renderd,
        tiles,
        control,
    })
}

// What is read last: the restyles of the maps, and whether a saved farm is resumed.
#[tactic(auto, unfolding(crate::specs::inner::Parts::start_of))]
fn start(
    alloc: Global,
    maps: &[MapEntry],
    object: &Value,
) -> Result<(Vec<RestyleEntry>, bool), ConfigFault>
    requires { length maps.now ≤ most_maps }
    ensures value { Gives fault.NoMemory (λ p. (p.0.items, p.1))
        (start_of maps.now (view object.now)) result }
    ensures few { IfOk result (λ p. length p.0.items ≤ most_files) }
    ensures known { IfOk result
        (λ p. IsTrue (list_all (restyle_known (length maps.now)) p.0.items)) }
{
    let restyles = restyles(alloc, maps, object.get("restyles"))?;
    let resume = truth_or_false(object, "resume", 11)?;
    Ok((restyles, resume))
}

#[tactic(auto, unfolding(crate::specs::inner::Parts::config_by_parts))]
fn config_by_parts(alloc: Global, object: &Value) -> Result<Config, ConfigFault>
    ensures { Gives fault.NoMemory (λ x. x) (config_by_parts (view object.now)) result }
{
    open_config(object)?;
    let maps = maps(alloc, object.get("maps"))?;
    let dataset = file_at(object, "data", 2)?;
    let updates = files(alloc, object.get("updates"), 3)?;
    let expiries = files(alloc, object.get("expiries"), 4)?;
    let dataset = Text::of(alloc, dataset)?;
    let service = read_service(alloc, object)?;
    // Dropped by a call: `?` would drop, and have proved, each part in this function.
    match start(alloc, maps.as_slice(), object) {
        Ok((restyles, resume)) => Ok(Config {
            maps,
            dataset,
            updates,
            expiries,
            workers: service.workers,
            limits: service.limits,
            renderd: service.renderd,
            tiles: service.tiles,
            control: service.control,
            restyles,
            resume,
        }),
        Err(fault) => {
            drop(service);
            Err(fault)
        }
    }
}

fn config(alloc: Global, object: &Value) -> Result<Config, ConfigFault>
    ensures { Gives fault.NoMemory (λ x. x) (spec.config_of (view object.now)) result }
{
    config_by_parts(alloc, object)
}

/// Reads a configuration: what its text says, or the first fault in reading order.
///
/// The object is read key by key in the order of the table in `docs/operate/config.md`, a list entry by entry.
/// Of a list that is too long the entries within its limit are read first, and the first entry past it
/// is Range; a list of maps without an entry is Range after it was read.
#[tactic(auto, unfolding(crate::specs::Tables::config_in))]
pub fn read_config(alloc: Global, bytes: &[u8]) -> Result<Config, ConfigFault>
    ensures { Gives fault.NoMemory (λ x. x) (spec.config_in bytes.now) result }
{
    let value = read_json(alloc, bytes, ConfigFault::NotJson)?;
    config(alloc, &value)
}

//! The kinds of values in a configuration, and each at its key.
ghost use Rattle.std.specs.Prelude.{◌≡◌, ◌≤◌, ◌<◌, ◌^◌, IsTrue, IfOk, false, None, option_map};
ghost use Rattle.serde_json.specs.Find.{get};
ghost use Rattle.serde_json.specs.View.{view};
ghost use Rattle.reading.specs.Steps.{seen, Gives};
ghost use Rattle.reading.specs.Values.{needed, or_value};
ghost use Rattle.plain_world.specs.World.{IsTileSize};
ghost use Rattle.tile_paths.specs.Paths.{is_map_name};
ghost use Rattle.farm_config.specs.Kinds as spec;
ghost use Rattle.farm_config.specs.inner.Kinds as inner;
ghost use Rattle.farm_config.specs.declared.fault.ConfigFault.TheVariants as fault;

use crate::addresses::is_address;
use crate::fault::ConfigFault;
use farm_base::Text;
use merc_fixed::is_tile_size;
use reading::{text, whole_number};
use serde_json::Value;
use std::alloc::Global;
use tile_paths::is_name;

/// The name of a file.
pub fn a_file(value: &Value, key: u32) -> Result<&str, ConfigFault>
    ensures { seen (λ s. s.now) result ≡ inner.a_file key (view value.entry.now) }
{
    text(value, ConfigFault::Shape(key))
}

/// The name of a file, which has to be there.
pub fn file_at<'a>(object: &'a Value, name: &str, key: u32) -> Result<&'a str, ConfigFault>
    ensures { seen (λ s. s.now) result
        ≡ needed (fault.Shape key) (inner.a_file key) (get name.now (view object.entry.now)) }
{
    match object.get(name) {
        Some(value) => a_file(value, key),
        None => Err(ConfigFault::Shape(key)),
    }
}

#[tactic(auto, unfolding(crate::specs::Kinds::a_map_name))]
fn a_map_name(value: &Value, key: u32) -> Result<&str, ConfigFault>
    ensures value { seen (λ s. s.now) result ≡ spec.a_map_name key (view value.entry.now) }
    ensures fits { IfOk result (λ s. IsTrue (is_map_name s.now)) }
{
    let name = text(value, ConfigFault::Shape(key))?;
    if is_name(name) {
        Ok(name)
    } else {
        Err(ConfigFault::Shape(key))
    }
}

/// The name of a map, which has to be there.
pub fn map_name_at<'a>(object: &'a Value, name: &str, key: u32) -> Result<&'a str, ConfigFault>
    ensures value { seen (λ s. s.now) result
        ≡ needed (fault.Shape key) (spec.a_map_name key) (get name.now (view object.entry.now)) }
    ensures fits { IfOk result (λ s. IsTrue (is_map_name s.now)) }
{
    match object.get(name) {
        Some(value) => a_map_name(value, key),
        None => Err(ConfigFault::Shape(key)),
    }
}

#[tactic(auto, unfolding(crate::specs::Kinds::number_within))]
fn a_number(value: &Value, key: u32, low: u32, high: u32) -> Result<u32, ConfigFault>
    ensures value { result ≡ spec.number_within key low high (view value.now) }
    ensures low { IfOk result (λ n. low ≤ n) }
    ensures high { IfOk result (λ n. n ≤ high) }
{
    let shape = ConfigFault::Shape(key);
    let number = whole_number(
        value,
        shape,
        ConfigFault::Range(key),
        u64::from(low),
        u64::from(high),
    )?;
    Ok(number as u32)
}

/// A whole number from `low` to `high`, which may be absent.
pub fn number_or(
    object: &Value,
    name: &str,
    key: u32,
    low: u32,
    high: u32,
    absent: u32,
) -> Result<u32, ConfigFault>
    requires low { low ≤ absent }
    requires high { absent ≤ high }
    ensures value { result
        ≡ or_value absent (spec.number_within key low high) (get name.now (view object.now)) }
    ensures low { IfOk result (λ n. low ≤ n) }
    ensures high { IfOk result (λ n. n ≤ high) }
{
    object
        .get(name)
        .map_or(Ok(absent), |v| a_number(v, key, low, high))
}

#[tactic(auto, unfolding(crate::specs::Kinds::a_tile_size, crate::specs::Kinds::number_within))]
fn a_tile_size(value: &Value, key: u32) -> Result<u32, ConfigFault>
    ensures value { result ≡ spec.a_tile_size key (view value.now) }
    ensures fits { IfOk result IsTileSize }
{
    let size = a_number(value, key, 16, 512)?;
    if is_tile_size(size) {
        Ok(size)
    } else {
        Err(ConfigFault::Range(key))
    }
}

/// The size of a tile, which has to be there.
pub fn tile_size_at(object: &Value, name: &str, key: u32) -> Result<u32, ConfigFault>
    ensures value { result
        ≡ needed (fault.Shape key) (spec.a_tile_size key) (get name.now (view object.now)) }
    ensures fits { IfOk result IsTileSize }
{
    object
        .get(name)
        .map_or(Err(ConfigFault::Shape(key)), |v| a_tile_size(v, key))
}

#[tactic(auto, unfolding(crate::specs::Kinds::an_address))]
fn an_address(alloc: Global, value: &Value, key: u32) -> Result<Option<Text>, ConfigFault>
    ensures { Gives fault.NoMemory (λ o. o) (spec.an_address key (view value.now)) result }
{
    let address = text(value, ConfigFault::Shape(key))?;
    if is_address(address) {
        Ok(Some(Text::of(alloc, address)?))
    } else {
        Err(ConfigFault::Shape(key))
    }
}

/// An address, which may be absent.
pub fn address_or_none(
    alloc: Global,
    object: &Value,
    name: &str,
    key: u32,
) -> Result<Option<Text>, ConfigFault>
    ensures { Gives fault.NoMemory (λ o. o)
        (or_value None (spec.an_address key) (get name.now (view object.now))) result }
{
    match object.get(name) {
        Some(value) => an_address(alloc, value, key),
        None => Ok(None),
    }
}

fn a_truth(value: &Value, key: u32) -> Result<bool, ConfigFault>
    ensures { result ≡ inner.a_truth key (view value.now) }
{
    value.as_bool().ok_or(ConfigFault::Shape(key))
}

/// True or false, and false where it is absent.
pub fn truth_or_false(object: &Value, name: &str, key: u32) -> Result<bool, ConfigFault>
    ensures { result ≡ or_value false (inner.a_truth key) (get name.now (view object.now)) }
{
    object.get(name).map_or(Ok(false), |v| a_truth(v, key))
}

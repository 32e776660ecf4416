//! The maps of a configuration.
ghost use Rattle.std.specs.Prelude.{◌≡◌, ◌≤◌, ◌<◌, ◌^◌, ◌&&◌, [], nat_lt, length, IfOk, IfSome, IsTrue, option_map};
ghost use Rattle.serde_json.specs.View.{view, items_view};
ghost use Rattle.farm_base.specs.Earlier.{each_after};
ghost use Rattle.reading.specs.Lists.{list_of};
ghost use Rattle.reading.specs.Steps.{Gives};
ghost use Rattle.reading.specs.Values.{needed};
ghost use Rattle.tile_paths.specs.Paths.{is_map_name};
ghost use Rattle.farm_config.specs.Configs as plain;
ghost use Rattle.farm_config.specs.Limits.{most_maps};
ghost use Rattle.farm_config.specs.Tables as spec;
ghost use Rattle.farm_config.specs.declared.fault.ConfigFault.TheVariants as fault;

use crate::config::MapEntry;
use crate::fault::ConfigFault;
use crate::kinds::{file_at, map_name_at, number_or, tile_size_at};
use crate::limits::{MOST_MAPS, MOST_ZOOM};
use crate::opening::open_map;
use arrayvec::ArrayString;
use farm_base::Text;
use reading::{ReadItem, list, read_list};
use serde_json::Value;
use std::alloc::Global;

fn map_has(name: &str, maps: &[MapEntry]) -> bool
    ensures { result ≡ plain.map_has name.now maps.now }
{
    maps.iter().any(|m| m.name.as_str() == name)
}

/// The place of the map of this name.
#[tactic(auto, unfolding(crate::specs::Configs::map_place))]
pub fn map_place(name: &str, maps: &[MapEntry]) -> Option<usize>
    ensures value { result ≡ plain.map_place name.now maps.now }
    ensures there { IfSome result (λ place. place < length maps.now) }
{
    maps.iter().position(|m| m.name.as_str() == name)
}

#[tactic(auto, unfolding(crate::specs::Tables::map_entry))]
fn map(alloc: Global, before: &[MapEntry], object: &Value) -> Result<MapEntry, ConfigFault>
    ensures value { Gives fault.NoMemory (λ x. x)
        (spec.map_entry (length before.now) before.now (view object.now)) result }
    ensures place { IfOk result (λ m. IsTrue (nat_lt (length before.now) most_maps)) }
    ensures fit { IfOk result (λ m. IsTrue (plain.map_fits before.now m)) }
{
    if before.len() >= MOST_MAPS {
        return Err(ConfigFault::Range(1));
    }
    open_map(object)?;
    let name = map_name_at(object, "name", 1)?;
    let style = file_at(object, "style", 1)?;
    let tile = tile_size_at(object, "tile", 1)?;
    let max_zoom = number_or(object, "maxzoom", 1, 0, MOST_ZOOM, MOST_ZOOM)?;
    if map_has(name, before) {
        return Err(ConfigFault::Double(before.len() as u32));
    }
    let style = Text::of(alloc, style)?;
    Ok(MapEntry {
        name: map_name(name),
        style,
        tile,
        max_zoom,
    })
}

fn map_name(name: &str) -> ArrayString<40>
    requires { IsTrue (is_map_name name.now) }
    ensures { result.bytes ≡ name.now }
{
    ArrayString::from(name).unwrap()
}

#[derive(Drop)]
struct MapItems {}

impl ReadItem for MapItems {
    type Item = MapEntry;

    type Fault = ConfigFault;

    ghost limit = { λ r. 2 ^ 64 };

    ghost reads = { λ r before d. spec.map_entry (length before) before d };

    ghost keeps = { λ r before m. nat_lt (length before) most_maps && plain.map_fits before m };

    fn read(
        &self,
        alloc: Global,
        before: &[MapEntry],
        value: &Value,
    ) -> Result<MapEntry, ConfigFault> {
        map(alloc, before, value)
    }
}

fn map_list(alloc: Global, items: &[Value]) -> Result<Vec<MapEntry>, ConfigFault>
    requires { length items.now < 2 ^ 64 }
    ensures value { Gives fault.NoMemory (λ v. v.items) (list_of
        (λ before e. spec.map_entry (length before) before e) (items_view items.now)) result }
    ensures few { IfOk result (λ v. length v.items ≤ most_maps) }
    ensures fit { IfOk result (λ v. IsTrue (each_after plain.map_fits [] v.items)) }
{
    let maps = read_list(alloc, &MapItems {}, items)?;
    Ok(maps)
}

/// The maps at the key `maps`, of which there is at least one.
#[tactic(auto, unfolding(crate::specs::Tables::maps_of))]
pub fn maps(alloc: Global, found: Option<&Value>) -> Result<Vec<MapEntry>, ConfigFault>
    ensures value { Gives fault.NoMemory (λ v. v.items)
        (needed (fault.Shape 1) spec.maps_of (option_map (λ v. view v.now) found.entry)) result }
    ensures some { IfOk result (λ v. 1 ≤ length v.items) }
    ensures few { IfOk result (λ v. length v.items ≤ most_maps) }
    ensures fit { IfOk result (λ v. IsTrue (each_after plain.map_fits [] v.items)) }
{
    let items = list(found, ConfigFault::Shape(1))?;
    let maps = map_list(alloc, items)?;
    if maps.is_empty() {
        return Err(ConfigFault::Range(1));
    }
    Ok(maps)
}

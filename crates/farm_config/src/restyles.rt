//! The restyles of a configuration.
ghost use Rattle.std.specs.Prelude.{◌≡◌, ◌≤◌, ◌<◌, ◌^◌, ◌&&◌, [], nat_lt, length, codes, IfOk, IsTrue, option_map};
ghost use Rattle.std.specs.List.{list_all};
ghost use Rattle.serde_json.specs.View.{view, items_view};
ghost use Rattle.reading.specs.Lists.{list_of};
ghost use Rattle.reading.specs.Steps.{seen, Gives};
ghost use Rattle.reading.specs.Values.{needed, or_value, text};
ghost use Rattle.serde_json.specs.Find.{get};
ghost use Rattle.farm_config.specs.Configs as plain;
ghost use Rattle.farm_config.specs.Limits.{most_maps, most_files};
ghost use Rattle.farm_config.specs.Tables as spec;
ghost use Rattle.farm_config.specs.declared.fault.ConfigFault.TheVariants as fault;

use crate::config::{MapEntry, RestyleEntry};
use crate::fault::ConfigFault;
use crate::kinds::file_at;
use crate::limits::MOST_FILES;
use crate::maps::map_place;
use crate::opening::open_restyle;
use farm_base::Text;
use reading::{ReadItem, list, read_list, text};
use serde_json::Value;
use std::alloc::Global;

fn map_name_of(object: &Value) -> Result<&str, ConfigFault>
    ensures { seen (λ s. s.now) result ≡ needed (fault.Shape 10) (text (fault.Shape 10))
        (get (codes "map") (view object.entry.now)) }
{
    match object.get("map") {
        Some(value) => text(value, ConfigFault::Shape(10)),
        None => Err(ConfigFault::Shape(10)),
    }
}

#[derive(Drop)]
struct RestyleItems<'a> {
    maps: &'a [MapEntry],
    ghost few: { length maps.now ≤ most_maps },
}

impl ReadItem for RestyleItems<'_> {
    type Item = RestyleEntry;

    type Fault = ConfigFault;

    ghost limit = { λ r. 2 ^ 64 };

    ghost reads = { λ r before d. spec.restyle_after r.maps.now before d };

    ghost keeps = { λ r before x. nat_lt (length before) most_files && plain.restyle_known (length r.maps.now) x };

    #[tactic(auto, unfolding(crate::specs::Tables::restyle_after))]
    fn read(
        &self,
        alloc: Global,
        before: &[RestyleEntry],
        value: &Value,
    ) -> Result<RestyleEntry, ConfigFault> {
        if before.len() >= MOST_FILES {
            return Err(ConfigFault::Range(10));
        }
        open_restyle(value)?;
        let name = map_name_of(value)?;
        let place = map_place(name, self.maps).ok_or(ConfigFault::Shape(10))?;
        let style = file_at(value, "style", 10)?;
        Ok(RestyleEntry {
            map: place as u32,
            style: Text::of(alloc, style)?,
        })
    }
}

fn restyle_list(
    alloc: Global,
    maps: &[MapEntry],
    items: &[Value],
) -> Result<Vec<RestyleEntry>, ConfigFault>
    requires maps { length maps.now ≤ most_maps }
    requires items { length items.now < 2 ^ 64 }
    ensures value { Gives fault.NoMemory (λ v. v.items)
        (list_of (spec.restyle_after maps.now) (items_view items.now)) result }
    ensures few { IfOk result (λ v. length v.items ≤ most_files) }
    ensures known { IfOk result
        (λ v. IsTrue (list_all (plain.restyle_known (length maps.now)) v.items)) }
{
    let restyles = read_list(alloc, &RestyleItems { maps }, items)?;
    Ok(restyles)
}

/// The restyles at the key `restyles`, none where it is absent.
#[tactic(auto, unfolding(crate::specs::Tables::restyles_of))]
pub fn restyles(
    alloc: Global,
    maps: &[MapEntry],
    found: Option<&Value>,
) -> Result<Vec<RestyleEntry>, ConfigFault>
    requires { length maps.now ≤ most_maps }
    ensures value { Gives fault.NoMemory (λ v. v.items) (or_value [] (spec.restyles_of maps.now)
        (option_map (λ v. view v.now) found.entry)) result }
    ensures few { IfOk result (λ v. length v.items ≤ most_files) }
    ensures known { IfOk result
        (λ v. IsTrue (list_all (plain.restyle_known (length maps.now)) v.items)) }
{
    if found.is_none() {
        return Ok(Vec::new(alloc));
    }
    let items = list(found, ConfigFault::Shape(10))?;
    restyle_list(alloc, maps, items)
}

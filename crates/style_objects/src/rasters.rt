//! The rasters of a map.
ghost use Rattle.std.specs.Prelude.{◌≡◌, ◌≤◌, [], length, IsTrue, IfOk};
ghost use Rattle.serde_json.specs.View.{view, items_view};
ghost use Rattle.farm_base.specs.Earlier.{each_after};
ghost use Rattle.plain_drawing.specs.Styles.{raster_apart};
ghost use Rattle.plain_drawing.specs.Styles as plain;
ghost use Rattle.reading.specs.Lists.{list_of};
ghost use Rattle.reading.specs.Steps.{Gives};
ghost use Rattle.style_objects.specs.Tables as spec;
ghost use Rattle.style_objects.specs.Places.{at_place};
ghost use Rattle.style_objects.specs.declared.fault.Part.TheVariants as part;
ghost use Rattle.style_objects.specs.declared.fault.StyleFault.TheVariants as fault;
ghost use Rattle.plain_drawing.specs.Limits.{most_rasters};

use crate::fault::{At, StyleFault};
use crate::keys::{Object, open};
use crate::kinds::{number_at, text_to, two_texts};
use plain_drawing::{MOST_FILE_BYTES, RasterRef};
use plain_shapes::MOST_NAME_BYTES;
use reading::{ReadItem, read_list};
use serde_json::Value;
use std::alloc::Global;

fn raster_has(name: &str, rasters: &[RasterRef]) -> bool
    ensures { result ≡ plain.raster_has name.now rasters.now }
{
    rasters.iter().any(|r| r.name.as_str() == name)
}

#[tactic(auto, unfolding(crate::specs::Tables::raster_of))]
fn raster(
    alloc: Global,
    place: u32,
    before: &[RasterRef],
    object: &Value,
) -> Result<RasterRef, StyleFault>
    ensures value { Gives fault.NoMemory (λ x. x)
        (spec.raster_of (at_place part.Raster place 0 0) before.now (view object.now)) result }
    ensures apart { IfOk result (λ r. IsTrue (raster_apart before.now r)) }
{
    let at = At::raster(place);
    open(object, Object::Raster, at)?;
    let name = text_to(object, "name", MOST_NAME_BYTES, at)?;
    let file = text_to(object, "file", MOST_FILE_BYTES, at)?;
    let west = number_at(object, "west", 0, at)?;
    let north = number_at(object, "north", 0, at)?;
    let pixel = number_at(object, "pixel", 1, at)?;
    if raster_has(name, before) {
        return Err(StyleFault::Double(at));
    }
    let (name, file) = two_texts(alloc, name, file)?;
    Ok(RasterRef {
        name,
        file,
        west,
        north,
        pixel,
    })
}

// The rasters of a map.
#[derive(Drop)]
struct RasterItems {}

impl ReadItem for RasterItems {
    type Item = RasterRef;

    type Fault = StyleFault;

    ghost limit = { λ r. most_rasters };

    ghost reads = { λ r before d. spec.raster_of (at_place part.Raster (length before) 0 0) before d };

    ghost keeps = { λ r before x. raster_apart before x };

    fn read(
        &self,
        alloc: Global,
        before: &[RasterRef],
        value: &Value,
    ) -> Result<RasterRef, StyleFault> {
        raster(alloc, before.len() as u32, before, value)
    }
}

pub fn rasters(alloc: Global, items: &[Value]) -> Result<Vec<RasterRef>, StyleFault>
    requires { length items.now ≤ most_rasters }
    ensures value { Gives fault.NoMemory (λ v. v.items) (list_of (λ before e. spec.raster_of
        (at_place part.Raster (length before) 0 0) before e) (items_view items.now)) result }
    ensures apart { IfOk result (λ v. IsTrue (each_after raster_apart [] v.items)) }
    ensures count { IfOk result (λ v. length v.items ≤ most_rasters) }
{
    read_list(alloc, &RasterItems {}, items)
}

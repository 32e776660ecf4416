//! Datasets of texts.
ghost use Rattle.std.specs.Prelude.{◌≡◌, ◌≤◌, ◌<◌, ◌^◌, [], ℕ, nat_le, length, IfOk, IsTrue};
ghost use Rattle.std.specs.Str.{bytes_eq};
ghost use Rattle.serde_json.specs.Events.{items_len};
ghost use Rattle.serde_json.specs.View.{view, items_view};
ghost use Rattle.farm_base.specs.Earlier.{each_after};
ghost use Rattle.reading.specs.Lists.{list_of};
ghost use Rattle.reading.specs.Steps.{Gives};
ghost use Rattle.geo_json.specs.DataTexts as spec;
ghost use Rattle.geo_json.specs.inner.Keys as keys;
ghost use Rattle.geo_json.specs.Openings.{object_of};
ghost use Rattle.geo_json.specs.declared.faults.DataFault.TheVariants as fault;
ghost use Rattle.plain_shapes.specs.Limits.{most_features};

use crate::coordinates::{Units, units_at};
use crate::faults::DataFault;
use crate::feature_texts::new_features;
use crate::openings::{name_at, open};
use crate::pulled_data::pulled_layers;
use data_versions::{Dataset, Layer};
use farm_base::Text;
use plain_shapes::{MOST_DATA_LAYERS, MOST_FEATURES};
use reading::{ReadItem, list, read_json, read_list};
use serde_json::Value;
use std::alloc::Global;
use std::collections::BTreeSet;

/// The dataset that the bytes say, or the first fault in reading order. Reading goes by place: a layer's own
/// keys, then whether its name came before, whether it has too many features, and then each feature: its
/// form, the faults of its parts, and whether its id came before.
#[tactic(auto, using(crate::proofs::Validity::dataset_read))]
pub fn read_data(alloc: Global, bytes: &[u8]) -> Result<Dataset, DataFault>
    ensures { Gives fault.NoMemory (λ d. d) (spec.dataset_in bytes.now) result }
{
    let layers = read_layers(alloc, bytes)?;
    Ok(Dataset::of(layers))
}

// The layers that the bytes say: pulled from the text, and where that comes to no end, read from the tree of
// the text, which knows the first fault.
fn read_layers(alloc: Global, bytes: &[u8]) -> Result<Vec<Layer>, DataFault>
    ensures value { Gives fault.NoMemory (λ v. v.items) (spec.dataset_in bytes.now) result }
    ensures valid { IfOk result (λ v. IsTrue (each_after spec.is_read [] v.items)) }
{
    match pulled_layers(alloc, bytes) {
        Some(layers) => Ok(layers),
        None => layers_by_tree(alloc, bytes),
    }
}

#[tactic(auto, unfolding(crate::specs::DataTexts::dataset_in))]
fn layers_by_tree(alloc: Global, bytes: &[u8]) -> Result<Vec<Layer>, DataFault>
    ensures value { Gives fault.NoMemory (λ v. v.items) (spec.dataset_in bytes.now) result }
    ensures valid { IfOk result (λ v. IsTrue (each_after spec.is_read [] v.items)) }
{
    let value = read_json(alloc, bytes, DataFault::NotJson)?;
    layers_in(alloc, &value)
}

fn open_data(object: &Value, shape: DataFault) -> Result<(), DataFault>
    ensures { result ≡ object_of shape keys.data_keys (view object.now) }
{
    open(object, &["units", "layers"], shape)
}

#[tactic(auto, unfolding(crate::specs::DataTexts::layers_of))]
fn layers_in(alloc: Global, object: &Value) -> Result<Vec<Layer>, DataFault>
    ensures value { Gives fault.NoMemory (λ v. v.items) (spec.layers_of (view object.now)) result }
    ensures valid { IfOk result (λ v. IsTrue (each_after spec.is_read [] v.items)) }
{
    let shape = DataFault::Shape(0, 0);
    open_data(object, shape)?;
    let units = units_at(object, shape)?;
    let items = list(object.get("layers"), shape)?;
    layers(alloc, units, items)
}

fn layers(alloc: Global, units: Units, items: &[Value]) -> Result<Vec<Layer>, DataFault>
    requires { length items.now < 2 ^ 64 }
    ensures value { Gives fault.NoMemory (λ v. v.items)
        (list_of (λ before e. spec.layer_said units (length before) before e)
        (items_view items.now)) result }
    ensures valid { IfOk result (λ v. IsTrue (each_after spec.is_read [] v.items)) }
{
    read_list(alloc, &LayerItems { units }, items)
}

/// Whether there are at most 1,000,000 values.
#[tactic(auto, using(reading::proofs::Members::items_len_of))]
pub(crate) fn is_few(items: &[Value]) -> bool
    ensures { result ≡ nat_le (items_len (items_view items.now)) most_features }
{
    items.len() <= MOST_FEATURES
}

pub(crate) fn has_layer(layers: &[Layer], name: &str) -> bool
    ensures { result ≡ spec.has_layer layers.now name.now }
{
    layers.iter().any(|l| is_named(l, name))
}

fn is_named(layer: &Layer, name: &str) -> bool
    ensures { result ≡ bytes_eq layer.now.name name.now }
{
    layer.name.as_str() == name
}

fn open_layer(object: &Value, shape: DataFault) -> Result<(), DataFault>
    ensures { result ≡ object_of shape keys.layer_keys (view object.now) }
{
    open(object, &["name", "features"], shape)
}

#[tactic(auto, unfolding(crate::specs::DataTexts::layer_said), using(crate::proofs::Validity::values_few))]
fn layer(alloc: Global, units: Units, before: &[Layer], object: &Value) -> Result<Layer, DataFault>
    ensures value { Gives fault.NoMemory (λ l. l)
        (spec.layer_said units (length before.now) before.now (view object.now)) result }
    ensures valid { IfOk result (λ l. IsTrue (spec.is_read before.now l)) }
{
    if before.len() >= MOST_DATA_LAYERS {
        return Err(DataFault::Shape(MOST_DATA_LAYERS as u32, 0));
    }
    let part = before.len() as u32;
    let shape = DataFault::Shape(part, 0);
    open_layer(object, shape)?;
    let name = name_at(object, "name", shape)?;
    let items = list(object.get("features"), shape)?;
    if has_layer(before, name) {
        return Err(DataFault::DoubleLayer(part));
    }
    if !is_few(items) {
        return Err(DataFault::TooMany(part));
    }
    let mut known = BTreeSet::new(alloc);
    let read = new_features(alloc, units, part, &mut known, items);
    drop(known);
    let features = read?;
    let Ok(name) = Text::of(alloc, name) else {
        drop(features);
        return Err(DataFault::NoMemory);
    };
    Ok(Layer { name, features })
}

// The layers of data.
#[derive(Drop)]
struct LayerItems {
    units: Units,
}

impl ReadItem for LayerItems {
    type Item = Layer;

    type Fault = DataFault;

    ghost limit = { λ r. 2 ^ 64 };

    ghost reads = { λ r before d. spec.layer_said r.units (length before) before d };

    ghost keeps = { λ r before l. spec.is_read before l };

    fn read(&self, alloc: Global, before: &[Layer], value: &Value) -> Result<Layer, DataFault> {
        layer(alloc, self.units, before, value)
    }
}

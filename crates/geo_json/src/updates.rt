//! Updates of texts.
ghost use Rattle.std.specs.Prelude.{◌≡◌, ◌≤◌, ◌<◌, ◌^◌, [], ℕ, codes, length, true, IfOk, IsTrue};
ghost use Rattle.serde_json.specs.Data.{no_items};
ghost use Rattle.serde_json.specs.Find.{get};
ghost use Rattle.serde_json.specs.View.{view, items_view};
ghost use Rattle.farm_base.specs.Earlier.{each_after};
ghost use Rattle.reading.specs.Lists.{list_of};
ghost use Rattle.reading.specs.Steps.{Gives, seen};
ghost use Rattle.reading.specs.Values as values;
ghost use Rattle.geo_json.specs.FeatureTexts.{id_of};
ghost use Rattle.geo_json.specs.Openings.{object_of};
ghost use Rattle.geo_json.specs.UpdateTexts as spec;
ghost use Rattle.geo_json.specs.inner.Keys as keys;
ghost use Rattle.geo_json.specs.declared.faults.DataFault.TheVariants as fault;

use crate::coordinates::{Units, units_at};
use crate::datasets::is_few;
use crate::faults::DataFault;
use crate::feature_texts::{features, id_of};
use crate::openings::{name_at, open};
use crate::pulled_updates::pulled_changes;
use data_versions::{Change, Update};
use farm_base::Text;
use plain_shapes::MOST_FEATURES;
use reading::{ReadItem, list, read_json, read_list};
use serde_json::Value;
use std::alloc::Global;

/// The update that the bytes say, or the first fault in reading order. Reading goes by place: a change's own
/// keys, then whether it has too many puts, and then each put: its form and the faults of its parts. Puts
/// may name an id more than once.
#[tactic(auto, using(crate::proofs::Validity::update_read))]
pub fn read_update(alloc: Global, bytes: &[u8]) -> Result<Update, DataFault>
    ensures { Gives fault.NoMemory (λ u. u) (spec.update_in bytes.now) result }
{
    match pulled_changes(alloc, bytes) {
        Some(changes) => Ok(Update::of(changes)),
        None => update_by_tree(alloc, bytes),
    }
}

#[tactic(auto, unfolding(crate::specs::UpdateTexts::update_in))]
fn update_by_tree(alloc: Global, bytes: &[u8]) -> Result<Update, DataFault>
    ensures { Gives fault.NoMemory (λ u. u) (spec.update_in bytes.now) result }
{
    let value = read_json(alloc, bytes, DataFault::NotJson)?;
    update(alloc, &value)
}

fn open_update(object: &Value, shape: DataFault) -> Result<(), DataFault>
    ensures { result ≡ object_of shape keys.update_keys (view object.now) }
{
    open(object, &["units", "changes"], shape)
}

#[tactic(auto, unfolding(crate::specs::UpdateTexts::changes_of), using(crate::proofs::Validity::update_read))]
fn update(alloc: Global, object: &Value) -> Result<Update, DataFault>
    ensures { Gives fault.NoMemory (λ u. u) (spec.changes_of (view object.now)) result }
{
    let shape = DataFault::Shape(0, 0);
    open_update(object, shape)?;
    let units = units_at(object, shape)?;
    let items = list(object.get("changes"), shape)?;
    let changes = changes(alloc, units, items)?;
    Ok(Update::of(changes))
}

fn changes(alloc: Global, units: Units, items: &[Value]) -> Result<Vec<Change>, DataFault>
    requires { length items.now < 2 ^ 64 }
    ensures value { Gives fault.NoMemory (λ v. v.items) (list_of
        (λ before e. spec.change_at units (length before) e) (items_view items.now)) result }
    ensures valid { IfOk result (λ v. IsTrue (each_after spec.is_read [] v.items)) }
{
    read_list(alloc, &ChangeItems { units }, items)
}

fn ids(alloc: Global, items: &[Value], shape: DataFault) -> Result<Vec<u64>, DataFault>
    requires { length items.now < 2 ^ 64 }
    ensures { Gives fault.NoMemory (λ v. v.items)
        (list_of (λ before id. id_of shape id) (items_view items.now)) result }
{
    read_list(alloc, &IdItems { shape }, items)
}

#[tactic(auto, unfolding(crate::specs::UpdateTexts::ids_in))]
fn ids_in(alloc: Global, value: &Value, shape: DataFault) -> Result<Vec<u64>, DataFault>
    ensures { Gives fault.NoMemory (λ v. v.items) (spec.ids_in shape (view value.now)) result }
{
    let items = list(Some(value), shape)?;
    ids(alloc, items, shape)
}

fn removed(alloc: Global, object: &Value, shape: DataFault) -> Result<Vec<u64>, DataFault>
    ensures { Gives fault.NoMemory (λ v. v.items)
        (values.or_value [] (spec.ids_in shape) (get (codes "remove") (view object.now))) result }
{
    match object.get("remove") {
        Some(value) => ids_in(alloc, value, shape),
        None => Ok(Vec::new(alloc)),
    }
}

fn puts(object: &Value, shape: DataFault) -> Result<&[Value], DataFault>
    ensures { seen (λ vs. items_view vs.now) result
        ≡ values.or_value no_items (values.list shape) (get (codes "put") (view object.entry.now)) }
{
    match object.get("put") {
        Some(value) => list(Some(value), shape),
        None => Ok(&[]),
    }
}

fn open_change(object: &Value, shape: DataFault) -> Result<(), DataFault>
    ensures { result ≡ object_of shape keys.change_keys (view object.now) }
{
    open(object, &["layer", "remove", "put"], shape)
}

#[tactic(auto, unfolding(crate::specs::UpdateTexts::change_at), using(crate::proofs::Validity::values_few))]
fn change(
    alloc: Global,
    units: Units,
    before: &[Change],
    object: &Value,
) -> Result<Change, DataFault>
    ensures value { Gives fault.NoMemory (λ c. c)
        (spec.change_at units (length before.now) (view object.now)) result }
    ensures valid { IfOk result (λ c. IsTrue (spec.is_read before.now c)) }
{
    if before.len() >= MOST_FEATURES {
        return Err(DataFault::Shape(MOST_FEATURES as u32, 0));
    }
    let part = before.len() as u32;
    let shape = DataFault::Shape(part, 0);
    open_change(object, shape)?;
    let layer = name_at(object, "layer", shape)?;
    let remove = removed(alloc, object, shape)?;
    // Dropped by a call: `?` would drop, and have proved, each part in this function.
    let items = match puts(object, shape) {
        Ok(items) => items,
        Err(fault) => {
            drop(remove);
            return Err(fault);
        }
    };
    if !is_few(items) {
        drop(remove);
        return Err(DataFault::TooMany(part));
    }
    let put = match features(alloc, units, part, items) {
        Ok(put) => put,
        Err(fault) => {
            drop(remove);
            return Err(fault);
        }
    };
    let Ok(layer) = Text::of(alloc, layer) else {
        drop(remove);
        drop(put);
        return Err(DataFault::NoMemory);
    };
    Ok(Change { layer, remove, put })
}

// The ids of a list.
#[derive(Drop)]
struct IdItems {
    shape: DataFault,
}

impl ReadItem for IdItems {
    type Item = u64;

    type Fault = DataFault;

    ghost limit = { λ r. 2 ^ 64 };

    ghost reads = { λ r before d. id_of r.shape d };

    ghost keeps = { λ r before id. true };

    fn read(&self, _alloc: Global, _before: &[u64], value: &Value) -> Result<u64, DataFault> {
        id_of(value, self.shape)
    }
}

// The changes of an update.
#[derive(Drop)]
struct ChangeItems {
    units: Units,
}

impl ReadItem for ChangeItems {
    type Item = Change;

    type Fault = DataFault;

    ghost limit = { λ r. 2 ^ 64 };

    ghost reads = { λ r before d. spec.change_at r.units (length before) d };

    ghost keeps = { λ r before c. spec.is_read before c };

    fn read(&self, alloc: Global, before: &[Change], value: &Value) -> Result<Change, DataFault> {
        change(alloc, self.units, before, value)
    }
}

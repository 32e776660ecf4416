//! Features of a text.
ghost use Rattle.std.specs.Prelude.{◌≡◌, ◌≤◌, ◌<◌, ◌++◌, ◌∷◌, [], ℕ, true, false, length, codes, IfOk, IsTrue};
ghost use Rattle.serde_json.specs.View.{view, items_view};
ghost use Rattle.farm_base.specs.Earlier.{each_after};
ghost use Rattle.geo_model.specs.Shapes.{has_double_name};
ghost use Rattle.reading.specs.Lists.{list_of};
ghost use Rattle.reading.specs.Steps.{Gives};
ghost use Rattle.reading.specs.Values.{needed};
ghost use Rattle.serde_json.specs.Find.{get};
ghost use Rattle.geo_json.specs.FeatureTexts as spec;
ghost use Rattle.geo_json.specs.inner.Keys as keys;
ghost use Rattle.geo_json.specs.inner.Parts as parts;
ghost use Rattle.geo_json.specs.Geometries.{geometry_of};
ghost use Rattle.geo_json.specs.inner.KnownIds.{KnowsIds};
ghost use Rattle.geo_json.specs.Openings.{object_of};
ghost use Rattle.geo_json.specs.declared.faults.DataFault.TheVariants as fault;
ghost use Rattle.plain_shapes.specs.Limits.{most_features};

use crate::attributes::attrs_at;
use crate::coordinates::Units;
use crate::faults::DataFault;
use crate::geometries::geometry;
use crate::openings::open;
use farm_base::Attr;
use geo_model::{Feature, make_feature};
use plain_shapes::Geometry;
use reading::{ReadItem, ReadKnown, read_list, read_list_with, whole_number};
use serde_json::Value;
use std::alloc::Global;
use std::collections::BTreeSet;

/// The id that the value says.
#[tactic(auto, unfolding(crate::specs::FeatureTexts::id_of))]
pub(crate) fn id_of(value: &Value, shape: DataFault) -> Result<u64, DataFault>
    ensures { result ≡ spec.id_of shape (view value.now) }
{
    whole_number(value, shape, shape, 0, u64::MAX)
}

fn id_at(object: &Value, shape: DataFault) -> Result<u64, DataFault>
    ensures { result ≡ needed shape (spec.id_of shape) (get (codes "id") (view object.now)) }
{
    match object.get("id") {
        Some(value) => id_of(value, shape),
        None => Err(shape),
    }
}

fn geometry_at(
    alloc: Global,
    units: Units,
    object: &Value,
    shape: DataFault,
) -> Result<Geometry, DataFault>
    ensures { Gives fault.NoMemory (λ g. g)
        (needed shape (geometry_of units shape) (get (codes "geometry") (view object.now))) result }
{
    match object.get("geometry") {
        Some(value) => geometry(alloc, units, value, shape),
        None => Err(shape),
    }
}

// The feature of the parts, whose attributes have distinct names, or their first fault.
#[tactic(auto, using(crate::proofs::Parts::no_double))]
fn made_of(
    part: u32,
    place: u32,
    id: u64,
    geometry: Geometry,
    attrs: Vec<Attr>,
) -> Result<Feature, DataFault>
    requires { has_double_name attrs.items ≡ false }
    ensures { result ≡ parts.made_of part place id geometry attrs.items }
{
    match make_feature(id, geometry, attrs) {
        Ok(feature) => Ok(feature),
        Err(fault) => Err(DataFault::Geo(fault, part, place)),
    }
}

#[tactic(auto, using(crate::proofs::Parts::made_checked))]
fn made(
    part: u32,
    place: u32,
    id: u64,
    geometry: Geometry,
    attrs: Vec<Attr>,
) -> Result<Feature, DataFault>
    requires { has_double_name attrs.items ≡ false }
    ensures { result ≡ parts.made_by_checks part place id geometry attrs.items }
{
    made_of(part, place, id, geometry, attrs)
}

fn open_feature(object: &Value, shape: DataFault) -> Result<(), DataFault>
    ensures { result ≡ object_of shape keys.feature_keys (view object.now) }
{
    open(object, &["id", "geometry", "attrs"], shape)
}

/// The feature that the value says, at its place in the list of its layer or change.
#[tactic(auto, unfolding(crate::specs::FeatureTexts::feature_of))]
pub(crate) fn feature(
    alloc: Global,
    units: Units,
    part: u32,
    place: u32,
    object: &Value,
) -> Result<Feature, DataFault>
    ensures { Gives fault.NoMemory (λ f. f)
        (spec.feature_of units part place (view object.now)) result }
{
    let shape = DataFault::Shape(part, place);
    open_feature(object, shape)?;
    let id = id_at(object, shape)?;
    let geometry = geometry_at(alloc, units, object, shape)?;
    match attrs_at(alloc, object, shape) {
        Ok(attrs) => made(part, place, id, geometry, attrs),
        Err(fault) => {
            drop(geometry);
            Err(fault)
        }
    }
}

/// The feature that the value says after those before it, whose ids are known.
#[tactic(auto, unfolding(crate::specs::FeatureTexts::new_feature_after), using(crate::proofs::Ids::ids_more))]
pub(crate) fn new_feature(
    alloc: Global,
    units: Units,
    part: u32,
    known: &mut BTreeSet<u64>,
    before: &[Feature],
    object: &Value,
) -> Result<Feature, DataFault>
    requires place { length before.now < most_features }
    requires known { KnowsIds known.old before.now }
    ensures value { Gives fault.NoMemory (λ f. f)
        (spec.new_feature_after units part before.now (view object.now)) result }
    ensures apart { IfOk result (λ f. IsTrue (spec.is_new before.now f)) }
    ensures known { IfOk result (λ f. KnowsIds known.new (before.now ++ f ∷ [])) }
{
    let feature = feature(alloc, units, part, before.len() as u32, object)?;
    let id = feature.id();
    if known.contains(&id) {
        drop(feature);
        return Err(DataFault::DoubleId(part, id));
    }
    let Ok(_is_new) = known.insert(id) else {
        drop(feature);
        return Err(DataFault::NoMemory);
    };
    Ok(feature)
}

/// The features of a change, which may name an id more than once.
pub(crate) fn features(
    alloc: Global,
    units: Units,
    part: u32,
    items: &[Value],
) -> Result<Vec<Feature>, DataFault>
    requires { length items.now ≤ most_features }
    ensures value { Gives fault.NoMemory (λ v. v.items)
        (list_of (spec.feature_after units part) (items_view items.now)) result }
    ensures few { IfOk result (λ v. length v.items ≤ most_features) }
{
    read_list(alloc, &FeatureItems { units, part }, items)
}

/// The features of a layer, of distinct ids, which the set then has.
pub(crate) fn new_features(
    alloc: Global,
    units: Units,
    part: u32,
    known: &mut BTreeSet<u64>,
    items: &[Value],
) -> Result<Vec<Feature>, DataFault>
    requires few { length items.now ≤ most_features }
    requires empty { KnowsIds known.old [] }
    ensures value { Gives fault.NoMemory (λ v. v.items)
        (list_of (spec.new_feature_after units part) (items_view items.now)) result }
    ensures few { IfOk result (λ v. length v.items ≤ most_features) }
    ensures apart { IfOk result (λ v. IsTrue (each_after spec.is_new [] v.items)) }
{
    read_list_with(alloc, &NewFeatureItems { units, part }, known, items)
}

// The features of a list.
#[derive(Drop)]
struct FeatureItems {
    units: Units,
    part: u32,
}

impl ReadItem for FeatureItems {
    type Item = Feature;

    type Fault = DataFault;

    ghost limit = { λ r. most_features };

    ghost reads = { λ r before d. spec.feature_after r.units r.part before d };

    ghost keeps = { λ r before f. true };

    fn read(&self, alloc: Global, before: &[Feature], value: &Value) -> Result<Feature, DataFault> {
        feature(alloc, self.units, self.part, before.len() as u32, value)
    }
}

// The features of a list with distinct ids, with the ids of those before.
#[derive(Drop)]
struct NewFeatureItems {
    units: Units,
    part: u32,
}

impl ReadKnown for NewFeatureItems {
    type Item = Feature;

    type Fault = DataFault;

    type Known = BTreeSet<u64>;

    ghost limit = { λ r. most_features };

    ghost reads = { λ r before d. spec.new_feature_after r.units r.part before d };

    ghost keeps = { λ r before f. spec.is_new before f };

    ghost knows = { KnowsIds };

    fn read(
        &self,
        alloc: Global,
        known: &mut BTreeSet<u64>,
        before: &[Feature],
        value: &Value,
    ) -> Result<Feature, DataFault> {
        new_feature(alloc, self.units, self.part, known, before, value)
    }
}

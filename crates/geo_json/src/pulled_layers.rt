//! Layers of data, pulled from the tokens of a text feature by feature.
ghost use Rattle.std.specs.Prelude.{◌≡◌, ◌<◌, ℕ, ◌++◌, ◌∷◌, [], true, false, Some, Ok, IfSome, OnSome, IsTrue, length, option_map};
ghost use Rattle.json.specs.Json.{value};
ghost use Rattle.serde_json.specs.Data.{Data, string};
ghost use Rattle.serde_json.specs.Read.{of_json, converted};
ghost use Rattle.geo_json.specs.DataTexts as spec;
ghost use Rattle.geo_json.specs.FeatureTexts as features;
ghost use Rattle.geo_json.specs.inner.Gathered.{HasLayerParts, AreNew, AreRead};
ghost use Rattle.geo_json.specs.inner.KnownIds.{KnowsIds};
ghost use Rattle.plain_shapes.specs.Data.{is_name};

use crate::coordinates::Units;
use crate::datasets::has_layer;
use crate::faults::DataFault;
use crate::feature_texts::new_feature;
use crate::openings::is_name;
use data_versions::Layer;
use farm_base::Text;
use geo_model::Feature;
use json::Reader;
use plain_shapes::{MOST_DATA_LAYERS, MOST_FEATURES};
use pulled_json::{PullItem, PullMember, pull_list, pull_object, str_from, value_from};
use std::alloc::Global;
use std::collections::BTreeSet;

/// The units and the place of a layer or change.
#[derive(Clone, Copy)]
pub(crate) struct Place {
    pub(crate) units: Units,
    pub(crate) part: u32,
}

/// The next value as a name of 1 to 64 bytes.
pub(crate) fn name_from(alloc: Global, reader: &mut Reader<'_>) -> Option<Text>
    ensures value { IfSome result (λ n. (depth : ℕ)
        → converted of_json (value depth reader.old) ≡ Some (string n, reader.new)) }
    ensures fits { IfSome result (λ n. IsTrue (is_name n)) }
    ensures shorter { OnSome result (length reader.new < length reader.old) }
{
    let name = str_from(reader)?;
    if !is_name(name) {
        return None;
    }
    Text::of(alloc, name).ok()
}

// The next value as a feature after those before it, whose ids are known.
fn feature_from(
    alloc: Global,
    place: Place,
    known: &mut BTreeSet<u64>,
    before: &[Feature],
    reader: &mut Reader<'_>,
    depth: usize,
) -> Option<Feature>
    requires { KnowsIds known.old before.now × AreNew before.now }
    ensures value { IfSome result
        (λ f. (d : Data) × (converted of_json (value depth reader.old) ≡ Some (d, reader.new))
        × (features.new_feature_after place.units place.part before.now d ≡ Ok f)) }
    ensures shorter { OnSome result (length reader.new < length reader.old) }
    ensures known { IfSome result
        (λ f. KnowsIds known.new (before.now ++ f ∷ []) × AreNew (before.now ++ f ∷ [])) }
{
    if before.len() >= MOST_FEATURES {
        return None;
    }
    let value = value_from(alloc, reader, depth)?;
    let read = new_feature(alloc, place.units, place.part, known, before, &value);
    drop(value);
    match read {
        Ok(feature) => Some(feature),
        Err(_) => None,
    }
}

// The features of a layer.
#[derive(Drop)]
struct PulledFeatures {
    place: Place,
}

impl PullItem for PulledFeatures {
    type Item = Feature;

    type Fault = DataFault;

    type Known = BTreeSet<u64>;

    ghost reads = { λ p before d. features.new_feature_after p.place.units p.place.part before d };

    ghost knows = { λ known before. KnowsIds known before × AreNew before };

    fn pull(
        &self,
        alloc: Global,
        known: &mut BTreeSet<u64>,
        before: &[Feature],
        reader: &mut Reader<'_>,
        depth: usize,
    ) -> Option<Feature> {
        feature_from(alloc, self.place, known, before, reader, depth)
    }
}

// What is gathered of a layer.
#[derive(Drop)]
struct LayerParts {
    name: Option<Text>,
    features: Option<Vec<Feature>>,
}

// The members of a layer.
#[derive(Drop)]
struct PulledMembers {
    place: Place,
}

impl PullMember for PulledMembers {
    type Gathered = LayerParts;

    ghost has = { λ p g ms. HasLayerParts p.place.units p.place.part g.name (option_map (λ v. v.items) g.features) ms };

    fn pull(
        &self,
        alloc: Global,
        gathered: &mut LayerParts,
        key: &str,
        reader: &mut Reader<'_>,
        depth: usize,
    ) -> Option<()> {
        match key {
            "name" => {
                gathered.name = Some(name_from(alloc, reader)?);
                Some(())
            }
            "features" => {
                let features = PulledFeatures { place: self.place };
                let mut known = BTreeSet::new(alloc);
                gathered.features = Some(pull_list(alloc, &features, &mut known, reader, depth)?);
                Some(())
            }
            _ => None,
        }
    }
}

fn layer_of(before: &[Layer], parts: LayerParts) -> Option<Layer>
    ensures { IfSome result (λ l. (parts.name ≡ Some l.name)
        × (option_map (λ v. v.items) parts.features ≡ Some l.features)
        × (spec.has_layer before.now l.name ≡ false)) }
{
    match (parts.name, parts.features) {
        (Some(name), Some(features)) => {
            if has_layer(before, name.as_str()) {
                drop(features);
                return None;
            }
            Some(Layer { name, features })
        }
        _ => None,
    }
}

fn layer_from(
    alloc: Global,
    units: Units,
    before: &[Layer],
    reader: &mut Reader<'_>,
    depth: usize,
) -> Option<Layer>
    requires { AreRead before.now }
    ensures value { IfSome result
        (λ l. (d : Data) × (converted of_json (value depth reader.old) ≡ Some (d, reader.new))
        × (spec.layer_said units (length before.now) before.now d ≡ Ok l)
        × AreRead (before.now ++ l ∷ [])) }
    ensures shorter { OnSome result (length reader.new < length reader.old) }
{
    if before.len() >= MOST_DATA_LAYERS {
        return None;
    }
    let place = Place {
        units,
        part: before.len() as u32,
    };
    let mut parts = LayerParts {
        name: None,
        features: None,
    };
    pull_object(alloc, &PulledMembers { place }, &mut parts, reader, depth)?;
    match layer_of(before, parts) {
        Some(layer) => Some(layer),
        None => None,
    }
}

// The layers of data.
#[derive(Drop)]
pub(crate) struct PulledLayers {
    pub(crate) units: Units,
}

impl PullItem for PulledLayers {
    type Item = Layer;

    type Fault = DataFault;

    type Known = ();

    ghost reads = { λ p before d. spec.layer_said p.units (length before) before d };

    ghost knows = { λ u before. AreRead before };

    fn pull(
        &self,
        alloc: Global,
        _known: &mut (),
        before: &[Layer],
        reader: &mut Reader<'_>,
        depth: usize,
    ) -> Option<Layer> {
        layer_from(alloc, self.units, before, reader, depth)
    }
}

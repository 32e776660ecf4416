//! Changes of updates, pulled from the tokens of a text feature by feature.
ghost use Rattle.std.specs.Prelude.{◌≡◌, ◌<◌, ◌++◌, ◌∷◌, [], Some, Ok, IfSome, OnSome, length, option_map, unwrap_or, ⊤};
ghost use Rattle.json.specs.Json.{value};
ghost use Rattle.serde_json.specs.Data.{Data};
ghost use Rattle.serde_json.specs.Read.{of_json, converted};
ghost use Rattle.geo_json.specs.UpdateTexts as spec;
ghost use Rattle.geo_json.specs.FeatureTexts as features;
ghost use Rattle.geo_json.specs.declared.faults.DataFault.TheVariants.{Shape};
ghost use Rattle.geo_json.specs.inner.Gathered.{HasChangeParts, AreFew, AreReadChanges};

use crate::coordinates::Units;
use crate::faults::DataFault;
use crate::feature_texts::{feature, id_of};
use crate::pulled_layers::{Place, name_from};
use data_versions::Change;
use farm_base::Text;
use geo_model::Feature;
use json::Reader;
use plain_shapes::MOST_FEATURES;
use pulled_json::{PullItem, PullMember, pull_list, pull_object, value_from};
use std::alloc::Global;

fn id_from(alloc: Global, part: u32, reader: &mut Reader<'_>, depth: usize) -> Option<u64>
    ensures value { IfSome result
        (λ id. (d : Data) × (converted of_json (value depth reader.old) ≡ Some (d, reader.new))
        × (features.id_of (Shape part 0) d ≡ Ok id)) }
    ensures shorter { OnSome result (length reader.new < length reader.old) }
{
    let value = value_from(alloc, reader, depth)?;
    let read = id_of(&value, DataFault::Shape(part, 0));
    drop(value);
    match read {
        Ok(id) => Some(id),
        Err(_) => None,
    }
}

// The ids that a change removes.
#[derive(Drop)]
struct PulledIds {
    part: u32,
}

impl PullItem for PulledIds {
    type Item = u64;

    type Fault = DataFault;

    type Known = ();

    ghost reads = { λ p before d. features.id_of (Shape p.part 0) d };

    ghost knows = { λ u before. ⊤ };

    fn pull(
        &self,
        alloc: Global,
        _known: &mut (),
        _before: &[u64],
        reader: &mut Reader<'_>,
        depth: usize,
    ) -> Option<u64> {
        id_from(alloc, self.part, reader, depth)
    }
}

fn put_from(
    alloc: Global,
    place: Place,
    before: &[Feature],
    reader: &mut Reader<'_>,
    depth: usize,
) -> Option<Feature>
    ensures value { IfSome result
        (λ f. (d : Data) × (converted of_json (value depth reader.old) ≡ Some (d, reader.new))
        × (features.feature_after place.units place.part before.now d ≡ Ok f)) }
    ensures shorter { OnSome result (length reader.new < length reader.old) }
    ensures few { IfSome result (λ f. AreFew (before.now ++ f ∷ [])) }
{
    if before.len() >= MOST_FEATURES {
        return None;
    }
    let value = value_from(alloc, reader, depth)?;
    let read = feature(alloc, place.units, place.part, before.len() as u32, &value);
    drop(value);
    match read {
        Ok(feature) => Some(feature),
        Err(_) => None,
    }
}

// The features that a change puts.
#[derive(Drop)]
struct PulledPuts {
    place: Place,
}

impl PullItem for PulledPuts {
    type Item = Feature;

    type Fault = DataFault;

    type Known = ();

    ghost reads = { λ p before d. features.feature_after p.place.units p.place.part before d };

    ghost knows = { λ u before. AreFew before };

    fn pull(
        &self,
        alloc: Global,
        _known: &mut (),
        before: &[Feature],
        reader: &mut Reader<'_>,
        depth: usize,
    ) -> Option<Feature> {
        put_from(alloc, self.place, before, reader, depth)
    }
}

// What is gathered of a change.
#[derive(Drop)]
struct ChangeParts {
    layer: Option<Text>,
    remove: Option<Vec<u64>>,
    put: Option<Vec<Feature>>,
}

// The members of a change.
#[derive(Drop)]
struct PulledMembers {
    place: Place,
}

impl PullMember for PulledMembers {
    type Gathered = ChangeParts;

    ghost has = { λ p g ms. HasChangeParts p.place.units p.place.part g.layer (option_map (λ v. v.items) g.remove) (option_map (λ v. v.items) g.put) ms };

    fn pull(
        &self,
        alloc: Global,
        gathered: &mut ChangeParts,
        key: &str,
        reader: &mut Reader<'_>,
        depth: usize,
    ) -> Option<()> {
        match key {
            "layer" => {
                gathered.layer = Some(name_from(alloc, reader)?);
                Some(())
            }
            "remove" => {
                let ids = PulledIds {
                    part: self.place.part,
                };
                gathered.remove = Some(pull_list(alloc, &ids, &mut (), reader, depth)?);
                Some(())
            }
            "put" => {
                let puts = PulledPuts { place: self.place };
                gathered.put = Some(pull_list(alloc, &puts, &mut (), reader, depth)?);
                Some(())
            }
            _ => None,
        }
    }
}

fn or_none<T: Drop>(alloc: Global, told: Option<Vec<T>>) -> Vec<T>
    ensures { unwrap_or (option_map (λ v. v.items) told) [] ≡ result.items }
{
    match told {
        Some(items) => items,
        None => Vec::new(alloc),
    }
}

fn change_of(alloc: Global, parts: ChangeParts) -> Option<Change>
    ensures { IfSome result (λ c. (parts.layer ≡ Some c.layer)
        × (unwrap_or (option_map (λ v. v.items) parts.remove) [] ≡ c.remove)
        × (unwrap_or (option_map (λ v. v.items) parts.put) [] ≡ c.put)) }
{
    let ChangeParts { layer, remove, put } = parts;
    match layer {
        Some(layer) => Some(Change {
            layer,
            remove: or_none(alloc, remove),
            put: or_none(alloc, put),
        }),
        None => None,
    }
}

fn change_from(
    alloc: Global,
    units: Units,
    before: &[Change],
    reader: &mut Reader<'_>,
    depth: usize,
) -> Option<Change>
    requires { AreReadChanges before.now }
    ensures value { IfSome result
        (λ c. (d : Data) × (converted of_json (value depth reader.old) ≡ Some (d, reader.new))
        × (spec.change_at units (length before.now) d ≡ Ok c)
        × AreReadChanges (before.now ++ c ∷ [])) }
    ensures shorter { OnSome result (length reader.new < length reader.old) }
{
    if before.len() >= MOST_FEATURES {
        return None;
    }
    let place = Place {
        units,
        part: before.len() as u32,
    };
    let mut parts = ChangeParts {
        layer: None,
        remove: None,
        put: None,
    };
    pull_object(alloc, &PulledMembers { place }, &mut parts, reader, depth)?;
    match change_of(alloc, parts) {
        Some(change) => Some(change),
        None => None,
    }
}

// The changes of an update.
#[derive(Drop)]
pub(crate) struct PulledChanges {
    pub(crate) units: Units,
}

impl PullItem for PulledChanges {
    type Item = Change;

    type Fault = DataFault;

    type Known = ();

    ghost reads = { λ p before d. spec.change_at p.units (length before) d };

    ghost knows = { λ u before. AreReadChanges before };

    fn pull(
        &self,
        alloc: Global,
        _known: &mut (),
        before: &[Change],
        reader: &mut Reader<'_>,
        depth: usize,
    ) -> Option<Change> {
        change_from(alloc, self.units, before, reader, depth)
    }
}

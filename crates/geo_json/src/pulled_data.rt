//! Data pulled from the tokens of a text, without a tree of the whole.
ghost use Rattle.std.specs.Prelude.{◌≡◌, ℕ, true, false, Some, Ok, IfSome, IfOk, OnSome, option_map};
ghost use Rattle.geo_json.specs.DataTexts as spec;
ghost use Rattle.geo_json.specs.declared.coordinates.Units.TheVariants.{Centimetres};
ghost use Rattle.geo_json.specs.inner.Gathered.{HasDataParts, AreRead};

use crate::coordinates::{Units, are_same, units_from};
use crate::faults::DataFault;
use crate::pulled_layers::PulledLayers;
use data_versions::Layer;
use json::{Reader, Scratch};
use pulled_json::{PullMember, pull_list, pull_text, str_from};
use std::alloc::Global;

// What is gathered of data.
#[derive(Drop)]
struct DataParts {
    told: bool,
    // Other units are told than those that were taken for granted.
    other: bool,
    layers: Option<Vec<Layer>>,
}

// The members of data in units that are taken for granted, since they may be told behind the layers.
#[derive(Drop)]
struct PulledMembers {
    units: Units,
}

impl PullMember for PulledMembers {
    type Gathered = DataParts;

    ghost has = { λ p g ms. HasDataParts p.units g.told (option_map (λ v. v.items) g.layers) ms };

    fn pull(
        &self,
        alloc: Global,
        gathered: &mut DataParts,
        key: &str,
        reader: &mut Reader<'_>,
        depth: usize,
    ) -> Option<()> {
        match key {
            "units" => {
                let told = units_from(reader)?;
                if are_same(told, self.units) {
                    gathered.told = true;
                    Some(())
                } else {
                    gathered.other = true;
                    None
                }
            }
            "layers" => {
                let layers = PulledLayers { units: self.units };
                gathered.layers = Some(pull_list(alloc, &layers, &mut (), reader, depth)?);
                Some(())
            }
            _ => None,
        }
    }
}

fn layers_of(units: Units, parts: DataParts) -> Option<Vec<Layer>>
    ensures { IfSome result (λ v. (option_map (λ w. w.items) parts.layers ≡ Some v.items)
        × (parts.told ≡ false → units ≡ Centimetres)) }
{
    if !parts.told && !are_same(units, Units::Centimetres) {
        return None;
    }
    parts.layers
}

// The layers that the bytes say in these units; or else whether they tell other units.
fn layers_in(
    alloc: Global,
    units: Units,
    scratch: &mut Scratch,
    bytes: &[u8],
) -> Result<Vec<Layer>, bool>
    ensures { IfOk result (λ v. (spec.dataset_in bytes.now ≡ Ok v.items) × AreRead v.items) }
{
    let mut parts = DataParts {
        told: false,
        other: false,
        layers: None,
    };
    let Some(_) = pull_text(alloc, &PulledMembers { units }, &mut parts, scratch, bytes) else {
        return Err(parts.other);
    };
    match layers_of(units, parts) {
        Some(layers) => Ok(layers),
        None => Err(false),
    }
}

/// The layers that the bytes say. None says that they are refused, or that memory ran out, or that they tell
/// two units.
pub(crate) fn pulled_layers(alloc: Global, bytes: &[u8]) -> Option<Vec<Layer>>
    ensures { IfSome result (λ v. (spec.dataset_in bytes.now ≡ Ok v.items) × AreRead v.items) }
{
    let mut scratch = Scratch::new(alloc);
    match layers_in(alloc, Units::Centimetres, &mut scratch, bytes) {
        Ok(layers) => Some(layers),
        Err(true) => match layers_in(alloc, Units::World, &mut scratch, bytes) {
            Ok(layers) => Some(layers),
            Err(_) => None,
        },
        Err(false) => None,
    }
}

//! Faults of data.
ghost use Rattle.std.specs.Prelude.{◌≡◌, ◌++◌, Some, IfOk, codes};
ghost use Rattle.std.specs.Fmt.{decimal};
ghost use Rattle.exit_status.specs.DataFaults as spec;

use crate::told::FaultText;
use farm_base::{NoMemory, Text};
use geo_json::DataFault;
use geo_model::GeoFault;
use std::alloc::Global;

// The text of a data file's fault: its number, with the places of the layer and of the feature, the
// number of a fault of a feature's parts, or the id.
impl FaultText for DataFault {
    ghost use Rattle.exit_status.specs.DataFaults.{data_text};

    ghost text = { data_text };

    fn text(self, alloc: Global) -> Result<Text, NoMemory> {
        match self {
            DataFault::NotJson => Text::of(alloc, "dataset 1"),
            DataFault::Shape(part, item) => item_text(alloc, "dataset 2", part, item),
            DataFault::Geo(geometry, part, item) => geometry_text(alloc, geometry, part, item),
            DataFault::DoubleId(part, id) => id_text(alloc, part, id),
            DataFault::DoubleLayer(part) => part_text(alloc, "dataset 5", part),
            DataFault::TooMany(part) => part_text(alloc, "dataset 6", part),
            DataFault::NoMemory => Err(NoMemory),
        }
    }
}

fn part_text(alloc: Global, fault: &str, part: u32) -> Result<Text, NoMemory>
    ensures { IfOk result (λ t. t ≡ fault.now ++ codes " at " ++ decimal part) }
{
    Ok(Text::from_string(format!(in alloc; "{fault} at {part}")?))
}

fn item_text(alloc: Global, fault: &str, part: u32, item: u32) -> Result<Text, NoMemory>
    ensures { IfOk result (λ t. t ≡ fault.now ++ codes " at " ++ decimal part ++ codes " " ++
        decimal item) }
{
    Ok(Text::from_string(format!(in alloc; "{fault} at {part} {item}")?))
}

fn id_text(alloc: Global, part: u32, id: u64) -> Result<Text, NoMemory>
    ensures { IfOk result (λ t. t ≡ codes "dataset 4 at " ++ decimal part ++ codes " id " ++ decimal
        id) }
{
    Ok(Text::from_string(format!(in alloc; "dataset 4 at {part} id {id}")?))
}

fn geometry_text(alloc: Global, fault: GeoFault, part: u32, item: u32) -> Result<Text, NoMemory>
    ensures { IfOk result (λ t. spec.geometry_text fault part item ≡ Some t) }
{
    match fault {
        GeoFault::TooFewPoints => kind_text(alloc, "geometry 1", part, item),
        GeoFault::OutOfWorld => kind_text(alloc, "geometry 2", part, item),
        GeoFault::TooManyPoints => kind_text(alloc, "geometry 3", part, item),
        GeoFault::TooManyAttrs => kind_text(alloc, "geometry 4", part, item),
        GeoFault::DoubleName => kind_text(alloc, "geometry 5", part, item),
        GeoFault::NoMemory => Err(NoMemory),
    }
}

fn kind_text(alloc: Global, kind: &str, part: u32, item: u32) -> Result<Text, NoMemory>
    ensures { IfOk result (λ t. t ≡ codes "dataset 3 at " ++ decimal part ++ codes " " ++ decimal
        item ++ codes " " ++ kind.now) }
{
    Ok(Text::from_string(format!(in alloc; "dataset 3 at {part} {item} {kind}")?))
}

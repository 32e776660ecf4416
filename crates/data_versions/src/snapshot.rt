//! Data that never change and are shared: snapshots, and views of their layers.
ghost use Rattle.std.specs.Prelude.{◌≡◌, ◌≤◌, IfOk, length, slice_get};
ghost use Rattle.std.specs.Option.{option_copied};
ghost use Rattle.std.specs.Arc.{arc_value};
ghost use Rattle.plain_shapes.specs.Data.{IsDataset, features_named};
ghost use Rattle.data_versions.specs.Near.{place_of, next_near, all_near};
ghost use Rattle.data_versions.specs.Shared.{shared_layers};
ghost use Rattle.data_versions.specs.inner.Parts.{laid};
ghost use Rattle.plain_shapes.specs.Limits.{most_features};

use crate::builder::Builder;
use crate::chunked::ChunkedLayer;
use crate::dataset::{Dataset, Layer};
use crate::finder::LayerFinder;
use crate::question::{Question, Wanted};
use crate::segment::Segment;
use crate::shared::SharedFeature;
use crate::walk::NearFeatures;
use farm_base::NoMemory;
use geo_model::{Bounds, Feature};
use std::alloc::Global;
use std::marker::Model;
use std::sync::Arc;

/// A dataset that never changes and is shared, each layer in segments of chunks of at most 64 features. Contracts
/// see it as the list of its layers.
#[derive(Drop)]
pub struct Snapshot {
    layers: Arc<Vec<Arc<ChunkedLayer>>>,
}

impl Model for Snapshot {
    ghost use Rattle.std.specs.Prelude.{List};
    ghost use Rattle.plain_shapes.specs.Features.{Layer};
    ghost use Rattle.plain_shapes.specs.Data.{IsDataset};
    ghost use Rattle.data_versions.specs.Shared.{shared_layers};

    ghost Value = { List Layer };

    ghost view = { λ s. shared_layers s.layers.value.items };

    ghost invariant = { λ s. IsDataset (shared_layers s.layers.value.items) };
}

fn segments_of(alloc: Global, features: Vec<Feature>) -> Result<Vec<Segment>, NoMemory>
    ensures { IfOk result (λ segments. laid segments.items ≡ features.items) }
{
    let mut builder = Builder::new(alloc);
    for feature in features {
        builder.add(alloc, SharedFeature::of(alloc, feature)?)?;
    }
    builder.into_segments(alloc)
}

fn share_layer(alloc: Global, layer: Layer) -> Result<Arc<ChunkedLayer>, NoMemory>
    ensures { IfOk result (λ shared. arc_value shared ≡ layer) }
{
    let name = layer.name;
    let segments = segments_of(alloc, layer.features)?;
    ChunkedLayer::shared(alloc, name, segments)
}

impl Snapshot {
    /// The snapshot of the data.
    pub fn first(alloc: Global, dataset: Dataset) -> Result<Snapshot, NoMemory>
        ensures { IfOk result (λ s. s ≡ dataset) }
    {
        let layers = dataset.into_layers();
        let mut shared = Vec::with_capacity(alloc, layers.len())?;
        for layer in layers {
            shared.push(share_layer(alloc, layer)?)?;
        }
        Snapshot::of(alloc, shared)
    }

    /// The snapshot of layers that are shared already.
    pub(crate) fn of(alloc: Global, shared: Vec<Arc<ChunkedLayer>>) -> Result<Snapshot, NoMemory>
        requires { IsDataset (shared_layers shared.items) }
        ensures { IfOk result (λ s. s ≡ shared_layers shared.items) }
    {
        Ok(Snapshot {
            layers: Arc::new(alloc, shared)?,
        })
    }

    /// The layers, as they are shared.
    pub(crate) fn shared(&self) -> &[Arc<ChunkedLayer>]
        ensures value { shared_layers result.now ≡ self.now }
        ensures valid { IsDataset self.now }
    {
        self.layers.as_slice()
    }

    /// An equal snapshot, which shares all with this one.
    pub fn share(&self) -> Result<Snapshot, NoMemory>
        ensures { IfOk result (λ s. s ≡ self.now) }
    {
        Ok(Snapshot {
            layers: Arc::try_clone(&self.layers)?,
        })
    }

    /// The layer of the name, or none exactly where no layer has it.
    pub fn layer(&self, name: &str) -> Option<LayerView<'_>>
        ensures { result ≡ features_named self.now name.now }
    {
        for layer in self.shared() {
            let layer: &ChunkedLayer = layer;
            if layer.name() == name {
                return Some(LayerView { layer });
            }
        }
        None
    }

    /// A finder of features by their ids for each layer, in the layers' order.
    pub fn finders(&self, alloc: Global) -> Result<Vec<LayerFinder<'_>>, NoMemory>
        ensures each { IfOk result (λ finders. finders.items ≡ self.now) }
        ensures valid { IsDataset self.now }
    {
        let shared = self.shared();
        let mut finders = Vec::with_capacity(alloc, shared.len())?;
        for layer in shared {
            let layer: &ChunkedLayer = layer;
            finders.push(LayerFinder::of(layer))?;
        }
        Ok(finders)
    }
}

/// A look at one layer of a snapshot, which contracts see as the list of its features. Its calls take no
/// memory.
#[derive(Drop)]
pub struct LayerView<'a> {
    layer: &'a ChunkedLayer,
}

impl<'a> Model for LayerView<'a> {
    ghost use Rattle.std.specs.Prelude.{List};
    ghost use Rattle.plain_shapes.specs.Features.{Feature};

    ghost Value = { List Feature };

    ghost view = { λ v. v.layer.now.features };
}

impl<'a> LayerView<'a> {
    /// How many features the layer has.
    pub fn len(&self) -> u32
        ensures { result ≡ length self.now }
    {
        self.layer.len()
    }

    /// The feature at the place, or none exactly where the place is not below `len`.
    pub fn get(&self, i: u32) -> Option<&Feature>
        ensures { option_copied result ≡ slice_get self.now i }
    {
        self.layer.get(i)
    }

    /// The place of the feature with the id, or none exactly where no feature has it.
    pub fn place_of(&self, id: u64) -> Option<u32>
        ensures { result ≡ place_of self.now id }
    {
        self.layer.place_of(id)
    }

    /// The least place from `from` on whose feature's bounding box, borders included, has a point in common
    /// with the rectangle, borders included; none exactly where there is no such place. The caller sees to
    /// it that the rectangle's west is not past its east, nor its north past its south. No command calls it:
    /// what is drawn is found by `near`. Its tests are those of `rows.rt` and `updates.rt` of `farm_tests`.
    pub fn next_near(&self, from: u32, west: u32, north: u32, east: u32, south: u32) -> Option<u32>
        requires across { west ≤ east }
        requires down { north ≤ south }
        ensures { result ≡ next_near self.now from
            (record { west = west; north = north; east = east; south = south }) }
    {
        let around = Bounds {
            west,
            north,
            east,
            south,
        };
        let wanted = Wanted {
            around,
            asked: None,
        };
        self.layer.segments().find(from, Question::IsNear(wanted))
    }

    /// A walk over the features whose bounding box, borders included, has a point in common with the rectangle, borders
    /// included, in order. Where marks of attributes are asked for (`attribute_marks`), features of which no attribute has
    /// one of them may be left out.
    pub fn near(&self, around: Bounds, asked: Option<u64>) -> NearFeatures<'a>
        ensures { result ≡ record { asked = asked; left = all_near self.now around } }
    {
        let layer = self.layer;
        NearFeatures::of(layer.segments(), Wanted { around, asked })
    }
}

//! The features of data that are near a rectangle, found once for all that is drawn of them.
ghost use Rattle.std.specs.Prelude.{◌≡◌, true, ◌&&◌, IfOk, IfSome, map, find};
ghost use Rattle.std.specs.Option.{option_copied};
ghost use Rattle.std.specs.Str.{bytes_eq};
ghost use Rattle.plain_drawing.specs.Drawing.{features_of};
ghost use Rattle.data_versions.specs.Near.{all_near};
ghost use Rattle.tile_render.specs.inner.Nearby.{IsSource, DrawAlike, serves};

use crate::items::Source;
use data_versions::{NearFeatures, SharedFeature, Snapshot};
use farm_base::NoMemory;
use geo_model::Bounds;
use std::alloc::Global;
use std::marker::Model;

/// The most features that are kept of all layers of data. More take far longer to draw than to be found anew.
const MOST_KEPT: usize = 131_072;

/// The name of a layer of data, and its features that are near a rectangle, unless they are too many. Where marks are asked
/// for, features that have none of them may be left out.
#[derive(Drop)]
pub(crate) struct NearLayer<'a> {
    name: &'a str,
    asked: Option<u64>,
    pub features: Vec<&'a SharedFeature>,
    pub has_all: bool,
}

/// Data, and near a rectangle the features of those of their layers that were drawn before. Contracts see the data
/// and the rectangle.
#[derive(Drop)]
pub(crate) struct NearData<'a> {
    snapshot: &'a Snapshot,
    around: Bounds,
    kept: Vec<NearLayer<'a>>,
    room: usize,
}

impl<'a> Model for NearData<'a> {
    ghost use Rattle.std.specs.Prelude.{All};
    ghost use Rattle.tile_render.specs.inner.Nearby.{Nearby, IsKept};

    ghost Value = { Nearby };

    ghost view = { λ n. record { layers = n.snapshot.now; around = n.around } };

    ghost invariant = { λ n. All (IsKept n.snapshot.now n.around) n.kept.items };
}

fn listed<'a>(
    alloc: Global,
    mut walk: NearFeatures<'a>,
    most: usize,
) -> Result<Option<Vec<&'a SharedFeature>>, NoMemory>
    ensures { IfOk result (λ found. IfSome found
        (λ features. DrawAlike walk.entry.asked (map (λ f. f.now) features.items) walk.entry.left)) }
{
    let mut features = Vec::new(alloc);
    while let Some(feature) = walk.next() {
        if features.len() >= most {
            return Ok(None);
        }
        features.push(feature)?;
    }
    Ok(Some(features))
}

// What is kept of a layer of data: its features near the rectangle, or none where they are more than so many.
fn near_layer<'a>(
    alloc: Global,
    source: &Source<'a>,
    around: Bounds,
    asked: Option<u64>,
    most: usize,
) -> Result<NearLayer<'a>, NoMemory>
    ensures name { IfOk result (λ k. k.name.now ≡ source.now.name.now) }
    ensures near { IfOk result (λ k. k.has_all ≡ true
        → DrawAlike k.asked (map (λ f. f.now) k.features.items)
        (all_near source.now.features around)) }
{
    let name = source.name;
    let walk = source.features.near(around, asked);
    match listed(alloc, walk, most)? {
        Some(features) => Ok(NearLayer {
            name,
            asked,
            features,
            has_all: true,
        }),
        None => Ok(NearLayer {
            name,
            asked,
            features: Vec::new(alloc),
            has_all: false,
        }),
    }
}

// Whether what is kept for some marks serves who asks for others: whether each of these is one of those. Where none are
// asked for, all features are.
fn serves(kept: Option<u64>, asked: Option<u64>) -> bool
    ensures { result ≡ serves kept asked }
{
    match (kept, asked) {
        (None, _) => true,
        (Some(_), None) => false,
        (Some(kept), Some(asked)) => asked | kept == kept,
    }
}

// What is kept of the layer of this name, if it serves who asks for the marks.
fn find_layer<'b, 'a>(
    kept: &'b [NearLayer<'a>],
    name: &str,
    asked: Option<u64>,
) -> Option<&'b NearLayer<'a>>
    ensures { option_copied result
        ≡ find (λ k. bytes_eq k.name.now name.now && serves k.asked asked) kept.now }
{
    kept.iter()
        .find(|layer| layer.name == name && serves(layer.asked, asked))
}

fn has_layer(kept: &[NearLayer<'_>], name: &str) -> bool {
    kept.iter().any(|layer| layer.name == name)
}

impl<'a> NearData<'a> {
    /// The data, of which nothing is kept yet.
    pub(crate) fn of(alloc: Global, snapshot: &'a Snapshot, around: Bounds) -> NearData<'a>
        ensures { result ≡ record { layers = snapshot.entry.now; around = around } }
    {
        NearData {
            snapshot,
            around,
            kept: Vec::new(alloc),
            room: MOST_KEPT,
        }
    }

    /// The data.
    pub(crate) fn snapshot(&self) -> &'a Snapshot
        ensures { result.now ≡ self.now.layers }
    {
        self.snapshot
    }

    /// Keeps the near features of the layer of data, where they are not too many, that may have one of the marks, unless
    /// what is kept serves. A layer that is drawn anew for other marks is kept for all.
    pub(crate) fn keep(
        &mut self,
        alloc: Global,
        source: &Source<'a>,
        asked: Option<u64>,
    ) -> Result<(), NoMemory>
        requires { IsSource self.old.layers source.now }
        ensures { self.new ≡ self.old }
    {
        if find_layer(self.kept.as_slice(), source.name, asked).is_some() {
            return Ok(());
        }
        let asked = if has_layer(self.kept.as_slice(), source.name) {
            None
        } else {
            asked
        };
        let layer = near_layer(alloc, source, self.around, asked, self.room)?;
        self.room = self.room.saturating_sub(layer.features.len());
        self.kept.push(layer)?;
        Ok(())
    }

    /// What is kept of the layer of this name for who asks for the marks.
    pub(crate) fn kept(&self, name: &str, asked: Option<u64>) -> Option<&NearLayer<'a>>
        ensures { IfSome result (λ k. k.now.has_all ≡ true
            → DrawAlike asked (map (λ f. f.now) k.now.features.items)
            (all_near (features_of self.now.layers name.now) self.now.around)) }
    {
        find_layer(self.kept.as_slice(), name, asked)
    }
}

//! The data.
ghost use Rattle.std.specs.Prelude.{◌≡◌, ◌<◌, ◌≤◌, ◌+◌, ◌*◌, ◌%◌, ◌^◌, ◌∷◌, ◌++◌, [], IfOk, OnOk, None};
ghost use Rattle.work_gen.specs.Work as spec;
ghost use Rattle.geo_model.specs.Shapes.{shape_fault};

use crate::draws::Draws;
use data_versions::{Dataset, Layer};
use farm_base::{Attr, Listed, NoMemory, Text, Value};
use geo_model::{Feature, make_feature};
use plain_shapes::{Geometry, Path};
use plain_world::Point;
use std::alloc::Global;

/// The world's middle, behind which the features lie.
const MIDDLE: u32 = 1 << 29;

/// How far behind the middle a feature may begin.
const SPREAD: u32 = 520_192;

/// How large a feature may be.
const MOST_SIDE: u32 = 4096;

fn path(alloc: Global, points: &[Point]) -> Result<Path, NoMemory>
    ensures { IfOk result (λ p. p ≡ points.now) }
{
    Ok(Path {
        points: Vec::from_slice(alloc, points)?,
    })
}

fn single(alloc: Global, points: &[Point]) -> Result<Listed<Path>, NoMemory>
    ensures { IfOk result (λ l. l ≡ points.now ∷ []) }
{
    let mut paths = Vec::new(alloc);
    paths.push(path(alloc, points)?)?;
    Ok(Listed::of(paths))
}

// The shape of a feature of a layer: a square of the land, a road from corner to corner, or a spot.
#[tactic(auto, using(crate::proofs::Shapes::square_sound, crate::proofs::Shapes::diagonal_sound, crate::proofs::Shapes::point_sound))]
fn shape(alloc: Global, layer: u32, x: u32, y: u32, side: u32) -> Result<Geometry, NoMemory>
    requires x { x < 2 ^ 29 + 520192 }
    requires y { y < 2 ^ 29 + 520192 }
    requires side { side ≤ 4096 }
    ensures value { IfOk result (λ g. g ≡ spec.shape_of layer x y side) }
    ensures sound { IfOk result (λ g. shape_fault g ≡ None) }
{
    let (east, south) = (x + side, y + side);
    let here = Point { x, y };
    let far = Point { x: east, y: south };
    match layer {
        0 => {
            let ring = [here, Point { x: east, y }, far, Point { x, y: south }];
            Ok(Geometry::Polygon(single(alloc, &ring)?))
        }
        1 => Ok(Geometry::Lines(single(alloc, &[here, far])?)),
        _ => Ok(Geometry::Points(path(alloc, &[here])?)),
    }
}

fn attrs(alloc: Global, kind: u32) -> Result<Vec<Attr>, NoMemory>
    ensures { IfOk result (λ v. v.items ≡ spec.kind_attr kind ∷ []) }
{
    let mut attrs = Vec::new(alloc);
    attrs.push(Attr {
        name: Text::of(alloc, "kind")?,
        value: Value::Whole(i64::from(kind)),
    })?;
    Ok(attrs)
}

#[tactic(auto, unfolding(crate::specs::Work::feature_at))]
fn feature(alloc: Global, draws: &mut Draws, number: u32) -> Result<Feature, NoMemory>
    requires few { number < 100000 }
    requires turn { draws.old.made ≡ 4 * number }
    ensures value { IfOk result (λ f. f ≡ spec.feature_at draws.old.seed number) }
    ensures drawn { draws.new ≡ record { seed = draws.old.seed; made = 4 * (number + 1) } }
{
    let kind = draws.next(4);
    let x = MIDDLE + draws.next(SPREAD);
    let y = MIDDLE + draws.next(SPREAD);
    let side = 1 + draws.next(MOST_SIDE);
    let geometry = shape(alloc, number % 3, x, y, side)?;
    let attrs = attrs(alloc, kind)?;
    match make_feature(u64::from(number), geometry, attrs) {
        Ok(feature) => Ok(feature),
        Err(_) => unreachable!(),
    }
}

/// The features of the three layers.
#[derive(Drop)]
struct ByLayer {
    land: Vec<Feature>,
    roads: Vec<Feature>,
    spots: Vec<Feature>,
}

#[tactic(auto, using(crate::proofs::Features::feature_of_layer, crate::proofs::Features::feature_of_other, crate::proofs::Features::no_feature))]
fn features_by_layer(alloc: Global, seed: u64, count: u32) -> Result<ByLayer, NoMemory>
    requires { count ≤ 100000 }
    ensures land { IfOk result (λ f. f.land.items ≡ spec.work_features seed 0 count) }
    ensures roads { IfOk result (λ f. f.roads.items ≡ spec.work_features seed 1 count) }
    ensures spots { IfOk result (λ f. f.spots.items ≡ spec.work_features seed 2 count) }
{
    let mut draws = Draws::behind(seed, 0);
    let mut land = Vec::new(alloc);
    let mut roads = Vec::new(alloc);
    let mut spots = Vec::new(alloc);
    for number in 0..count {
        let feature = feature(alloc, &mut draws, number)?;
        match number % 3 {
            0 => land.push(feature)?,
            1 => roads.push(feature)?,
            _ => spots.push(feature)?,
        }
    }
    Ok(ByLayer { land, roads, spots })
}

fn add_layer(
    alloc: Global,
    layers: &mut Vec<Layer>,
    name: &str,
    features: Vec<Feature>,
) -> Result<(), NoMemory>
    ensures { OnOk result (layers.new.items
        ≡ layers.old.items ++ record { name = name.now; features = features.items } ∷ []) }
{
    let name = Text::of(alloc, name)?;
    layers.push(Layer { name, features })?;
    Ok(())
}

fn three_layers(alloc: Global, seed: u64, count: u32) -> Result<Vec<Layer>, NoMemory>
    requires { count ≤ 100000 }
    ensures { IfOk result (λ v. v.items ≡ spec.dataset_of seed count) }
{
    let features = features_by_layer(alloc, seed, count)?;
    let mut layers = Vec::new(alloc);
    add_layer(alloc, &mut layers, "land", features.land)?;
    add_layer(alloc, &mut layers, "roads", features.roads)?;
    add_layer(alloc, &mut layers, "spots", features.spots)?;
    Ok(layers)
}

/// The data of so many features.
pub fn dataset(alloc: Global, seed: u64, count: u32) -> Result<Dataset, NoMemory>
    requires { count ≤ 100000 }
    ensures { IfOk result (λ d. d ≡ spec.dataset_of seed count) }
{
    let layers = three_layers(alloc, seed, count)?;
    Ok(Dataset::of(layers))
}

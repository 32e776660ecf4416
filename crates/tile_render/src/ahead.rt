//! What is asked of features, read for some of them at once before they are drawn.

use crate::scaled::ScaledStyle;
use data_versions::SharedFeature;
use farm_base::NoMemory;
use geo_model::Feature;
use plain_shapes::Geometry;
use plain_world::Point;

// So many features are read together.
const TOGETHER: usize = 32;

// Where less than one of so many features that were read was painted, the shapes of the next ones are not read: most of them
// are not asked for.
const SOME: usize = 4;

/// What of features is asked for when they are drawn: their attributes, their shapes.
#[derive(Clone, Copy)]
struct Asked {
    attrs: bool,
    shape: bool,
}

/// How far what is read lies from the feature: in itself, in the lists that it has, in what these have.
#[derive(Clone, Copy)]
enum Distance {
    Itself,
    Lists,
    Ends,
}

fn first_name(feature: &Feature) -> &[u8] {
    match feature.attrs().first() {
        Some(attr) => attr.name.as_str().as_bytes(),
        None => &[],
    }
}

fn first_points(feature: &Feature) -> &[Point] {
    let path = match feature.geometry() {
        Geometry::Points(path) => Some(path),
        Geometry::Lines(lines) => lines.as_slice().first(),
        Geometry::Polygon(rings) => rings.as_slice().first(),
    };
    match path {
        Some(path) => path.points.as_slice(),
        None => &[],
    }
}

fn name_number(feature: &Feature, distance: Distance) -> u64 {
    let name = first_name(feature);
    match distance {
        Distance::Ends => u64::from(name.first().copied().unwrap_or(0)),
        _ => name.len() as u64,
    }
}

// A number of the first point and of the last: those of a short path lie on their two lines of memory.
fn ends_number(points: &[Point]) -> u64 {
    match (points.first(), points.last()) {
        (Some(first), Some(last)) => u64::from(first.x).saturating_add(u64::from(last.x)),
        _ => 0,
    }
}

fn shape_number(feature: &Feature, distance: Distance) -> u64 {
    let points = first_points(feature);
    match distance {
        Distance::Ends => ends_number(points),
        _ => points.len() as u64,
    }
}

// Some numbers of the feature together, of each part of it that is asked for one, that lie so far away.
fn number(feature: &Feature, asked: Asked, distance: Distance) -> u64 {
    if let Distance::Itself = distance {
        return u64::from(feature.bbox().west).saturating_add(feature.attrs().len() as u64);
    }
    let mut sum = 0u64;
    if asked.attrs {
        sum = name_number(feature, distance);
    }
    if asked.shape {
        sum = sum.saturating_add(shape_number(feature, distance));
    }
    sum
}

// The numbers of features that lie so far away. None of them waits for another one, so many are on their way at once.
fn read(features: &[&SharedFeature], asked: Asked, distance: Distance) -> u64 {
    let mut sum = 0u64;
    for shared in features {
        sum = sum.saturating_add(number(shared.feature(), asked, distance));
    }
    sum
}

/// Up to which feature all are read, how many of them were read together, and how much was painted before these.
#[derive(Clone, Copy)]
pub(crate) struct Ahead {
    next: usize,
    read: usize,
    painted: usize,
}

/// Nothing was read yet.
pub(crate) fn from_the_first(painted: usize) -> Ahead {
    Ahead {
        next: 0,
        read: 0,
        painted,
    }
}

impl Ahead {
    /// Before the k-th feature is drawn, it is read, and so many others with it: one after another they would wait for
    /// memory, since what is painted between them takes their place in the nearest caches. What lies in all of them is read
    /// first, then what they lead to. That they are read must be of some use, or it would be left out: more than a number
    /// counts is more than memory holds.
    pub(crate) fn read(
        &mut self,
        scaled: &ScaledStyle<'_>,
        features: &[&SharedFeature],
        k: usize,
        painted: usize,
    ) -> Result<(), NoMemory> {
        if k < self.next {
            return Ok(());
        }
        let asked = Asked {
            attrs: scaled.has_filter(),
            shape: painted.saturating_sub(self.painted) >= self.read / SOME,
        };
        self.painted = painted;
        let rest = &features[k.min(features.len())..];
        let together = &rest[..rest.len().min(TOGETHER)];
        self.next = k.saturating_add(together.len());
        self.read = together.len();
        let sum = read(together, asked, Distance::Itself)
            .saturating_add(read(together, asked, Distance::Lists))
            .saturating_add(read(together, asked, Distance::Ends));
        if sum == u64::MAX {
            return Err(NoMemory);
        }
        Ok(())
    }
}

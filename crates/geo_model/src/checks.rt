//! The faults of a feature's parts, looked for in order.
ghost use Rattle.std.specs.Prelude.{◌≡◌, ◌<◌, ◌≤◌, length, ◌^◌, nat_lt, sum_by, MatchResult, Some, None};
ghost use Rattle.std.specs.List.{list_any};
ghost use Rattle.std.specs.Str.{bytes_eq};
ghost use Rattle.plain_shapes.specs.Limits.{most_points};
ghost use Rattle.geo_model.specs.Shapes.{parts_of, least_points, is_none, has_too_few, is_outside, point_count, has_double_name, shape_fault, attrs_fault};

use crate::bounds::WORLD;
use crate::faults::GeoFault;
use farm_base::Attr;
use plain_shapes::{Geometry, MOST_ATTRS, MOST_POINTS, Path};
use plain_world::Point;
use std::slice;

/// The parts of the shape: all points together, or each line, or each ring.
pub(crate) fn parts_of(geometry: &Geometry) -> &[Path]
    ensures { result.now ≡ parts_of geometry.now }
{
    match geometry {
        Geometry::Points(points) => slice::from_ref(points),
        Geometry::Lines(lines) => lines.as_slice(),
        Geometry::Polygon(rings) => rings.as_slice(),
    }
}

fn least_points(geometry: &Geometry) -> usize
    ensures { result ≡ least_points geometry.now }
{
    match geometry {
        Geometry::Points(_points) => 1,
        Geometry::Lines(_lines) => 2,
        Geometry::Polygon(_rings) => 3,
    }
}

fn is_short(path: &Path, least: usize) -> bool
    ensures { result ≡ nat_lt (length path.now) least }
{
    path.points.len() < least
}

fn has_short(parts: &[Path], least: usize) -> bool
    ensures { result ≡ list_any (λ part. nat_lt (length part) least) parts.now }
{
    parts.iter().any(|part| is_short(part, least))
}

fn is_outside(p: Point) -> bool
    ensures { result ≡ is_outside p }
{
    p.x > WORLD || p.y > WORLD
}

fn leaves_world(path: &Path) -> bool
    ensures { result ≡ list_any is_outside path.now }
{
    path.points.iter().any(|p| is_outside(*p))
}

fn has_outside(parts: &[Path]) -> bool
    ensures { result ≡ list_any (list_any is_outside) parts.now }
{
    parts.iter().any(|part| leaves_world(part))
}

fn point_count(path: &Path) -> usize
    ensures { result ≡ length path.now }
{
    path.points.len()
}

#[tactic(auto, using(std::proofs::lemmas::List::Sums::sum_by_more_le, std::proofs::lemmas::List::Sums::sum_by_more))]
fn has_too_many_points(parts: &[Path]) -> bool
    ensures { result ≡ nat_lt most_points (sum_by length parts.now) }
{
    let mut count = 0usize;
    for part in parts {
        let more = point_count(part);
        if more > MOST_POINTS - count {
            return true;
        }
        count += more;
    }
    false
}

/// The first fault of the shape.
pub(crate) fn check_shape(geometry: &Geometry) -> Result<(), GeoFault>
    ensures { MatchResult result (λ _. shape_fault geometry.now ≡ None)
        (λ e. shape_fault geometry.now ≡ Some e) }
{
    let parts = parts_of(geometry);
    if parts.is_empty() || has_short(parts, least_points(geometry)) {
        return Err(GeoFault::TooFewPoints);
    }
    if has_outside(parts) {
        return Err(GeoFault::OutOfWorld);
    }
    if has_too_many_points(parts) {
        return Err(GeoFault::TooManyPoints);
    }
    Ok(())
}

fn is_named(a: &Attr, name: &str) -> bool
    ensures { result ≡ bytes_eq name.now a.now.name }
{
    name == a.name.as_str()
}

fn has_name(attrs: &[Attr], name: &str) -> bool
    ensures { result ≡ list_any (λ b. bytes_eq name.now b.name) attrs.now }
{
    attrs.iter().any(|a| is_named(a, name))
}

fn has_double_name(attrs: &[Attr]) -> bool
    ensures { result ≡ has_double_name attrs.now }
{
    for (place, attr) in attrs.iter().enumerate() {
        if has_name(&attrs[place + 1..], attr.name.as_str()) {
            return true;
        }
    }
    false
}

/// The first fault of the attributes.
pub(crate) fn check_attrs(attrs: &[Attr]) -> Result<(), GeoFault>
    ensures { MatchResult result (λ _. attrs_fault attrs.now ≡ None)
        (λ e. attrs_fault attrs.now ≡ Some e) }
{
    if attrs.len() > MOST_ATTRS {
        return Err(GeoFault::TooManyAttrs);
    }
    if has_double_name(attrs) {
        return Err(GeoFault::DoubleName);
    }
    Ok(())
}

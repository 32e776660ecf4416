//! Shapes of features.
ghost use Rattle.std.specs.Prelude.{◌≡◌, ◌≤◌, ◌<◌, ◌^◌, ℕ, true, length};
ghost use Rattle.serde_json.specs.View.{view, items_view};
ghost use Rattle.reading.specs.Lists.{list_of};
ghost use Rattle.reading.specs.Steps.{Gives};
ghost use Rattle.geo_json.specs.Coordinates.{point_of};
ghost use Rattle.geo_json.specs.Geometries as spec;
ghost use Rattle.geo_json.specs.inner.Keys as keys;
ghost use Rattle.geo_json.specs.Openings.{object_of};
ghost use Rattle.geo_json.specs.declared.faults.DataFault.TheVariants as fault;

use crate::coordinates::{Units, point};
use crate::faults::DataFault;
use crate::openings::open;
use farm_base::Listed;
use plain_shapes::{Geometry, Path};
use plain_world::Point;
use reading::{ReadItem, list, read_list};
use serde_json::Value;
use std::alloc::Global;

fn points(
    alloc: Global,
    units: Units,
    items: &[Value],
    shape: DataFault,
) -> Result<Vec<Point>, DataFault>
    requires { length items.now < 2 ^ 64 }
    ensures { Gives fault.NoMemory (λ v. v.items)
        (list_of (λ before p. point_of units shape p) (items_view items.now)) result }
{
    read_list(alloc, &PointItems { units, shape }, items)
}

#[tactic(auto, unfolding(crate::specs::Geometries::path_points))]
fn path(alloc: Global, units: Units, value: &Value, shape: DataFault) -> Result<Path, DataFault>
    ensures { Gives fault.NoMemory (λ p. p) (spec.path_points units shape (view value.now)) result }
{
    let items = list(Some(value), shape)?;
    let points = points(alloc, units, items, shape)?;
    Ok(Path { points })
}

fn read_paths(
    alloc: Global,
    units: Units,
    items: &[Value],
    shape: DataFault,
) -> Result<Vec<Path>, DataFault>
    requires { length items.now < 2 ^ 64 }
    ensures { Gives fault.NoMemory (λ v. v.items)
        (list_of (λ before p. spec.path_points units shape p) (items_view items.now)) result }
{
    read_list(alloc, &PathItems { units, shape }, items)
}

#[tactic(auto, unfolding(crate::specs::Geometries::paths_of))]
fn paths(
    alloc: Global,
    units: Units,
    value: &Value,
    shape: DataFault,
) -> Result<Listed<Path>, DataFault>
    ensures { Gives fault.NoMemory (λ p. p) (spec.paths_of units shape (view value.now)) result }
{
    let items = list(Some(value), shape)?;
    let paths = read_paths(alloc, units, items, shape)?;
    Ok(Listed::of(paths))
}

fn open_geometry(object: &Value, shape: DataFault) -> Result<(), DataFault>
    ensures { result ≡ object_of shape keys.geometry_keys (view object.now) }
{
    open(object, &["points", "lines", "polygon"], shape)
}

/// The shape that the value says.
#[tactic(auto, unfolding(crate::specs::Geometries::geometry_of))]
pub(crate) fn geometry(
    alloc: Global,
    units: Units,
    object: &Value,
    shape: DataFault,
) -> Result<Geometry, DataFault>
    ensures { Gives fault.NoMemory (λ g. g)
        (spec.geometry_of units shape (view object.now)) result }
{
    open_geometry(object, shape)?;
    match (
        object.get("points"),
        object.get("lines"),
        object.get("polygon"),
    ) {
        (Some(value), None, None) => Ok(Geometry::Points(path(alloc, units, value, shape)?)),
        (None, Some(value), None) => Ok(Geometry::Lines(paths(alloc, units, value, shape)?)),
        (None, None, Some(value)) => Ok(Geometry::Polygon(paths(alloc, units, value, shape)?)),
        _ => Err(shape),
    }
}

// The points of a list.
#[derive(Drop)]
struct PointItems {
    units: Units,
    shape: DataFault,
}

impl ReadItem for PointItems {
    type Item = Point;

    type Fault = DataFault;

    ghost limit = { λ r. 2 ^ 64 };

    ghost reads = { λ r before d. point_of r.units r.shape d };

    ghost keeps = { λ r before p. true };

    fn read(&self, _alloc: Global, _before: &[Point], value: &Value) -> Result<Point, DataFault> {
        point(self.units, value, self.shape)
    }
}

// The lines of a list, or its rings.
#[derive(Drop)]
struct PathItems {
    units: Units,
    shape: DataFault,
}

impl ReadItem for PathItems {
    type Item = Path;

    type Fault = DataFault;

    ghost limit = { λ r. 2 ^ 64 };

    ghost reads = { λ r before d. spec.path_points r.units r.shape d };

    ghost keeps = { λ r before p. true };

    fn read(&self, alloc: Global, _before: &[Path], value: &Value) -> Result<Path, DataFault> {
        path(alloc, self.units, value, self.shape)
    }
}

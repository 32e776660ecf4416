//! Copies of a feature's parts.
ghost use Rattle.std.specs.Prelude.{◌≡◌, IfOk};

use farm_base::{Attr, Listed, NoMemory, Text, Value};
use plain_shapes::{Geometry, Path};
use std::alloc::Global;

fn copy_path(alloc: Global, path: &Path) -> Result<Path, NoMemory>
    ensures { IfOk result (λ p. p ≡ path.now) }
{
    Ok(Path {
        points: Vec::from_slice(alloc, &path.points)?,
    })
}

fn copy_paths(alloc: Global, paths: &[Path]) -> Result<Listed<Path>, NoMemory>
    ensures { IfOk result (λ ps. ps ≡ paths.now) }
{
    let mut copies = Vec::with_capacity(alloc, paths.len())?;
    for path in paths {
        copies.push(copy_path(alloc, path)?)?;
    }
    Ok(Listed::of(copies))
}

pub(crate) fn copy_geometry(alloc: Global, geometry: &Geometry) -> Result<Geometry, NoMemory>
    ensures { IfOk result (λ g. g ≡ geometry.now) }
{
    match geometry {
        Geometry::Points(points) => Ok(Geometry::Points(copy_path(alloc, points)?)),
        Geometry::Lines(lines) => Ok(Geometry::Lines(copy_paths(alloc, lines.as_slice())?)),
        Geometry::Polygon(rings) => Ok(Geometry::Polygon(copy_paths(alloc, rings.as_slice())?)),
    }
}

fn copy_value(alloc: Global, value: &Value) -> Result<Value, NoMemory>
    ensures { IfOk result (λ v. v ≡ value.now) }
{
    match value {
        Value::Null => Ok(Value::Null),
        Value::Truth(truth) => Ok(Value::Truth(*truth)),
        Value::Whole(whole) => Ok(Value::Whole(*whole)),
        Value::Text(text) => Ok(Value::Text(Text::of(alloc, text.as_str())?)),
    }
}

fn copy_attr(alloc: Global, attr: &Attr) -> Result<Attr, NoMemory>
    ensures { IfOk result (λ a. a ≡ attr.now) }
{
    Ok(Attr {
        name: Text::of(alloc, attr.name.as_str())?,
        value: copy_value(alloc, &attr.value)?,
    })
}

pub(crate) fn copy_attrs(alloc: Global, attrs: &[Attr]) -> Result<Vec<Attr>, NoMemory>
    ensures { IfOk result (λ copies. copies.items ≡ attrs.now) }
{
    let mut copies = Vec::with_capacity(alloc, attrs.len())?;
    for attr in attrs {
        copies.push(copy_attr(alloc, attr)?)?;
    }
    Ok(copies)
}

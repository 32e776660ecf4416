//! The units of a text, and points in them.
ghost use Rattle.std.specs.Prelude.{◌≡◌, ◌<◌, ℕ, Some, Ok, IfSome, OnSome, IsTrue, length, List};
ghost use Rattle.json.specs.Json.{value};
ghost use Rattle.serde_json.specs.Data.{string};
ghost use Rattle.serde_json.specs.Read.{of_json, converted};
ghost use Rattle.serde_json.specs.View.{view};
ghost use Rattle.plain_world.specs.World as world;
ghost use Rattle.geo_json.specs.Coordinates as spec;
ghost use Rattle.geo_json.specs.declared.faults.DataFault.TheVariants.{Shape};

use crate::faults::DataFault;
use json::Reader;
use merc_fixed::{x_from_cm, y_from_cm};
use plain_world::Point;
use pulled_json::str_from;
use reading::{list, signed, text};
use serde_json::Value;

/// What the coordinates of a text count.
#[derive(Clone, Copy)]
pub enum Units {
    /// EPSG:3857 coordinates in centimetres, x to the east and y to the north.
    Centimetres,
    /// World units, x to the east and y to the south.
    World,
}

/// The world's side in units.
const WORLD: i64 = 1 << 30;

/// A coordinate that no point of the world has.
const OUTSIDE: u32 = (1 << 30) + 1;

fn units_named(name: &str, shape: DataFault) -> Result<Units, DataFault>
    ensures { result ≡ spec.units_named shape name.now }
{
    match name {
        "cm" => Ok(Units::Centimetres),
        "world" => Ok(Units::World),
        _ => Err(shape),
    }
}

/// Whether both are the same.
pub(crate) fn are_same(a: Units, b: Units) -> bool
    ensures { IsTrue result → a ≡ b }
{
    match (a, b) {
        (Units::Centimetres, Units::Centimetres) => true,
        (Units::World, Units::World) => true,
        _ => false,
    }
}

/// The next value as units.
pub(crate) fn units_from(reader: &mut Reader<'_>) -> Option<Units>
    ensures value { IfSome result (λ u. (name : List ℕ)
        × ((depth : ℕ)
        → converted of_json (value depth reader.old) ≡ Some (string name, reader.new))
        × (spec.units_named (Shape 0 0) name ≡ Ok u)) }
    ensures shorter { OnSome result (length reader.new < length reader.old) }
{
    let name = str_from(reader)?;
    units_named(name, DataFault::Shape(0, 0)).ok()
}

/// The units that the object tells, or centimetres.
pub(crate) fn units_at(object: &Value, shape: DataFault) -> Result<Units, DataFault>
    ensures { result ≡ spec.units_at shape (view object.now) }
{
    match object.get("units") {
        Some(value) => units_named(text(value, shape)?, shape),
        None => Ok(Units::Centimetres),
    }
}

fn in_world(c: i64) -> u32
    ensures { result ≡ spec.in_world c }
{
    if 0 <= c && c <= WORLD {
        c as u32
    } else {
        OUTSIDE
    }
}

fn x_of(units: Units, c: i64) -> u32
    ensures { result ≡ spec.coordinate world.x_from_cm units c }
{
    match units {
        Units::Centimetres => x_from_cm(c).unwrap_or(OUTSIDE),
        Units::World => in_world(c),
    }
}

fn y_of(units: Units, c: i64) -> u32
    ensures { result ≡ spec.coordinate world.y_from_cm units c }
{
    match units {
        Units::Centimetres => y_from_cm(c).unwrap_or(OUTSIDE),
        Units::World => in_world(c),
    }
}

/// The point that the value says. A coordinate outside of the world is kept as one that no point of it has.
#[tactic(auto, unfolding(crate::specs::Coordinates::point_of), using(crate::proofs::Pairs::pair_long, crate::proofs::Pairs::pair_short))]
pub(crate) fn point(units: Units, value: &Value, shape: DataFault) -> Result<Point, DataFault>
    ensures { result ≡ spec.point_of units shape (view value.now) }
{
    let items = list(Some(value), shape)?;
    match items {
        [] => Err(shape),
        [_] => Err(shape),
        [x, y] => {
            let x = signed(x, shape)?;
            let y = signed(y, shape)?;
            Ok(Point {
                x: x_of(units, x),
                y: y_of(units, y),
            })
        }
        [_, _, _, ..] => Err(shape),
    }
}

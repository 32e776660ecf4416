//! What the objects of data and updates have in common.
ghost use Rattle.std.specs.Prelude.{◌≡◌, map, IfOk, IsTrue};
ghost use Rattle.serde_json.specs.View.{view};
ghost use Rattle.plain_shapes.specs.Data.{is_name};
ghost use Rattle.reading.specs.Steps.{seen};
ghost use Rattle.geo_json.specs.Openings as spec;

use crate::faults::DataFault;
use plain_shapes::MOST_NAME_BYTES;
use reading::{opened, text};
use serde_json::Value;

/// Whether the name has 1 to 64 bytes.
pub(crate) fn is_name(name: &str) -> bool
    ensures { result ≡ is_name name.now }
{
    1 <= name.len() && name.len() <= MOST_NAME_BYTES
}

/// An object with no other keys than these.
pub(crate) fn open(object: &Value, names: &[&str], shape: DataFault) -> Result<(), DataFault>
    ensures { result ≡ spec.object_of shape (map (λ s. s.now) names.now) (view object.now) }
{
    opened(object, shape, shape, names)
}

#[tactic(auto, unfolding(crate::specs::Openings::name_of))]
fn name_of(value: &Value, shape: DataFault) -> Result<&str, DataFault>
    ensures value { seen (λ s. s.now) result ≡ spec.name_of shape (view value.entry.now) }
    ensures fits { IfOk result (λ s. IsTrue (is_name s.now)) }
{
    let name = text(value, shape)?;
    if !is_name(name) {
        return Err(shape);
    }
    Ok(name)
}

/// The name at the key.
pub(crate) fn name_at<'a>(
    object: &'a Value,
    key: &str,
    shape: DataFault,
) -> Result<&'a str, DataFault>
    ensures value { seen (λ s. s.now) result ≡ spec.name_at shape key.now (view object.entry.now) }
    ensures fits { IfOk result (λ s. IsTrue (is_name s.now)) }
{
    match object.get(key) {
        Some(value) => name_of(value, shape),
        None => Err(shape),
    }
}

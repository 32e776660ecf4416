//! Attributes of features.
ghost use Rattle.std.specs.Prelude.{◌≡◌, [], false, IfOk};
ghost use Rattle.serde_json.specs.View.{view, members_view};
ghost use Rattle.geo_model.specs.Shapes.{has_double_name};
ghost use Rattle.reading.specs.Steps.{Gives};
ghost use Rattle.geo_json.specs.Attributes as spec;
ghost use Rattle.geo_json.specs.inner.Parts.{attrs_at};
ghost use Rattle.geo_json.specs.declared.faults.DataFault.TheVariants as fault;

use crate::faults::DataFault;
use crate::openings::is_name;
use farm_base::{Attr, Text};
use reading::signed;
use serde_json::{Map, Value};
use std::alloc::Global;

fn attr_value(alloc: Global, value: &Value, shape: DataFault) -> Result<farm_base::Value, DataFault>
    ensures { Gives fault.NoMemory (λ v. v) (spec.attr_value shape (view value.now)) result }
{
    match value {
        Value::Null => Ok(farm_base::Value::Null),
        Value::Bool(truth) => Ok(farm_base::Value::Truth(*truth)),
        Value::Number(_) => Ok(farm_base::Value::Whole(signed(value, shape)?)),
        Value::String(text) => Ok(farm_base::Value::Text(Text::of(alloc, text.as_str())?)),
        Value::Array(_) => Err(shape),
        Value::Object(_) => Err(shape),
    }
}

#[tactic(auto, unfolding(crate::specs::Attributes::attr_of))]
fn attr(alloc: Global, key: &str, value: &Value, shape: DataFault) -> Result<Attr, DataFault>
    ensures value { Gives fault.NoMemory (λ a. a)
        (spec.attr_of shape key.now (view value.now)) result }
    ensures named { IfOk result (λ a. a.name ≡ key.now) }
{
    if !is_name(key) {
        return Err(shape);
    }
    let value = attr_value(alloc, value, shape)?;
    Ok(Attr {
        name: Text::of(alloc, key)?,
        value,
    })
}

fn attrs(
    alloc: Global,
    members: &Map<String, Value>,
    shape: DataFault,
) -> Result<Vec<Attr>, DataFault>
    ensures value { Gives fault.NoMemory (λ v. v.items)
        (spec.attrs_after shape [] (members_view members.now.entries)) result }
    ensures apart { IfOk result (λ v. has_double_name v.items ≡ false) }
{
    let mut attrs = Vec::new(alloc);
    for (key, value) in members {
        match attr(alloc, key.as_str(), value, shape) {
            Ok(attr) => attrs.push(attr)?,
            Err(fault) => return Err(fault),
        }
    }
    Ok(attrs)
}

#[tactic(auto, unfolding(crate::specs::Attributes::attrs_of))]
fn attrs_of(alloc: Global, value: &Value, shape: DataFault) -> Result<Vec<Attr>, DataFault>
    ensures value { Gives fault.NoMemory (λ v. v.items)
        (spec.attrs_of shape (view value.now)) result }
    ensures apart { IfOk result (λ v. has_double_name v.items ≡ false) }
{
    match value.as_object() {
        Some(members) => attrs(alloc, members, shape),
        None => Err(shape),
    }
}

/// The attributes that the object tells, of distinct names, or none.
pub(crate) fn attrs_at(
    alloc: Global,
    object: &Value,
    shape: DataFault,
) -> Result<Vec<Attr>, DataFault>
    ensures value { Gives fault.NoMemory (λ v. v.items) (attrs_at shape (view object.now)) result }
    ensures apart { IfOk result (λ v. has_double_name v.items ≡ false) }
{
    match object.get("attrs") {
        Some(value) => attrs_of(alloc, value, shape),
        None => Ok(Vec::new(alloc)),
    }
}

//! The keys of an object.
ghost use Rattle.std.specs.Prelude.{◌≡◌, map, string_bytes};
ghost use Rattle.std.specs.List.{list_any, list_all};
ghost use Rattle.std.specs.Str.{bytes_eq};
ghost use Rattle.std.specs.BTreeMap.{keys};
ghost use Rattle.serde_json.specs.View.{view, members_view};
ghost use Rattle.reading.specs.Values as spec;

use serde_json::{Map, Value};

fn is_any(names: &[&str], name: &str) -> bool
    ensures { result ≡ list_any (λ s. bytes_eq name.now s.now) names.now }
{
    names.iter().any(|s| name == *s)
}

fn is_one_of(names: &[&str], name: &str) -> bool
    ensures { result ≡ spec.is_one_of (map (λ s. s.now) names.now) name.now }
{
    is_any(names, name)
}

fn has_only(members: &Map<String, Value>, names: &[&str]) -> bool
    ensures { result ≡ list_all (λ k. spec.is_one_of (map (λ s. s.now) names.now) (string_bytes k))
        (keys members.now) }
{
    members.keys().all(|key| is_one_of(names, key.as_str()))
}

fn are_known(members: &Map<String, Value>, names: &[&str]) -> bool
    ensures { result
        ≡ spec.members_known (map (λ s. s.now) names.now) (members_view members.now.entries) }
{
    has_only(members, names)
}

/// Opens an object whose keys may be `names`: `shape` where the value is no object, `unknown` where it
/// has another key.
#[tactic(auto, using(crate::proofs::Members::opened_known, crate::proofs::Members::opened_unknown, crate::proofs::Members::opened_other))]
pub fn opened<E: Drop>(value: &Value, shape: E, unknown: E, names: &[&str]) -> Result<(), E>
    ensures { result ≡ spec.opened shape unknown (map (λ s. s.now) names.now) (view value.now) }
{
    match value.as_object() {
        Some(members) => {
            if are_known(members, names) {
                Ok(())
            } else {
                Err(unknown)
            }
        }
        None => Err(shape),
    }
}

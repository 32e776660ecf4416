//! Values that take no memory: texts, whole numbers, and the items of lists.
ghost use Rattle.std.specs.Prelude.{◌≡◌, ◌≤◌, ◌<◌, ◌^◌, length, IfOk, IfSome, option_map};
ghost use Rattle.serde_json.specs.View.{view, items_view};
ghost use Rattle.reading.specs.Steps.{seen};
ghost use Rattle.reading.specs.Values as spec;

use serde_json::Value;

/// The text, or the fault where the value is none.
pub fn text<E: Drop>(value: &Value, fault: E) -> Result<&str, E>
    ensures { seen (λ s. s.now) result ≡ spec.text fault (view value.now) }
{
    value.as_str().ok_or(fault)
}

/// The whole number: `shape` where the value is none (a fraction, an exponent and `-0` make a number
/// none), `range` where it is one below `low` or above `high`.
pub fn whole_number<E: Drop>(
    value: &Value,
    shape: E,
    range: E,
    low: u64,
    high: u64,
) -> Result<u64, E>
    ensures value { result ≡ spec.whole_number shape range low high (view value.now) }
    ensures low { IfOk result (λ n. low ≤ n) }
    ensures high { IfOk result (λ n. n ≤ high) }
{
    match value.as_u64() {
        Some(n) => {
            if low <= n && n <= high {
                Ok(n)
            } else {
                Err(range)
            }
        }
        None => {
            if value.is_i64() {
                Err(range)
            } else {
                Err(shape)
            }
        }
    }
}

/// The whole number of 64 bits with a sign, or the fault where the value is none.
pub fn signed<E: Drop>(value: &Value, fault: E) -> Result<i64, E>
    ensures { result ≡ spec.signed fault (view value.now) }
{
    value.as_i64().ok_or(fault)
}

/// The items of the list at a key: the fault where there is no such key or its value is no list.
pub fn list<E: Drop>(found: Option<&Value>, fault: E) -> Result<&[Value], E>
    ensures value { seen (λ vs. items_view vs.now) result
        ≡ spec.needed fault (spec.list fault) (option_map (λ v. view v.now) found.entry) }
    ensures short { IfOk result (λ vs. length vs.now < 2 ^ 64) }
{
    match found {
        Some(value) => match value.as_array() {
            Some(list) => {
                let _count = list.len();
                Ok(list.as_slice())
            }
            None => Err(fault),
        },
        None => Err(fault),
    }
}

/// The items of the list at a key, if there is one: the fault where there are more than `limit`.
#[tactic(auto, using(crate::proofs::Members::within_short, crate::proofs::Members::within_long, crate::proofs::Members::within_other), unfolding(crate::specs::Values::within))]
pub fn within<E: Drop>(found: Option<&Value>, limit: usize, fault: E) -> Result<Option<&[Value]>, E>
    ensures value { seen (option_map (λ vs. items_view vs.now)) result
        ≡ spec.within limit fault (option_map (λ v. view v.now) found.entry) }
    ensures short { IfOk result (λ o. IfSome o (λ vs. length vs.now ≤ limit)) }
{
    match found {
        Some(value) => match value.as_array() {
            Some(list) => {
                if list.len() <= limit {
                    Ok(Some(list.as_slice()))
                } else {
                    Err(fault)
                }
            }
            None => Ok(None),
        },
        None => Ok(None),
    }
}

//! The limits of the queues.
ghost use Rattle.std.specs.Prelude.{◌≡◌, ◌≤◌, IfOk, option_map};
ghost use Rattle.serde_json.specs.Find.{get};
ghost use Rattle.serde_json.specs.View.{view};
ghost use Rattle.reading.specs.Values.{or_value};
ghost use Rattle.farm_history.specs.Limits.{AreLimits};
ghost use Rattle.farm_config.specs.Configs as plain;
ghost use Rattle.farm_config.specs.Kinds.{number_within};
ghost use Rattle.farm_config.specs.Tables as spec;

use crate::fault::ConfigFault;
use crate::kinds::number_or;
use crate::opening::open_limits;
use farm_history::{Limits, MOST_DIRTY, MOST_WAITING};
use serde_json::Value;

const GREATEST: Limits = Limits {
    prio: MOST_WAITING,
    request: MOST_WAITING,
    low: MOST_WAITING,
    dirty: MOST_DIRTY,
    bulk: MOST_WAITING,
};

// A limit of at least 1, the greatest where it is absent.
fn limit(object: &Value, name: &str, greatest: u32) -> Result<u32, ConfigFault>
    requires { 1 ≤ greatest }
    ensures value { result ≡ or_value greatest (number_within 6 1 greatest)
        (get name.now (view object.now)) }
    ensures some { IfOk result (λ n. 1 ≤ n) }
    ensures few { IfOk result (λ n. n ≤ greatest) }
{
    number_or(object, name, 6, 1, greatest, greatest)
}

#[tactic(auto, unfolding(crate::specs::Tables::limits_of))]
fn limits(object: &Value) -> Result<Limits, ConfigFault>
    ensures value { result ≡ spec.limits_of (view object.now) }
    ensures fits { IfOk result AreLimits }
{
    open_limits(object)?;
    Ok(Limits {
        prio: limit(object, "prio", MOST_WAITING)?,
        request: limit(object, "request", MOST_WAITING)?,
        low: limit(object, "low", MOST_WAITING)?,
        dirty: limit(object, "dirty", MOST_DIRTY)?,
        bulk: limit(object, "bulk", MOST_WAITING)?,
    })
}

/// The limits at the key `limits`, the greatest where it is absent.
pub fn limits_or_greatest(found: Option<&Value>) -> Result<Limits, ConfigFault>
    ensures value { result
        ≡ or_value plain.greatest_limits spec.limits_of (option_map (λ v. view v.now) found.entry) }
    ensures fits { IfOk result AreLimits }
{
    match found {
        Some(value) => limits(value),
        None => Ok(GREATEST),
    }
}

//! The objects of a configuration.
ghost use Rattle.std.specs.Prelude.{◌≡◌};
ghost use Rattle.serde_json.specs.View.{view};
ghost use Rattle.reading.specs.Values.{opened};
ghost use Rattle.farm_config.specs.inner.Keys as spec;
ghost use Rattle.farm_config.specs.declared.fault.ConfigFault.TheVariants as fault;

use crate::fault::ConfigFault;
use reading::opened;
use serde_json::Value;

/// The configuration itself, whose key has the number 0.
pub fn open_config(object: &Value) -> Result<(), ConfigFault>
    ensures { result ≡ opened (fault.Shape 0) (fault.Shape 0) spec.config_keys (view object.now) }
{
    let shape = ConfigFault::Shape(0);
    let keys = [
        "maps", "data", "updates", "expiries", "workers", "limits", "renderd", "tiles", "control",
        "restyles", "resume",
    ];
    opened(object, shape, shape, &keys)
}

/// A map.
pub fn open_map(object: &Value) -> Result<(), ConfigFault>
    ensures { result ≡ opened (fault.Shape 1) (fault.Shape 1) spec.map_keys (view object.now) }
{
    let shape = ConfigFault::Shape(1);
    opened(object, shape, shape, &["name", "style", "tile", "maxzoom"])
}

/// The limits of the queues.
pub fn open_limits(object: &Value) -> Result<(), ConfigFault>
    ensures { result ≡ opened (fault.Shape 6) (fault.Shape 6) spec.limit_keys (view object.now) }
{
    let shape = ConfigFault::Shape(6);
    opened(
        object,
        shape,
        shape,
        &["prio", "request", "low", "dirty", "bulk"],
    )
}

/// A restyle.
pub fn open_restyle(object: &Value) -> Result<(), ConfigFault>
    ensures { result
        ≡ opened (fault.Shape 10) (fault.Shape 10) spec.restyle_keys (view object.now) }
{
    let shape = ConfigFault::Shape(10);
    opened(object, shape, shape, &["map", "style"])
}

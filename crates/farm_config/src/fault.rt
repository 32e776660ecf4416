//! Why a text was refused as a configuration.
use farm_base::NoMemory;
use reading::ReadFault;
use std::alloc::{AllocError, AllocFailed};

/// The first fault of a configuration, in reading order. A key is told by its number: 0 the object
/// itself, 1 `maps`, 2 `data`, 3 `updates`, 4 `expiries`, 5 `workers`, 6 `limits`, 7 `renderd`,
/// 8 `tiles`, 9 `control`, 10 `restyles`, 11 `resume`.
#[derive(Clone, Copy)]
pub enum ConfigFault {
    /// The bytes are no JSON text.
    NotJson,
    /// A wrong kind of value, a missing or unknown key, a wrong text, a restyle of no map: the key.
    Shape(u32),
    /// A number outside its range, a list with too many entries, no map at all: the key.
    Range(u32),
    /// A map with the name of an earlier one: its place, from 0.
    Double(u32),
    /// Want of memory.
    NoMemory,
}

impl ReadFault for ConfigFault {
    ghost use Rattle.farm_config.specs.declared.fault.ConfigFault.TheVariants as fault;

    ghost memory = { fault.NoMemory };

    fn no_memory() -> ConfigFault {
        ConfigFault::NoMemory
    }
}

impl From<NoMemory> for ConfigFault {
    ghost use Rattle.std.specs.Prelude.{◌≡◌};
    ghost use Rattle.farm_config.specs.declared.fault.ConfigFault.TheVariants as fault;

    ghost from_gives = { λ _ e. e ≡ fault.NoMemory };

    fn from(_refused: NoMemory) -> ConfigFault {
        ConfigFault::NoMemory
    }
}

impl From<AllocError> for ConfigFault {
    ghost use Rattle.std.specs.Prelude.{◌≡◌};
    ghost use Rattle.farm_config.specs.declared.fault.ConfigFault.TheVariants as fault;

    ghost from_gives = { λ _ e. e ≡ fault.NoMemory };

    fn from(_refused: AllocError) -> ConfigFault {
        ConfigFault::NoMemory
    }
}

impl<T: Drop> From<AllocFailed<T>> for ConfigFault {
    ghost use Rattle.std.specs.Prelude.{◌≡◌};
    ghost use Rattle.farm_config.specs.declared.fault.ConfigFault.TheVariants as fault;

    ghost from_gives = { λ _ e. e ≡ fault.NoMemory };

    fn from(_refused: AllocFailed<T>) -> ConfigFault {
        ConfigFault::NoMemory
    }
}

//! Why a text was refused as data or as an update.
use farm_base::NoMemory;
use geo_model::GeoFault;
use reading::ReadFault;
use std::alloc::{AllocError, AllocFailed};

/// The first fault of a text of data or of an update, in reading order. `part` is the place of the layer or
/// change, `item` that of the feature in its list, both from 0, and 0 where they do not apply.
#[derive(Clone, Copy)]
pub enum DataFault {
    /// The bytes are no JSON text.
    NotJson,
    /// A wrong kind of value, a missing, unknown or wrong key, a name that has not 1 to 64 bytes: part and
    /// item. The layer after 64 is refused as `Shape(64, 0)`, the change after 1,000,000 as
    /// `Shape(1000000, 0)`.
    Shape(u32, u32),
    /// A feature whose parts have this fault: part and item.
    Geo(GeoFault, u32, u32),
    /// A feature with the id of an earlier one of its layer: part and id.
    DoubleId(u32, u64),
    /// A layer with the name of an earlier one: its part.
    DoubleLayer(u32),
    /// More than 1,000,000 features of a layer or puts of a change: its part.
    TooMany(u32),
    /// Want of memory.
    NoMemory,
}

impl ReadFault for DataFault {
    ghost use Rattle.geo_json.specs.declared.faults.DataFault.TheVariants as fault;

    ghost memory = { fault.NoMemory };

    fn no_memory() -> DataFault {
        DataFault::NoMemory
    }
}

impl From<NoMemory> for DataFault {
    ghost use Rattle.std.specs.Prelude.{◌≡◌};
    ghost use Rattle.geo_json.specs.declared.faults.DataFault.TheVariants as fault;

    ghost from_gives = { λ _ e. e ≡ fault.NoMemory };

    fn from(_refused: NoMemory) -> DataFault {
        DataFault::NoMemory
    }
}

impl From<AllocError> for DataFault {
    ghost use Rattle.std.specs.Prelude.{◌≡◌};
    ghost use Rattle.geo_json.specs.declared.faults.DataFault.TheVariants as fault;

    ghost from_gives = { λ _ e. e ≡ fault.NoMemory };

    fn from(_refused: AllocError) -> DataFault {
        DataFault::NoMemory
    }
}

impl<T: Drop> From<AllocFailed<T>> for DataFault {
    ghost use Rattle.std.specs.Prelude.{◌≡◌};
    ghost use Rattle.geo_json.specs.declared.faults.DataFault.TheVariants as fault;

    ghost from_gives = { λ _ e. e ≡ fault.NoMemory };

    fn from(_refused: AllocFailed<T>) -> DataFault {
        DataFault::NoMemory
    }
}

//! Why bytes were refused as a saved farm.
use farm_base::NoMemory;
use std::alloc::{AllocError, AllocFailed};

/// The first fault of a saved text, in reading order.
#[derive(Clone, Copy)]
pub enum SavedFault {
    /// The bytes end before the next field: their number.
    Short(u64),
    /// The first four bytes are not `FSV1`.
    Magic,
    /// An update of another kind than 0 or 1: its place, from 0.
    Kind(u64),
    /// A clean entry that is of no metatile, whose version passes the number of updates, or whose key is
    /// not greater than that of the entry before it: its place, from 0. It is judged after all its
    /// fields.
    Order(u64),
    /// There are bytes behind the end: where they begin.
    Extra(u64),
    /// Want of memory.
    NoMemory,
}

impl From<NoMemory> for SavedFault {
    ghost use Rattle.std.specs.Prelude.{◌≡◌};
    ghost use Rattle.farm_saved.specs.declared.fault.SavedFault.TheVariants as fault;

    ghost from_gives = { λ _ e. e ≡ fault.NoMemory };

    fn from(_refused: NoMemory) -> SavedFault {
        SavedFault::NoMemory
    }
}

impl From<AllocError> for SavedFault {
    ghost use Rattle.std.specs.Prelude.{◌≡◌};
    ghost use Rattle.farm_saved.specs.declared.fault.SavedFault.TheVariants as fault;

    ghost from_gives = { λ _ e. e ≡ fault.NoMemory };

    fn from(_refused: AllocError) -> SavedFault {
        SavedFault::NoMemory
    }
}

impl<T: Drop> From<AllocFailed<T>> for SavedFault {
    ghost use Rattle.std.specs.Prelude.{◌≡◌};
    ghost use Rattle.farm_saved.specs.declared.fault.SavedFault.TheVariants as fault;

    ghost from_gives = { λ _ e. e ≡ fault.NoMemory };

    fn from(_refused: AllocFailed<T>) -> SavedFault {
        SavedFault::NoMemory
    }
}

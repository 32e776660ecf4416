//! Why a text is no expiry list.
use farm_base::NoMemory;
use std::alloc::{AllocError, AllocFailed};

/// Why a text is no expiry list.
#[derive(Clone, Copy)]
pub enum ListFault {
    /// The first line that is no tile and not empty, by its number, counted from 1 over all lines. Line
    /// 1,000,001 is such a line.
    Line(u32),
    /// Want of memory.
    NoMemory,
}

impl From<NoMemory> for ListFault {
    ghost use Rattle.std.specs.Prelude.{◌≡◌};
    ghost use Rattle.expiry_lists.specs.declared.faults.ListFault.TheVariants as fault;

    ghost from_gives = { λ _ e. e ≡ fault.NoMemory };

    fn from(_refused: NoMemory) -> ListFault {
        ListFault::NoMemory
    }
}

impl From<AllocError> for ListFault {
    ghost use Rattle.std.specs.Prelude.{◌≡◌};
    ghost use Rattle.expiry_lists.specs.declared.faults.ListFault.TheVariants as fault;

    ghost from_gives = { λ _ e. e ≡ fault.NoMemory };

    fn from(_refused: AllocError) -> ListFault {
        ListFault::NoMemory
    }
}

impl<T: Drop> From<AllocFailed<T>> for ListFault {
    ghost use Rattle.std.specs.Prelude.{◌≡◌};
    ghost use Rattle.expiry_lists.specs.declared.faults.ListFault.TheVariants as fault;

    ghost from_gives = { λ _ e. e ≡ fault.NoMemory };

    fn from(_refused: AllocFailed<T>) -> ListFault {
        ListFault::NoMemory
    }
}

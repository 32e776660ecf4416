//! Why a text is no filter.
ghost use Rattle.std.specs.Prelude.{◌≡◌};
ghost use Rattle.filter_expr.specs.declared.faults.FilterFault.TheVariants.{NoMemory as WantOfMemory};

use farm_base::NoMemory;
use std::alloc::{AllocError, AllocFailed};

/// Why a text is no filter, with the place of a byte in it, from 0. The fault with the smallest place
/// is answered; of several at one place the one that stands first here.
#[derive(Clone, Copy)]
pub enum FilterFault {
    /// The first token or byte that no filter has after what stands before it: the text's length where
    /// the text ends early, the opening byte of a string or name that is not closed, of a string with
    /// an unknown escape and of an empty name.
    Bad(usize),
    /// The first byte of a number above 9223372036854775807.
    NumberRange(usize),
    /// The `(`, `not`, `!` or unary `-` that is the 65th to be open at once.
    TooDeep(usize),
    /// Want of memory.
    NoMemory,
}

impl From<NoMemory> for FilterFault {
    ghost from_gives = { λ _ e. e ≡ WantOfMemory };

    fn from(_refused: NoMemory) -> FilterFault {
        FilterFault::NoMemory
    }
}

impl From<AllocError> for FilterFault {
    ghost from_gives = { λ _ e. e ≡ WantOfMemory };

    fn from(_refused: AllocError) -> FilterFault {
        FilterFault::NoMemory
    }
}

impl<T: Drop> From<AllocFailed<T>> for FilterFault {
    ghost from_gives = { λ _ e. e ≡ WantOfMemory };

    fn from(_refused: AllocFailed<T>) -> FilterFault {
        FilterFault::NoMemory
    }
}

//! Faults that tell themselves.
ghost use Rattle.std.specs.Prelude.{◌≡◌, Some, IfOk};

use farm_base::{NoMemory, Text};
use std::alloc::Global;

/// Why the bytes of a file are refused, with the text that tells it.
pub trait FaultText {
    ghost use Rattle.std.specs.Prelude.{ℕ, List, Option};

    /// The text; want of memory has none.
    ghost text: { Self → Option (List ℕ) };

    /// The text of the fault. Want of memory has none, and is answered for it.
    fn text(self, alloc: Global) -> Result<Text, NoMemory>
        ensures { IfOk result (λ t. text self ≡ Some t) };
}

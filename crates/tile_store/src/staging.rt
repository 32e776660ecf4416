//! Bytes that are written beside what a store holds, before they are put.
ghost use Rattle.std.specs.Prelude.{◌≡◌, ℕ, List, true, ⊤, IfErr, IfOk};

use farm_base::{Gate, OpenGate};
use std::alloc::Global;
use std::marker::Model;

/// Who writes long bytes beside what a store holds before they are put, while somebody else has the store: the gate
/// that workers pass. It changes nothing that the store holds.
///
/// It is no type of the store's own: the checker covers no threads over a generic store that has one.
pub trait Stage: Gate {
    /// That the bytes were written under the number, where the implementor says more of that than that it was told so.
    ghost wrote: { Self → ℕ → List ℕ → Type 0 };

    /// Writes bytes that are to be put, under a number that nothing else has that was written and not cleared;
    /// answers whether it did. Bytes are staged by the function `stage_bytes`, which calls this.
    fn write(&self, alloc: Global, number: u64, bytes: &[u8]) -> bool
        ensures { result ≡ true → wrote self.now number bytes.now };

    /// Removes what a writing under the number has left, whether it was put or not.
    fn clear(&self, alloc: Global, number: u64);
}

impl Stage for OpenGate {
    ghost wrote = { λ _ _ _. ⊤ };

    /// Nothing is written.
    fn write(&self, _alloc: Global, _number: u64, _bytes: &[u8]) -> bool {
        false
    }

    fn clear(&self, _alloc: Global, _number: u64) {}
}

/// Bytes that were staged, and the number under which they were. `stage_bytes` alone makes one, so these are the bytes that were
/// written under this number.
#[derive(Drop)]
pub struct Staged {
    number: u64,
    bytes: Vec<u8>,
}

impl Model for Staged {
    ghost use Rattle.tile_store.specs.Staging.{StagedSeen};

    ghost Value = { StagedSeen };

    ghost view = { λ s. record { number = s.number; bytes = s.bytes.items } };
}

impl Staged {
    /// The number under which the bytes were staged.
    pub fn number(&self) -> u64
        ensures { result ≡ self.now.number }
    {
        self.number
    }

    /// The bytes.
    pub fn bytes(&self) -> &[u8]
        ensures { result.now ≡ self.now.bytes }
    {
        self.bytes.as_slice()
    }
}

/// Stages the bytes under the number, or else gives them back. Takes no memory itself.
pub fn stage_bytes<G: Stage>(
    gate: &G,
    alloc: Global,
    number: u64,
    bytes: Vec<u8>,
) -> Result<Staged, Vec<u8>>
    ensures staged { IfOk result
        (λ staged. staged ≡ record { number = number; bytes = bytes.items }) }
    ensures written { IfOk result (λ staged. G.wrote gate.now staged.number staged.bytes) }
    ensures refused { IfErr result (λ back. back ≡ bytes) }
{
    if gate.write(alloc, number, bytes.as_slice()) {
        Ok(Staged { number, bytes })
    } else {
        Err(bytes)
    }
}

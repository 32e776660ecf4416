//! What is summed up, and the line that tells it.
ghost use Rattle.std.specs.Prelude.{◌≡◌, ◌≤◌, ◌<◌, ◌*◌, ◌^◌, ◌||◌, ℕ, List, [], IfOk, string_bytes};
ghost use Rattle.farm_history.specs.Entries.{Entry};
ghost use Rattle.load_command.specs.Loads.{load_text};
ghost use Rattle.load_command.specs.inner.Progress.{byte_sum, Tells, Adds};

use crate::steps::StepSeen;
use farm_plan::Fetched;
use std::alloc::{AllocError, Global};

/// How many tiles were fetched clean, how many bytes they have, and the sum of these; and whether a call of
/// the store failed.
#[derive(Clone, Copy)]
pub(crate) struct Totals {
    clean: u32,
    bytes: u128,
    sum: u128,
    failed: bool,
}

#[tactic(auto, using(std::proofs::lemmas::List::Sums::sum_by_more))]
fn sum_of(bytes: &[u8]) -> u128
    ensures sum { result ≡ byte_sum bytes.now }
    ensures small { result ≤ 2 ^ 72 }
{
    let mut sum: u128 = 0;
    for byte in bytes {
        sum += u128::from(*byte);
    }
    sum
}

fn either(one: bool, other: bool) -> bool
    ensures { result ≡ (one || other) }
{
    one || other
}

impl Totals {
    /// The totals before the first step.
    pub(crate) fn none() -> Totals
        ensures { Tells result 0 [] }
    {
        Totals {
            clean: 0,
            bytes: 0,
            sum: 0,
            failed: false,
        }
    }

    /// The totals with those of one step more.
    pub(crate) fn with(self, seen: &StepSeen) -> Totals
        requires few { self.clean < 32 }
        requires few_bytes { self.bytes ≤ 32 * 2 ^ 64 }
        requires small_sum { self.sum ≤ 32 * 2 ^ 72 }
        ensures { Adds self result seen.now }
    {
        let failed = either(seen.failed, self.failed);
        match &seen.fetched {
            Fetched::Clean(_, tile) => Totals {
                clean: self.clean + 1,
                bytes: self.bytes + tile.as_slice().len() as u128,
                sum: self.sum + sum_of(tile.as_slice()),
                failed,
            },
            _ => Totals { failed, ..self },
        }
    }

    pub(crate) fn has_failed(self) -> bool
        ensures { result ≡ self.failed }
    {
        self.failed
    }

    /// The line of work with so many features.
    pub(crate) fn line(self, alloc: Global, features: u32) -> Result<String, AllocError>
        ensures { (count : ℕ) (h : List Entry) → Tells self count h
            → IfOk result (λ s. string_bytes s ≡ load_text features h) }
    {
        let Totals {
            clean,
            bytes,
            sum,
            ..
        } = self;
        format!(in alloc; "features {features} asks 32 clean {clean} bytes {bytes} sum {sum}\n")
    }
}

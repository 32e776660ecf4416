//! From a text to what is saved.
ghost use Rattle.std.specs.Prelude.{◌≡◌, ◌<◌, ◌≤◌, ◌+◌, ◌*◌, ◌-◌, ◌^◌, All, length, IfOk};
ghost use Rattle.farm_base.specs.Limits.{most_turns};
ghost use Rattle.reading.specs.Steps.{Gives};
ghost use Rattle.farm_saved.specs.Reading as spec;
ghost use Rattle.farm_saved.specs.Savings.{IsSaving, StyleFits};
ghost use Rattle.farm_saved.specs.inner.Behind.{behind_styles, behind_updates};
ghost use Rattle.farm_saved.specs.declared.fault.SavedFault.TheVariants as fault;

use crate::fault::SavedFault;
use crate::fields::{long_number, number, opened};
use crate::lists::{clean, styles, updates};
use farm_history::{Past, Saved};
use std::alloc::Global;

#[tactic(auto, unfolding(crate::specs::Reading::nothing_left))]
fn ended(all: u64, rest: &[u8]) -> Result<(), SavedFault>
    requires { length rest.now ≤ all }
    ensures { result ≡ spec.nothing_left all rest.now }
{
    if rest.is_empty() {
        return Ok(());
    }
    Err(SavedFault::Extra(all - rest.len() as u64))
}

// The clean entries behind the styles and updates, up to the end of the text.
#[tactic(auto, unfolding(crate::specs::inner::Behind::behind_updates))]
fn behind_updates(
    alloc: Global,
    all: u64,
    styles: Vec<Option<u32>>,
    updates: Vec<Past>,
    rest: &[u8],
) -> Result<Saved, SavedFault>
    requires left { length rest.now ≤ all }
    requires few { length styles.items < 2 ^ 32 }
    requires fit { All StyleFits styles.items }
    ensures value { Gives fault.NoMemory (λ s. s)
        (behind_updates (fault.Short all) all styles.items updates.items rest.entry.now) result }
    ensures sound { IfOk result (λ s. IsSaving s) }
    ensures updates { IfOk result (λ s. s.updates ≡ updates.items) }
    ensures room { IfOk result (λ s. 24 * length s.clean ≤ length rest.entry.now) }
{
    let short = SavedFault::Short(all);
    let (count, rest) = long_number(rest, short)?;
    let (clean, rest) = clean(alloc, updates.len() as u64, count, rest, short)?;
    ended(all, rest)?;
    Ok(Saved {
        styles,
        updates,
        clean,
    })
}

// The updates behind the styles, and what is behind them.
#[tactic(auto, unfolding(crate::specs::inner::Behind::behind_styles))]
fn behind_styles(
    alloc: Global,
    all: u64,
    styles: Vec<Option<u32>>,
    rest: &[u8],
) -> Result<Saved, SavedFault>
    requires left { length rest.now ≤ all }
    requires few { length styles.items < 2 ^ 32 }
    requires fit { All StyleFits styles.items }
    ensures value { Gives fault.NoMemory (λ s. s)
        (behind_styles (fault.Short all) all styles.items rest.entry.now) result }
    ensures sound { IfOk result (λ s. IsSaving s) }
    ensures room { IfOk result
        (λ s. 8 * length s.updates + 24 * length s.clean ≤ length rest.entry.now) }
{
    let short = SavedFault::Short(all);
    let (count, rest) = long_number(rest, short)?;
    let (updates, rest) = updates(alloc, count, rest, short)?;
    behind_updates(alloc, all, styles, updates, rest)
}

#[tactic(auto, unfolding(crate::specs::Reading::saved_in, crate::specs::Reading::saving_in, crate::specs::inner::Behind::behind_styles, crate::specs::inner::Behind::behind_updates))]
fn saved(alloc: Global, bytes: &[u8]) -> Result<Saved, SavedFault>
    ensures value { Gives fault.NoMemory (λ s. s) (spec.saved_in bytes.now) result }
    ensures sound { IfOk result (λ s. IsSaving s) }
    ensures room { IfOk result
        (λ s. 8 * length s.updates + 24 * length s.clean ≤ length bytes.now) }
{
    let all = bytes.len() as u64;
    let short = SavedFault::Short(all);
    let rest = opened(bytes, short)?;
    let (count, rest) = number(rest, short)?;
    let (styles, rest) = styles(alloc, count, rest, short)?;
    behind_styles(alloc, all, styles, rest)
}

/// Reads a saved text: what is saved, which is sound, or the first fault in reading order. Its updates
/// and four times its clean entries are together fewer than `2^62 - 16`.
pub fn read_saved(alloc: Global, bytes: &[u8]) -> Result<Saved, SavedFault>
    ensures value { Gives fault.NoMemory (λ s. s) (spec.saved_in bytes.now) result }
    ensures sound { IfOk result (λ s. IsSaving s) }
    ensures few { IfOk result (λ s. length s.updates + 4 * length s.clean < most_turns - 16) }
{
    saved(alloc, bytes)
}

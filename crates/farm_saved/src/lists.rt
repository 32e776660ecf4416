//! The lists of a saved text.
ghost use Rattle.std.specs.Prelude.{◌≡◌, ◌≤◌, ◌+◌, ◌*◌, [], length, All, IfOk};
ghost use Rattle.reading.specs.Steps.{Gives};
ghost use Rattle.farm_saved.specs.Reading as spec;
ghost use Rattle.farm_saved.specs.Savings.{StyleFits, IsClean};
ghost use Rattle.farm_saved.specs.declared.fault.SavedFault.TheVariants as fault;

use crate::fault::SavedFault;
use crate::fields::{entry, past, style};
use farm_history::{Kept, Past};
use std::alloc::Global;

/// The styles of so many maps.
pub fn styles(
    alloc: Global,
    count: u32,
    bytes: &[u8],
    short: SavedFault,
) -> Result<(Vec<Option<u32>>, &[u8]), SavedFault>
    ensures value { Gives fault.NoMemory (λ p. (p.0.items, p.1.now))
        (spec.many (spec.style_number_in short) count [] bytes.entry.now) result }
    ensures fit { IfOk result (λ p. All StyleFits p.0.items) }
    ensures count { IfOk result (λ p. length p.0.items ≡ count) }
    ensures left { IfOk result (λ p. length p.1.now ≤ length bytes.entry.now) }
{
    let mut styles = Vec::new(alloc);
    let mut rest = bytes;
    for _ in 0..count {
        let (style, behind) = match style(rest, short) {
            Ok(field) => field,
            Err(fault) => return Err(fault),
        };
        styles.push(style)?;
        rest = behind;
    }
    Ok((styles, rest))
}

/// So many updates.
pub fn updates(
    alloc: Global,
    count: u64,
    bytes: &[u8],
    short: SavedFault,
) -> Result<(Vec<Past>, &[u8]), SavedFault>
    ensures value { Gives fault.NoMemory (λ p. (p.0.items, p.1.now))
        (spec.many (spec.past_in short) count [] bytes.entry.now) result }
    ensures left { IfOk result
        (λ p. length p.1.now + 8 * length p.0.items ≤ length bytes.entry.now) }
{
    let mut updates = Vec::new(alloc);
    let mut rest = bytes;
    for _ in 0..count {
        let (past, behind) = match past(rest, updates.as_slice(), short) {
            Ok(field) => field,
            Err(fault) => return Err(fault),
        };
        updates.push(past)?;
        rest = behind;
    }
    Ok((updates, rest))
}

/// So many clean entries of a farm with so many updates.
#[tactic(auto, using(crate::proofs::Sound::none_clean))]
pub fn clean(
    alloc: Global,
    updates: u64,
    count: u64,
    bytes: &[u8],
    short: SavedFault,
) -> Result<(Vec<Kept>, &[u8]), SavedFault>
    ensures value { Gives fault.NoMemory (λ p. (p.0.items, p.1.now))
        (spec.many (spec.entry_in short updates) count [] bytes.entry.now) result }
    ensures sound { IfOk result (λ p. IsClean updates p.0.items) }
    ensures left { IfOk result
        (λ p. length p.1.now + 24 * length p.0.items ≤ length bytes.entry.now) }
{
    let mut clean = Vec::new(alloc);
    let mut rest = bytes;
    for _ in 0..count {
        let (kept, behind) = match entry(rest, updates, clean.as_slice(), short) {
            Ok(field) => field,
            Err(fault) => return Err(fault),
        };
        clean.push(kept)?;
        rest = behind;
    }
    Ok((clean, rest))
}

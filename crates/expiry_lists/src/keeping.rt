//! The clean entries, as a saved farm keeps them.
ghost use Rattle.std.specs.Prelude.{◌≡◌, ◌+◌, ◌<◌, ℕ, false, length, slice_index_or, IfOk, IsPermutation};
ghost use Rattle.farm_history.specs.declared.keys.Kept.{Kept};
ghost use Rattle.farm_history.specs.Replays.{key_before};
ghost use Rattle.expiry_lists.specs.inner.Keeping.{kept_at, kept_list};

use crate::nodes::Nodes;
use farm_base::NoMemory;
use farm_history::{Kept, Key, Mark};
use std::alloc::Global;

// What is kept of a key with that mark: its version, where it is clean.
fn kept_at(key: Key, mark: Option<Mark>) -> Option<Kept>
    ensures { result ≡ kept_at key mark }
{
    match mark {
        Some(mark) if mark.clean => Some(Kept {
            key,
            version: mark.version,
        }),
        _ => None,
    }
}

/// The clean entries, in the order of the table.
pub fn clean_entries(alloc: Global, nodes: &Nodes) -> Result<Vec<Kept>, NoMemory>
    ensures { IfOk result (λ v. v.items ≡ kept_list nodes.now.entries) }
{
    let mut clean = Vec::new(alloc);
    for i in 0..nodes.len() {
        let (key, mark) = nodes.at(i);
        if let Some(kept) = kept_at(key, mark) {
            clean.push(kept)?;
        }
    }
    Ok(clean)
}

/// Sorts the entries by map, zoom, column and row.
pub fn sort_by_key(kept: &mut Vec<Kept>)
    ensures permutation { IsPermutation kept.old.items kept.new.items }
    ensures sorted { (k : ℕ) (d : Kept) → k + 1 < length kept.new.items
        → key_before (slice_index_or kept.new.items (k + 1) d).key (slice_index_or kept.new.items k d).key
        ≡ false }
{
    kept.sort_unstable_by_key(|kept| {
        let meta = kept.key.meta;
        (kept.key.map, meta.z, meta.x, meta.y)
    });
}

//! What was saved of a farm, as a value.
ghost use Rattle.std.specs.Prelude.{◌≡◌, IfOk};
ghost use Rattle.render_jobs.specs.Given.{styles_given};

use farm_base::NoMemory;
use farm_history::Saved;
use std::alloc::Global;

/// The same, as a value of its own. The refusal is want of memory.
pub fn copied(alloc: Global, saved: &Saved) -> Result<Saved, NoMemory>
    ensures { IfOk result (λ s. s ≡ saved.now) }
{
    Ok(Saved {
        styles: Vec::from_slice(alloc, saved.styles.as_slice())?,
        updates: Vec::from_slice(alloc, saved.updates.as_slice())?,
        clean: Vec::from_slice(alloc, saved.clean.as_slice())?,
    })
}

/// How many styles maps were given.
pub fn styles_given(styles: &[Option<u32>]) -> u64
    ensures { result ≡ styles_given styles.now }
{
    styles.iter().filter(|style| style.is_some()).count() as u64
}

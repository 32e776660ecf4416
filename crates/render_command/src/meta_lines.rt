//! The lines of a listing.
ghost use Rattle.std.specs.Prelude.{◌≡◌, IfOk, string_bytes};
ghost use Rattle.render_command.specs.MetaLines.{listing_text};
ghost use Rattle.render_command.specs.inner.MetaLines.{meta_line, entry_line};

use meta_container::{Entry, Listing};
use plain_world::Meta;
use std::alloc::{AllocError, Global};

/// The text of a listing: `z x y` of the metatile, and for each tile that is there, in order of the
/// places, `place offset size`; each on a line of its own.
pub fn listing_text(alloc: Global, listing: &Listing) -> Result<Vec<u8>, AllocError>
    ensures { IfOk result (λ v. v.items ≡ listing_text listing.now) }
{
    let mut text = Vec::from_slice(alloc, meta_line(alloc, listing.meta)?.as_bytes())?;
    for entry in listing.entries.as_slice() {
        text.extend_from_slice(entry_line(alloc, *entry)?.as_bytes())?;
    }
    Ok(text)
}

fn meta_line(alloc: Global, meta: Meta) -> Result<String, AllocError>
    ensures { IfOk result (λ s. string_bytes s ≡ meta_line meta) }
{
    let Meta { z, x, y } = meta;
    format!(in alloc; "{z} {x} {y}\n")
}

fn entry_line(alloc: Global, entry: Entry) -> Result<String, AllocError>
    ensures { IfOk result (λ s. string_bytes s ≡ entry_line entry) }
{
    let Entry {
        place,
        offset,
        size,
    } = entry;
    format!(in alloc; "{place} {offset} {size}\n")
}

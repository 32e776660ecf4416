//! Answers of tiles.
ghost use Rattle.std.specs.Prelude.{◌≡◌, ◌++◌, OnOk, IfOk};
ghost use Rattle.tile_front.specs.Answers as spec;

use crate::faults::{Fault, put_fault};
use crate::texts::{put_picture, put_text};
use farm_base::{NoMemory, Text};
use farm_history::{Fetched, Looked};
use std::alloc::Global;

/// Puts the answer to a tile by what was fetched: 200 with the picture, 404 where it is missing or not
/// servable, 500 where it could not be read, and nothing where there was no memory for it.
pub fn put_tile(alloc: Global, fetched: Fetched, response: &mut Vec<u8>) -> Result<(), NoMemory>
    ensures { OnOk result (response.new.items ≡ response.old.items ++ spec.tile_answer fetched) }
{
    match fetched {
        Fetched::Clean(version, picture) => {
            put_picture(alloc, "clean", version, picture, response)
        }
        Fetched::Dirty(version, picture) => {
            put_picture(alloc, "dirty", version, picture, response)
        }
        Fetched::Missing => put_fault(alloc, Fault::NotFound, response),
        Fetched::Unservable => put_fault(alloc, Fault::NotFound, response),
        Fetched::Gone => put_fault(alloc, Fault::Failed, response),
        Fetched::Spoilt(_) => put_fault(alloc, Fault::Failed, response),
        Fetched::GetFailed => put_fault(alloc, Fault::Failed, response),
        Fetched::NoMemory => Ok(()),
    }
}

fn versioned(alloc: Global, word: &str, version: u64) -> Result<Text, NoMemory>
    ensures { IfOk result (λ t. t ≡ spec.version_line word.now version) }
{
    Ok(Text::from_string(format!(in alloc; "{word} {version}\n")?))
}

/// Puts the answer to `/status`: 200 with the line `clean V`, `dirty V` or `missing`, or 404.
pub fn put_status(alloc: Global, looked: Looked, response: &mut Vec<u8>) -> Result<(), NoMemory>
    ensures { OnOk result (response.new.items ≡ response.old.items ++ spec.status_answer looked) }
{
    match looked {
        Looked::Clean(version) => {
            let line = versioned(alloc, "clean", version)?;
            put_text(alloc, "200 OK", line.as_str(), response)
        }
        Looked::Dirty(version) => {
            let line = versioned(alloc, "dirty", version)?;
            put_text(alloc, "200 OK", line.as_str(), response)
        }
        Looked::Missing => put_text(alloc, "200 OK", "missing\n", response),
        Looked::Unservable => put_fault(alloc, Fault::NotFound, response),
    }
}

/// Puts the answer to `/dirty`: 200 with the line `dirty`.
pub fn put_dirty(alloc: Global, response: &mut Vec<u8>) -> Result<(), NoMemory>
    ensures { OnOk result (response.new.items ≡ response.old.items ++ spec.dirty_answer) }
{
    put_text(alloc, "200 OK", "dirty\n", response)
}

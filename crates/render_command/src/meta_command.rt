//! A container is read and checked, and its lines are put.
ghost use Rattle.reading.specs.Steps.{seen};
ghost use Rattle.meta_container.specs.Reading.{listing_found};
ghost use Rattle.exit_status.specs.MetaFaults.{meta_text};
ghost use Rattle.farm_files.specs.Course.{file};
ghost use Rattle.farm_files.specs.inner.Follows.{Follows};
ghost use Rattle.farm_files.specs.inner.Runs.{Writes};
ghost use Rattle.render_command.specs.MetaCourses.{meta_course};

use crate::meta_lines::listing_text;
use exit_status::{Stop, put};
use farm_base::{Files, Sink};
use farm_files::{checked, read_file};
use meta_container::{Listing, listing};
use std::alloc::Global;

/// Puts the lines of the container that `file` holds on `out`: `z x y` of its metatile,
/// then `place offset size` of each tile that is there, in order of the places (mod_tile's index).
///
/// Refused, with a line that names the file and the fault's number, where it is no
/// container; Unreadable where the read failed, SinkFailed where the put did.
pub fn meta<F: Files, O: Sink>(
    alloc: Global,
    file: &str,
    files: &mut F,
    out: &mut O,
) -> Result<(), Stop>
    ensures { Writes (meta_course file.now) (F.state files.old) (F.state files.new)
        (O.state out.old) (O.state out.new) result }
{
    let text = text_of(alloc, file, files)?;
    put(out, text.as_slice())
}

#[tactic(auto, using(farm_files::proofs::Courses::follows_then, farm_files::proofs::Courses::follows_stop, farm_files::proofs::Courses::follows_wanting), unfolding(crate::specs::MetaCourses::meta_course))]
fn text_of<F: Files>(alloc: Global, name: &str, files: &mut F) -> Result<Vec<u8>, Stop>
    ensures { Follows (meta_course name.now) (F.state files.old) (F.state files.new)
        (seen (λ v. v.items) result) }
{
    let listing = read_listing(alloc, files, name)?;
    Ok(listing_text(alloc, &listing)?)
}

#[tactic(auto, using(farm_files::proofs::Judged::file_stops))]
fn read_listing<F: Files>(alloc: Global, files: &mut F, name: &str) -> Result<Listing, Stop>
    ensures { Follows (file listing_found meta_text name.now) (F.state files.old)
        (F.state files.new) result }
{
    let bytes = read_file(alloc, files, name)?;
    checked(alloc, name, listing(bytes.as_slice()))
}

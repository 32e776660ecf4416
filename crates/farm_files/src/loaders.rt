//! The lists of files that a configuration names.
ghost use Rattle.expiry_lists.specs.Lists.{list_in};
ghost use Rattle.expiry_lists.specs.declared.faults.ListFault.TheVariants as fault;
ghost use Rattle.reading.specs.Steps.{Gives};
ghost use Rattle.farm_files.specs.inner.Follows.{Follows};
ghost use Rattle.farm_files.specs.Courses.{map_course, restyle_course, update_course, list_course};

use crate::files::{checked, read_file};
use crate::lists::Load;
use crate::styles::bound_style;
use data_versions::Update;
use exit_status::Stop;
use expiry_lists::{ListFault, TileList, read_list};
use farm_base::{Files, Text};
use farm_config::{MapEntry, RestyleEntry};
use farm_plan::{MapPlan, Restyle};
use geo_json::read_update;
use std::alloc::Global;

#[tactic(auto, using(crate::proofs::Maps::map_read, crate::proofs::Maps::map_stops))]
fn map_file<F: Files>(alloc: Global, files: &mut F, entry: &MapEntry) -> Result<MapPlan, Stop>
    ensures { Follows (map_course entry.now) (F.state files.old) (F.state files.new) result }
{
    let style = bound_style(alloc, files, entry.style.as_str())?;
    Ok(MapPlan {
        name: entry.name,
        style,
        tile: entry.tile,
        max_zoom: entry.max_zoom,
    })
}

#[tactic(auto, using(crate::proofs::Maps::restyle_read, crate::proofs::Maps::restyle_stops))]
fn restyle_file<F: Files>(
    alloc: Global,
    files: &mut F,
    entry: &RestyleEntry,
) -> Result<Restyle, Stop>
    ensures { Follows (restyle_course entry.now) (F.state files.old) (F.state files.new) result }
{
    let style = bound_style(alloc, files, entry.style.as_str())?;
    Ok(Restyle {
        map: entry.map,
        style,
    })
}

#[tactic(auto, using(crate::proofs::Judged::file_stops))]
fn update_file<F: Files>(alloc: Global, files: &mut F, name: &str) -> Result<Update, Stop>
    ensures { Follows (update_course name.now) (F.state files.old) (F.state files.new) result }
{
    let bytes = read_file(alloc, files, name)?;
    checked(alloc, name, read_update(alloc, bytes.as_slice()))
}

fn tile_list(alloc: Global, bytes: &[u8]) -> Result<TileList, ListFault>
    ensures { Gives fault.NoMemory (λ l. l) (list_in bytes.now) result }
{
    Ok(TileList {
        tiles: read_list(alloc, bytes)?,
    })
}

#[tactic(auto, using(crate::proofs::Judged::file_stops))]
fn list_file<F: Files>(alloc: Global, files: &mut F, name: &str) -> Result<TileList, Stop>
    ensures { Follows (list_course name.now) (F.state files.old) (F.state files.new) result }
{
    let bytes = read_file(alloc, files, name)?;
    checked(alloc, name, tile_list(alloc, bytes.as_slice()))
}

/// Reads the styles of maps.
pub(crate) struct MapFiles;

impl Load for MapFiles {
    ghost use Rattle.farm_files.specs.Courses.{map_course};

    type Item = MapEntry;

    type Value = MapPlan;

    ghost course = { λ _ entry. map_course entry };

    fn load<F: Files>(
        &self,
        alloc: Global,
        files: &mut F,
        entry: &MapEntry,
    ) -> Result<MapPlan, Stop>
        ensures { Follows (map_course entry.now) (F.state files.old) (F.state files.new) result }
    {
        map_file(alloc, files, entry)
    }
}

/// Reads the styles of restyles.
pub(crate) struct RestyleFiles;

impl Load for RestyleFiles {
    ghost use Rattle.farm_files.specs.Courses.{restyle_course};

    type Item = RestyleEntry;

    type Value = Restyle;

    ghost course = { λ _ entry. restyle_course entry };

    fn load<F: Files>(
        &self,
        alloc: Global,
        files: &mut F,
        entry: &RestyleEntry,
    ) -> Result<Restyle, Stop>
        ensures { Follows (restyle_course entry.now) (F.state files.old)
            (F.state files.new) result }
    {
        restyle_file(alloc, files, entry)
    }
}

/// Reads updates by the names of their files.
pub(crate) struct UpdateFiles;

impl Load for UpdateFiles {
    ghost use Rattle.farm_files.specs.Courses.{update_course};

    type Item = Text;

    type Value = Update;

    ghost course = { λ _ name. update_course name };

    fn load<F: Files>(&self, alloc: Global, files: &mut F, name: &Text) -> Result<Update, Stop>
        ensures { Follows (update_course name.now) (F.state files.old) (F.state files.new) result }
    {
        update_file(alloc, files, name.as_str())
    }
}

/// Reads expiry lists by the names of their files.
pub(crate) struct ListFiles;

impl Load for ListFiles {
    ghost use Rattle.farm_files.specs.Courses.{list_course};

    type Item = Text;

    type Value = TileList;

    ghost course = { λ _ name. list_course name };

    fn load<F: Files>(&self, alloc: Global, files: &mut F, name: &Text) -> Result<TileList, Stop>
        ensures { Follows (list_course name.now) (F.state files.old) (F.state files.new) result }
    {
        list_file(alloc, files, name.as_str())
    }
}

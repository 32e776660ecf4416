//! Style files, with the raster files that they name.
ghost use Rattle.style_objects.specs.Tables.{style_in};
ghost use Rattle.exit_status.specs.StyleFaults.{style_text};
ghost use Rattle.farm_files.specs.Course.{file};
ghost use Rattle.farm_files.specs.inner.Follows.{Follows};
ghost use Rattle.farm_files.specs.MapCourses.{style_course};

use crate::files::{checked, read_file};
use crate::lists::load_each;
use crate::rasters::RasterFiles;
use exit_status::Stop;
use farm_base::Files;
use plain_drawing::MapStyle;
use std::alloc::Global;
use style_objects::read_style;

/// Reads a style's file and then the files of its rasters, in order, and gives the style with the grids of
/// its rasters. It ends at the first file that is refused or cannot be read.
#[tactic(auto, using(crate::proofs::Bound::style_unread))]
pub fn bound_style<F: Files>(alloc: Global, files: &mut F, name: &str) -> Result<MapStyle, Stop>
    ensures { Follows (style_course name.now) (F.state files.old) (F.state files.new) result }
{
    let style = style_file(alloc, files, name)?;
    let grids = load_each(alloc, &RasterFiles, files, style.rasters.as_slice())?;
    Ok(style.bind(grids))
}

#[tactic(auto, using(crate::proofs::Judged::file_stops))]
fn style_file<F: Files>(alloc: Global, files: &mut F, name: &str) -> Result<MapStyle, Stop>
    ensures { Follows (file style_in style_text name.now) (F.state files.old)
        (F.state files.new) result }
{
    let bytes = read_file(alloc, files, name)?;
    checked(alloc, name, read_style(alloc, bytes.as_slice()))
}

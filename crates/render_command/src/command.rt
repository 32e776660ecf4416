//! The files are read in order, and the tile is drawn and put.
ghost use Rattle.reading.specs.Steps.{seen};
ghost use Rattle.plain_world.specs.World.{IsTile, IsTileSize};
ghost use Rattle.plain_drawing.specs.Drawing.{drawn_tile};
ghost use Rattle.farm_files.specs.Course.{made};
ghost use Rattle.farm_files.specs.inner.Follows.{Follows, Says};
ghost use Rattle.farm_files.specs.inner.Runs.{Writes};
ghost use Rattle.render_command.specs.Courses.{render_course};

use crate::asked::RenderWords;
use data_versions::{Dataset, Snapshot};
use exit_status::{Stop, put};
use farm_base::{Files, Sink};
use farm_files::{bound_style, data_layers};
use plain_drawing::MapStyle;
use plain_world::Tile;
use std::alloc::Global;
use tile_render::draw_tile;

/// Renders the tile that is asked for and puts it on `out`. The files are read in this order, each checked
/// before the next is read: the style, the raster files that it names, the data.
/// The first that is refused or cannot be read ends the command, and then nothing is put.
pub fn render<F: Files, O: Sink>(
    alloc: Global,
    asked: RenderWords,
    files: &mut F,
    out: &mut O,
) -> Result<(), Stop>
    requires size { IsTileSize asked.size }
    requires tile { IsTile asked.tile }
    ensures { Writes
        (render_course asked.entry.style.now asked.entry.data_file.now
        asked.entry.size asked.entry.tile)
        (F.state files.old) (F.state files.new) (O.state out.old) (O.state out.new) result }
{
    let tile = picture(alloc, asked, files)?;
    put(out, tile.as_slice())
}

#[tactic(auto, using(farm_files::proofs::Courses::follows_then, farm_files::proofs::Courses::follows_stop), unfolding(crate::specs::Courses::render_course_by))]
fn picture<F: Files>(alloc: Global, asked: RenderWords, files: &mut F) -> Result<Vec<u8>, Stop>
    requires size { IsTileSize asked.size }
    requires tile { IsTile asked.tile }
    ensures { Follows
        (render_course asked.entry.style.now asked.entry.data_file.now
        asked.entry.size asked.entry.tile)
        (F.state files.old) (F.state files.new) (seen (λ v. v.items) result) }
{
    let style = bound_style(alloc, files, asked.style)?;
    let dataset = data_layers(alloc, files, asked.data_file)?;
    drawn(alloc, &style, asked.size, asked.tile, dataset)
}

fn drawn(
    alloc: Global,
    style: &MapStyle,
    size: u32,
    tile: Tile,
    dataset: Dataset,
) -> Result<Vec<u8>, Stop>
    requires size { IsTileSize size }
    requires tile { IsTile tile }
    ensures { Says (made (drawn_tile style.now size tile dataset)) (seen (λ v. v.items) result) }
{
    let snapshot = Snapshot::first(alloc, dataset)?;
    Ok(draw_tile(alloc, style, size, tile, &snapshot)?)
}

//! Making a grid.
ghost use Rattle.std.specs.Prelude.{◌≡◌, ◌≤◌, ◌*◌, length};
ghost use Rattle.raster_layers.specs.Scales.{grid_or_fault};

use farm_base::Text;
use plain_drawing::{Grid, MOST_GRID_SIDE};

/// Why a picture is no grid.
#[derive(Clone, Copy)]
pub enum GridFault {
    /// A side is over 1,024 pixels.
    Size,
}

/// A grid of this name whose west and north edges and whose pixel's side are told in world units, with
/// three bytes a pixel by rows. Size exactly where a side is over 1,024 pixels.
pub fn make_grid(
    name: Text,
    west: u32,
    north: u32,
    pixel: u32,
    cols: u32,
    rows: u32,
    bytes: Vec<u8>,
) -> Result<Grid, GridFault>
    requires pixel { 1 ≤ pixel }
    requires cols { 1 ≤ cols }
    requires rows { 1 ≤ rows }
    requires three_each { length bytes.items ≡ 3 * (rows * cols) }
    ensures { result ≡ grid_or_fault (record {
      name = name;
      west = west;
      north = north;
      pixel = pixel;
      cols = cols;
      rows = rows;
      bytes = bytes.items;
    }) }
{
    if cols > MOST_GRID_SIDE || rows > MOST_GRID_SIDE {
        return Err(GridFault::Size);
    }
    Ok(Grid {
        name,
        west,
        north,
        pixel,
        cols,
        rows,
        bytes,
    })
}

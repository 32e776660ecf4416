//! Grids: pictures that lie on the world.
ghost use Rattle.std.specs.Prelude.{◌≡◌};
ghost use Rattle.plain_drawing.specs.Grids.{grid_at};

use farm_base::Text;
use plain_shapes::Colour;
use plain_world::Point;
use std::marker::Model;

/// A raster on the world: its west and north edge and the side of its pixels in world units, how many columns
/// and rows of pixels it has, each from 1 to 1,024, and three bytes for each pixel, by rows.
#[derive(Drop)]
pub struct Grid {
    pub name: Text,
    pub west: u32,
    pub north: u32,
    pub pixel: u32,
    pub cols: u32,
    pub rows: u32,
    pub bytes: Vec<u8>,
}

impl Model for Grid {
    ghost use Rattle.plain_drawing.specs.Grids.{Grid, IsGrid};

    ghost Value = { Grid };

    ghost view = { λ g. record {
      name = g.name;
      west = g.west;
      north = g.north;
      pixel = g.pixel;
      cols = g.cols;
      rows = g.rows;
      bytes = g.bytes.items;
    } };

    ghost invariant = { λ g. IsGrid g.pixel g.cols g.rows g.bytes.items };
}

impl Grid {
    /// The colour of the pixel that holds the point, and `None` exactly where the point lies outside the grid's
    /// columns and rows.
    pub fn at(&self, c: Point) -> Option<Colour>
        ensures { result ≡ grid_at self.now c }
    {
        if c.x < self.west || c.y < self.north {
            return None;
        }
        let col = (c.x - self.west) / self.pixel;
        let row = (c.y - self.north) / self.pixel;
        if col < self.cols && row < self.rows {
            let place = 3 * (row as usize * self.cols as usize + col as usize);
            Some(Colour {
                r: self.bytes[place],
                g: self.bytes[place + 1],
                b: self.bytes[place + 2],
            })
        } else {
            None
        }
    }
}

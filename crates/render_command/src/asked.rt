//! What `render` is asked for.
use plain_world::Tile;

/// The names of a style's and of the data's file, the tile's size in pixels, and the tile.
#[derive(Clone, Copy)]
pub struct RenderWords<'a> {
    pub style: &'a str,
    pub data_file: &'a str,
    pub size: u32,
    pub tile: Tile,
}

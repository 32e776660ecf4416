//! The world's squares and the windows through which they are drawn, all in whole world units.

/// A point of the world, in units from its west and north edges. The world is `2^30` units wide and high,
/// x to the east and y to the south.
#[derive(Clone, Copy)]
pub struct Point {
    pub x: u32,
    pub y: u32,
}

/// A map tile: zoom, column and row. What draws or stores one asks that its zoom is at most 18 and its column and
/// row are below `2^z`; `merc_fixed::tile` gives such tiles alone.
#[derive(Clone, Copy)]
pub struct Tile {
    pub z: u32,
    pub x: u32,
    pub y: u32,
}

/// A square of the quadtree: zoom, column and row, under the same bounds as those of a tile.
#[derive(Clone, Copy)]
pub struct Square {
    pub z: u32,
    pub x: u32,
    pub y: u32,
}

/// A metatile, named by its first tile: a tile whose column and row are multiples of 8.
#[derive(Clone, Copy, Debug, PartialEq, Eq, Hash)]
pub struct Meta {
    pub z: u32,
    pub x: u32,
    pub y: u32,
}

/// A grid of square pixels over a part of the world: its west and north edge, the side of a pixel in world
/// units, and how many columns and rows of pixels it has.
#[derive(Clone, Copy)]
pub struct Window {
    pub west: u32,
    pub north: u32,
    pub pixel: u32,
    pub cols: u32,
    pub rows: u32,
}

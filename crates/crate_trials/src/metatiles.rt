//! The tiles of a metatile in their places, also of a ring of very many points, and a map without its grids.
ghost use Rattle.plain_world.specs.World.{IsMeta, IsTile, IsTileSize};

use crate::drawings::{data, is_boxed, map};
use data_versions::Snapshot;
use farm_base::Bytes;
use meta_container::{encode, law_drawn_container};
use meta_drawing::draw_container;
use noted_puts::Letters;
use plain_drawing::MapStyle;
use plain_world::{Meta, Tile};
use std::alloc::Global;
use tile_render::{DrawnMeta, draw_meta, draw_tile};

pub(crate) const RED: &str =
    r#"{"styles":[{"name":"s","rules":[{"symbolizers":[{"symbolizer":"PolygonSymbolizer","fill":"red"}]}]}],"layers":[{"name":"l","source":"land","styles":["s"]}]}"#;

const SQUARE: &str =
    r#"{"units":"world","layers":[{"name":"land","features":[{"id":1,"geometry":{"polygon":[[[268435456,268435456],[805306368,268435456],[805306368,805306368],[268435456,805306368]]]}}]}]}"#;

// The four tiles of zoom 1.
const QUARTERS: Meta = Meta { z: 1, x: 0, y: 0 };

fn drawn(alloc: Global, text: &str, size: u32, meta: Meta) -> Option<DrawnMeta>
    requires size { IsTileSize size }
    requires meta { IsMeta meta }
{
    let snapshot = data(alloc, text)?;
    let Some(style) = map(alloc, RED) else {
        drop(snapshot);
        return None;
    };
    let drawn = draw_meta(alloc, &style, size, meta, &snapshot);
    drop(style);
    drop(snapshot);
    drawn.ok()
}

// In order of index place, which goes by columns: north-west, south-west, north-east, south-east.
fn bounds_at(place: u32) -> [usize; 4] {
    match place {
        0 => [8, 8, 16, 16],
        1 => [8, 0, 16, 8],
        2 => [0, 8, 8, 16],
        _ => [0, 0, 8, 8],
    }
}

fn are_quarters(tiles: &[Bytes]) -> bool {
    let mut place = 0u32;
    for tile in tiles {
        if !is_boxed(tile.as_slice(), b"P6\n16 16\n255\n", 16, bounds_at(place)) {
            return false;
        }
        place = place.saturating_add(1);
    }
    tiles.len() == 4
}

/// Four tiles in their places, which go by columns.
pub fn four_tiles_of_one_window(alloc: Global) -> Option<[bool; 2]> {
    let drawn = drawn(alloc, SQUARE, 16, QUARTERS)?;
    let are_so = [drawn.meta == QUARTERS, are_quarters(drawn.tiles.as_slice())];
    drop(drawn);
    Some(are_so)
}

/// The square in a style as the container of a metatile.
pub(crate) fn container(alloc: Global, style: &str, size: u32, meta: Meta) -> Option<Vec<u8>>
    requires size { IsTileSize size }
    requires meta { IsMeta meta }
{
    let snapshot = data(alloc, SQUARE)?;
    let Some(style) = map(alloc, style) else {
        drop(snapshot);
        return None;
    };
    let drawn = draw_container(alloc, &style, size, meta, &snapshot);
    drop(style);
    drop(snapshot);
    drawn.ok()
}

fn encoded(
    alloc: Global,
    style: &MapStyle,
    size: u32,
    meta: Meta,
    snapshot: &Snapshot,
) -> Option<Vec<u8>>
    requires size { IsTileSize size }
    requires meta { IsMeta meta }
{
    law_drawn_container();
    let drawn = draw_meta(alloc, style, size, meta, snapshot).ok()?;
    encode(alloc, drawn.meta, drawn.tiles.as_slice()).ok()
}

fn red_encoded(alloc: Global, size: u32) -> Option<Vec<u8>>
    requires { IsTileSize size }
{
    let snapshot = data(alloc, SQUARE)?;
    let Some(style) = map(alloc, RED) else {
        drop(snapshot);
        return None;
    };
    let bytes = encoded(alloc, &style, size, QUARTERS, &snapshot);
    drop(style);
    drop(snapshot);
    bytes
}

// Whether the container is that of the tiles that are drawn and encoded, with tiles of so many pixels.
fn is_encoded(alloc: Global, size: u32) -> Option<bool>
    requires { IsTileSize size }
{
    let drawn = container(alloc, RED, size, QUARTERS)?;
    let wanted = red_encoded(alloc, size)?;
    Some(drawn == wanted)
}

/// Nothing is left of the first drawing for the second.
pub fn a_container_drawn_twice(alloc: Global) -> Option<[bool; 2]> {
    Some([is_encoded(alloc, 16)?, is_encoded(alloc, 16)?])
}

/// A container of large tiles.
pub fn a_container_of_large_tiles(alloc: Global) -> Option<[bool; 1]> {
    Some([is_encoded(alloc, 256)?])
}

// The boundary of the square from (0, 0) to (2^29, 2^29), one point every 2^15 units.
fn boundary(k: u32) -> (u32, u32) {
    let along = (k % 16384).saturating_mul(32768);
    let back = 536870912u32.saturating_sub(along);
    match k / 16384 {
        0 => (along, 0),
        1 => (536870912, along),
        2 => (back, 536870912),
        _ => (0, back),
    }
}

fn ring(alloc: Global) -> Option<String> {
    let mut text = Letters::new(alloc);
    text.put(
        r#"{"units":"world","layers":[{"name":"land","features":[{"id":1,"geometry":{"polygon":[["#,
    );
    for k in 0..65536u32 {
        let (x, y) = boundary(k);
        text.put(if k > 0 { ",[" } else { "[" });
        text.put_number(x);
        text.put(",");
        text.put_number(y);
        text.put("]");
    }
    text.put("]]}}]}]}");
    text.into_text()
}

// The ring in red as the 64 tiles of a metatile of 512 pixels: a body that tested each centre against each edge would
// make some 10^12 tests.
fn ring_tiles(alloc: Global) -> Option<DrawnMeta> {
    let text = ring(alloc)?;
    drawn(alloc, text.as_str(), 512, Meta { z: 3, x: 0, y: 0 })
}

// The first place at which the tile is not wholly red in columns and rows 0 to 3, and else white.
fn first_wrong(tiles: &[Bytes]) -> Option<u32> {
    let mut place = 0u32;
    for tile in tiles {
        let east = if place / 8 < 4 && place % 8 < 4 {
            512
        } else {
            0
        };
        let bounds = [0, 0, east, 512];
        if !is_boxed(tile.as_slice(), b"P6\n512 512\n255\n", 512, bounds) {
            return Some(place);
        }
        place = place.saturating_add(1);
    }
    None
}

/// A ring of 65,536 points.
pub fn a_ring_of_65536_points(alloc: Global) -> Option<[bool; 2]> {
    let drawn = ring_tiles(alloc)?;
    let tiles = drawn.tiles.as_slice();
    Some([tiles.len() == 64, first_wrong(tiles).is_none()])
}

/// The square in a style as a tile of 16 pixels.
pub(crate) fn tile_of_the_square(alloc: Global, style: &str, t: Tile) -> Option<Vec<u8>>
    requires { IsTile t }
{
    let snapshot = data(alloc, SQUARE)?;
    let Some(style) = map(alloc, style) else {
        drop(snapshot);
        return None;
    };
    let drawn = draw_tile(alloc, &style, 16, t, &snapshot);
    drop(style);
    drop(snapshot);
    drawn.ok()
}

// A map of a grid, and over it a fill of the features of its source.
const SKY: &str =
    r#"{"rasters":[{"name":"land","file":"sky.ppm","west":0,"north":0,"pixel":536870912}],"styles":[{"name":"s","rules":[{"symbolizers":[{"symbolizer":"RasterSymbolizer"},{"symbolizer":"PolygonSymbolizer","fill":"red"}]}]}],"layers":[{"name":"l","source":"land","styles":["s"]}]}"#;

/// Without a bound grid the source is a layer of the data, on which a RasterSymbolizer covers nothing.
pub fn without_its_grid_a_source_is_data(alloc: Global) -> Option<[bool; 1]> {
    let tile = tile_of_the_square(alloc, SKY, Tile { z: 0, x: 0, y: 0 })?;
    Some([is_boxed(tile.as_slice(), b"P6\n16 16\n255\n", 16, [4, 4, 12, 12])])
}

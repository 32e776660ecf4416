//! Values that were worked out by hand: places in a layer that was changed, the bytes of containers that were written,
//! a picture that is read back, a point that just reaches a square, and the line of a rare refusal.
ghost use Rattle.plain_world.specs.World.{IsMeta};

use crate::drawings::data;
use crate::metatiles::{RED, container, tile_of_the_square};
use crate::updates::updated;
use data_versions::Snapshot;
use exit_status::FaultText;
use farm_base::MetaFault;
use geo_json::DataFault;
use merc_fixed::{meta_of, tile, tile_square};
use meta_container::{Entry, entry_in, tile_in};
use noted_puts::Letters;
use plain_image::{Image, read_ppm};
use plain_shapes::Colour;
use plain_world::{Meta, Tile};
use reach_box::reaches;
use std::alloc::Global;

// The layer of the features 1 to 600, each at its own number.
fn points(alloc: Global) -> Option<Snapshot> {
    let mut text = Letters::new(alloc);
    text.put(r#"{"units":"world","layers":[{"name":"land","features":["#);
    for id in 1..601u32 {
        text.put(if id > 1 { r#",{"id":"# } else { r#"{"id":"# });
        text.put_number(id);
        text.put(r#","geometry":{"points":[["#);
        text.put_number(id);
        text.put(",0]]}}");
    }
    text.put("]}]}");
    let text = text.into_text()?;
    data(alloc, text.as_str())
}

const CHANGE: &str =
    r#"{"units":"world","changes":[{"layer":"land","remove":[300],"put":[{"id":5,"geometry":{"points":[[5,0]]}},{"id":1000,"geometry":{"points":[[1000,0]]}}]}]}"#;

fn place_of(snapshot: &Snapshot, id: u64) -> Option<u32> {
    snapshot.layer("land")?.place_of(id)
}

fn place_at(snapshot: &Snapshot, x: u32) -> Option<u32> {
    snapshot.layer("land")?.next_near(0, x, 0, x, 0)
}

fn count(snapshot: &Snapshot) -> Option<u32> {
    Some(snapshot.layer("land")?.len())
}

// How many features the changed layer has, the places of 5, 301 and 1000 in it, and what is found at the points 1000
// and 300.
fn places_now(new: &Snapshot) -> [Option<u32>; 6] {
    [
        count(new),
        place_of(new, 5),
        place_of(new, 301),
        place_of(new, 1000),
        place_at(new, 1000),
        place_at(new, 300),
    ]
}

fn places_before(old: &Snapshot) -> [Option<u32>; 2] {
    [place_of(old, 300), place_at(old, 300)]
}

fn are_places(now: [Option<u32>; 6], before: [Option<u32>; 2]) -> [bool; 2] {
    let wanted = [Some(600), Some(4), Some(299), Some(599), Some(599), None];
    [now == wanted, before == [Some(299), Some(299)]]
}

/// 300 goes, 5 is put into its own place, and 1000 behind all others.
pub fn places_in_a_changed_layer(alloc: Global) -> Option<[bool; 2]> {
    let old = points(alloc)?;
    let Some(new) = updated(alloc, &old, CHANGE) else {
        drop(old);
        return None;
    };
    let are_so = are_places(places_now(&new), places_before(&old));
    drop(new);
    drop(old);
    Some(are_so)
}

fn red_container(alloc: Global, m: Meta) -> Option<Vec<u8>>
    requires { IsMeta m }
{
    container(alloc, RED, 16, m)
}

/// `META`, the count 64, x, y and z, and the tile at place 0: from byte 532 on, 781 bytes.
pub(crate) const HEAD: [u8; 28] = [
    0x4d, 0x45, 0x54, 0x41, 0x40, 0, 0, 0, 0, 0, 0, 0, 0, 0, 0, 0, 0, 0, 0, 0, 0x14, 2, 0, 0, 0x0d,
    3, 0, 0,
];

fn is_alone(bytes: &[u8]) -> bool {
    let mut place = 0usize;
    for byte in bytes {
        if place >= 28 && place < 532 && *byte != 0 {
            return false;
        }
        place = place.saturating_add(1);
    }
    true
}

/// The bytes of the container of the world, but for its one tile.
pub fn the_container_of_the_world(alloc: Global) -> Option<[bool; 3]> {
    let container = red_container(alloc, Meta { z: 0, x: 0, y: 0 })?;
    let bytes = container.as_slice();
    let has_head = bytes.starts_with(HEAD.as_slice());
    Some([bytes.len() == 1313, has_head, is_alone(bytes)])
}

fn is_found(bytes: &[u8], entry: Entry, picture: &[u8]) -> bool {
    let Some(t) = tile(2, 2, 1) else {
        return false;
    };
    let m = meta_of(t);
    entry_in(bytes, m, t).ok() == Some(entry) && is_there(tile_in(bytes, m, t), picture)
}

fn is_there(found: Result<&[u8], MetaFault>, picture: &[u8]) -> bool {
    match found {
        Ok(bytes) => bytes == picture,
        Err(_) => false,
    }
}

// Whether the ninth tile, which is the second of the third column, stands there as it is drawn alone.
fn has_ninth(alloc: Global, bytes: &[u8]) -> Option<bool> {
    let entry = Entry {
        place: 17,
        offset: 7561,
        size: 781,
    };
    let drawn = tile_of_the_square(alloc, RED, Tile { z: 2, x: 2, y: 1 })?;
    let is_so = is_found(bytes, entry, drawn.as_slice());
    drop(drawn);
    Some(is_so)
}

/// Sixteen tiles of 781 bytes.
pub fn the_container_of_sixteen_tiles(alloc: Global) -> Option<[bool; 2]> {
    let bytes = red_container(alloc, Meta { z: 2, x: 0, y: 0 })?;
    let has_ninth = has_ninth(alloc, bytes.as_slice());
    let is_long = bytes.len() == 13028;
    drop(bytes);
    Some([is_long, has_ninth?])
}

fn is_coloured(image: &Image, i: u32, j: u32, c: Colour) -> bool {
    i < image.cols() && j < image.rows() && image.pixel(i, j) == c
}

// The first column and row at which the picture is not the square, which has the columns and rows 4 to 11.
fn first_wrong(image: &Image) -> Option<(u32, u32)> {
    for j in 0..16 {
        for i in 0..16 {
            let g = if i >= 4 && i <= 11 && j >= 4 && j <= 11 {
                0
            } else {
                255
            };
            if !is_coloured(image, i, j, Colour { r: 255, g, b: g }) {
                return Some((i, j));
            }
        }
    }
    None
}

/// What a tile's text says.
pub fn a_tile_read_back(alloc: Global) -> Option<[bool; 2]> {
    let text = tile_of_the_square(alloc, RED, Tile { z: 0, x: 0, y: 0 })?;
    let image = read_ppm(alloc, text.as_slice()).ok()?;
    let is_small = image.cols() == 16 && image.rows() == 16;
    Some([is_small, first_wrong(&image).is_none()])
}

const AT_64_PIXELS: &str =
    r#"{"units":"world","layers":[{"name":"land","features":[{"id":1,"geometry":{"points":[[268435456,0]]}}]}]}"#;

const A_UNIT_FARTHER: &str =
    r#"{"units":"world","layers":[{"name":"land","features":[{"id":1,"geometry":{"points":[[268435455,0]]}}]}]}"#;

// Whether the one feature of the data reaches the square of the tile 1/1/0, at zoom 4 with 16 pixels a tile.
fn reaches_east_in(snapshot: &Snapshot) -> Option<bool> {
    let square = tile_square(tile(1, 1, 0)?);
    let land = snapshot.layer("land")?;
    Some(reaches(land.get(0)?, 16, 4, square))
}

fn reaches_east(alloc: Global, text: &str) -> Option<bool> {
    let snapshot = data(alloc, text)?;
    let reached = reaches_east_in(&snapshot);
    drop(snapshot);
    reached
}

/// The square begins at x = 2^29, and there 64 pixels are 2^28 units.
pub fn a_point_that_just_reaches_a_square(alloc: Global) -> Option<[bool; 2]> {
    let reaches = reaches_east(alloc, AT_64_PIXELS)?;
    Some([reaches, !reaches_east(alloc, A_UNIT_FARTHER)?])
}

/// More than 1,000,000 features of the layer at place 3: a refusal that is rare has its line, and is not told as want of
/// memory.
pub fn too_many_features(alloc: Global) -> Option<[bool; 1]> {
    let text = DataFault::TooMany(3).text(alloc).ok()?;
    Some([text.as_str() == "dataset 6 at 3"])
}

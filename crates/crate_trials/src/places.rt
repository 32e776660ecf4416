//! Where a tile stands: its metatile's path, its place there, and its pair in a container's head; and the ends of the
//! Mercator coordinates.
ghost use Rattle.plain_world.specs.World.{IsMeta, IsTile};

use crate::rows::HEAD;
use farm_base::MetaFault;
use merc_fixed::{index_place, meta_of, tile, x_from_cm, y_from_cm};
use meta_container::{Entry, HEAD_BYTES, entry_in};
use plain_world::{Meta, Tile};
use std::alloc::Global;
use tile_paths::{is_name, path};

fn is_path(name: &str, m: Meta, wanted: &str) -> bool
    requires { IsMeta m }
{
    is_name(name) && path(name, m).as_str() == wanted
}

fn is_placed(t: Tile) -> bool
    requires { IsTile t }
{
    let m = meta_of(t);
    let wanted = Meta {
        z: 10,
        x: 528,
        y: 336,
    };
    m == wanted && index_place(t) == 60 && is_path("default", m, "default/10/0/0/33/21/0.meta")
}

/// The path and the place of a tile.
pub fn the_path_and_the_place_of_a_tile() -> bool {
    match tile(10, 535, 340) {
        Some(t) => is_placed(t),
        None => false,
    }
}

fn is_x(cm: i64, wanted: Option<u32>) -> bool {
    x_from_cm(cm) == wanted
}

fn are_eastern_ends() -> bool {
    is_x(0, Some(536870912))
        && is_x(2003750837, Some(1073741824))
        && is_x(-2003750834, Some(0))
        && is_x(2003750838, None)
        && is_x(-2003750835, None)
}

/// The ends of the Mercator coordinates.
pub fn the_ends_of_the_coordinates() -> bool {
    are_eastern_ends() && y_from_cm(0) == Some(536870912) && y_from_cm(2003750834) == Some(0)
}

fn head(alloc: Global) -> Option<Vec<u8>> {
    let mut bytes = Vec::from_slice(alloc, HEAD.as_slice()).ok()?;
    bytes.extend_from_slice([0u8; 504].as_slice()).ok()?;
    Some(bytes)
}

fn entry_of_the_world(head: &[u8]) -> Option<Entry> {
    let t = tile(0, 0, 0)?;
    entry_in(head, meta_of(t), t).ok()
}

fn fault_of_the_world(head: &[u8]) -> Option<MetaFault> {
    let t = tile(0, 0, 0)?;
    entry_in(head, meta_of(t), t).err()
}

/// An entry from the head of a container, and none from one that is a byte too short.
pub fn an_entry_from_the_head(alloc: Global) -> Option<[bool; 2]> {
    let mut bytes = head(alloc)?;
    let entry = Entry {
        place: 0,
        offset: 532,
        size: 781,
    };
    let is_found = bytes.len() == HEAD_BYTES && entry_of_the_world(bytes.as_slice()) == Some(entry);
    let _last = bytes.pop();
    let fault = fault_of_the_world(bytes.as_slice());
    Some([is_found, matches!(fault, Some(MetaFault::Short(531)))])
}

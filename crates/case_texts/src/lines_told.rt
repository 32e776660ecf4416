//! Which texts are scripts, the tiles of expiry lists, and the first lines of the others that are none. In a table a `;`
//! stands for a newline, and a `~` for a carriage return.
use crate::fault_told::{tell_fault, tell_read};
use expiry_lists::read_list;
use noted_puts::Letters;
use plain_world::Tile;
use script_lines::read_script;
use std::alloc::Global;

fn unfold(text: &mut [u8]) {
    for byte in text.iter_mut() {
        match *byte {
            b';' => *byte = b'\n',
            b'~' => *byte = b'\r',
            _ => {}
        }
    }
}

fn tell_tiles(told: &mut Letters, tiles: &[Tile]) {
    told.put_with("tiles", tiles.len());
    for tile in tiles {
        told.put_with("\ntile", tile.z);
        told.put_next(tile.x);
        told.put_next(tile.y);
    }
}

fn tell_list(alloc: Global, told: &mut Letters, text: &[u8]) {
    match read_list(alloc, text) {
        Ok(tiles) => tell_tiles(told, tiles.as_slice()),
        Err(fault) => tell_fault(alloc, told, fault),
    }
}

/// The tiles of an expiry list's text in lines or its first line that is none, or the first line of a script's text that
/// is none.
pub(crate) fn tell_lines(alloc: Global, told: &mut Letters, kind: &str, text: &[u8]) {
    let Ok(mut bytes) = Vec::from_slice(alloc, text) else {
        told.cut();
        return;
    };
    unfold(bytes.as_mut_slice());
    if kind == "list" {
        tell_list(alloc, told, bytes.as_slice());
    } else {
        tell_read(alloc, told, read_script(alloc, bytes.as_slice()));
    }
}

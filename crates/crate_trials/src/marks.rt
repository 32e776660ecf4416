//! What a rectangle makes dirty: the metatiles of its map and zoom whose squares hold a point of it, its edges included.
//! The metatile 10/528/336 stands in the square (66, 42) of zoom 7, whose side is 2^23 units: from 553,648,128 and
//! 352,321,536 up to 562,036,735 and 360,710,143.
ghost use Rattle.std.specs.Prelude.{IfSome};
ghost use Rattle.plain_world.specs.World.{IsMeta};

use expiry_lists::{Key, Marks};
use merc_fixed::{meta_of, tile};
use std::alloc::Global;

fn key(map: u32, z: u32, x: u32, y: u32) -> Option<Key>
    ensures { IfSome result (λ k. IsMeta k.meta) }
{
    let meta = meta_of(tile(z, x, y)?);
    Some(Key { map, meta })
}

fn show(marks: &mut Marks, key: Option<Key>) -> Option<()>
    requires { IfSome key (λ k. IsMeta k.meta) }
{
    let Some(key) = key else {
        return None;
    };
    marks.reserve_one().ok()?;
    marks.show(key, 0, true);
    Some(())
}

// The metatile, its neighbour to the east, the same on another map, and one of the next zoom within it.
fn show_four(marks: &mut Marks) -> Option<()> {
    show(marks, key(0, 10, 528, 336))?;
    show(marks, key(0, 10, 536, 336))?;
    show(marks, key(1, 10, 528, 336))?;
    show(marks, key(0, 11, 1056, 672))
}

fn is_clean(marks: &Marks, key: Option<Key>, clean: bool) -> bool {
    let Some(key) = key else {
        return false;
    };
    match marks.of(key) {
        Some(mark) => mark.clean == clean,
        None => false,
    }
}

// Whether of the four those are clean which are said to be, and the others are dirty.
fn are_clean(marks: &Marks, clean: [bool; 4]) -> bool {
    let [first, east, other, next] = clean;
    is_clean(marks, key(0, 10, 528, 336), first)
        && is_clean(marks, key(0, 10, 536, 336), east)
        && is_clean(marks, key(1, 10, 528, 336), other)
        && is_clean(marks, key(0, 11, 1056, 672), next)
}

fn are_expired(marks: &mut Marks) -> [bool; 6] {
    // The row above the square.
    let above = marks.expire_box(0, 10, 553648128, 352321535, 562036735, 352321535);
    // The last point of its first row, twice.
    let first = marks.expire_box(0, 10, 562036735, 352321536, 562036735, 352321536);
    let second = marks.expire_box(0, 10, 562036735, 352321536, 562036735, 352321536);
    let is_alone = above == 0 && first == 1 && second == 0;
    let is_dirty = are_clean(marks, [false, true, true, true]);
    // The first column of the square to the east.
    let east = marks.expire_box(0, 10, 562036736, 352321536, 562036736, 360710143);
    let are_dirty = are_clean(marks, [false, false, true, true]);
    // The world at the next zoom.
    let next = marks.expire_box(0, 11, 0, 0, 1073741823, 1073741823);
    let are_three_dirty = are_clean(marks, [false, false, true, false]);
    [
        is_alone,
        is_dirty,
        east == 1,
        are_dirty,
        next == 1,
        are_three_dirty,
    ]
}

/// A rectangle on one map at one zoom.
pub fn a_rectangle_on_one_map_at_one_zoom(alloc: Global) -> Option<[bool; 6]> {
    let mut marks = Marks::new(alloc);
    let shown = show_four(&mut marks);
    let expired = are_expired(&mut marks);
    drop(marks);
    shown?;
    Some(expired)
}

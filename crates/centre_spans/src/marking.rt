//! The loop over the rows of a shape.
ghost use Rattle.std.specs.Prelude.{◌≡◌, ℕ, ◌+◌, ◌*◌, ◌<◌, ◌≤◌, max, Bool, true};
ghost use Rattle.plain_world.specs.declared.world.Point.{Point};
ghost use Rattle.plain_world.specs.declared.world.Window.{Window};
ghost use Rattle.plain_world.specs.World.{InWorld, IsWindow, centre};
ghost use Rattle.plain_shapes.specs.Images.{Bits};
ghost use Rattle.plain_shapes.specs.inner.Canvas.{Reached};
ghost use Rattle.plain_image.specs.Surfaces.{Becomes, Marks};
ghost use Rattle.centre_spans.specs.Stretches.{InStretch};

use crate::shapes::{Shape, Stretch};
use crate::sides::first_at;
use plain_image::{Mask, Surface};
use plain_world::Window;

/// Sets the bits of row `j` from the column `from` on and before the column `end`.
pub fn set_run(j: u32, from: u32, end: u32, mask: &mut Mask)
    requires row { j < mask.old.rows }
    requires end { end ≤ mask.old.cols }
    ensures reached { (member : Point → Bool) (w : Window) (start : Bits) → w.cols ≡ mask.old.cols
        → w.rows ≡ mask.old.rows
        → ((i : ℕ) → from ≤ i → i < end → member (centre w i j) ≡ true)
        → Reached member w (j * w.cols + from) start mask.old
        → Reached member w (j * w.cols + max from end) start mask.new }
    ensures cols { mask.new.cols ≡ mask.old.cols }
    ensures rows { mask.new.rows ≡ mask.old.rows }
{
    mask.cover(j, from, end);
}

fn mark_row<S: Shape, K: Surface>(shape: &S, w: Window, j: u32, mask: &mut K)
    requires valid { S.valid shape.now }
    requires window { IsWindow w }
    requires row { j < w.rows }
    requires cols { K.cols mask.old ≡ w.cols }
    requires rows { K.rows mask.old ≡ w.rows }
    ensures reached { Becomes K.shows
        (λ old new. (start : Bits) → Reached (S.holds shape.now) w (j * w.cols) start old
        → Reached (S.holds shape.now) w (j * w.cols + w.cols) start new) mask.old mask.new }
    ensures cols { K.cols mask.new ≡ K.cols mask.old }
    ensures rows { K.rows mask.new ≡ K.rows mask.old }
{
    let y = w.north + j * w.pixel + w.pixel / 2;
    let across = shape.columns(y);
    let left = first_at(w.west, w.pixel, w.cols, across.start);
    let right = first_at(w.west, w.pixel, w.cols, across.end);
    mask.cover(j, left, right);
}

/// Covers the pixels whose centre the shape holds, and no other pixel changes: of a mask, sets their bits.
/// Only rows within the shape's heights are entered, and in each of them only its own columns. The window is
/// a tile's or a metatile's, and the mask, or what stands for it, has its sides.
pub fn mark<S: Shape, K: Surface>(shape: &S, w: Window, mask: &mut K)
    requires valid { S.valid shape.now }
    requires window { IsWindow w }
    requires cols { K.cols mask.old ≡ w.cols }
    requires rows { K.rows mask.old ≡ w.rows }
    ensures marks { Marks K.shows (S.holds shape.now) w mask.old mask.new }
    ensures cols { K.cols mask.new ≡ K.cols mask.old }
    ensures rows { K.rows mask.new ≡ K.rows mask.old }
{
    mark_within(shape, shape.heights(), w, mask);
}

/// Covers the same pixels, and enters only rows within `down`: the heights of those of the shape's points that
/// lie neither to the west nor to the east of the window.
pub fn mark_within<S: Shape, K: Surface>(shape: &S, down: Stretch, w: Window, mask: &mut K)
    requires valid { S.valid shape.now }
    requires heights { (c : Point) → InWorld c → w.west ≤ c.x → c.x ≤ w.west + w.cols * w.pixel
        → S.holds shape.now c ≡ true → InStretch down c.y }
    requires window { IsWindow w }
    requires cols { K.cols mask.old ≡ w.cols }
    requires rows { K.rows mask.old ≡ w.rows }
    ensures marks { Marks K.shows (S.holds shape.now) w mask.old mask.new }
    ensures cols { K.cols mask.new ≡ K.cols mask.old }
    ensures rows { K.rows mask.new ≡ K.rows mask.old }
{
    let top = first_at(w.north, w.pixel, w.rows, down.start);
    let bottom = first_at(w.north, w.pixel, w.rows, down.end);
    for j in top..bottom {
        mark_row(shape, w, j, mask);
    }
}

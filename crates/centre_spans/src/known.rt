//! Parts whose pixels are known to be covered, so that their stretches need not be computed.
ghost use Rattle.std.specs.Prelude.{◌≡◌, ℕ, ◌+◌, ◌*◌, ◌^◌, ◌<◌, ◌≤◌, Bool, true, false, slice_index_or};
ghost use Rattle.plain_world.specs.declared.world.Point.{Point};
ghost use Rattle.plain_world.specs.World.{InWorld, IsWindow, centre};
ghost use Rattle.plain_image.specs.Surfaces.{Knows, Marks};
ghost use Rattle.centre_spans.specs.Stretches.{InStretch, InRound};

use crate::numbers::apart;
use crate::shapes::Stretch;
use crate::sides::first_at;
use plain_image::Surface;
use plain_world::{Point, Window};

/// The points whose distance from `p` has at most this square.
#[derive(Clone, Copy)]
pub struct Round {
    pub p: Point,
    pub square: u64,
}

// Whether points that lie so far from the middle, to one side and down, lie outside.
fn is_out(round: Round, across: u64, down: u64) -> bool
    requires across { across ≤ 2 ^ 31 }
    requires down { down ≤ 2 ^ 30 }
    ensures { result ≡ true → round.square < across * across + down * down }
{
    round.square < across * across + down * down
}

// Whether the pixels of row `j` that lie in it are known to be covered: those of a run are, and neither the centre before
// the run nor the one behind it lies in it.
fn is_row_known<K: Surface>(round: Round, w: Window, j: u32, mask: &K) -> bool
    requires p { InWorld round.p }
    requires window { IsWindow w }
    requires row { j < w.rows }
    requires cols { K.cols mask.now ≡ w.cols }
    requires rows { K.rows mask.now ≡ w.rows }
    ensures { result ≡ true → Knows K.shows (λ bits. (i : ℕ) → i < w.cols → InRound round (centre w i j)
        → slice_index_or bits.bits (j * w.cols + i) false ≡ true) mask.now }
{
    let (from, end) = mask.known(j);
    if from >= end {
        return false;
    }
    let y = w.north + j * w.pixel + w.pixel / 2;
    let down = apart(u64::from(y), u64::from(round.p.y));
    // The centres of the columns `from` and `end`, where there is one.
    let first = w.west + from.min(w.cols) * w.pixel + w.pixel / 2;
    let behind = w.west + end.min(w.cols) * w.pixel + w.pixel / 2;
    let west = (round.p.x + w.pixel).saturating_sub(first);
    let east = behind.saturating_sub(round.p.x);
    is_out(round, u64::from(west), down) && is_out(round, u64::from(east), down)
}

/// Whether the pixels whose centres lie in it, and at heights of `down`, are known to be covered. The answer is no where
/// there is no row: so a surface of which nothing is ever known costs no test.
pub fn is_known<K: Surface>(round: Round, down: Stretch, w: Window, mask: &K) -> bool
    requires p { InWorld round.p }
    requires window { IsWindow w }
    requires cols { K.cols mask.now ≡ w.cols }
    requires rows { K.rows mask.now ≡ w.rows }
    ensures { result ≡ true → (member : Point → Bool)
        → ((c : Point) → InWorld c → member c ≡ true → InStretch down c.y)
        → ((c : Point) → InWorld c → member c ≡ true → InRound round c)
        → Marks K.shows member w mask.now mask.now }
{
    let top = first_at(w.north, w.pixel, w.rows, down.start);
    let bottom = first_at(w.north, w.pixel, w.rows, down.end);
    for j in top..bottom {
        if !is_row_known(round, w, j, mask) {
            return false;
        }
    }
    top < bottom
}

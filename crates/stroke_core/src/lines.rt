//! Strokes of lines.
ghost use Rattle.std.specs.Prelude.{◌≡◌, ◌≤◌, ◌<◌, ◌^◌, ℕ, true, not, ◌&&◌, ◌||◌, length, All, OnOk, OnErr};
ghost use Rattle.plain_world.specs.World.{InWorld, IsWindow, centre};
ghost use Rattle.plain_shapes.specs.inner.Canvas.{SetsSome};
ghost use Rattle.plain_shapes.specs.Strokes.{is_same, in_body, before_start, past_end, on_sides, on_disks, on_dot, on_line, on_stroke};
ghost use Rattle.plain_image.specs.Surfaces.{Becomes, Marks};
ghost use Rattle.centre_spans.specs.Stretches.{InStretch};
ghost use Rattle.stroke_core.specs.inner.Parts.{on_part, on_ends, on_long, on_parts};

use crate::bodies::{Body, between, heights_between};
use crate::caps::{EndCap, StartCap};
use crate::disks::{Block, Disk};
use crate::kept::kept;
use crate::numbers::{long, square};
use crate::segments::segment_of;
use centre_spans::{Round, Stretch, is_known, mark, mark_within};
use farm_base::NoMemory;
use plain_image::Surface;
use plain_shapes::{LineCap, Path};
use plain_world::{Point, Window};
use std::alloc::Global;

fn mark_body<K: Surface>(half: u32, a: Point, b: Point, w: Window, mask: &mut K)
    requires half { half ≤ 2 ^ 31 }
    requires a { InWorld a }
    requires b { InWorld b }
    requires window { IsWindow w }
    requires cols { K.cols mask.old ≡ w.cols }
    requires rows { K.rows mask.old ≡ w.rows }
    ensures marks { Marks K.shows (λ c. not (is_same a b) && in_body half a b c) w mask.old mask.new }
    ensures cols { K.cols mask.new ≡ K.cols mask.old }
    ensures rows { K.rows mask.new ≡ K.rows mask.old }
{
    let body = Body {
        of: segment_of(half, a, b),
    };
    let down = heights_between(&body, w.west, w.west + w.cols * w.pixel);
    mark_within(&body, down, w, mask);
}

// Covers the pixels of the square cap before the start of the segment from `a` to `b`.
fn mark_start<K: Surface>(half: u32, a: Point, b: Point, w: Window, mask: &mut K)
    requires half { half ≤ 2 ^ 31 }
    requires a { InWorld a }
    requires b { InWorld b }
    requires window { IsWindow w }
    requires cols { K.cols mask.old ≡ w.cols }
    requires rows { K.rows mask.old ≡ w.rows }
    ensures marks { Marks K.shows (λ c. not (is_same a b) && before_start half a b c) w mask.old mask.new }
    ensures cols { K.cols mask.new ≡ K.cols mask.old }
    ensures rows { K.rows mask.new ≡ K.rows mask.old }
{
    let of = segment_of(half, a, b);
    mark(&StartCap { of }, w, mask);
}

// Covers the pixels of the square cap past the end of the segment from `a` to `b`.
fn mark_end<K: Surface>(half: u32, a: Point, b: Point, w: Window, mask: &mut K)
    requires half { half ≤ 2 ^ 31 }
    requires a { InWorld a }
    requires b { InWorld b }
    requires window { IsWindow w }
    requires cols { K.cols mask.old ≡ w.cols }
    requires rows { K.rows mask.old ≡ w.rows }
    ensures marks { Marks K.shows (λ c. not (is_same a b) && past_end half a b c) w mask.old mask.new }
    ensures cols { K.cols mask.new ≡ K.cols mask.old }
    ensures rows { K.rows mask.new ≡ K.rows mask.old }
{
    let of = segment_of(half, a, b);
    mark(&EndCap { of }, w, mask);
}

// Whether a stretch ends before `start` or begins behind `end`.
fn misses(of: Stretch, start: u32, end: u32) -> bool
    ensures { result ≡ true → (v : ℕ) → start ≤ v → v ≤ end → InStretch of v → ⊥ }
{
    of.end <= u64::from(start) || u64::from(end) < of.start
}

// Whether the body of the segment from `a` to `b` and the disk at `b` lie beside the window.
fn is_off(half: u32, a: Point, b: Point, w: Window) -> bool
    requires half { half ≤ 2 ^ 31 }
    requires window { IsWindow w }
    ensures { result ≡ true → (j i : ℕ) → i < w.cols → j < w.rows → on_part half a b (centre w i j) ≡ true → ⊥ }
{
    let across = between(a.x, b.x, u64::from(half));
    let down = between(a.y, b.y, u64::from(half));
    misses(across, w.west, w.west + w.cols * w.pixel)
        || misses(down, w.north, w.north + w.rows * w.pixel)
}

// Whether the pixels of the body of the segment from `a` to `b` and of the disk at `b` are known to be covered. Both
// lie in a disk that is hardly wider than this one, where the segment is short.
fn is_part_known<K: Surface>(half: u32, a: Point, b: Point, w: Window, mask: &K) -> bool
    requires half { half ≤ 2 ^ 31 }
    requires a { InWorld a }
    requires b { InWorld b }
    requires window { IsWindow w }
    requires cols { K.cols mask.now ≡ w.cols }
    requires rows { K.rows mask.now ≡ w.rows }
    ensures { result ≡ true → Marks K.shows (on_part half a b) w mask.now mask.now }
{
    let square = square(u64::from(half)) + long(a, b);
    let down = between(a.y, b.y, u64::from(half));
    is_known(Round { p: b, square }, down, w, mask)
}

// Covers the pixels of the body of a short segment from `a` to `b` and of the disk at `b`. Mostly they are covered
// already, or they are once those of the disk are.
fn mark_short<K: Surface>(half: u32, a: Point, b: Point, w: Window, mask: &mut K)
    requires half { half ≤ 2 ^ 31 }
    requires a { InWorld a }
    requires b { InWorld b }
    requires window { IsWindow w }
    requires cols { K.cols mask.old ≡ w.cols }
    requires rows { K.rows mask.old ≡ w.rows }
    ensures marks { Marks K.shows (on_part half a b) w mask.old mask.new }
    ensures cols { K.cols mask.new ≡ K.cols mask.old }
    ensures rows { K.rows mask.new ≡ K.rows mask.old }
{
    if is_part_known(half, a, b, w, mask) {
        return;
    }
    mark(&Disk { half, p: b }, w, mask);
    if is_part_known(half, a, b, w, mask) {
        return;
    }
    mark_body(half, a, b, w, mask);
}

// Covers the pixels of the body of the segment from `a` to `b` and of the disk at `b`. A disk is covered right after the
// body that it lies on, so that what a surface keeps of that one may serve it; but of a segment shorter than a pixel
// before it.
fn mark_part<K: Surface>(half: u32, a: Point, b: Point, w: Window, mask: &mut K)
    requires half { half ≤ 2 ^ 31 }
    requires a { InWorld a }
    requires b { InWorld b }
    requires window { IsWindow w }
    requires cols { K.cols mask.old ≡ w.cols }
    requires rows { K.rows mask.old ≡ w.rows }
    ensures marks { Marks K.shows (on_part half a b) w mask.old mask.new }
    ensures cols { K.cols mask.new ≡ K.cols mask.old }
    ensures rows { K.rows mask.new ≡ K.rows mask.old }
{
    if is_off(half, a, b, w) {
        return;
    }
    if long(a, b) < square(u64::from(w.pixel)) {
        mark_short(half, a, b, w, mask);
        return;
    }
    mark_body(half, a, b, w, mask);
    mark(&Disk { half, p: b }, w, mask);
}

/// Covers the pixels of the bodies of the segments from `first` along the points, and of the disks at these points.
pub fn mark_rounded<K: Surface>(half: u32, first: Point, rest: &[Point], w: Window, mask: &mut K)
    requires half { half ≤ 2 ^ 31 }
    requires first { InWorld first }
    requires rest { All InWorld rest.now }
    requires window { IsWindow w }
    requires cols { K.cols mask.old ≡ w.cols }
    requires rows { K.rows mask.old ≡ w.rows }
    ensures marks { Marks K.shows (λ c. on_sides half first rest.now c || on_disks half rest.now c) w mask.old mask.new }
    ensures cols { K.cols mask.new ≡ K.cols mask.old }
    ensures rows { K.rows mask.new ≡ K.rows mask.old }
{
    let mut before = first;
    for p in rest {
        mark_part(half, before, *p, w, mask);
        before = *p;
    }
}

// Covers the pixels of the caps of a line that begins from `a` to `b` and ends from `y` to `z`.
fn mark_ends<K: Surface>(
    half: u32,
    cap: LineCap,
    a: Point,
    b: Point,
    y: Point,
    z: Point,
    w: Window,
    mask: &mut K,
)
    requires half { half ≤ 2 ^ 31 }
    requires a { InWorld a }
    requires b { InWorld b }
    requires y { InWorld y }
    requires z { InWorld z }
    requires window { IsWindow w }
    requires cols { K.cols mask.old ≡ w.cols }
    requires rows { K.rows mask.old ≡ w.rows }
    ensures marks { Marks K.shows (on_ends half cap a b y z) w mask.old mask.new }
    ensures cols { K.cols mask.new ≡ K.cols mask.old }
    ensures rows { K.rows mask.new ≡ K.rows mask.old }
{
    match cap {
        LineCap::Butt => {}
        LineCap::Round => {
            mark(&Disk { half, p: a }, w, mask);
            mark(&Disk { half, p: z }, w, mask);
        }
        LineCap::Square => {
            mark_start(half, a, b, w, mask);
            mark_end(half, y, z, w, mask);
        }
    }
}

fn mark_dot<K: Surface>(half: u32, cap: LineCap, p: Point, w: Window, mask: &mut K)
    requires half { half ≤ 2 ^ 31 }
    requires p { InWorld p }
    requires window { IsWindow w }
    requires cols { K.cols mask.old ≡ w.cols }
    requires rows { K.rows mask.old ≡ w.rows }
    ensures marks { Marks K.shows (on_dot half cap p) w mask.old mask.new }
    ensures cols { K.cols mask.new ≡ K.cols mask.old }
    ensures rows { K.rows mask.new ≡ K.rows mask.old }
{
    match cap {
        LineCap::Butt => {}
        LineCap::Round => mark(&Disk { half, p }, w, mask),
        LineCap::Square => mark(&Block { half, p }, w, mask),
    }
}

fn mark_long<K: Surface>(half: u32, cap: LineCap, ps: &[Point], w: Window, mask: &mut K)
    requires half { half ≤ 2 ^ 31 }
    requires some { 2 ≤ length ps.now }
    requires points { All InWorld ps.now }
    requires window { IsWindow w }
    requires cols { K.cols mask.old ≡ w.cols }
    requires rows { K.rows mask.old ≡ w.rows }
    ensures marks { Marks K.shows (on_long half cap ps.now) w mask.old mask.new }
    ensures cols { K.cols mask.new ≡ K.cols mask.old }
    ensures rows { K.rows mask.new ≡ K.rows mask.old }
{
    let n = ps.len();
    mark_rounded(half, ps[0], &ps[1..n - 1], w, mask);
    mark_body(half, ps[n - 2], ps[n - 1], w, mask);
    mark_ends(half, cap, ps[0], ps[1], ps[n - 2], ps[n - 1], w, mask);
}

fn mark_line<K: Surface>(half: u32, cap: LineCap, ps: &[Point], w: Window, mask: &mut K)
    requires half { half ≤ 2 ^ 31 }
    requires points { All InWorld ps.now }
    requires window { IsWindow w }
    requires cols { K.cols mask.old ≡ w.cols }
    requires rows { K.rows mask.old ≡ w.rows }
    ensures marks { Marks K.shows (on_parts half cap ps.now) w mask.old mask.new }
    ensures cols { K.cols mask.new ≡ K.cols mask.old }
    ensures rows { K.rows mask.new ≡ K.rows mask.old }
{
    if ps.is_empty() {
        return;
    }
    if ps.len() == 1 {
        mark_dot(half, cap, ps[0], w, mask);
        return;
    }
    mark_long(half, cap, ps, w, mask);
}

fn stroke_line<K: Surface>(
    alloc: Global,
    line: &Path,
    half: u32,
    cap: LineCap,
    w: Window,
    mask: &mut K,
) -> Result<(), NoMemory>
    requires half { half ≤ 2 ^ 31 }
    requires points { All InWorld line.now }
    requires window { IsWindow w }
    requires cols { K.cols mask.old ≡ w.cols }
    requires rows { K.rows mask.old ≡ w.rows }
    ensures drawn { OnOk result (Marks K.shows (λ c. on_line half cap c line.now) w mask.old mask.new) }
    ensures refused { OnErr result (mask.new ≡ mask.old) }
    ensures cols { K.cols mask.new ≡ K.cols mask.old }
    ensures rows { K.rows mask.new ≡ K.rows mask.old }
{
    let points = kept(alloc, &line.points)?;
    mark_line(half, cap, &points, w, mask);
    Ok(())
}

/// Covers the pixels whose centre lies on the stroke of one of the lines, of a mask by setting their bits: in the body of a
/// segment, in the disk at an inner point, or in a cap (the stroke and cap shapes of Mapnik and AGG,
/// with round joins). `half` is half the stroke's width in world units, at most `2^31`. A point that
/// equals the one before it counts for nothing; of a line with one point left only the cap is drawn.
///
/// No other pixel changes. After `NoMemory` some of the pixels that belong may be covered, and no others.
/// The points lie in the world, the window is a tile's or a metatile's, and the mask, or what stands for it,
/// has its sides.
pub fn stroke_lines<K: Surface>(
    alloc: Global,
    lines: &[Path],
    half: u32,
    cap: LineCap,
    w: Window,
    mask: &mut K,
) -> Result<(), NoMemory>
    requires half { half ≤ 2 ^ 31 }
    requires lines { All (All InWorld) lines.now }
    requires window { IsWindow w }
    requires cols { K.cols mask.old ≡ w.cols }
    requires rows { K.rows mask.old ≡ w.rows }
    ensures drawn { OnOk result (Marks K.shows (on_stroke lines.now half cap) w mask.old mask.new) }
    ensures refused { OnErr result (Becomes K.shows (λ old new. SetsSome (on_stroke lines.now half cap) w old new) mask.old mask.new) }
    ensures cols { K.cols mask.new ≡ K.cols mask.old }
    ensures rows { K.rows mask.new ≡ K.rows mask.old }
{
    for line in lines {
        stroke_line(alloc, line, half, cap, w, mask)?;
    }
    Ok(())
}

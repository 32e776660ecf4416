//! The segments of strokes, and what lies near to their lines, height by height.
ghost use Rattle.std.specs.Prelude.{◌≡◌, ◌+◌, ◌*◌, ◌≤◌, ◌^◌, true};
ghost use Rattle.plain_world.specs.declared.world.Point.{Point};
ghost use Rattle.plain_world.specs.World.{InWorld};
ghost use Rattle.plain_shapes.specs.Strokes.{is_near, is_same};
ghost use Rattle.centre_spans.specs.Stretches.{InStretch, in_stretch};
ghost use Rattle.stroke_core.specs.inner.Segments.{IsSegment};

use crate::numbers::{beside, beside_at, long, raised, reach};
use centre_spans::{Stretch, apart, inverse, narrowed, no_more};
use plain_world::Point;

/// A segment that is stroked: half the stroke's width, the two ends, the square of its length, and half the
/// width times the length; and the inverses of how far the ends are apart, from west to east and from north to
/// south.
#[derive(Clone, Copy)]
pub struct Segment {
    pub half: u32,
    pub a: Point,
    pub b: Point,
    pub long: u64,
    pub reach: u64,
    pub across: u64,
    pub down: u64,
}

/// Whether two points are one.
pub fn is_same(p: Point, q: Point) -> bool
    ensures { result ≡ is_same p q }
{
    p.x == q.x && p.y == q.y
}

/// The segment from `a` to `b`.
pub fn segment_of(half: u32, a: Point, b: Point) -> Segment
    requires half { half ≤ 2 ^ 31 }
    requires a { InWorld a }
    requires b { InWorld b }
    ensures valid { IsSegment result }
    ensures fields { result ≡ record { half = half; a = a; b = b; long = result.long; reach = result.reach; across = result.across; down = result.down } }
{
    let long = long(a, b);
    Segment {
        half,
        a,
        b,
        long,
        reach: reach(half, long),
        across: inverse(apart(u64::from(a.x), u64::from(b.x))),
        down: inverse(apart(u64::from(a.y), u64::from(b.y))),
    }
}

/// The points of the height `y` that are near to the segment's line.
#[inline(always)]
pub fn near(s: Segment, y: u32) -> Stretch
    requires segment { IsSegment s }
    requires y { y ≤ 2 ^ 30 }
    ensures { (c : Point) → InWorld c → c.y ≡ y → in_stretch result c.x ≡ is_near s.half s.a s.b c }
{
    let side = beside(s.a, s.b, y);
    narrowed(
        no_more(side.plus, raised(side.minus, s.reach), s.down),
        no_more(side.minus, raised(side.plus, s.reach), s.down),
    )
}

// A stretch of heights that has those of the points that are near to the segment's line and lie between two places,
// as the segment goes down. Each test of nearness becomes one of heights alone, at the place where it is met most easily.
fn near_along(s: Segment, first: u32, last: u32) -> Stretch
    requires segment { IsSegment s }
    requires first { first ≤ 2 ^ 30 }
    requires last { last ≤ 2 ^ 30 }
    ensures { (c : Point) → InWorld c → first * s.b.y + c.x * s.a.y ≤ c.x * s.b.y + first * s.a.y → c.x * s.b.y + last * s.a.y ≤ last * s.b.y + c.x * s.a.y
        → is_near s.half s.a s.b c ≡ true → InStretch result c.y }
{
    let from = beside_at(s.a, s.b, first);
    let to = beside_at(s.a, s.b, last);
    narrowed(
        no_more(from.plus, raised(from.minus, s.reach), s.across),
        no_more(to.minus, raised(to.plus, s.reach), s.across),
    )
}

/// A stretch of heights that has those of the points between two places, from west to east, that are near to the
/// segment's line.
pub fn near_between(s: Segment, west: u32, east: u32) -> Stretch
    requires segment { IsSegment s }
    requires west { west ≤ 2 ^ 30 }
    requires east { east ≤ 2 ^ 30 }
    ensures { (c : Point) → InWorld c → west ≤ c.x → c.x ≤ east → is_near s.half s.a s.b c ≡ true → InStretch result c.y }
{
    if s.a.y <= s.b.y {
        near_along(s, west, east)
    } else {
        near_along(s, east, west)
    }
}

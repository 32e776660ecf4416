//! The bodies of segments, row by row.
ghost use Rattle.std.specs.Prelude.{◌≡◌, ◌+◌, ◌-◌, ◌≤◌, ◌^◌, ◌&&◌, true, not, min, max};
ghost use Rattle.plain_world.specs.declared.world.Point.{Point};
ghost use Rattle.plain_world.specs.World.{InWorld};
ghost use Rattle.plain_shapes.specs.Strokes.{in_body, is_same};
ghost use Rattle.centre_spans.specs.Stretches.{InStretch};
ghost use Rattle.stroke_core.specs.inner.Segments.{IsSegment};

use crate::numbers::{along, raised};
use crate::segments::{Segment, is_same, near, near_between};
use centre_spans::{Shape, Stretch, narrowed, no_more, nowhere};

/// The body of a segment; where its ends are one point it holds nothing.
#[derive(Clone, Copy)]
pub struct Body {
    pub of: Segment,
}

/// The places between two, and at most `reach` past them.
pub fn between(p: u32, q: u32, reach: u64) -> Stretch
    requires { reach ≤ 2 ^ 33 }
    ensures start { result.start ≡ min p q - reach }
    ensures end { result.end ≡ max p q + reach + 1 }
{
    let start = u64::from(p.min(q)).saturating_sub(reach);
    let end = u64::from(p.max(q)) + reach + 1;
    Stretch { start, end }
}

impl Shape for Body {
    ghost use Rattle.std.specs.Prelude.{not, ◌&&◌};
    ghost use Rattle.plain_shapes.specs.Strokes.{in_body, is_same};
    ghost use Rattle.stroke_core.specs.inner.Segments.{IsSegment};

    ghost holds = { λ s c. not (is_same s.of.a s.of.b) && in_body s.of.half s.of.a s.of.b c };

    ghost valid = { λ s. IsSegment s.of };

    fn heights(&self) -> Stretch {
        between(self.of.a.y, self.of.b.y, u64::from(self.of.half))
    }

    #[inline(always)]
    fn columns(&self, y: u32) -> Stretch {
        if is_same(self.of.a, self.of.b) {
            return nowhere();
        }
        let along = along(self.of.a, self.of.b, y);
        let ends = narrowed(
            no_more(along.minus, along.plus, self.of.across),
            no_more(
                along.plus,
                raised(along.minus, self.of.long),
                self.of.across,
            ),
        );
        narrowed(ends, near(self.of, y))
    }
}

fn ends_between(s: Segment, west: u32, east: u32) -> bool {
    west <= s.a.x.min(s.b.x) && s.a.x.max(s.b.x) <= east
}

/// A stretch of heights that has those of a body's points between two places, from west to east.
pub fn heights_between(body: &Body, west: u32, east: u32) -> Stretch
    requires segment { IsSegment body.now.of }
    requires west { west ≤ 2 ^ 30 }
    requires east { east ≤ 2 ^ 30 }
    ensures { (c : Point) → InWorld c → west ≤ c.x → c.x ≤ east
        → (not (is_same body.now.of.a body.now.of.b) && in_body body.now.of.half body.now.of.a body.now.of.b c) ≡ true → InStretch result c.y }
{
    let down = body.heights();
    if ends_between(body.of, west, east) {
        return down;
    }
    narrowed(down, near_between(body.of, west, east))
}

//! Square caps. Such a cap's corner lies further from the segment's end than half the width, and less
//! than twice as far.
use crate::bodies::between;
use crate::numbers::{along, raised};
use crate::segments::{Segment, is_same, near};
use centre_spans::{Shape, Stretch, narrowed, no_more, nowhere};

/// The square cap before the start of a segment; where its ends are one point it holds nothing.
#[derive(Clone, Copy)]
pub struct StartCap {
    pub of: Segment,
}

impl Shape for StartCap {
    ghost use Rattle.std.specs.Prelude.{not, ◌&&◌};
    ghost use Rattle.plain_shapes.specs.Strokes.{before_start, is_same};
    ghost use Rattle.stroke_core.specs.inner.Segments.{IsSegment};

    ghost holds = { λ s c. not (is_same s.of.a s.of.b) && before_start s.of.half s.of.a s.of.b c };

    ghost valid = { λ s. IsSegment s.of };

    fn heights(&self) -> Stretch {
        between(self.of.a.y, self.of.a.y, 2 * u64::from(self.of.half))
    }

    fn columns(&self, y: u32) -> Stretch {
        if is_same(self.of.a, self.of.b) {
            return nowhere();
        }
        let along = along(self.of.a, self.of.b, y);
        let before = narrowed(
            no_more(raised(along.plus, 1), along.minus, self.of.across),
            no_more(
                along.minus,
                raised(along.plus, self.of.reach),
                self.of.across,
            ),
        );
        narrowed(near(self.of, y), before)
    }
}

/// The square cap past the end of a segment; where its ends are one point it holds nothing.
#[derive(Clone, Copy)]
pub struct EndCap {
    pub of: Segment,
}

impl Shape for EndCap {
    ghost use Rattle.std.specs.Prelude.{not, ◌&&◌};
    ghost use Rattle.plain_shapes.specs.Strokes.{past_end, is_same};
    ghost use Rattle.stroke_core.specs.inner.Segments.{IsSegment};

    ghost holds = { λ s c. not (is_same s.of.a s.of.b) && past_end s.of.half s.of.a s.of.b c };

    ghost valid = { λ s. IsSegment s.of };

    fn heights(&self) -> Stretch {
        between(self.of.b.y, self.of.b.y, 2 * u64::from(self.of.half))
    }

    fn columns(&self, y: u32) -> Stretch {
        if is_same(self.of.a, self.of.b) {
            return nowhere();
        }
        let along = along(self.of.a, self.of.b, y);
        let past = narrowed(
            no_more(
                raised(along.minus, self.of.long + 1),
                along.plus,
                self.of.across,
            ),
            no_more(
                along.plus,
                raised(along.minus, self.of.long + self.of.reach),
                self.of.across,
            ),
        );
        narrowed(near(self.of, y), past)
    }
}

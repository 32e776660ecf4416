//! The disks of joins and round caps, and the squares of square caps at a line of one point.
use crate::bodies::between;
use centre_spans::{Shape, Stretch, apart, around, nowhere, short_root};
use plain_world::Point;

/// The disk round a point.
#[derive(Clone, Copy)]
pub struct Disk {
    pub half: u32,
    pub p: Point,
}

impl Shape for Disk {
    ghost use Rattle.std.specs.Prelude.{◌≡◌, ◌≤◌, ◌^◌};
    ghost use Rattle.plain_world.specs.World.{InWorld};
    ghost use Rattle.plain_shapes.specs.Strokes.{in_disk};

    ghost holds = { λ s c. in_disk s.half s.p c };

    ghost valid = { λ s. InWorld s.p × (s.half ≤ 2 ^ 31) };

    fn heights(&self) -> Stretch {
        between(self.p.y, self.p.y, u64::from(self.half))
    }

    #[inline(always)]
    fn columns(&self, y: u32) -> Stretch {
        let half = u64::from(self.half);
        let down = apart(u64::from(y), u64::from(self.p.y));
        if half < down {
            return nowhere();
        }
        around(self.p.x, short_root(half * half - down * down))
    }
}

/// The square round a point.
#[derive(Clone, Copy)]
pub struct Block {
    pub half: u32,
    pub p: Point,
}

impl Shape for Block {
    ghost use Rattle.std.specs.Prelude.{◌≡◌, ◌≤◌, ◌^◌};
    ghost use Rattle.plain_world.specs.World.{InWorld};
    ghost use Rattle.plain_shapes.specs.Strokes.{in_block};

    ghost holds = { λ s c. in_block s.half s.p c };

    ghost valid = { λ s. InWorld s.p × (s.half ≤ 2 ^ 31) };

    fn heights(&self) -> Stretch {
        between(self.p.y, self.p.y, u64::from(self.half))
    }

    fn columns(&self, y: u32) -> Stretch {
        let half = u64::from(self.half);
        let down = apart(u64::from(y), u64::from(self.p.y));
        if half < down {
            return nowhere();
        }
        around(self.p.x, half)
    }
}

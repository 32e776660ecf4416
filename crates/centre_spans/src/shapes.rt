//! What a shape says of itself, so that no centre is tested.
ghost use Rattle.std.specs.Prelude.{◌≡◌, ◌≤◌, ◌^◌, Bool, true};
ghost use Rattle.plain_world.specs.declared.world.Point.{Point};
ghost use Rattle.plain_world.specs.World.{InWorld};
ghost use Rattle.centre_spans.specs.Stretches.{InStretch, in_stretch};

/// Places along one direction: from `start` on and before `end`, in world units.
#[derive(Clone, Copy)]
pub struct Stretch {
    pub start: u64,
    pub end: u64,
}

/// A set of points whose places of each height are one stretch.
pub trait Shape {
    /// Which points it holds.
    ghost holds: { Self → Point → Bool };

    /// What its numbers have to keep.
    ghost valid: { Self → Type 0 };

    /// A stretch of heights that has those of all its points.
    fn heights(&self) -> Stretch
        requires { valid self.now }
        ensures { (c : Point) → InWorld c → holds self.now c ≡ true → InStretch result c.y };

    /// The stretch of its points of one height: each point of the world that lies in it, and no other one.
    fn columns(&self, y: u32) -> Stretch
        requires valid { valid self.now }
        requires height { y ≤ 2 ^ 30 }
        ensures { (c : Point) → InWorld c → c.y ≡ y → holds self.now c ≡ in_stretch result c.x };
}

//! The ellipse of a mark.
ghost use Rattle.std.specs.Prelude.{◌≡◌, ℕ, ◌+◌, ◌-◌, ◌*◌, ◌/◌, ◌≤◌, ◌^◌, ◌&&◌, nat_le};

use centre_spans::{Shape, Stretch, apart, around, nowhere, root, short_root};
use plain_world::Point;

/// The ellipse round `centre` that is `a` wide and `b` high to each side, in world units. Where one of
/// them is 0 it holds nothing.
#[derive(Clone, Copy)]
pub struct Ellipse {
    pub centre: Point,
    pub a: u32,
    pub b: u32,
}

fn squared(n: u64) -> u128
    ensures value { result ≡ n * n }
    ensures small { n ≤ 2 ^ 31 → result ≤ 2 ^ 62 }
{
    u128::from(n) * u128::from(n)
}

fn reaches(a: u32, b: u32, y: u64) -> bool
    ensures { result ≡ (nat_le 1 a && nat_le 1 b && nat_le y b) }
{
    a >= 1 && b >= 1 && y <= u64::from(b)
}

// `a^2` times the number over `b^2`, rounded down.
fn scaled(a: u32, b: u32, n: u128) -> u128
    requires a { a ≤ 2 ^ 31 }
    requires b { b ≤ 2 ^ 31 }
    requires some { 1 ≤ b }
    requires small { n ≤ 2 ^ 62 }
    ensures { result ≡ a * a * n / (b * b) }
{
    squared(u64::from(a)) * n / squared(u64::from(b))
}

// The same as `width_at` of a circle: x^2 + y^2 <= b^2, solved for x.
fn half_chord(b: u32, y: u64) -> u64
    requires b { b ≤ 2 ^ 31 }
    requires within { y ≤ b }
    ensures { (x : ℕ) → nat_le x result ≡ nat_le (x * x) (b * b - y * y) }
{
    let radius = u64::from(b);
    short_root(radius * radius - y * y)
}

// How far to each side of its centre an ellipse reaches that is `a` wide and `b` high to each side, at the
// height `y` from its centre: x^2 * b^2 + y^2 * a^2 <= a^2 * b^2, solved for x.
fn width_at(a: u32, b: u32, y: u64) -> u64
    requires a { a ≤ 2 ^ 31 }
    requires b { b ≤ 2 ^ 31 }
    requires some { 1 ≤ b }
    requires within { y ≤ b }
    ensures is { (x : ℕ)
        → nat_le x result ≡ nat_le (x * x * (b * b) + y * y * (a * a)) (a * a * (b * b)) }
    ensures little { result ≤ a }
{
    // Most marks are circles, of which nothing is divided.
    if a == b {
        return half_chord(b, y);
    }
    let high = squared(u64::from(b));
    root(scaled(a, b, high - squared(y)))
}

// The places at most `reach` from `p`.
fn beside(p: u32, reach: u32) -> Stretch
    ensures start { result.start ≡ p - reach }
    ensures end { result.end ≡ p + reach + 1 }
{
    let start = u64::from(p.saturating_sub(reach));
    let end = u64::from(p) + u64::from(reach) + 1;
    Stretch { start, end }
}

impl Shape for Ellipse {
    ghost use Rattle.std.specs.Prelude.{◌≡◌, ◌≤◌, ◌^◌};
    ghost use Rattle.plain_world.specs.World.{InWorld};
    ghost use Rattle.plain_shapes.specs.Strokes.{in_mark};

    ghost holds = { λ s c. in_mark s.a s.b c s.centre };

    ghost valid = { λ s. InWorld s.centre × (s.a ≤ 2 ^ 31) × (s.b ≤ 2 ^ 31) };

    fn heights(&self) -> Stretch {
        beside(self.centre.y, self.b)
    }

    fn columns(&self, y: u32) -> Stretch {
        let down = apart(u64::from(y), u64::from(self.centre.y));
        if reaches(self.a, self.b, down) {
            around(self.centre.x, width_at(self.a, self.b, down))
        } else {
            nowhere()
        }
    }
}

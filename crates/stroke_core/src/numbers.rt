//! The numbers of a segment and of the points of one height, without signs: a number that may be below zero
//! is what is to be added and what is to be taken away, and each of the two grows evenly with x.
ghost use Rattle.std.specs.Prelude.{◌≡◌, ℕ, ◌+◌, ◌*◌, ◌^◌, ◌≤◌, pos, nat_le};
ghost use Rattle.plain_world.specs.World.{InWorld};
ghost use Rattle.plain_shapes.specs.Strokes.{long};

use centre_spans::{Growing, apart, root};
use plain_world::Point;

/// The number `plus - minus`, which may be below zero, at each x of one height.
#[derive(Clone, Copy)]
pub struct Difference {
    pub plus: Growing,
    pub minus: Growing,
}

fn times(m: u32, n: u32) -> u64
    ensures value { result ≡ m * n }
    ensures small { m ≤ 2 ^ 30 → n ≤ 2 ^ 30 → result ≤ 2 ^ 60 }
{
    u64::from(m) * u64::from(n)
}

/// How far the points of the height `y` lie along the segment from `a` to `b`, times its length.
pub fn along(a: Point, b: Point, y: u32) -> Difference
    requires a { InWorld a }
    requires b { InWorld b }
    requires y { y ≤ 2 ^ 30 }
    ensures plus { result.plus ≡ record { slope = b.x; rest = a.x * a.x + y * b.y + a.y * a.y } }
    ensures minus { result.minus ≡ record { slope = a.x; rest = a.x * b.x + y * a.y + a.y * b.y } }
    ensures little_plus { result.plus.rest ≤ 2 ^ 62 }
    ensures little_minus { result.minus.rest ≤ 2 ^ 62 }
{
    Difference {
        plus: Growing {
            slope: b.x,
            rest: times(a.x, a.x) + times(y, b.y) + times(a.y, a.y),
        },
        minus: Growing {
            slope: a.x,
            rest: times(a.x, b.x) + times(y, a.y) + times(a.y, b.y),
        },
    }
}

/// How far the points of the height `y` lie beside the line through `a` and `b`, times the segment's length.
pub fn beside(a: Point, b: Point, y: u32) -> Difference
    requires a { InWorld a }
    requires b { InWorld b }
    requires y { y ≤ 2 ^ 30 }
    ensures plus { result.plus ≡ record { slope = b.y; rest = y * a.x + a.y * b.x } }
    ensures minus { result.minus ≡ record { slope = a.y; rest = a.x * b.y + y * b.x } }
    ensures little_plus { result.plus.rest ≤ 2 ^ 62 }
    ensures little_minus { result.minus.rest ≤ 2 ^ 62 }
{
    Difference {
        plus: Growing {
            slope: b.y,
            rest: times(y, a.x) + times(a.y, b.x),
        },
        minus: Growing {
            slope: a.y,
            rest: times(a.x, b.y) + times(y, b.x),
        },
    }
}

/// The same for the points of the place `x` to the east, height by height.
pub fn beside_at(a: Point, b: Point, x: u32) -> Difference
    requires a { InWorld a }
    requires b { InWorld b }
    requires x { x ≤ 2 ^ 30 }
    ensures plus { result.plus ≡ record { slope = a.x; rest = x * b.y + a.y * b.x } }
    ensures minus { result.minus ≡ record { slope = b.x; rest = a.x * b.y + x * a.y } }
    ensures little_plus { result.plus.rest ≤ 2 ^ 62 }
    ensures little_minus { result.minus.rest ≤ 2 ^ 62 }
{
    Difference {
        plus: Growing {
            slope: a.x,
            rest: times(x, b.y) + times(a.y, b.x),
        },
        minus: Growing {
            slope: b.x,
            rest: times(a.x, b.y) + times(x, a.y),
        },
    }
}

/// The number with another added to it.
pub fn raised(number: Growing, more: u64) -> Growing
    requires number { number.rest ≤ 2 ^ 62 }
    requires more { more ≤ 2 ^ 63 }
    ensures { result ≡ record { slope = number.slope; rest = number.rest + more } }
{
    Growing {
        slope: number.slope,
        rest: number.rest + more,
    }
}

/// The square of the length of the segment from `a` to `b`.
#[tactic(auto, using(crate::proofs::Products::long_is))]
pub fn long(a: Point, b: Point) -> u64
    requires a { InWorld a }
    requires b { InWorld b }
    ensures is { pos result ≡ long a b }
    ensures small { result ≤ 2 ^ 61 }
{
    let x = apart(u64::from(b.x), u64::from(a.x));
    let y = apart(u64::from(b.y), u64::from(a.y));
    square(x) + square(y)
}

/// A number times itself.
pub fn square(n: u64) -> u64
    requires { n ≤ 2 ^ 31 }
    ensures value { result ≡ n * n }
    ensures small { n ≤ 2 ^ 30 → result ≤ 2 ^ 60 }
{
    n * n
}

/// Half a stroke's width, times a segment's length whose square is `long`, rounded down: the numbers up to it
/// are those whose square is at most the square of the product.
pub fn reach(half: u32, long: u64) -> u64
    requires half { half ≤ 2 ^ 31 }
    requires long { long ≤ 2 ^ 61 }
    ensures is { (d : ℕ) → nat_le d result ≡ nat_le (d * d) (half * half * long) }
    ensures small { result ≤ 2 ^ 62 }
{
    root(u128::from(square(u64::from(half))) * u128::from(long))
}

//! Stretches of places: none, round a place, in two at once, and where one number is no more than another.
ghost use Rattle.std.specs.Prelude.{◌≡◌, ℕ, ◌+◌, ◌-◌, ◌*◌, ◌^◌, ◌≤◌, Bool, false, ◌&&◌, nat_le};
ghost use Rattle.centre_spans.specs.Stretches.{in_stretch};

use crate::numbers::{quotient_down, quotient_up};
use crate::shapes::Stretch;

/// No place.
pub fn nowhere() -> Stretch
    ensures { (v : ℕ) → in_stretch result v ≡ false }
{
    Stretch { start: 0, end: 0 }
}

/// The places at most `reach` from `p`.
#[tactic(auto, using(crate::proofs::Edges::around_is))]
pub fn around(p: u32, reach: u64) -> Stretch
    requires { reach ≤ 2 ^ 63 }
    ensures { (v : ℕ) → in_stretch result v ≡ nat_le (v - p + (p - v)) reach }
{
    Stretch {
        start: u64::from(p).saturating_sub(reach),
        end: u64::from(p) + reach + 1,
    }
}

/// The places in both of two stretches.
#[tactic(auto, using(crate::proofs::Edges::narrowed_is))]
pub fn narrowed(p: Stretch, q: Stretch) -> Stretch
    ensures { (v : ℕ) → in_stretch result v ≡ (in_stretch p v && in_stretch q v) }
{
    Stretch {
        start: p.start.max(q.start),
        end: p.end.min(q.end),
    }
}

/// A number that grows evenly along the places v: `v * slope + rest`.
#[derive(Clone, Copy)]
pub struct Growing {
    pub slope: u32,
    pub rest: u64,
}

/// The places of the world at which the first number is no more than the second. They are found sooner where
/// `inverse` is that of how far the two slopes are apart.
pub fn no_more(p: Growing, q: Growing, inverse: u64) -> Stretch
    requires { q.rest ≤ 2 ^ 63 + 2 ^ 62 }
    ensures { (v : ℕ) → v ≤ 2 ^ 30
        → in_stretch result v ≡ nat_le (v * p.slope + p.rest) (v * q.slope + q.rest) }
{
    if p.slope < q.slope {
        let rise = u64::from(q.slope - p.slope);
        let start = quotient_up(p.rest.saturating_sub(q.rest), rise, inverse);
        Stretch {
            start,
            end: u64::MAX,
        }
    } else if q.rest < p.rest {
        nowhere()
    } else if q.slope < p.slope {
        let fall = u64::from(p.slope - q.slope);
        let end = quotient_down(q.rest - p.rest, fall, inverse) + 1;
        Stretch { start: 0, end }
    } else {
        Stretch {
            start: 0,
            end: u64::MAX,
        }
    }
}

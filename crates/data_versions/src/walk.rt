//! A walk over the features of a layer that are near a rectangle.
ghost use Rattle.std.specs.Prelude.{◌≡◌, ◌≤◌, ◌<◌, ℕ, true, length, get_or, unwrap_or, IfSome, MatchOption};
ghost use Rattle.plain_shapes.specs.Features.{Feature};
ghost use Rattle.data_versions.specs.Near.{is_near, all_near, IsNext, IsEnd};
ghost use Rattle.data_versions.specs.inner.Sieves.{IsPassed, IsSifted};

use crate::blocks::Blocks;
use crate::question::{Question, Wanted};
use crate::segment::Segment;
use crate::shared::SharedFeature;
use crate::sieve::{ALL_SIFTED, Sifted};
use std::marker::Model;

/// What is left of a walk over the features of a layer near a rectangle: those of some that stand side by side, from a
/// place on, and those of the layer from a place on. Contracts see it as the list of the near features to come, and the
/// marks of which one is asked for: where some are, features that have none of them may be passed over.
#[derive(Drop)]
pub struct NearFeatures<'a> {
    wanted: Wanted,
    here: &'a [SharedFeature],
    sifted: Sifted,
    at: usize,
    segments: &'a Blocks<Segment>,
    from: u32,
}

impl<'a> Model for NearFeatures<'a> {
    ghost use Rattle.std.specs.Prelude.{◌≤◌, ◌++◌, drop, length};
    ghost use Rattle.data_versions.specs.Near.{all_near, Walk};
    ghost use Rattle.data_versions.specs.inner.Sieves.{IsSifted};

    ghost Value = { Walk };

    ghost view = { λ n. record {
      asked = n.wanted.asked;
      left = all_near (drop n.at n.here.now ++ drop n.from n.segments.now) n.wanted.around;
    } };

    ghost invariant = { λ n. (n.from ≤ length n.segments.now)
        × IsSifted n.wanted n.sifted n.here.now };
}

// The first place from `at` on of a feature that is wanted; those before it are passed.
fn next_wanted(
    here: &[SharedFeature],
    sifted: &Sifted,
    mut at: usize,
    wanted: Wanted,
) -> Option<usize>
    requires { IsSifted wanted sifted.now here.now }
    ensures place { IfSome result (λ k. (at ≤ k) × (k < length here.now)) }
    ensures near { IfSome result (λ k. (d : Feature) → is_near wanted.around (get_or here.now k d) ≡ true) }
    ensures passed { (k : ℕ) (d : Feature) → at ≤ k → k < unwrap_or result (length here.now) → IsPassed wanted (get_or here.now k d) }
{
    while at < here.len() {
        if sifted.may[at] && (sifted.are_near || here[at].bbox().meets(&wanted.around)) {
            return Some(at);
        }
        at += 1;
    }
    None
}

impl<'a> NearFeatures<'a> {
    /// The walk over the features of the segments.
    pub(crate) fn of(segments: &'a Blocks<Segment>, wanted: Wanted) -> NearFeatures<'a>
        ensures { result ≡ record { asked = wanted.asked; left = all_near segments.now wanted.around } }
    {
        NearFeatures {
            wanted,
            here: &[],
            sifted: ALL_SIFTED,
            at: 0,
            segments,
            from: 0,
        }
    }

    /// The next feature, or none exactly where none is left that is asked for.
    pub fn next(&mut self) -> Option<&'a SharedFeature>
        ensures { MatchOption result (IsEnd self.old self.new) (λ f. IsNext self.old f.now self.new) }
    {
        let segments = self.segments;
        let wanted = self.wanted;
        let count = segments.len();
        let mut here = self.here;
        let mut at = self.at;
        let mut from = self.from;
        loop {
            if let Some(place) = next_wanted(here, &self.sifted, at, wanted) {
                self.here = here;
                self.at = place + 1;
                self.from = from;
                return Some(&here[place]);
            }
            if from >= count {
                self.here = &[];
                self.at = 0;
                self.from = from;
                return None;
            }
            let (place, part, sifted) = segments.part_from(from, Question::IsNear(wanted));
            here = part;
            at = 0;
            self.sifted = sifted;
            from = place + part.len() as u32;
        }
    }
}

//! A chunk of a layer: features that snapshots share.
ghost use Rattle.std.specs.Prelude.{◌≡◌, ◌≤◌, true, false, length, All, IfOk};
ghost use Rattle.plain_shapes.specs.Features.{Feature};
ghost use Rattle.data_versions.specs.Near.{is_near};
ghost use Rattle.data_versions.specs.inner.Extents.{IsIn};
ghost use Rattle.data_versions.specs.inner.Sieves.{Sifts};

use crate::block::Block;
use crate::extent::{Extent, NO_EXTENT};
use crate::question::Question;
use crate::shared::SharedFeature;
use crate::sieve::{ALL_SIFTED, MOST_TOGETHER, Sieve, Sifted};
use farm_base::NoMemory;
use geo_model::Bounds;
use std::alloc::Global;
use std::marker::Model;
use std::sync::Arc;

/// A share of at most 64 features, their extent, and what a search asks of each: these stand beside those of the next
/// chunk, so that a walk follows the share only where a feature may be wanted. An update that changes one of the features
/// makes a new list of them all, and counts all chunks of their segment. Contracts see it as the list of its features.
#[derive(Drop)]
pub(crate) struct Chunk {
    extent: Extent,
    sieve: Sieve,
    features: Arc<Vec<SharedFeature>>,
}

impl Model for Chunk {
    ghost use Rattle.std.specs.Prelude.{List, All};
    ghost use Rattle.plain_shapes.specs.Features.{Feature};
    ghost use Rattle.data_versions.specs.inner.Extents.{IsIn};
    ghost use Rattle.data_versions.specs.inner.Sieves.{IsSieve};

    ghost Value = { List Feature };

    ghost view = { λ c. c.features.value.items };

    ghost invariant = { λ c. All (IsIn c.extent) c.features.value.items
        × IsSieve c.sieve c.features.value.items };
}

fn extent_over(features: &[SharedFeature]) -> Extent
    ensures { All (IsIn result) features.now }
{
    let mut extent = NO_EXTENT;
    for feature in features {
        let id = feature.id();
        extent = extent.with(Extent {
            least: id,
            greatest: id,
            bounds: feature.bbox(),
        });
    }
    extent
}

// All of the features may be looked for.
fn all_sifted(features: &[SharedFeature], question: Question) -> Sifted
    requires { length features.now ≤ 64 }
    ensures { Sifts question result features.now }
{
    let _ = features;
    let _ = question;
    ALL_SIFTED
}

impl Chunk {
    /// The chunk of the features, of which there are 64 at most.
    pub(crate) fn of(alloc: Global, features: Vec<SharedFeature>) -> Result<Chunk, NoMemory>
        ensures { IfOk result (λ c. c ≡ features.items) }
    {
        if features.len() > MOST_TOGETHER {
            return Err(NoMemory);
        }
        let extent = extent_over(features.as_slice());
        let sieve = Sieve::of(extent.bounds, features.as_slice());
        Ok(Chunk {
            extent,
            sieve,
            features: Arc::new(alloc, features)?,
        })
    }

    /// The same with one more share of the features.
    pub(crate) fn share(&self) -> Result<Chunk, NoMemory>
        ensures { IfOk result (λ c. c ≡ self.now) }
    {
        Ok(Chunk {
            extent: self.extent,
            sieve: self.sieve.again(),
            features: Arc::try_clone(&self.features)?,
        })
    }

    /// The extent of the features.
    pub(crate) fn extent(&self) -> Extent
        ensures { All (IsIn result) self.now }
    {
        self.extent
    }

    /// The features in order.
    pub(crate) fn features(&self) -> &[SharedFeature]
        ensures value { result.now ≡ self.now }
        ensures few { length self.now ≤ 64 }
    {
        self.features.as_slice()
    }

    // Whether all of the features are known to be near the rectangle, since they lie in it.
    fn are_near(&self, around: Bounds) -> bool
        ensures { result ≡ true → All (λ f. is_near around f ≡ true) self.now }
    {
        self.sieve.have_points() && self.extent.is_within(&around)
    }

    // Which of the features may be looked for.
    fn sifted(&self, question: Question) -> Sifted
        ensures { Sifts question result self.now }
    {
        match question {
            Question::IsNear(wanted) => Sifted {
                may: self.sieve.sift(wanted),
                are_near: self.are_near(wanted.around),
            },
            Question::HasId(_) => ALL_SIFTED,
        }
    }
}

impl Block for Chunk {
    ghost features = { λ fs. fs };

    fn len(&self) -> u32 {
        self.features().len() as u32
    }

    fn may_answer(&self, question: Question) -> bool {
        if !self.extent.may_answer(question) {
            return false;
        }
        match question {
            Question::IsNear(wanted) => self.sieve.may_meet(wanted.around),
            Question::HasId(_) => true,
        }
    }

    fn get(&self, i: u32) -> Option<&SharedFeature> {
        self.features.get(i as usize)
    }

    fn part_from(&self, from: u32, question: Question) -> (u32, &[SharedFeature], Sifted) {
        let features = self.features();
        if from == 0 {
            return (from, features, self.sifted(question));
        }
        if from as usize >= features.len() {
            return (from, &[], ALL_SIFTED);
        }
        let rest = &features[from as usize..];
        (from, rest, all_sifted(rest, question))
    }

    fn number(&self, pairs: &mut Vec<(u64, u32)>) -> Result<(), NoMemory> {
        for feature in self.features() {
            let place = pairs.len() as u32;
            pairs.push((feature.id(), place))?;
        }
        Ok(())
    }
}

//! A feature that snapshots share, with what is read of many features at once beside it.
ghost use Rattle.std.specs.Prelude.{◌≡◌, false, IfOk};
ghost use Rattle.attribute_marks.specs.Marks.{HasMarks, Lacks};
ghost use Rattle.data_versions.specs.Near.{box_of};

use attribute_marks::{marks_of, shares};
use farm_base::NoMemory;
use geo_model::{Bounds, Feature};
use std::alloc::Global;
use std::marker::Model;
use std::sync::Arc;

/// A share of a feature, and the feature's id, its box, and marks of its attributes, so that a search
/// by them does not read the feature itself. Contracts see it as the feature.
#[derive(Drop)]
pub struct SharedFeature {
    id: u64,
    bounds: Bounds,
    marks: u64,
    feature: Arc<Feature>,
}

impl Model for SharedFeature {
    ghost use Rattle.std.specs.Prelude.{◌≡◌};
    ghost use Rattle.plain_shapes.specs.Features.{Feature};
    ghost use Rattle.attribute_marks.specs.Marks.{HasMarks};
    ghost use Rattle.data_versions.specs.Near.{box_of};

    ghost Value = { Feature };

    ghost view = { λ s. s.feature.value };

    ghost invariant = { λ s. (s.id ≡ s.feature.value.id) × (s.bounds ≡ box_of s.feature.value)
        × HasMarks s.marks s.feature.value.attrs };
}

impl SharedFeature {
    /// A first share of the feature.
    pub(crate) fn of(alloc: Global, feature: Feature) -> Result<SharedFeature, NoMemory>
        ensures { IfOk result (λ shared. shared ≡ feature) }
    {
        Ok(SharedFeature {
            id: feature.id(),
            bounds: feature.bbox(),
            marks: marks_of(feature.attrs()),
            feature: Arc::new(alloc, feature)?,
        })
    }

    /// One more share.
    pub(crate) fn share(&self) -> Result<SharedFeature, NoMemory>
        ensures { IfOk result (λ shared. shared ≡ self.now) }
    {
        Ok(SharedFeature {
            id: self.id,
            bounds: self.bounds,
            marks: self.marks,
            feature: Arc::try_clone(&self.feature)?,
        })
    }

    /// The feature itself.
    pub fn feature(&self) -> &Feature
        ensures { result.now ≡ self.now }
    {
        &self.feature
    }

    /// Whether one of its attributes may have one of the marks that are asked for; if not, none has.
    pub fn may_have(&self, asked: u64) -> bool
        ensures { result ≡ false → Lacks asked self.now.attrs }
    {
        shares(self.marks, asked)
    }

    /// The marks of its attributes.
    pub(crate) fn marks(&self) -> u64
        ensures { HasMarks result self.now.attrs }
    {
        self.marks
    }

    /// The feature's id.
    pub(crate) fn id(&self) -> u64
        ensures { result ≡ self.now.id }
    {
        self.id
    }

    /// The feature's box.
    pub fn bbox(&self) -> Bounds
        ensures { result ≡ box_of self.now }
    {
        self.bounds
    }
}

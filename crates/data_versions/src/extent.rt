//! Between which ids and in which box features lie.
ghost use Rattle.std.specs.Prelude.{◌≡◌, true, false, All};
ghost use Rattle.plain_shapes.specs.Features.{Feature};
ghost use Rattle.geo_model.specs.Bounds.{Within};
ghost use Rattle.data_versions.specs.inner.Extents.{IsIn, Holds};
ghost use Rattle.data_versions.specs.inner.Questions.{answers};

use crate::question::Question;
use geo_model::Bounds;

/// Two ids, between which those of some features lie, and a box in which the features lie. It stands beside a
/// share of the features, so that most searches leave them out without a look at them.
#[derive(Clone, Copy)]
pub(crate) struct Extent {
    pub least: u64,
    pub greatest: u64,
    pub bounds: Bounds,
}

/// The extent of no features.
pub(crate) const NO_EXTENT: Extent = Extent {
    least: u64::MAX,
    greatest: 0,
    bounds: Bounds {
        west: u32::MAX,
        north: u32::MAX,
        east: 0,
        south: 0,
    },
};

impl Extent {
    /// The least extent that holds both.
    pub(crate) fn with(self, other: Extent) -> Extent
        ensures old { Holds result self }
        ensures new { Holds result other }
    {
        let old = self.bounds;
        let new = other.bounds;
        Extent {
            least: self.least.min(other.least),
            greatest: self.greatest.max(other.greatest),
            bounds: Bounds {
                west: old.west.min(new.west),
                north: old.north.min(new.north),
                east: old.east.max(new.east),
                south: old.south.max(new.south),
            },
        }
    }

    /// Whether the box lies in the rectangle.
    pub(crate) fn is_within(&self, around: &Bounds) -> bool
        ensures { result ≡ true → Within self.now.bounds around.now }
    {
        let own = self.bounds;
        around.west <= own.west
            && around.north <= own.north
            && own.east <= around.east
            && own.south <= around.south
    }

    /// Whether a feature within may answer the question; if not, none does.
    pub(crate) fn may_answer(&self, question: Question) -> bool
        ensures { result ≡ false → (f : Feature) → IsIn self.now f → answers question f ≡ false }
    {
        match question {
            Question::HasId(id) => self.least <= id && id <= self.greatest,
            Question::IsNear(wanted) => self.bounds.meets(&wanted.around),
        }
    }
}

//! Which features of a chunk a walk looks at.
ghost use Rattle.std.specs.Prelude.{◌≡◌, ◌≤◌, ◌<◌, ◌⊎◌, ℕ, true, false, List, length, get_or};
ghost use Rattle.attribute_marks.specs.Marks.{Shares};
ghost use Rattle.plain_shapes.specs.Features.{Feature};
ghost use Rattle.data_versions.specs.inner.Grids.{on_grid, grid_meets};
ghost use Rattle.data_versions.specs.inner.Sieves.{box_at, HasPoint, IsLong, IsSeen, IsSieve, IsMarked};

use crate::grid::{Grid, GridBox};
use crate::question::Wanted;
use crate::shared::SharedFeature;
use attribute_marks::shares;
use geo_model::Bounds;

/// The most features of a chunk.
pub(crate) const MOST_TOGETHER: usize = 64;

/// For each feature of a chunk whether it may be looked for.
pub(crate) type Marked = [bool; MOST_TOGETHER];

// All may be looked for.
const ALL_MARKED: Marked = [true; MOST_TOGETHER];

/// Which features of a chunk may be looked for, and whether all of them are known to be near the rectangle, so that none
/// of their boxes is read.
#[derive(Clone, Copy)]
pub(crate) struct Sifted {
    pub may: Marked,
    pub are_near: bool,
}

/// All may be looked for, and of none it is known that it is near.
pub(crate) const ALL_SIFTED: Sifted = Sifted {
    may: ALL_MARKED,
    are_near: false,
};

// Whether the box has a point: that of a feature without points has none.
fn has_point(b: Bounds) -> bool
    ensures { result ≡ true → HasPoint b }
{
    b.west <= b.east && b.north <= b.south
}

/// The boxes of some features in parts of a box, and the marks of their attributes: those of the k-th feature are the
/// k-th of each list. They stand side by side, so that all are asked at once, and no feature is read for it: 12 bytes each.
#[derive(Drop)]
pub(crate) struct Sieve {
    grid: Grid,
    west: [u8; MOST_TOGETHER],
    north: [u8; MOST_TOGETHER],
    east: [u8; MOST_TOGETHER],
    south: [u8; MOST_TOGETHER],
    marks: [u64; MOST_TOGETHER],
    have_points: bool,
}

impl Sieve {
    // A sieve of no features: what is not there has no column.
    fn empty(bounds: Bounds) -> Sieve
        ensures { IsLong result }
    {
        Sieve {
            grid: Grid::of(bounds),
            west: [255u8; MOST_TOGETHER],
            north: [255u8; MOST_TOGETHER],
            east: [0u8; MOST_TOGETHER],
            south: [0u8; MOST_TOGETHER],
            marks: [0u64; MOST_TOGETHER],
            have_points: true,
        }
    }

    fn put(&mut self, k: usize, feature: &SharedFeature)
        requires long { IsLong self.old }
        requires few { k < 64 }
        ensures long { IsLong self.new }
        ensures seen { IsSeen self.new k feature.now }
        ensures kept { (j : ℕ) (f : Feature) → j < k → IsSeen self.old j f → IsSeen self.new j f }
    {
        let place = self.grid.place(feature.bbox());
        self.west[k] = place.west;
        self.north[k] = place.north;
        self.east[k] = place.east;
        self.south[k] = place.south;
        self.marks[k] = feature.marks();
        self.have_points = self.have_points && has_point(feature.bbox());
    }

    /// The sieve of the features, which lie best in the box.
    pub(crate) fn of(bounds: Bounds, features: &[SharedFeature]) -> Sieve
        requires { length features.now ≤ 64 }
        ensures { IsSieve result features.now }
    {
        let mut sieve = Sieve::empty(bounds);
        for k in 0..features.len() {
            sieve.put(k, &features[k]);
        }
        sieve
    }

    /// The same sieve once more.
    pub(crate) fn again(&self) -> Sieve
        ensures { result ≡ self.now }
    {
        Sieve {
            grid: self.grid.again(),
            west: self.west,
            north: self.north,
            east: self.east,
            south: self.south,
            marks: self.marks,
            have_points: self.have_points,
        }
    }

    /// Whether the box of each feature has a point.
    pub(crate) fn have_points(&self) -> bool
        ensures { result ≡ self.now.have_points }
    {
        self.have_points
    }

    fn box_at(&self, k: usize) -> GridBox
        requires long { IsLong self.now }
        requires few { k < 64 }
        ensures { result ≡ box_at self.now k }
    {
        GridBox {
            west: self.west[k],
            north: self.north[k],
            east: self.east[k],
            south: self.south[k],
        }
    }

    /// Whether one of the features may be near the rectangle; if not, none is.
    pub(crate) fn may_meet(&self, around: Bounds) -> bool
        requires { IsLong self.now }
        ensures { result ≡ false → (k : ℕ) → k < 64
            → grid_meets (box_at self.now k) (on_grid self.now.grid around) ≡ false }
    {
        let wanted = self.grid.place(around);
        let mut found = false;
        for k in 0..MOST_TOGETHER {
            found |= self.box_at(k).meets(wanted);
        }
        found
    }

    fn sift_boxes(&self, around: Bounds) -> Marked
        requires { IsLong self.now }
        ensures long { length result ≡ 64 }
        ensures sifted { (k : ℕ) → k < 64 → get_or result k true ≡ false
            → grid_meets (box_at self.now k) (on_grid self.now.grid around) ≡ false }
    {
        let wanted = self.grid.place(around);
        let mut sifted = ALL_MARKED;
        for k in 0..MOST_TOGETHER {
            sifted[k] = self.box_at(k).meets(wanted);
        }
        sifted
    }

    // Takes out those of which no attribute has one of the marks.
    fn sift_marks(&self, asked: u64, sifted: &mut Marked)
        requires long { IsLong self.now }
        requires sifted { length sifted.old ≡ 64 }
        ensures long { length sifted.new ≡ 64 }
        ensures sifted { (k : ℕ) → k < 64 → get_or sifted.new k true ≡ false
            → (get_or sifted.old k true ≡ false) ⊎ (Shares (get_or self.now.marks k 0) asked → ⊥) }
    {
        for k in 0..MOST_TOGETHER {
            sifted[k] = sifted[k] & shares(self.marks[k], asked);
        }
    }

    /// Which of the features may be wanted: the others are not near, or have none of the marks.
    pub(crate) fn sift(&self, wanted: Wanted) -> Marked
        requires { IsLong self.now }
        ensures { (features : List Feature) → IsSieve self.now features
            → IsMarked wanted result features }
    {
        let mut sifted = self.sift_boxes(wanted.around);
        if let Some(asked) = wanted.asked {
            self.sift_marks(asked, &mut sifted);
        }
        sifted
    }
}

//! The runs of a polygon's pixels, from the places where its edges are crossed.
ghost use Rattle.std.specs.Prelude.{◌≡◌, ℕ, ◌+◌, ◌/◌, ◌<◌, ◌≤◌, min, Bool, true, length, slice_index_or};
ghost use Rattle.std.specs.List.Sorted.{IsNonDecreasing};
ghost use Rattle.plain_world.specs.declared.world.Point.{Point};
ghost use Rattle.plain_world.specs.World.{IsWindow};
ghost use Rattle.raster_core.specs.inner.Toggles.{AllInside};
ghost use Rattle.raster_core.specs.inner.Crossings.{Crossings, Done, IsNext};

use plain_world::Window;

/// Pixels side by side: those of the row `row` from the column `start` on and before the column `end`.
/// What follows them begins at the crossing `next`.
#[derive(Clone, Copy)]
pub struct Run {
    pub row: u32,
    pub start: u32,
    pub end: u32,
    pub next: usize,
}

// Where a run ends, and the crossing after it: at the k-th crossing if that lies before `east`, the row's end,
// and else there.
#[tactic(auto, using(std::proofs::lemmas::List::get_or_past))]
fn run_end(places: &[u32], k: usize, east: u32) -> (u32, usize)
    requires { k ≤ length places.now }
    ensures end { result.0 ≡ min east (slice_index_or places.now k east) }
    ensures closed { result.0 < east → result.1 ≡ k + 1 }
    ensures open { east ≤ result.0 → result.1 ≡ k }
{
    if k < places.len() && places[k] < east {
        (places[k], k + 1)
    } else {
        (east, k)
    }
}

// Whether the place lies in the row.
#[tactic(auto, using(centre_spans::proofs::Quotients::down_is))]
fn is_row(place: u32, cols: u32, row: u32) -> bool
    requires { 1 ≤ cols }
    ensures { result ≡ true → row ≡ place / cols }
{
    let begin = u64::from(row) * u64::from(cols);
    begin <= u64::from(place) && u64::from(place) - begin < u64::from(cols)
}

// The row of a place, whatever row is thought likely. Where that one or the next is right, nothing is divided.
fn row_of(place: u32, cols: u32, likely: u32) -> u32
    requires { 1 ≤ cols }
    ensures { result ≡ place / cols }
{
    if is_row(place, cols, likely) {
        return likely;
    }
    let next = likely.saturating_add(1);
    if is_row(place, cols, next) {
        return next;
    }
    place / cols
}

/// The run from the k-th of the places at which edges are crossed: up to the next one, or to the row's end. It is found
/// soonest where its row is the one that is thought likely, or the next.
pub fn run_at(places: &[u32], k: usize, likely: u32, w: Window) -> Run
    requires window { IsWindow w }
    requires some { k < length places.now }
    requires inside { AllInside w places.now }
    requires order { IsNonDecreasing places.now }
    ensures row { result.row < w.rows }
    ensures end { result.end ≤ w.cols }
    ensures start { result.start ≤ result.end }
    ensures next { k < result.next }
    ensures is { (member : Point → Bool) (n : ℕ) → Crossings w member places.now
        → Done w places.now k n → IsNext w member places.now n result }
{
    let first = places[k];
    let row = row_of(first, w.cols, likely);
    let west = row * w.cols;
    let (end, next) = run_end(places, k + 1, west + w.cols);
    Run {
        row,
        start: first - west,
        end: end - west,
        next,
    }
}

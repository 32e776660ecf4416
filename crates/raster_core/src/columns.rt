//! Rows of an edge that follow each other and are crossed in one column: they are kept by their two ends alone,
//! however many they are. Between the ends of a column in order lie the rows that are crossed an odd number of times.
ghost use Rattle.std.specs.Prelude.{◌≡◌, ℕ, ◌<◌, ◌≤◌, [], length, take, slice_index_or, IfOk, OnOk};
ghost use Rattle.plain_world.specs.World.{IsWindow};
ghost use Rattle.raster_core.specs.inner.Toggles.{flip, AllInside, Toggled};
ghost use Rattle.raster_core.specs.inner.Columns.{odd_corners, in_run, Lists, SameTurns};

use crate::parities::thin;
use farm_base::NoMemory;
use plain_world::Window;
use std::alloc::Global;

// So many corners are never too many.
const MOST_CORNERS: usize = 1 << 18;

/// Where crossings of a column begin or end: its rows from `row` on are turned round.
#[derive(Clone, Copy)]
pub struct Corner {
    pub column: u32,
    pub row: u32,
}

/// The crossings of edges: some as places, and the others as the ends of the columns that they fill.
#[derive(Drop)]
pub struct Crossed {
    pub places: Vec<u32>,
    pub corners: Vec<Corner>,
}

/// Nothing is crossed.
pub fn no_crossings(alloc: Global) -> Crossed
    ensures places { result.places.items ≡ [] }
    ensures corners { result.corners.items ≡ [] }
{
    Crossed {
        places: Vec::new(alloc),
        corners: Vec::new(alloc),
    }
}

/// Rows of a column: from `top` on and before `bottom`.
#[derive(Clone, Copy)]
pub struct ColumnRun {
    pub column: u32,
    pub top: u32,
    pub bottom: u32,
}

#[tactic(auto, using(std::proofs::lemmas::List::get_or_default))]
fn corner_at(corners: &[Corner], k: usize) -> Corner
    requires { k < length corners.now }
    ensures { (d : Corner) → slice_index_or corners.now k d ≡ result }
{
    corners[k]
}

// The rows from the k-th corner: up to the next one of its column, or to the window's end. And which corner follows.
fn column_run(corners: &[Corner], k: usize, w: Window) -> (ColumnRun, usize)
    requires some { k < length corners.now }
    ensures next { k < result.1 }
    ensures fits { result.1 ≤ length corners.now }
    ensures rows { result.0.bottom ≤ w.rows }
    ensures is { (j i : ℕ) → j < w.rows → odd_corners (take result.1 corners.now) j i
        ≡ flip (in_run result.0 j i) (odd_corners (take k corners.now) j i) }
{
    let first = corner_at(corners, k);
    let column = first.column;
    if k + 1 < corners.len() {
        let second = corner_at(corners, k + 1);
        if second.column == column {
            let top = first.row.min(second.row);
            let bottom = first.row.max(second.row).min(w.rows);
            return (
                ColumnRun {
                    column,
                    top,
                    bottom,
                },
                k + 2,
            );
        }
    }
    let run = ColumnRun {
        column,
        top: first.row,
        bottom: w.rows,
    };
    (run, k + 1)
}

fn cross_run(run: ColumnRun, w: Window, places: &mut Vec<u32>) -> Result<(), NoMemory>
    requires window { IsWindow w }
    requires column { run.column < w.cols }
    requires rows { run.bottom ≤ w.rows }
    ensures { OnOk result (Toggled w (in_run run) places.old.items places.new.items) }
{
    for j in run.top..run.bottom {
        places.push(j * w.cols + run.column)?;
    }
    Ok(())
}

fn cross_column(run: ColumnRun, w: Window, places: &mut Vec<u32>) -> Result<(), NoMemory>
    requires window { IsWindow w }
    requires rows { run.bottom ≤ w.rows }
    ensures { OnOk result (Toggled w (in_run run) places.old.items places.new.items) }
{
    if run.column >= w.cols {
        return Ok(());
    }
    cross_run(run, w, places)
}

fn cross_columns(corners: &[Corner], w: Window, places: &mut Vec<u32>) -> Result<(), NoMemory>
    requires { IsWindow w }
    ensures { OnOk result (Toggled w (odd_corners corners.now) places.old.items places.new.items) }
{
    let mut k = 0;
    while k < corners.len() {
        let (run, next) = column_run(corners, k, w);
        cross_column(run, w, places)?;
        k = next;
    }
    Ok(())
}

/// Adds the places of the columns, so that all crossings are listed. A place of a column is listed once at most, however
/// many edges run through it.
pub fn list_corners(w: Window, crossed: &mut Crossed) -> Result<(), NoMemory>
    requires { IsWindow w }
    ensures { OnOk result (Lists w crossed.old crossed.new.places.items) }
{
    crossed.corners.sort_unstable_by_key(|corner| u64::from(corner.column) * (1 << 32)
        + u64::from(corner.row));
    cross_columns(&crossed.corners, w, &mut crossed.places)
}

fn list_columns(w: Window, crossed: &mut Crossed) -> Result<(), NoMemory>
    requires { IsWindow w }
    ensures { OnOk result (SameTurns w crossed.old crossed.new) }
{
    if crossed.corners.len() < MOST_CORNERS {
        return Ok(());
    }
    list_corners(w, crossed)?;
    crossed.corners.clear();
    Ok(())
}

/// Lists crossings and leaves out pairs of the same place where there are many, so that many long edges take no more
/// memory than the window's pixels.
pub fn make_room(alloc: Global, w: Window, crossed: &mut Crossed) -> Result<(), NoMemory>
    requires window { IsWindow w }
    requires inside { AllInside w crossed.old.places.items }
    ensures { OnOk result (SameTurns w crossed.old crossed.new) }
{
    list_columns(w, crossed)?;
    thin(alloc, w, &mut crossed.places)?;
    Ok(())
}

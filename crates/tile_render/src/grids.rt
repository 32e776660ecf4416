//! Grids painted over an image, by runs of pixels whose centres lie in one pixel of the grid.
ghost use Rattle.std.specs.Prelude.{◌≡◌, ℕ, ◌+◌, ◌*◌, ◌<◌, ◌≤◌, IfOk, OnOk, map, length, get_or};
ghost use Rattle.std.specs.List.{range_with_len};
ghost use Rattle.plain_drawing.specs.declared.style.Symbolizer.TheVariants as paint;
ghost use Rattle.plain_drawing.specs.Grids.{colour_in};
ghost use Rattle.plain_world.specs.World.{IsWindow, centre};
ghost use Rattle.plain_shapes.specs.Images.{Pixels};
ghost use Rattle.plain_shapes.specs.inner.Canvas.{stepped};
ghost use Rattle.plain_drawing.specs.Drawing.{raster_over};
ghost use Rattle.tile_render.specs.inner.GridPlaces.{place_in, column_at, row_at, IsRun, IsColumns};
ghost use Rattle.tile_render.specs.inner.Regions.{Changed};

use farm_base::NoMemory;
use merc_fixed::centre;
use plain_drawing::Grid;
use plain_shapes::Colour;
use plain_world::Window;
use std::alloc::Global;
use tiled_image::TiledImage;

// The place of `v` among `count` pixels of a grid from `edge` on, and `count` where it lies in none of them.
#[tactic(auto, unfolding(crate::specs::inner::GridPlaces::place_in))]
fn place_in(edge: u32, pixel: u32, count: u32, v: u32) -> u32
    requires { 1 ≤ pixel }
    ensures { result ≡ place_in edge pixel count v }
{
    if v < edge {
        return count;
    }
    ((v - edge) / pixel).min(count)
}

// The grid's column of each column of the window, or the number of its columns where it has none there.
fn grid_columns(alloc: Global, w: Window, grid: &Grid) -> Result<Vec<u32>, NoMemory>
    requires window { IsWindow w }
    ensures { IfOk result
        (λ v. v.items ≡ map (λ i. column_at grid.now (centre w i 0)) (range_with_len 0 w.cols)) }
{
    let mut columns = Vec::new(alloc);
    for i in 0..w.cols {
        let x = centre(w, i, 0).x;
        columns.push(place_in(grid.west, grid.pixel, grid.cols, x))?;
    }
    Ok(columns)
}

fn run_end(places: &[u32], from: u32, count: u32) -> u32
    requires count { length places.now ≡ count }
    requires from { from < count }
    ensures { IsRun places.now from result }
{
    let place = places[from as usize];
    let mut end = from + 1;
    while end < count && places[end as usize] == place {
        end += 1;
    }
    end
}

// The end of the run that `i` lies in. Where one that began before has not ended it is that one's.
fn next_end(places: &[u32], i: u32, end: u32, count: u32) -> u32
    requires count { length places.now ≡ count }
    requires i { i < count }
    requires run { i < end → IsRun places.now i end }
    ensures { IsRun places.now i result }
{
    if i < end {
        end
    } else {
        run_end(places, i, count)
    }
}

fn run_ends(alloc: Global, places: &[u32], count: u32) -> Result<Vec<u32>, NoMemory>
    requires { length places.now ≡ count }
    ensures long { IfOk result (λ v. length v.items ≡ length places.now) }
    ensures runs { IfOk result
        (λ v. (i : ℕ) → i < length places.now → IsRun places.now i (get_or v.items i 0)) }
{
    let mut ends = Vec::with_capacity(alloc, places.len())?;
    let mut end = 0;
    for i in 0..count {
        end = next_end(places, i, end, count);
        ends.push(end)?;
    }
    Ok(ends)
}

/// The columns of the grid under those of a window, found once for all rows: for each of the window's its column of the
/// grid, or the number of these where it has none there, and where the run of those with the same one ends.
#[derive(Drop)]
struct GridColumns {
    columns: Vec<u32>,
    ends: Vec<u32>,
}

fn columns_under(alloc: Global, w: Window, grid: &Grid) -> Result<GridColumns, NoMemory>
    requires window { IsWindow w }
    ensures { IfOk result (λ c. IsColumns w grid.now c.columns.items c.ends.items) }
{
    let columns = grid_columns(alloc, w, grid)?;
    let ends = run_ends(alloc, columns.as_slice(), w.cols)?;
    Ok(GridColumns { columns, ends })
}

fn colour_at(grid: &Grid, col: u32, row: u32) -> Colour
    requires col { col < grid.now.cols }
    requires row { row < grid.now.rows }
    ensures { result ≡ colour_in grid.now.bytes (row * grid.now.cols + col) }
{
    let place = 3 * (row as usize * grid.cols as usize + col as usize);
    Colour {
        r: grid.bytes[place],
        g: grid.bytes[place + 1],
        b: grid.bytes[place + 2],
    }
}

fn blend_row(
    w: Window,
    grid: &Grid,
    under: &GridColumns,
    opacity: u32,
    j: u32,
    image: &mut TiledImage,
)
    requires window { IsWindow w }
    requires columns { IsColumns w grid.now under.now.columns.items under.now.ends.items }
    requires cols { image.old.cols ≡ w.cols }
    requires rows { image.old.rows ≡ w.rows }
    requires opacity { opacity ≤ 1000 }
    requires row { j < w.rows }
    ensures painted { (start : Pixels) → Changed
        (λ c d. raster_over grid.now c d (paint.Raster opacity)) w (j * w.cols) start image.old
        → Changed (λ c d. raster_over grid.now c d (paint.Raster opacity)) w ((j + 1) * w.cols)
        start image.new }
    ensures cols { image.new.cols ≡ image.old.cols }
    ensures rows { image.new.rows ≡ image.old.rows }
{
    let row = place_in(grid.north, grid.pixel, grid.rows, centre(w, 0, j).y);
    if row == grid.rows {
        return;
    }
    let mut i = 0;
    while i < w.cols {
        let end = under.ends[i as usize];
        let col = under.columns[i as usize];
        if col < grid.cols {
            image.blend_run(j, i, end, colour_at(grid, col, row), opacity);
        }
        i = end;
    }
}

/// Paints the grid over all pixels whose centres it holds.
pub(crate) fn blend_grid(
    alloc: Global,
    w: Window,
    grid: &Grid,
    opacity: u32,
    image: &mut TiledImage,
) -> Result<(), NoMemory>
    requires window { IsWindow w }
    requires cols { image.old.cols ≡ w.cols }
    requires rows { image.old.rows ≡ w.rows }
    requires opacity { opacity ≤ 1000 }
    ensures blended { OnOk result
        (image.new ≡ stepped w (λ c d. raster_over grid.now c d (paint.Raster opacity)) image.old) }
    ensures cols { image.new.cols ≡ image.old.cols }
    ensures rows { image.new.rows ≡ image.old.rows }
{
    let under = columns_under(alloc, w, grid)?;
    for j in 0..w.rows {
        blend_row(w, grid, &under, opacity, j, image);
    }
    Ok(())
}

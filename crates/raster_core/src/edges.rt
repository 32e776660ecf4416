//! Edges: where each of them is crossed, row by row, or in many rows of a column at once.
ghost use Rattle.std.specs.Prelude.{◌≡◌, ℕ, ◌+◌, ◌-◌, ◌*◌, ◌/◌, ◌<◌, ◌≤◌, nat_le, All, IfSome, OnOk};
ghost use Rattle.plain_world.specs.World.{InWorld, IsWindow, centre};
ghost use Rattle.plain_shapes.specs.Rings.{counts_down, counts, ring_edges, in_rings};
ghost use Rattle.raster_core.specs.inner.Toggles.{AllInside, IsFirst, IsFirstRow, IsEdge, Toggled, RowToggled, at_centres, odd_edges};
ghost use Rattle.raster_core.specs.inner.Columns.{CornersTurned, PartTurned, Turned, in_part, in_run};

use crate::columns::{ColumnRun, Corner, Crossed, make_room};
use centre_spans::first_at;
use farm_base::NoMemory;
use plain_shapes::Path;
use plain_world::{Point, Window};
use std::alloc::Global;

// So few rows are crossed one by one.
const FEW_ROWS: u32 = 16;

// So many rows of a steep edge are looked at together.
const SOME_ROWS: u32 = 64;

// No window has more rows.
const ALL_ROWS: u32 = 4_096;

// An edge is steep that has so many rows for a column, or more.
const STEEP: u32 = 32;

// The least x that does not lie before the edge from `a` down to `b` at the height `y`.
#[tactic(auto, using(centre_spans::proofs::Quotients::up_le))]
fn place_at(a: Point, b: Point, y: u32) -> u64
    requires upper { a.y ≤ y }
    requires lower { y < b.y }
    requires a_in { InWorld a }
    requires b_in { InWorld b }
    ensures { (x : ℕ)
        → nat_le result x ≡ nat_le ((y - a.y) * b.x + (b.y - y) * a.x) ((b.y - a.y) * x) }
{
    let rise = u64::from(y - a.y);
    let rest = u64::from(b.y - y);
    (rise * u64::from(b.x) + rest * u64::from(a.x)).div_ceil(rise + rest)
}

// The first column of row `j` whose centre the edge from `a` down to `b` counts at, or the number of
// columns where there is none.
fn crossing(a: Point, b: Point, w: Window, j: u32) -> u32
    requires a_in { InWorld a }
    requires b_in { InWorld b }
    requires window { IsWindow w }
    requires row { j < w.rows }
    requires upper { a.y ≤ w.north + j * w.pixel + w.pixel / 2 }
    requires lower { w.north + j * w.pixel + w.pixel / 2 < b.y }
    ensures within { result ≤ w.cols }
    ensures splits { (i : ℕ) → i < w.cols → nat_le result i ≡ counts_down a b (centre w i j) }
{
    let y = w.north + j * w.pixel + w.pixel / 2;
    first_at(w.west, w.pixel, w.cols, place_at(a, b, y))
}

/// An edge that runs from `a` down to `b`, and the first columns and rows whose centres lie at its west end or past
/// it, at its east end, at its upper end and at its lower end.
#[derive(Clone, Copy)]
pub struct Edge {
    pub a: Point,
    pub b: Point,
    pub west: u32,
    pub east: u32,
    pub top: u32,
    pub bottom: u32,
}

fn first_past(w: Window, x: u32) -> u32
    requires { IsWindow w }
    ensures first { IsFirst w x result }
    ensures few { result ≤ w.cols }
{
    first_at(w.west, w.pixel, w.cols, u64::from(x))
}

fn first_row(w: Window, y: u32) -> u32
    requires { IsWindow w }
    ensures first { IsFirstRow w y result }
    ensures few { result ≤ w.rows }
{
    first_at(w.north, w.pixel, w.rows, u64::from(y))
}

// The first column of row `j` whose centre the edge counts at, or the number of columns where there is none. An
// edge within one column, or wholly to one side of the window, has the same one in all of its rows.
fn column(e: Edge, w: Window, j: u32) -> u32
    requires edge { IsEdge w e }
    requires window { IsWindow w }
    requires row { j < w.rows }
    requires upper { e.a.y ≤ w.north + j * w.pixel + w.pixel / 2 }
    requires lower { w.north + j * w.pixel + w.pixel / 2 < e.b.y }
    ensures within { result ≤ w.cols }
    ensures splits { (i : ℕ) → i < w.cols → nat_le result i ≡ counts_down e.a e.b (centre w i j) }
{
    if e.west == e.east {
        e.west
    } else {
        crossing(e.a, e.b, w, j)
    }
}

fn cross_row(e: Edge, w: Window, j: u32, places: &mut Vec<u32>) -> Result<(), NoMemory>
    requires edge { IsEdge w e }
    requires window { IsWindow w }
    requires row { j < w.rows }
    requires upper { e.a.y ≤ w.north + j * w.pixel + w.pixel / 2 }
    requires lower { w.north + j * w.pixel + w.pixel / 2 < e.b.y }
    ensures { OnOk result
        (RowToggled w (at_centres w (counts_down e.a e.b)) j places.old.items places.new.items) }
{
    let k = column(e, w, j);
    if k < w.cols {
        places.push(j * w.cols + k)?;
    }
    Ok(())
}

fn edge_down(a: Point, b: Point, top: u32, bottom: u32, w: Window) -> Edge
    requires a_in { InWorld a }
    requires b_in { InWorld b }
    requires down { a.y ≤ b.y }
    requires window { IsWindow w }
    requires top { IsFirstRow w a.y top }
    requires bottom { IsFirstRow w b.y bottom }
    requires few_rows { bottom ≤ w.rows }
    ensures edge { IsEdge w result }
    ensures a { result.a ≡ a }
    ensures b { result.b ≡ b }
{
    Edge {
        a,
        b,
        west: first_past(w, a.x.min(b.x)),
        east: first_past(w, a.x.max(b.x)),
        top,
        bottom,
    }
}

// Adds the crossings of an edge row by row, from the row `from` on and before `to`.
fn cross_rows(e: Edge, w: Window, from: u32, to: u32, places: &mut Vec<u32>) -> Result<(), NoMemory>
    requires edge { IsEdge w e }
    requires window { IsWindow w }
    requires top { e.top ≤ from }
    requires bottom { to ≤ e.bottom }
    ensures { OnOk result
        (Toggled w (in_part w (counts_down e.a e.b) from to) places.old.items places.new.items) }
{
    for j in from..to {
        cross_row(e, w, j, places)?;
    }
    Ok(())
}

fn add_ends(run: ColumnRun, w: Window, corners: &mut Vec<Corner>) -> Result<(), NoMemory>
    requires { run.top ≤ run.bottom }
    ensures { OnOk result (CornersTurned w (in_run run) corners.old.items corners.new.items) }
{
    if run.column >= w.cols {
        return Ok(());
    }
    corners.push(Corner {
        column: run.column,
        row: run.top,
    })?;
    corners.push(Corner {
        column: run.column,
        row: run.bottom,
    })?;
    Ok(())
}

// The column of the rows of an edge from `from` on and before `to`, if they are more than a few and have the same
// one: where the first and the last of them have it, so have all between.
fn same_column(e: Edge, w: Window, from: u32, to: u32) -> Option<u32>
    requires edge { IsEdge w e }
    requires window { IsWindow w }
    requires top { e.top ≤ from }
    requires order { from ≤ to }
    requires bottom { to ≤ e.bottom }
    ensures { IfSome result (λ k. (j i : ℕ) → from ≤ j → j < to → i < w.cols
        → nat_le k i ≡ counts_down e.a e.b (centre w i j)) }
{
    if to <= from + FEW_ROWS {
        return None;
    }
    let first = column(e, w, from);
    let last = column(e, w, to - 1);
    if first == last { Some(first) } else { None }
}

fn cross_part(e: Edge, w: Window, from: u32, to: u32, crossed: &mut Crossed) -> Result<(), NoMemory>
    requires edge { IsEdge w e }
    requires window { IsWindow w }
    requires top { e.top ≤ from }
    requires order { from ≤ to }
    requires bottom { to ≤ e.bottom }
    ensures { OnOk result
        (PartTurned w (in_part w (counts_down e.a e.b) from to) crossed.old crossed.new) }
{
    if let Some(column) = same_column(e, w, from, to) {
        let run = ColumnRun {
            column,
            top: from,
            bottom: to,
        };
        add_ends(run, w, &mut crossed.corners)?;
        return Ok(());
    }
    cross_rows(e, w, from, to, &mut crossed.places)?;
    Ok(())
}

// How many rows of an edge are looked at together: all where it has one column, and some where it is steep.
fn rows_together(e: Edge) -> u32
    ensures some { 1 ≤ result }
    ensures few { result ≤ 4096 }
{
    if e.west == e.east {
        ALL_ROWS
    } else if e.east.saturating_sub(e.west) < e.bottom.saturating_sub(e.top) / STEEP {
        SOME_ROWS
    } else {
        FEW_ROWS
    }
}

// Adds the crossings of an edge that runs from `a` down to `b`. Of a large ring that is seen from far away most edges run
// between two rows of centres.
fn cross_down(a: Point, b: Point, w: Window, crossed: &mut Crossed) -> Result<(), NoMemory>
    requires a_in { InWorld a }
    requires b_in { InWorld b }
    requires down { a.y ≤ b.y }
    requires window { IsWindow w }
    ensures { OnOk result (Turned w (counts_down a b) crossed.old crossed.new) }
{
    let top = first_row(w, a.y);
    let bottom = first_row(w, b.y);
    if bottom <= top {
        return Ok(());
    }
    let edge = edge_down(a, b, top, bottom, w);
    let rows = rows_together(edge);
    let mut from = edge.top;
    while from < edge.bottom {
        let to = edge.bottom.min(from + rows);
        cross_part(edge, w, from, to, crossed)?;
        from = to;
    }
    Ok(())
}

fn cross_edge(a: Point, b: Point, w: Window, crossed: &mut Crossed) -> Result<(), NoMemory>
    requires a_in { InWorld a }
    requires b_in { InWorld b }
    requires window { IsWindow w }
    ensures { OnOk result (Turned w (counts (a, b)) crossed.old crossed.new) }
{
    if a.y <= b.y {
        cross_down(a, b, w, crossed)
    } else {
        cross_down(b, a, w, crossed)
    }
}

// Adds the crossings of the edges of a ring, which is closed from its last point to its first.
fn cross_ring(
    alloc: Global,
    points: &[Point],
    w: Window,
    crossed: &mut Crossed,
) -> Result<(), NoMemory>
    requires points { All InWorld points.now }
    requires window { IsWindow w }
    requires inside { AllInside w crossed.old.places.items }
    ensures { OnOk result (Turned w (odd_edges (ring_edges points.now)) crossed.old crossed.new) }
{
    let Some(last) = points.last() else {
        return Ok(());
    };
    let mut before = *last;
    for p in points {
        cross_edge(before, *p, w, crossed)?;
        make_room(alloc, w, crossed)?;
        before = *p;
    }
    Ok(())
}

fn cross_path(alloc: Global, ring: &Path, w: Window, crossed: &mut Crossed) -> Result<(), NoMemory>
    requires points { All InWorld ring.now }
    requires window { IsWindow w }
    requires inside { AllInside w crossed.old.places.items }
    ensures { OnOk result (Turned w (odd_edges (ring_edges ring.now)) crossed.old crossed.new) }
{
    cross_ring(alloc, &ring.points, w, crossed)
}

/// Adds the crossings of the edges of all rings: how many of them a row has up to a pixel is turned round, by
/// parity, exactly where the pixel's centre lies in the rings.
pub fn cross_rings(
    alloc: Global,
    rings: &[Path],
    w: Window,
    crossed: &mut Crossed,
) -> Result<(), NoMemory>
    requires rings { All (All InWorld) rings.now }
    requires window { IsWindow w }
    requires inside { AllInside w crossed.old.places.items }
    ensures { OnOk result (Turned w (in_rings rings.now) crossed.old crossed.new) }
{
    for ring in rings {
        cross_path(alloc, ring, w, crossed)?;
    }
    Ok(())
}

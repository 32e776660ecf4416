//! Square tiles that are kept as their PPM texts, one behind another.
ghost use Rattle.std.specs.Prelude.{◌≡◌, true, false, ℕ, ◌+◌, ◌-◌, ◌*◌, ◌^◌, ◌≤◌, ◌<◌, ◌++◌, List, [], length, take, drop, map, flat_map, replicate, slice_get, slice_set, slice_index_or, Some, IfOk, OnOk, string_bytes};
ghost use Rattle.plain_shapes.specs.declared.colour.Colour.{Colour};
ghost use Rattle.plain_shapes.specs.Blending.{blend};
ghost use Rattle.plain_shapes.specs.Ppm.{pixel_bytes};
ghost use Rattle.plain_drawing.specs.Drawing.{pixels_text};
ghost use Rattle.plain_image.specs.PpmText.{colours};
ghost use Rattle.plain_image.specs.Runs.{run_changed};
ghost use Rattle.plain_world.specs.Limits.{most_side};
ghost use Rattle.plain_world.specs.World.{IsTileSize};
ghost use Rattle.tiled_image.specs.inner.Blanks.{text_of};

use farm_base::{NoMemory, put_front};
use plain_image::{Image, ReadyLine, paint_run, text_head};
use plain_shapes::Colour;
use std::alloc::Global;
use std::marker::Model;

// An opaque run of so many pixels or more is copied. A shorter one takes no less time that way.
const COPIED: usize = 2;

// So many lines are kept ready, each of one colour: what is drawn in turn is mostly of a few colours. A line that was
// written just before it is copied would be waited for.
const LINES: u32 = 64;

// A tile of one colour is written so many rows at a time: each size of a tile is so many or a multiple.
const ROWS: u32 = 8;

/// Square tiles of the same size, each as its binary PPM text, one behind another, and other bytes before them. Contracts
/// see how many bytes stand before, the side, and the colours of each tile, row by row.
#[derive(Drop)]
pub(crate) struct TileTexts {
    before: usize,
    side: u32,
    count: u32,
    head: usize,
    bytes: Vec<u8>,
    lines: Vec<ReadyLine>,
}

impl Model for TileTexts {
    ghost use Rattle.std.specs.Prelude.{◌*◌, drop};
    ghost use Rattle.tiled_image.specs.inner.Tiles.{Texts};
    ghost use Rattle.tiled_image.specs.inner.Written.{tiles_in, AreTexts};

    ghost Value = { Texts };

    ghost view = { λ m. record {
      before = m.before;
      side = m.side;
      tiles = tiles_in m.head (m.side * m.side) m.count (drop m.before m.bytes.items);
    } };

    ghost invariant = { λ m. AreTexts m.before m.side m.count m.head m.bytes.items };
}

// The text of a tile of one colour, for many of them: its head, and some rows that come so many times. They stay in
// the nearest cache, where a whole text would be fetched from farther away for each tile.
#[derive(Drop)]
struct Blank {
    head: String,
    rows: Vec<u8>,
    times: u32,
}

fn blank_of(alloc: Global, side: u32, c: Colour) -> Result<Blank, NoMemory>
    requires { IsTileSize side }
    ensures head { IfOk result (λ b. string_bytes b.head ≡ pixels_text side side []) }
    ensures text { IfOk result (λ b. text_of b ≡ pixels_text side side (replicate (side * side) c)) }
{
    let head = text_head(alloc, side, side)?;
    let rows = Image::new(alloc, side, ROWS, c)?.into_bytes();
    Ok(Blank {
        head,
        rows,
        times: side / ROWS,
    })
}

fn put_blank(blank: &Blank, out: &mut Vec<u8>) -> Result<(), NoMemory>
    ensures { OnOk result (out.new.items ≡ out.old.items ++ text_of blank.now) }
{
    out.extend_from_slice(blank.head.as_bytes())?;
    for _row in 0..blank.times {
        out.extend_from_slice(&blank.rows)?;
    }
    Ok(())
}

fn copies(alloc: Global, before: usize, count: u32, text: &Blank) -> Result<Vec<u8>, NoMemory>
    requires before { before ≤ 2 ^ 16 }
    requires count { count ≤ 64 }
    requires len { length (text_of text.now) ≤ 2 ^ 20 }
    ensures { IfOk result (λ v. v.items
        ≡ replicate before 0 ++ flat_map (λ bytes. bytes) (replicate count (text_of text.now))) }
{
    let each = text.head.len() + text.times as usize * text.rows.len();
    let mut out = Vec::with_capacity(alloc, before + count as usize * each)?;
    out.resize(before, 0)?;
    for _copy in 0..count {
        put_blank(text, &mut out)?;
    }
    Ok(out)
}

fn pixels_at(before: usize, head: usize, pixels: usize, tile: usize) -> usize
    requires fits { before + (tile + 1) * (head + pixels * 3) < 2 ^ 64 }
    ensures { result ≡ before + tile * (head + pixels * 3) + head }
{
    before + tile * (head + pixels * 3) + head
}

// Copies bytes by so many of the first ones and as many of the last ones, which overlap.
#[inline]
fn copy_ends(to: &mut [u8], from: &[u8], part: usize)
    requires len { length to.old ≡ length from.now }
    requires few { part ≤ length from.now }
    requires most { length from.now ≤ part + part }
    ensures { to.new ≡ from.now }
{
    let rest = to.len() - part;
    to[..part].copy_from_slice(&from[..part]);
    to[rest..].copy_from_slice(&from[from.len() - part..]);
}

// Copies bytes. What is short is stored in two steps of a width that is known beforehand: a store for each byte, or a
// call, takes longer, the more so where the bytes lie in no cache and all stores before have to wait.
fn copy(to: &mut [u8], from: &[u8])
    requires { length to.old ≡ length from.now }
    ensures { to.new ≡ from.now }
{
    let count = from.len();
    if count < 4 || count > 32 {
        to.copy_from_slice(from);
    } else if count <= 8 {
        copy_ends(to, from, 4);
    } else if count <= 16 {
        copy_ends(to, from, 8);
    } else {
        copy_ends(to, from, 16);
    }
}

fn no_lines(alloc: Global, c: Colour) -> Result<Vec<ReadyLine>, NoMemory> {
    let mut lines = Vec::new(alloc);
    for _line in 0..LINES {
        lines.push(ReadyLine::new(alloc, c))?;
    }
    Ok(lines)
}

// At which place the line of a colour is kept. Others may have the same.
fn line_of(c: Colour) -> usize {
    ((u32::from(c.r) + 3 * u32::from(c.g) + 7 * u32::from(c.b)) % LINES) as usize
}

// Copies pixels of the colour, if they are ready; else nothing changes.
fn copy_line(run: &mut [u8], count: usize, c: Colour, lines: &mut [ReadyLine]) -> bool
    requires { length run.old ≡ count * 3 }
    ensures copied { result ≡ true → run.new ≡ flat_map pixel_bytes (replicate count c) }
    ensures kept { result ≡ false → run.new ≡ run.old }
{
    let Some(line) = lines.get_mut(line_of(c)) else {
        return false;
    };
    if !line.prepare(c, count) {
        return false;
    }
    copy(run, line.bytes(count));
    true
}

// Whether the run was painted by a copy.
fn is_copied(run: &mut [u8], count: usize, c: Colour, opacity: u32, lines: &mut [ReadyLine]) -> bool
    requires { length run.old ≡ count * 3 }
    ensures copied { result ≡ true
        → run.new ≡ flat_map pixel_bytes (map (blend c opacity) (colours run.old)) }
    ensures kept { result ≡ false → run.new ≡ run.old }
{
    if opacity == 1000 && count >= COPIED {
        return copy_line(run, count, c, lines);
    }
    false
}

fn paint(run: &mut [u8], count: usize, c: Colour, opacity: u32, lines: &mut [ReadyLine])
    requires opacity { opacity ≤ 1000 }
    requires len { length run.old ≡ count * 3 }
    requires few { count ≤ most_side * most_side }
    ensures { run.new ≡ flat_map pixel_bytes (map (blend c opacity) (colours run.old)) }
{
    if !is_copied(run, count, c, opacity, lines) {
        paint_run(c, opacity, 0, count, run);
    }
}

impl TileTexts {
    /// So many tiles that are all of one colour, behind so many zeros.
    pub(crate) fn over(
        alloc: Global,
        before: usize,
        side: u32,
        count: u32,
        c: Colour,
    ) -> Result<TileTexts, NoMemory>
        requires before { before ≤ 2 ^ 16 }
        requires size { IsTileSize side }
        requires few { count ≤ 64 }
        ensures { IfOk result (λ v. v ≡ record {
          before = before;
          side = side;
          tiles = replicate count (replicate (side * side) c);
        }) }
    {
        let text = blank_of(alloc, side, c)?;
        let bytes = copies(alloc, before, count, &text)?;
        let lines = no_lines(alloc, c)?;
        Ok(TileTexts {
            before,
            side,
            count,
            head: text.head.len(),
            bytes,
            lines,
        })
    }

    /// How many bytes stand before the texts.
    pub(crate) fn before(&self) -> usize
        ensures { result ≡ self.now.before }
    {
        self.before
    }

    /// How many pixels a side has.
    pub(crate) fn side(&self) -> u32
        ensures { result ≡ self.now.side }
    {
        self.side
    }

    /// The colour at the place `k` of the tile `tile`, both of which are inside.
    pub(crate) fn at(&self, tile: usize, k: usize) -> Colour
        requires tile { tile < length self.now.tiles }
        requires place { k < self.now.side * self.now.side }
        ensures { slice_get (slice_index_or self.now.tiles tile []) k ≡ Some result }
    {
        let pixels = (self.side * self.side) as usize;
        let at = pixels_at(self.before, self.head, pixels, tile) + k * 3;
        Colour {
            r: self.bytes[at],
            g: self.bytes[at + 1],
            b: self.bytes[at + 2],
        }
    }

    /// The bytes of the colours of a tile from the place `start` on and before the place `end`.
    pub(crate) fn run(&self, tile: usize, start: usize, end: usize) -> &[u8]
        requires tile { tile < length self.now.tiles }
        requires order { start ≤ end }
        requires inside { end ≤ self.now.side * self.now.side }
        ensures { result.now ≡ flat_map pixel_bytes
            (take (end - start) (drop start (slice_index_or self.now.tiles tile []))) }
    {
        let pixels = (self.side * self.side) as usize;
        let at = pixels_at(self.before, self.head, pixels, tile);
        &self.bytes[at + start * 3..at + end * 3]
    }

    /// Paints the colours of a tile from the place `start` on and before the place `end` over with the colour `c`.
    pub(crate) fn paint_run(
        &mut self,
        tile: usize,
        start: usize,
        end: usize,
        c: Colour,
        opacity: u32,
    )
        requires tile { tile < length self.old.tiles }
        requires order { start ≤ end }
        requires inside { end ≤ self.old.side * self.old.side }
        requires opacity { opacity ≤ 1000 }
        ensures { self.new ≡ record self.old {
          tiles = slice_set self.old.tiles tile (run_changed
              (blend c opacity) start (end - start) (slice_index_or self.old.tiles tile []));
        } }
    {
        let pixels = (self.side * self.side) as usize;
        let at = pixels_at(self.before, self.head, pixels, tile);
        let run = &mut self.bytes[at + start * 3..at + end * 3];
        paint(run, end - start, c, opacity, &mut self.lines);
    }

    /// All its bytes, with these in the place of those before the texts.
    pub(crate) fn into_bytes(self, front: &[u8]) -> Vec<u8>
        requires { length front.now ≡ self.before }
        ensures { result.items ≡ front.now ++ flat_map (pixels_text self.side self.side) self.tiles }
    {
        let mut bytes = self.bytes;
        put_front(&mut bytes, front);
        bytes
    }
}

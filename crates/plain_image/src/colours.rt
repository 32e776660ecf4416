//! The colours of a picture, kept as bytes: three for each colour, one behind another.
ghost use Rattle.std.specs.Prelude.{◌≡◌, ℕ, ◌+◌, ◌-◌, ◌*◌, ◌≤◌, ◌<◌, ◌++◌, length, take, drop, flat_map, replicate, slice_get, slice_set, Some, IfOk, OnOk, OnErr};
ghost use Rattle.plain_shapes.specs.declared.colour.Colour.{Colour};
ghost use Rattle.plain_shapes.specs.Ppm.{pixel_bytes};
ghost use Rattle.plain_shapes.specs.inner.Canvas.{cut_rows};
ghost use Rattle.plain_image.specs.PpmText.{colours};
ghost use Rattle.plain_world.specs.Limits.{most_side};

use farm_base::NoMemory;
use plain_shapes::Colour;
use std::alloc::Global;
use std::marker::Model;

/// A list of colours. Contracts see the colours.
#[derive(Drop)]
pub struct Colours {
    bytes: Vec<u8>,
}

impl Model for Colours {
    ghost use Rattle.std.specs.Prelude.{◌≡◌, List, flat_map};
    ghost use Rattle.plain_shapes.specs.declared.colour.Colour.{Colour};
    ghost use Rattle.plain_shapes.specs.Ppm.{pixel_bytes};
    ghost use Rattle.plain_image.specs.PpmText.{colours};

    ghost Value = { List Colour };

    ghost view = { λ m. colours m.bytes.items };

    ghost invariant = { λ m. flat_map pixel_bytes (colours m.bytes.items) ≡ m.bytes.items };
}

fn line(alloc: Global, cols: u32, c: Colour) -> Result<Vec<u8>, NoMemory>
    requires { cols ≤ most_side }
    ensures { IfOk result (λ v. v.items ≡ flat_map pixel_bytes (replicate cols c)) }
{
    let mut out = Vec::with_capacity(alloc, cols as usize * 3)?;
    for _pixel in 0..cols {
        out.extend_from_slice(&[c.r, c.g, c.b])?;
    }
    Ok(out)
}

#[tactic(auto, using(crate::proofs::Bytes::lines_more, crate::proofs::Bytes::no_lines))]
fn lines(alloc: Global, rows: u32, cols: u32, c: Colour) -> Result<Vec<u8>, NoMemory>
    requires rows { rows ≤ most_side }
    requires cols { cols ≤ most_side }
    ensures { IfOk result (λ v. v.items ≡ flat_map pixel_bytes (replicate (rows * cols) c)) }
{
    let line = line(alloc, cols, c)?;
    let mut out = Vec::with_capacity(alloc, rows as usize * cols as usize * 3)?;
    for _row in 0..rows {
        out.extend_from_slice(&line)?;
    }
    Ok(out)
}

impl Colours {
    /// So many rows of so many columns that are all of one colour.
    #[tactic(auto, using(crate::proofs::Bytes::colours_of))]
    pub fn of_one(alloc: Global, rows: u32, cols: u32, c: Colour) -> Result<Colours, NoMemory>
        requires rows { rows ≤ most_side }
        requires cols { cols ≤ most_side }
        ensures { IfOk result (λ v. v ≡ replicate (rows * cols) c) }
    {
        let bytes = lines(alloc, rows, cols, c)?;
        Ok(Colours { bytes })
    }

    /// Its bytes, three for each colour.
    pub fn into_bytes(self) -> Vec<u8>
        ensures { result.items ≡ flat_map pixel_bytes self }
    {
        self.bytes
    }

    /// The colours that `count` times three bytes say.
    pub fn of_bytes(alloc: Global, bytes: &[u8], count: usize) -> Result<Colours, NoMemory>
        requires few { count ≤ most_side * most_side }
        requires len { length bytes.now ≡ count * 3 }
        ensures items { IfOk result (λ v. v ≡ colours bytes.now) }
        ensures len { IfOk result (λ v. length v ≡ count) }
    {
        let bytes = Vec::from_slice(alloc, bytes)?;
        Ok(Colours { bytes })
    }

    /// How many they are.
    pub fn len(&self) -> usize
        requires { length self.now ≤ most_side * most_side }
        ensures { result ≡ length self.now }
    {
        self.bytes.len() / 3
    }

    /// The colour at the place `k`, which is inside.
    pub fn at(&self, k: usize) -> Colour
        requires inside { k < length self.now }
        requires few { length self.now ≤ most_side * most_side }
        ensures { slice_get self.now k ≡ Some result }
    {
        Colour {
            r: self.bytes[k * 3],
            g: self.bytes[k * 3 + 1],
            b: self.bytes[k * 3 + 2],
        }
    }

    /// Puts a colour at the place `k`, which is inside.
    pub fn put(&mut self, k: usize, c: Colour)
        requires inside { k < length self.old }
        requires few { length self.old ≤ most_side * most_side }
        ensures { self.new ≡ slice_set self.old k c }
    {
        self.bytes[k * 3] = c.r;
        self.bytes[k * 3 + 1] = c.g;
        self.bytes[k * 3 + 2] = c.b;
    }

    /// Appends the bytes of `count` colours from the place `from` on.
    pub fn write_part(&self, from: usize, count: usize, out: &mut Vec<u8>) -> Result<(), NoMemory>
        requires inside { from + count ≤ length self.now }
        requires few { length self.now ≤ most_side * most_side }
        ensures { OnOk result (out.new.items
            ≡ out.old.items ++ flat_map pixel_bytes (take count (drop from self.now))) }
    {
        out.extend_from_slice(&self.bytes[from * 3..(from + count) * 3])?;
        Ok(())
    }

    /// Appends the bytes of a part of rows that are `across` colours wide, row by row.
    pub fn write_rows(
        &self,
        across: u32,
        col: u32,
        row: u32,
        cols: u32,
        rows: u32,
        out: &mut Vec<u8>,
    ) -> Result<(), NoMemory>
        requires across { across ≤ most_side }
        requires few_rows { row + rows ≤ most_side }
        requires few { length self.now ≤ most_side * most_side }
        requires in_cols { col + cols ≤ across }
        requires in_rows { (row + rows) * across ≤ length self.now }
        ensures { OnOk result (out.new.items
            ≡ out.old.items ++ flat_map pixel_bytes (cut_rows across col row cols rows self.now)) }
    {
        for j in row..row + rows {
            let start = j as usize * across as usize + col as usize;
            self.write_part(start, cols as usize, out)?;
        }
        Ok(())
    }

    /// The colours of a part of rows that are `across` colours wide, row by row.
    pub fn cut(
        &self,
        alloc: Global,
        across: u32,
        col: u32,
        row: u32,
        cols: u32,
        rows: u32,
    ) -> Result<Colours, NoMemory>
        requires across { across ≤ most_side }
        requires few_rows { row + rows ≤ most_side }
        requires few { length self.now ≤ most_side * most_side }
        requires in_cols { col + cols ≤ across }
        requires in_rows { (row + rows) * across ≤ length self.now }
        ensures items { IfOk result (λ v. v ≡ cut_rows across col row cols rows self.now) }
        ensures len { IfOk result (λ v. length v ≡ rows * cols) }
    {
        let mut bytes = Vec::with_capacity(alloc, rows as usize * cols as usize * 3)?;
        self.write_rows(across, col, row, cols, rows, &mut bytes)?;
        Ok(Colours { bytes })
    }
}

//! What the parts of strokes and marks cover, piece by piece, so that a pixel of several parts is painted once.
ghost use Rattle.std.specs.Prelude.{◌≡◌, ℕ, ◌^◌, ◌<◌, ◌≤◌, ◌&&◌, ◌||◌, nat_eq, nat_le, min, max, true, false, [], length, All, IfOk, OnOk, IsPermutation};
ghost use Rattle.std.specs.List.Sorted.{IsNonDecreasingBy};
ghost use Rattle.plain_world.specs.Limits.{most_side};
ghost use Rattle.tile_render.specs.inner.Pieces.{row_of, start_of, piece_at, IsPiece, IsAdded, has, covered, Apart, place};

use farm_base::NoMemory;
use plain_image::Surface;
use std::alloc::Global;

// So many pieces are never too many.
const FEW: usize = 65_536;

// Of so many rows it is kept where their latest pieces stand. A stroke's next part mostly touches its last one.
const LATEST: usize = 128;

/// Pixels side by side in a row: before the column `end`, and from the column on that is told by the lower 16 digits of
/// `place`, of which the others tell the row. Their order is that of one number, and they are sorted in half the time
/// that three numbers take.
#[derive(Clone, Copy)]
pub(crate) struct Piece {
    pub place: u32,
    pub end: u32,
}

/// The row of a piece.
pub(crate) fn row_of(piece: Piece) -> u32
    ensures { result ≡ row_of piece }
{
    piece.place / (1 << 16)
}

/// The column that a piece begins at.
pub(crate) fn start_of(piece: Piece) -> u32
    ensures { result ≡ start_of piece }
{
    piece.place % (1 << 16)
}

// The piece of a row from a column on and before another one, in so many rows of so many columns.
fn piece_at(cols: u16, rows: u16, row: u32, start: u32, end: u32) -> Piece
    requires row { row ≤ rows }
    requires start { start ≤ cols }
    ensures value { result ≡ piece_at row start end }
    ensures few_rows { row < 2 ^ 16 }
    ensures few_cols { start < 2 ^ 16 }
{
    Piece {
        place: row * (1 << 16) + start,
        end,
    }
}

/// What is covered of so many columns and rows: a list of pieces, some of which may have pixels in common. Only
/// what is covered takes memory, and once there are `most` pieces those that touch are joined. Where memory was
/// wanting it is short, and pieces are missing.
#[derive(Drop)]
pub(crate) struct Pieces {
    pub alloc: Global,
    pub cols: u16,
    pub rows: u16,
    pub list: Vec<Piece>,
    pub most: usize,
    /// For rows by their remainders: at which place of the list the latest piece of the row is likely. No proof rests
    /// on it.
    pub latest: [u32; LATEST],
    pub is_short: bool,
}

/// Nothing is covered of so many columns and rows.
pub(crate) fn no_pieces(alloc: Global, cols: u32, rows: u32) -> Pieces
    requires cols { cols ≤ most_side }
    requires rows { rows ≤ most_side }
    ensures cols { result.cols ≡ cols }
    ensures rows { result.rows ≡ rows }
    ensures none { result.list.items ≡ [] }
{
    Pieces {
        alloc,
        cols: cols as u16,
        rows: rows as u16,
        list: Vec::new(alloc),
        most: FEW,
        latest: [0; LATEST],
        is_short: false,
    }
}

fn sort(pieces: &mut [Piece])
    ensures same { IsPermutation pieces.old pieces.new }
    ensures order { IsNonDecreasingBy place pieces.new }
{
    pieces.sort_unstable_by_key(|piece| piece.place);
}

// Whether a piece that does not begin before the last one begins in it or at its end.
fn touches(last: Piece, piece: Piece) -> bool
    ensures { result ≡ (nat_eq (row_of piece) (row_of last) && nat_le (start_of piece) last.end) }
{
    row_of(piece) == row_of(last) && start_of(piece) <= last.end
}

// Whether two pieces lie in one row and neither begins past the other's end.
fn meets(p: Piece, q: Piece) -> bool
    ensures { result ≡ (nat_eq (row_of p) (row_of q) && (nat_le (start_of p) q.end && nat_le (start_of q) p.end)) }
{
    row_of(p) == row_of(q) && start_of(p) <= q.end && start_of(q) <= p.end
}

// The piece that has the pixels of two that meet.
fn both(p: Piece, q: Piece) -> Piece
    ensures { result ≡ record { place = min p.place q.place; end = max p.end q.end } }
{
    Piece {
        place: p.place.min(q.place),
        end: p.end.max(q.end),
    }
}

// Whether the piece there meets another one, and then makes it wider by that one.
fn widen(pieces: &mut [Piece], at: usize, piece: Piece) -> bool
    ensures same { result ≡ true → (j i : ℕ) → covered pieces.new j i ≡ (covered pieces.old j i || has j i piece) }
    ensures inside { (cols rows : ℕ) → All (IsPiece cols rows) pieces.old → IsPiece cols rows piece → All (IsPiece cols rows) pieces.new }
    ensures others { result ≡ false → pieces.new ≡ pieces.old }
    ensures count { length pieces.new ≡ length pieces.old }
{
    if at >= pieces.len() {
        return false;
    }
    let there = pieces[at];
    if !meets(there, piece) {
        return false;
    }
    pieces[at] = both(there, piece);
    true
}

fn joined(alloc: Global, pieces: &[Piece]) -> Result<Vec<Piece>, NoMemory>
    requires { IsNonDecreasingBy place pieces.now }
    ensures same { IfOk result (λ v. (j i : ℕ) → covered v.items j i ≡ covered pieces.now j i) }
    ensures apart { IfOk result (λ v. Apart v.items) }
    ensures inside { IfOk result (λ v. (cols rows : ℕ) → All (IsPiece cols rows) pieces.now
        → All (IsPiece cols rows) v.items) }
{
    let mut kept = Vec::new(alloc);
    if pieces.is_empty() {
        return Ok(kept);
    }
    let mut last = pieces[0];
    for k in 1..pieces.len() {
        let piece = pieces[k];
        if touches(last, piece) {
            last.end = last.end.max(piece.end);
        } else {
            kept.push(last)?;
            last = piece;
        }
    }
    kept.push(last)?;
    Ok(kept)
}

fn tidied(alloc: Global, pieces: &mut [Piece]) -> Result<Vec<Piece>, NoMemory>
    ensures same { IfOk result (λ v. (j i : ℕ) → covered v.items j i ≡ covered pieces.old j i) }
    ensures apart { IfOk result (λ v. Apart v.items) }
    ensures inside { IfOk result (λ v. (cols rows : ℕ) → All (IsPiece cols rows) pieces.old
        → All (IsPiece cols rows) v.items) }
{
    sort(pieces);
    joined(alloc, pieces)
}

impl Pieces {
    fn make_room(&mut self) -> Result<(), NoMemory>
        ensures same { OnOk result
            ((j i : ℕ) → covered self.new.list.items j i ≡ covered self.old.list.items j i) }
        ensures inside { OnOk result ((cols rows : ℕ) → All (IsPiece cols rows) self.old.list.items
            → All (IsPiece cols rows) self.new.list.items) }
        ensures cols { self.new.cols ≡ self.old.cols }
        ensures rows { self.new.rows ≡ self.old.rows }
        ensures short { self.new.is_short ≡ self.old.is_short }
    {
        if self.list.len() < self.most {
            return Ok(());
        }
        let kept = tidied(self.alloc, &mut self.list)?;
        self.most = FEW.max(kept.len().saturating_mul(2));
        self.list = kept;
        Ok(())
    }

    // Adds a piece to the list.
    #[inline(never)]
    fn append(&mut self, piece: Piece) -> Result<(), NoMemory>
        ensures added { OnOk result (IsAdded piece self.old self.new) }
        ensures cols { self.new.cols ≡ self.old.cols }
        ensures rows { self.new.rows ≡ self.old.rows }
    {
        self.make_room()?;
        self.latest[row_of(piece) as usize % LATEST] = self
            .list
            .len()
            .min(u32::MAX as usize) as u32;
        self.list.push(piece)?;
        Ok(())
    }

    // Adds the pixels of a piece: mostly to the latest one of its row, and without a call.
    #[inline(always)]
    fn add(&mut self, piece: Piece) -> Result<(), NoMemory>
        ensures added { OnOk result (IsAdded piece self.old self.new) }
        ensures cols { self.new.cols ≡ self.old.cols }
        ensures rows { self.new.rows ≡ self.old.rows }
    {
        let likely = self.latest[row_of(piece) as usize % LATEST];
        if widen(&mut self.list, likely as usize, piece) {
            return Ok(());
        }
        self.append(piece)
    }
}

impl Surface for Pieces {
    ghost use Rattle.tile_render.specs.inner.Pieces.{ShowsPieces};

    ghost cols = { λ p. p.cols };

    ghost rows = { λ p. p.rows };

    ghost shows = { λ _ p bits. ShowsPieces p bits };

    #[inline(always)]
    fn cover(&mut self, j: u32, from: u32, end: u32) {
        if from >= end {
            return;
        }
        let piece = piece_at(self.cols, self.rows, j, from, end);
        match self.add(piece) {
            Ok(()) => {}
            Err(_) => {
                self.is_short = true;
            }
        }
    }

    fn known(&self, j: u32) -> (u32, u32) {
        let at = self.latest[j as usize % LATEST] as usize;
        if self.is_short || at >= self.list.len() {
            return (0, 0);
        }
        let piece = self.list[at];
        if row_of(piece) != j {
            return (0, 0);
        }
        (start_of(piece), piece.end)
    }
}

/// All that is covered, in order and joined; refused where memory was wanting.
pub(crate) fn in_order(pieces: Pieces) -> Result<Vec<Piece>, NoMemory>
    ensures whole { IfOk result (λ v. pieces.is_short ≡ false) }
    ensures same { IfOk result
        (λ v. (j i : ℕ) → covered v.items j i ≡ covered pieces.list.items j i) }
    ensures apart { IfOk result (λ v. Apart v.items) }
    ensures inside { IfOk result (λ v. (cols rows : ℕ) → All (IsPiece cols rows) pieces.list.items
        → All (IsPiece cols rows) v.items) }
{
    if pieces.is_short {
        return Err(NoMemory);
    }
    let mut list = pieces.list;
    tidied(pieces.alloc, &mut list)
}

//! Expiry lists: the tiles of a text, one a line.
ghost use Rattle.std.specs.Prelude.{◌≡◌, ◌≤◌, length, All, IfOk, IfSome};
ghost use Rattle.farm_base.specs.Limits.{most_lines};
ghost use Rattle.reading.specs.Steps.{Gives, seen};
ghost use Rattle.plain_world.specs.World.{IsTile};
ghost use Rattle.expiry_lists.specs.Lists as spec;
ghost use Rattle.expiry_lists.specs.declared.faults.ListFault.TheVariants as fault;

use crate::faults::ListFault;
use farm_base::{MOST_LINES, cut, first_line, small_number};
use merc_fixed::tile;
use plain_world::Tile;
use reading::line_text;
use std::alloc::Global;
use std::marker::Model;

/// The tiles of an expiry list, in order, at most 1,000,000. Contracts see it as the list of them.
#[derive(Drop)]
pub struct TileList {
    pub tiles: Vec<Tile>,
}

impl Model for TileList {
    ghost use Rattle.std.specs.Prelude.{List};
    ghost use Rattle.plain_world.specs.declared.world.Tile.{Tile};
    ghost use Rattle.expiry_lists.specs.Tiles.{AreListed};

    ghost Value = { List Tile };

    ghost view = { λ l. l.tiles.items };

    ghost invariant = { λ l. AreListed l.tiles.items };
}

fn word(text: &str, fault: ListFault) -> Result<(&str, &str), ListFault>
    ensures { seen (λ p. (p.0.now, p.1.now)) result ≡ spec.list_word fault text.entry.now }
{
    cut(text, '/').ok_or(fault)
}

fn number(word: &str, fault: ListFault) -> Result<u32, ListFault>
    ensures { result ≡ spec.list_number fault word.now }
{
    small_number(word).ok_or(fault)
}

#[tactic(auto, unfolding(crate::specs::Lists::list_tile))]
fn tile_in(text: &str, fault: ListFault) -> Result<Tile, ListFault>
    ensures value { result ≡ spec.list_tile fault text.now }
    ensures valid { IfOk result IsTile }
{
    let (z, rest) = word(text, fault)?;
    let (x, y) = word(rest, fault)?;
    let z = number(z, fault)?;
    let x = number(x, fault)?;
    let y = number(y, fault)?;
    tile(z, x, y).ok_or(fault)
}

#[tactic(auto, unfolding(crate::specs::Lists::list_line))]
fn read_line(line: &[u8], fault: ListFault) -> Result<Option<Tile>, ListFault>
    ensures value { result ≡ spec.list_line fault line.now }
    ensures valid { IfOk result (λ o. IfSome o IsTile) }
{
    if line.is_empty() {
        return Ok(None);
    }
    let text = line_text(line, fault)?;
    Ok(Some(tile_in(text, fault)?))
}

/// Reads an expiry list: its tiles in order, or the first line that is none. Each line is `z/x/y`, three
/// decimal numbers without leading zeros that name a tile of zoom 0 to 18. Lines end with a newline, which
/// the last may lack; one carriage return before it is dropped. Empty lines are skipped, and counted.
#[tactic(auto, using(crate::proofs::Lines::list_refused, reading::proofs::LineLoop::items_end))]
pub fn read_list(alloc: Global, bytes: &[u8]) -> Result<Vec<Tile>, ListFault>
    ensures value { Gives fault.NoMemory (λ v. v.items) (spec.list_in bytes.now) result }
    ensures valid { IfOk result (λ v. All IsTile v.items) }
    ensures few { IfOk result (λ v. length v.items ≤ most_lines) }
{
    let mut tiles = Vec::new(alloc);
    let mut rest = bytes;
    let mut number = 0;
    while let Some((line, behind)) = first_line(rest) {
        if number == MOST_LINES {
            return Err(ListFault::Line(number + 1));
        }
        number += 1;
        if let Some(tile) = read_line(line, ListFault::Line(number))? {
            tiles.push(tile)?;
        }
        rest = behind;
    }
    Ok(tiles)
}

//! From the tiles of a metatile to its container.
ghost use Rattle.std.specs.Prelude.{◌≡◌, ◌≤◌, ◌<◌, ◌+◌, ◌*◌, ◌^◌, ◌++◌, ℕ, List, length, codes, IfOk, OnOk, IsTrue};
ghost use Rattle.std.specs.List.{flat_map};
ghost use Rattle.byteorder.specs.Endian.{little_bytes};
ghost use Rattle.plain_world.specs.World.{tiles_across, IsMeta};
ghost use Rattle.meta_container.specs.Container.{AreTilesOf, container_of, index_below, span_at, span_bytes, bytes_of, tile_bytes};
ghost use Rattle.meta_container.specs.Container as spec;
ghost use Rattle.meta_container.specs.Heads.{all_of_size, IsHead};

use crate::container::{HEAD_BYTES, PLACES, Span};
use byteorder::{ByteOrder, LittleEndian};
use farm_base::{Bytes, NoMemory};
use merc_fixed::tiles_across;
use plain_world::Meta;
use std::alloc::Global;

/// The container of a metatile's tiles, which come in order of their index places. The tiles are at
/// least one byte long each and together under `2^31` bytes. No command calls it: `draw_container` of
/// `meta_drawing` puts a head by `put_head` and draws the tiles behind it. Its test is
/// `a_container_drawn_twice` of `farm_tests`.
#[tactic(auto, unfolding(crate::specs::Container::container_of))]
pub fn encode(alloc: Global, m: Meta, tiles: &[Bytes]) -> Result<Vec<u8>, NoMemory>
    requires { AreTilesOf m tiles.now }
    ensures { IfOk result (λ v. v.items ≡ container_of m tiles.now) }
{
    let mut out = Vec::with_capacity(alloc, HEAD_BYTES + bytes_in(tiles))?;
    put_mark(&mut out, m)?;
    put_index(&mut out, tiles_across(m), tiles)?;
    for tile in tiles {
        out.extend_from_slice(tile.as_slice())?;
    }
    Ok(out)
}

/// Appends the head of the container of a metatile whose tiles have all the same size, for the tiles to
/// come behind it, in order of their index places.
pub fn put_head(out: &mut Vec<u8>, m: Meta, size: u32) -> Result<(), NoMemory>
    requires meta { IsMeta m }
    requires size { size < 2 ^ 25 }
    ensures { OnOk result (IsHead m size out.old.items out.new.items) }
{
    put_mark(out, m)?;
    put_even_index(out, tiles_across(m), size)?;
    Ok(())
}

fn put_mark(out: &mut Vec<u8>, m: Meta) -> Result<(), NoMemory>
    ensures { OnOk result (out.new.items ≡ out.old.items ++ codes "META" ++ little_bytes 4 64
        ++ little_bytes 4 m.x ++ little_bytes 4 m.y ++ little_bytes 4 m.z) }
{
    out.extend_from_slice(b"META")?;
    put_number(out, PLACES as u32)?;
    put_number(out, m.x)?;
    put_number(out, m.y)?;
    put_number(out, m.z)
}

fn bytes_in(tiles: &[Bytes]) -> usize
    requires { bytes_of tiles.now < 2 ^ 31 }
    ensures { result ≡ bytes_of tiles.now }
{
    tiles.iter().map(|tile| tile.as_slice().len()).sum()
}

fn has_tile(across: u32, place: u32) -> bool
    ensures { result ≡ spec.has_tile across place }
{
    place / 8 < across && place % 8 < across
}

fn span_at(across: u32, tiles: &[Bytes], place: u32) -> Span
    requires few { across ≤ 8 }
    requires count { length tiles.now ≡ across * across }
    requires short { bytes_of tiles.now < 2 ^ 31 }
    ensures { result ≡ span_at across tiles.now place }
{
    if !has_tile(across, place) {
        return Span { offset: 0, size: 0 };
    }
    let rank = (place / 8 * across + place % 8) as usize;
    let offset = HEAD_BYTES + bytes_in(&tiles[..rank]);
    let size = tiles[rank].as_slice().len();
    Span {
        offset: offset as u32,
        size: size as u32,
    }
}

// The pair of a place where all tiles have the same size; zeros where there is no tile.
fn even_span(across: u32, size: u32, place: u32) -> Span
    requires few { across ≤ 8 }
    requires size { size < 2 ^ 25 }
    ensures { (tiles : List (List ℕ)) → length tiles ≡ across * across
        → IsTrue (all_of_size size tiles) → result ≡ span_at across tiles place }
{
    if !has_tile(across, place) {
        return Span { offset: 0, size: 0 };
    }
    let rank = place / 8 * across + place % 8;
    Span {
        offset: HEAD_BYTES as u32 + rank * size,
        size,
    }
}

/// Appends a number in four bytes, the lowest first.
pub fn put_number(out: &mut Vec<u8>, number: u32) -> Result<(), NoMemory>
    ensures { OnOk result (out.new.items ≡ out.old.items ++ little_bytes 4 number) }
{
    let mut bytes = [0u8; 4];
    LittleEndian::write_u32(&mut bytes, number);
    out.extend_from_slice(&bytes)?;
    Ok(())
}

fn put_span(out: &mut Vec<u8>, span: Span) -> Result<(), NoMemory>
    ensures { OnOk result (out.new.items ≡ out.old.items ++ span_bytes span) }
{
    put_number(out, span.offset)?;
    put_number(out, span.size)
}

fn put_index(out: &mut Vec<u8>, across: u32, tiles: &[Bytes]) -> Result<(), NoMemory>
    requires few { across ≤ 8 }
    requires count { length tiles.now ≡ across * across }
    requires short { bytes_of tiles.now < 2 ^ 31 }
    ensures { OnOk result
        (out.new.items ≡ out.old.items ++ flat_map span_bytes (index_below across tiles.now 64)) }
{
    for place in 0..PLACES as u32 {
        put_span(out, span_at(across, tiles, place))?;
    }
    Ok(())
}

fn put_even_index(out: &mut Vec<u8>, across: u32, size: u32) -> Result<(), NoMemory>
    requires few { across ≤ 8 }
    requires size { size < 2 ^ 25 }
    ensures { OnOk result
        ((tiles : List (List ℕ)) → length tiles ≡ across * across → IsTrue (all_of_size size tiles)
        → out.new.items ≡ out.old.items ++ flat_map span_bytes (index_below across tiles 64)) }
{
    for place in 0..PLACES as u32 {
        put_span(out, even_span(across, size, place))?;
    }
    Ok(())
}

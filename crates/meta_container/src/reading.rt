//! From the bytes of a container to its tiles. Nothing here takes memory, and the bytes of the tiles
//! are not looked at.
ghost use Rattle.std.specs.Prelude.{◌≡◌, ◌≤◌, ◌<◌, ◌+◌, ◌*◌, length, find, Option, option_copied};
ghost use Rattle.plain_world.specs.World.{IsTile, IsMeta, meta_of, index_place};
ghost use Rattle.meta_container.specs.Reading as spec;
ghost use Rattle.meta_container.specs.Reading.{Hands, number_at, head_meta, entries_in, tile_found, entry_found, listing_found};

use crate::container::{Entry, HEAD_BYTES, Listing, PLACES};
use arrayvec::ArrayVec;
use byteorder::{ByteOrder, LittleEndian};
use farm_base::MetaFault;
use merc_fixed::index_place;
use plain_world::{Meta, Tile};

/// The bytes of a tile in the container of its metatile, or the first fault in this order: Short with
/// fewer than 4 bytes, Compressed, Magic, Short with fewer than 532 bytes, Count, Place where the head
/// names another metatile, and Index where the tile's pair has size 0, begins before byte 532 or ends
/// past the bytes.
#[tactic(auto, unfolding(crate::specs::Reading::tile_found))]
pub fn tile_in<'a>(bytes: &'a [u8], m: Meta, t: Tile) -> Result<&'a [u8], MetaFault>
    requires tile { IsTile t }
    requires place { meta_of t ≡ m }
    ensures { Hands (tile_found bytes.entry.now m (index_place t)) result }
{
    if let Some(fault) = head_fault(bytes) {
        return Err(fault);
    }
    if let Some(fault) = place_fault(bytes, m) {
        return Err(fault);
    }
    let place = index_place(t);
    let entry = entry_at(bytes, place);
    if entry.size == 0 || is_wild(bytes.len(), entry) {
        return Err(MetaFault::Index(place));
    }
    let offset = entry.offset as usize;
    Ok(&bytes[offset..offset + entry.size as usize])
}

/// The pair of a tile in the head of its metatile's container; bytes past the first 532 count for
/// nothing. The faults are those of `tile_in` up to Place, and then Index where the tile's pair has
/// size 0 or begins before byte 532.
#[tactic(auto, unfolding(crate::specs::Reading::entry_found))]
pub fn entry_in(head: &[u8], m: Meta, t: Tile) -> Result<Entry, MetaFault>
    requires tile { IsTile t }
    requires place { meta_of t ≡ m }
    ensures { result ≡ entry_found head.now m (index_place t) }
{
    if let Some(fault) = head_fault(head) {
        return Err(fault);
    }
    if let Some(fault) = place_fault(head, m) {
        return Err(fault);
    }
    let place = index_place(t);
    let entry = entry_at(head, place);
    if entry.size == 0 || (entry.offset as usize) < HEAD_BYTES {
        return Err(MetaFault::Index(place));
    }
    Ok(entry)
}

/// The metatile of a container and the pairs of its tiles in order of their places, without those of
/// size 0. The faults are those of `tile_in`, with Place where the head names no metatile, and Index at
/// the first pair that begins before byte 532 or ends past the bytes.
#[tactic(auto, unfolding(crate::specs::Reading::listing_found))]
pub fn listing(bytes: &[u8]) -> Result<Listing, MetaFault>
    ensures { result ≡ listing_found bytes.now }
{
    if let Some(fault) = head_fault(bytes) {
        return Err(fault);
    }
    if let Some(fault) = no_place_fault(bytes) {
        return Err(fault);
    }
    let entries = entries_in(bytes);
    if let Some(fault) = wild_in(bytes.len(), entries.as_slice()) {
        return Err(fault);
    }
    Ok(Listing {
        meta: meta_in(bytes),
        entries,
    })
}

// The first fault that does not speak of a metatile.
fn head_fault(bytes: &[u8]) -> Option<MetaFault>
    ensures value { result ≡ spec.head_fault bytes.now }
    ensures enough { result ≡ Option.None → HEAD_BYTES ≤ length bytes.now }
{
    if bytes.len() < 4 {
        return Some(MetaFault::Short(bytes.len() as u64));
    }
    let mark = &bytes[..4];
    if mark == b"METZ".as_slice() {
        return Some(MetaFault::Compressed);
    }
    if mark != b"META".as_slice() {
        return Some(MetaFault::Magic);
    }
    if bytes.len() < HEAD_BYTES {
        return Some(MetaFault::Short(bytes.len() as u64));
    }
    let count = number_at(bytes, 4);
    if count != PLACES as u32 {
        return Some(MetaFault::Count(count));
    }
    None
}

fn place_fault(bytes: &[u8], m: Meta) -> Option<MetaFault>
    requires { HEAD_BYTES ≤ length bytes.now }
    ensures { result ≡ spec.place_fault bytes.now m }
{
    let found = meta_in(bytes);
    if found.x == m.x && found.y == m.y && found.z == m.z {
        return None;
    }
    Some(MetaFault::Place(found.x, found.y, found.z))
}

fn no_place_fault(bytes: &[u8]) -> Option<MetaFault>
    requires { HEAD_BYTES ≤ length bytes.now }
    ensures { result ≡ spec.no_place_fault bytes.now }
{
    let found = meta_in(bytes);
    if is_meta(found) {
        return None;
    }
    Some(MetaFault::Place(found.x, found.y, found.z))
}

/// Whether these numbers are those of a metatile: zoom at most 18, column and row below `2^z` and multiples of 8.
pub fn is_meta(m: Meta) -> bool
    ensures { result ≡ spec.is_meta m }
{
    m.z <= 18 && m.x < 1 << m.z && m.y < 1 << m.z && m.x % 8 == 0 && m.y % 8 == 0
}

fn number_at(bytes: &[u8], place: usize) -> u32
    requires { place + 4 ≤ length bytes.now }
    ensures { result ≡ number_at place bytes.now }
{
    LittleEndian::read_u32(&bytes[place..])
}

fn meta_in(bytes: &[u8]) -> Meta
    requires { HEAD_BYTES ≤ length bytes.now }
    ensures { result ≡ head_meta bytes.now }
{
    Meta {
        z: number_at(bytes, 16),
        x: number_at(bytes, 8),
        y: number_at(bytes, 12),
    }
}

fn entry_at(bytes: &[u8], place: u32) -> Entry
    requires head { HEAD_BYTES ≤ length bytes.now }
    requires place { place < 64 }
    ensures { result ≡ spec.entry_at bytes.now place }
{
    let at = 8 * place as usize;
    Entry {
        place,
        offset: number_at(bytes, 20 + at),
        size: number_at(bytes, 24 + at),
    }
}

fn is_wild(len: usize, entry: Entry) -> bool
    ensures { result ≡ spec.is_wild len entry }
{
    let offset = entry.offset as usize;
    offset < HEAD_BYTES || len < offset + entry.size as usize
}

#[tactic(auto, unfolding(crate::specs::Reading::entries_in), using(crate::proofs::Entries::none_yet, crate::proofs::Entries::present_more, crate::proofs::Entries::absent_more))]
fn entries_in(bytes: &[u8]) -> ArrayVec<Entry, PLACES>
    requires { HEAD_BYTES ≤ length bytes.now }
    ensures { result.items ≡ entries_in bytes.now }
{
    let mut entries = ArrayVec::new();
    for place in 0..PLACES as u32 {
        let entry = entry_at(bytes, place);
        if entry.size != 0 {
            entries.push(entry);
        }
    }
    entries
}

fn wild_in(len: usize, entries: &[Entry]) -> Option<MetaFault>
    ensures { result ≡ spec.first_wild len entries.now }
{
    let wild = entries.iter().find(|entry| is_wild(len, **entry))?;
    Some(MetaFault::Index(wild.place))
}

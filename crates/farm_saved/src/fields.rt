//! The fields of a saved text. Each leaves the bytes behind it.
ghost use Rattle.std.specs.Prelude.{◌≡◌, ◌+◌, ℕ, List, Option, IsTrue, IfOk, option_copied, length};
ghost use Rattle.reading.specs.Steps.{seen};
ghost use Rattle.farm_history.specs.Replays.{key_before};
ghost use Rattle.farm_saved.specs.Reading as spec;
ghost use Rattle.farm_saved.specs.Savings.{StyleFits};

use crate::fault::SavedFault;
use byteorder::{ByteOrder, LittleEndian};
use farm_history::{Kept, Key, Past};
use meta_container::is_meta;
use plain_world::Meta;

/// The bytes behind `FSV1`.
#[tactic(auto, unfolding(crate::specs::Reading::after_magic))]
pub fn opened(bytes: &[u8], short: SavedFault) -> Result<&[u8], SavedFault>
    ensures value { seen (λ s. s.now) result ≡ spec.after_magic short bytes.entry.now }
    ensures left { IfOk result (λ s. length s.now + 4 ≡ length bytes.entry.now) }
{
    if bytes.len() < 4 {
        return Err(short);
    }
    let (magic, rest) = bytes.split_at(4);
    if magic != b"FSV1".as_slice() {
        return Err(SavedFault::Magic);
    }
    Ok(rest)
}

/// A number of four bytes.
#[tactic(auto, unfolding(crate::specs::Reading::bytes_number))]
pub fn number(bytes: &[u8], short: SavedFault) -> Result<(u32, &[u8]), SavedFault>
    ensures value { seen (λ p. (p.0, p.1.now)) result ≡ spec.bytes_number short 4 bytes.entry.now }
    ensures left { IfOk result (λ p. length p.1.now + 4 ≡ length bytes.entry.now) }
{
    if bytes.len() < 4 {
        return Err(short);
    }
    Ok((LittleEndian::read_u32(bytes), bytes.split_at(4).1))
}

/// A number of eight bytes.
#[tactic(auto, unfolding(crate::specs::Reading::bytes_number))]
pub fn long_number(bytes: &[u8], short: SavedFault) -> Result<(u64, &[u8]), SavedFault>
    ensures value { seen (λ p. (p.0, p.1.now)) result ≡ spec.bytes_number short 8 bytes.entry.now }
    ensures left { IfOk result (λ p. length p.1.now + 8 ≡ length bytes.entry.now) }
{
    if bytes.len() < 8 {
        return Err(short);
    }
    Ok((LittleEndian::read_u64(bytes), bytes.split_at(8).1))
}

fn style_of(number: u32) -> Option<u32>
    ensures value { result ≡ spec.style_if_any number }
    ensures fits { StyleFits result }
{
    if number == 0 { None } else { Some(number - 1) }
}

/// A map: the number of its last style, if it has one.
#[tactic(auto, unfolding(crate::specs::Reading::style_number_in))]
pub fn style(bytes: &[u8], short: SavedFault) -> Result<(Option<u32>, &[u8]), SavedFault>
    ensures value { (before : List (Option ℕ))
        → seen (λ p. (p.0, p.1.now)) result ≡ spec.style_number_in short before bytes.entry.now }
    ensures fits { IfOk result (λ p. StyleFits p.0) }
    ensures left { IfOk result (λ p. length p.1.now + 4 ≡ length bytes.entry.now) }
{
    let (number, rest) = number(bytes, short)?;
    Ok((style_of(number), rest))
}

/// An update behind those before it.
#[tactic(auto, unfolding(crate::specs::Reading::past_in))]
pub fn past<'a>(
    bytes: &'a [u8],
    before: &[Past],
    short: SavedFault,
) -> Result<(Past, &'a [u8]), SavedFault>
    ensures value { seen (λ p. (p.0, p.1.now)) result
        ≡ spec.past_in short before.now bytes.entry.now }
    ensures left { IfOk result (λ p. length p.1.now + 8 ≡ length bytes.entry.now) }
{
    let (kind, rest) = number(bytes, short)?;
    if kind > 1 {
        return Err(SavedFault::Kind(before.len() as u64));
    }
    let (number, rest) = number(rest, short)?;
    let past = if kind == 0 {
        Past::Update(number)
    } else {
        Past::Renew(number)
    };
    Ok((past, rest))
}

#[tactic(auto, unfolding(crate::specs::Reading::fields_in))]
fn fields(bytes: &[u8], short: SavedFault) -> Result<(Kept, &[u8]), SavedFault>
    ensures value { seen (λ p. (p.0, p.1.now)) result ≡ spec.fields_in short bytes.entry.now }
    ensures left { IfOk result (λ p. length p.1.now + 24 ≡ length bytes.entry.now) }
{
    let (map, rest) = number(bytes, short)?;
    let (z, rest) = number(rest, short)?;
    let (x, rest) = number(rest, short)?;
    let (y, rest) = number(rest, short)?;
    let (version, rest) = long_number(rest, short)?;
    let meta = Meta { z, x, y };
    let key = Key { map, meta };
    Ok((Kept { key, version }, rest))
}

fn is_before(a: Key, b: Key) -> bool
    ensures { result ≡ key_before a b }
{
    if a.map != b.map {
        return a.map < b.map;
    }
    if a.meta.z != b.meta.z {
        return a.meta.z < b.meta.z;
    }
    if a.meta.x != b.meta.x {
        return a.meta.x < b.meta.x;
    }
    a.meta.y < b.meta.y
}

fn is_behind(last: Option<&Kept>, key: Key) -> bool
    ensures { result ≡ spec.is_behind (option_copied last.entry) key }
{
    match last {
        Some(last) => is_before(last.key, key),
        None => true,
    }
}

#[tactic(auto, unfolding(crate::specs::Reading::is_kept))]
fn is_kept(updates: u64, before: &[Kept], kept: Kept) -> bool
    ensures { result ≡ spec.is_kept updates before.now kept }
{
    is_meta(kept.key.meta) && kept.version <= updates && is_behind(before.last(), kept.key)
}

/// A clean entry of a farm with so many updates, behind the entries before it.
#[tactic(auto, unfolding(crate::specs::Reading::entry_in))]
pub fn entry<'a>(
    bytes: &'a [u8],
    updates: u64,
    before: &[Kept],
    short: SavedFault,
) -> Result<(Kept, &'a [u8]), SavedFault>
    ensures value { seen (λ p. (p.0, p.1.now)) result
        ≡ spec.entry_in short updates before.now bytes.entry.now }
    ensures kept { IfOk result (λ p. IsTrue (spec.is_kept updates before.now p.0)) }
    ensures left { IfOk result (λ p. length p.1.now + 24 ≡ length bytes.entry.now) }
{
    let (kept, rest) = fields(bytes, short)?;
    if !is_kept(updates, before, kept) {
        return Err(SavedFault::Order(before.len() as u64));
    }
    Ok((kept, rest))
}

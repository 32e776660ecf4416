//! Hashes of keys, of which those of neighbours are alike.
ghost use Rattle.std.specs.Prelude.{◌≡◌};
ghost use Rattle.expiry_lists.specs.inner.Hashing.{word_of, pair, quarter, spread};

use std::hash::{BuildHasher, Hasher};

/// Makes hashers of keys.
#[derive(Clone, Copy)]
pub struct KeyHashing;

impl BuildHasher for KeyHashing {
    ghost use Rattle.expiry_lists.specs.declared.hashing.KeyHasher.{KeyHasher};

    type Hasher = KeyHasher;

    ghost build_hasher = { λ _. record { map = 0; zoom = 0; column = 0; row = 0 } };

    fn build_hasher(&self) -> KeyHasher {
        KeyHasher {
            map: 0,
            zoom: 0,
            column: 0,
            row: 0,
        }
    }
}

/// Hashes a key by its four numbers, in their order. A key of an odd zoom and the four below it have one hash, but for
/// the bits at its top by which the table tells keys of a group apart: walks ask for them one after another, and find
/// them in one cache line.
#[derive(Clone, Copy)]
pub struct KeyHasher {
    map: u32,
    zoom: u32,
    column: u32,
    row: u32,
}

fn word_of(bytes: &[u8]) -> u32
    ensures { result ≡ word_of bytes.now }
{
    if bytes.len() < 4 {
        return 0;
    }
    u32::from_le_bytes([bytes[0], bytes[1], bytes[2], bytes[3]])
}

fn pair(high: u32, low: u32) -> u64
    ensures { result ≡ pair high low }
{
    u64::from(high) * 4_294_967_296 + u64::from(low)
}

fn quarter(column: u32, row: u32) -> u64
    ensures { result ≡ quarter column row }
{
    u64::from(1 + column / 8 % 2 + 2 * (row / 8 % 2))
}

// Two odd factors whose bits are spread evenly, so that each number moves all bits above its own.
fn spread(level: u64, place: u64, member: u64) -> u64
    ensures { result ≡ spread level place member }
{
    level
        .wrapping_mul(11_400_714_819_323_198_485)
        .wrapping_add(place.wrapping_mul(14_029_467_366_897_019_727))
        .wrapping_add(member.wrapping_mul(1 << 61))
}

impl Hasher for KeyHasher {
    ghost use Rattle.expiry_lists.specs.inner.Hashing.{word_of, hash_of};

    ghost write = { λ h bytes. record { map = h.zoom; zoom = h.column; column = h.row; row = word_of bytes } };

    ghost finish = { λ h. hash_of h.map h.zoom h.column h.row };

    fn write(&mut self, bytes: &[u8]) {
        *self = KeyHasher {
            map: self.zoom,
            zoom: self.column,
            column: self.row,
            row: word_of(bytes),
        };
    }

    fn finish(&self) -> u64 {
        let level = pair(self.map, self.zoom / 2 + self.zoom % 2);
        if self.zoom % 2 == 0 {
            let place = pair(self.column / 16, self.row / 16);
            spread(level, place, quarter(self.column, self.row))
        } else {
            spread(level, pair(self.column / 8, self.row / 8), 0)
        }
    }
}

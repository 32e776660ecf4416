//! What a container names.
use arrayvec::ArrayVec;
use plain_world::Meta;

/// The places of a container's index.
pub const PLACES: usize = 64;

/// The bytes of a container's head: the mark, the count, x, y, z and the index. So many from a file's
/// start are what `entry_in` needs.
pub const HEAD_BYTES: usize = 532;

/// Where a tile stands in its container.
#[derive(Clone, Copy, Debug, Default, PartialEq, Eq)]
pub struct Entry {
    /// The tile's index place, from 0 to 63.
    pub place: u32,
    /// Where its bytes begin, from the container's start.
    pub offset: u32,
    /// How many bytes it has; 0 where there is no tile at the place.
    pub size: u32,
}

/// A pair of the index: where a tile begins and how many bytes it has, or zeros.
#[derive(Clone, Copy)]
pub struct Span {
    /// Where its bytes begin, from the container's start.
    pub offset: u32,
    /// How many bytes it has.
    pub size: u32,
}

/// What a container holds.
#[derive(Drop)]
pub struct Listing {
    /// The metatile that its head names.
    pub meta: Meta,
    /// The tiles that are there, in order of their places.
    pub entries: ArrayVec<Entry, PLACES>,
}

//! Keys of metatiles, and what is kept of one.
use plain_world::Meta;

/// A metatile of a map: the map by its place in the plan.
#[derive(Clone, Copy, PartialEq, Eq, Hash)]
pub struct Key {
    pub map: u32,
    pub meta: Meta,
}

/// What is shown of a metatile: the data version at the claim of the drawing stored last, and whether
/// nothing has touched the metatile since that claim.
#[derive(Clone, Copy)]
pub struct Mark {
    pub version: u64,
    pub clean: bool,
}

/// A clean metatile with its data version, as a saved farm keeps it.
#[derive(Clone, Copy)]
pub struct Kept {
    pub key: Key,
    pub version: u64,
}

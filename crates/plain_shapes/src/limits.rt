//! The limits of data.

/// The most bytes of the name of a layer, a style, a raster or a source.
pub const MOST_NAME_BYTES: usize = 64;

/// The most layers of data.
pub const MOST_DATA_LAYERS: usize = 64;

/// The most features of a layer, and the most changes of an update: a place among them has 32 bits.
pub const MOST_FEATURES: usize = 1_000_000;

/// The most points of a feature's shape.
pub const MOST_POINTS: usize = 65_536;

/// The most attributes of a feature.
pub const MOST_ATTRS: usize = 64;

/// The greatest width of a stroke and width or height of a mark, in pixels.
pub const MOST_WIDTH: u64 = 64;

//! The limits of map styles.

/// The most styles of a map.
pub const MOST_STYLES: usize = 256;

/// The most rules of a style.
pub const MOST_RULES: usize = 256;

/// The most symbolizers of a rule.
pub const MOST_SYMBOLIZERS: usize = 16;

/// The most layers of a map.
pub const MOST_MAP_LAYERS: usize = 64;

/// The most rasters of a map: their grids stay in memory.
pub const MOST_RASTERS: usize = 2;

/// The most bytes of the name of a raster's file.
pub const MOST_FILE_BYTES: usize = 100;

/// The most columns, and the most rows, of a grid.
pub const MOST_GRID_SIDE: u32 = 1_024;

//! The limits of configurations.

/// The most maps.
pub const MOST_MAPS: usize = 16;

/// The greatest zoom of a map, which is also that of a map that says none.
pub const MOST_ZOOM: u32 = 18;

/// The most updates, expiry lists or restyles.
pub const MOST_FILES: usize = 256;

/// The most workers.
pub const MOST_WORKERS: u32 = 16;

/// The most bytes of the path of a socket.
pub const MOST_PATH_BYTES: usize = 100;

//! The limit of pictures.

/// The most columns, and the most rows, of a window, a mask or an image: those of a metatile of 8 by 8 tiles
/// of 512 pixels.
pub const MOST_SIDE: u32 = 4_096;

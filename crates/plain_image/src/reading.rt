//! The head of a PPM text, part by part. Each part is read from an offset of the text on.

use farm_base::NoMemory;

/// Why a text is no PPM image.
#[derive(Clone, Copy)]
pub enum PpmFault {
    /// The offset of the first byte that may not stand where it stands, or the text's length where
    /// bytes are missing.
    Bad(u64),
    /// A side of more than 4,096.
    TooLarge,
    /// Want of memory.
    NoMemory,
}

impl From<NoMemory> for PpmFault {
    ghost use Rattle.std.specs.Prelude.{◌≡◌};
    ghost use Rattle.plain_image.specs.declared.reading.PpmFault.TheVariants.{NoMemory};

    ghost from_gives = { λ _ e. e ≡ NoMemory };

    fn from(_refused: NoMemory) -> PpmFault {
        PpmFault::NoMemory
    }
}

/// A place in a gap before a number: no blank stands before it yet, one does, or it is in a comment.
#[derive(Clone, Copy)]
pub enum Gap {
    Bare,
    Blank,
    Comment,
}

/// A side that was read, and the offset behind it.
#[derive(Clone, Copy)]
pub struct Side {
    pub value: u32,
    pub next: usize,
}

/// What a text's head says: the sides, and the offset at which the pixels begin.
#[derive(Clone, Copy)]
pub struct Head {
    pub cols: u32,
    pub rows: u32,
    pub start: usize,
}

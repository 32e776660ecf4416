//! What a message holds.
use arrayvec::ArrayVec;

/// The most bytes of a text: a field has 41, of which the last is a NUL.
pub const TEXT_BYTES: usize = 40;

/// The bytes of the longest message, that of version 3.
pub const MESSAGE_BYTES: usize = 144;

/// A message of renderd's protocol: `struct protocol` of mod_tile's `protocol.h`. Negative numbers of
/// the original are read as large ones.
#[derive(Drop)]
pub struct Request {
    /// The version of the protocol: 1, 2 or 3.
    pub ver: u32,
    /// The command: 0 Ignore, 1 Render, 2 Dirty, 3 Done, 4 NotDone, 5 RenderPrio, 6 RenderBulk,
    /// 7 RenderLow.
    pub cmd: u32,
    /// The tile's column, any number: whether there is such a tile is not asked here.
    pub x: u32,
    /// The tile's row, any number.
    pub y: u32,
    /// The tile's zoom, any number.
    pub z: u32,
    /// The name of the map (`xmlname`), from version 2 on.
    pub name: ArrayVec<u8, TEXT_BYTES>,
    /// The kind of the tile (`mimetype`), from version 3 on.
    pub mime: ArrayVec<u8, TEXT_BYTES>,
    /// The options, from version 3 on.
    pub options: ArrayVec<u8, TEXT_BYTES>,
}

/// What stands at the head of the bytes that a connection sent.
#[derive(Drop)]
pub enum Found {
    /// A whole message, and how many bytes it takes.
    Message(Request, usize),
    /// Less than a whole message so far.
    NeedMore,
    /// A first number that is no version of the protocol.
    BadVersion(u32),
}

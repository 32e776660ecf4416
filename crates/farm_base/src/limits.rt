//! The limits at the farm's edge.

/// The most bytes of a file that is read whole.
pub const MOST_FILE_BYTES: u32 = 1 << 31;

/// The most lines of a script or of a list of tiles: a line's place among them has 32 bits.
pub const MOST_LINES: u32 = 1_000_000;

/// The most turns of a farm, each of which adds an entry to its history.
pub const MOST_TURNS: u64 = 1 << 62;

/// The most asks of one connection that wait for a reply.
pub const MOST_ASKS_OF_ONE: u32 = 64;

/// The most asks that wait for a reply.
pub const MOST_ASKS: u32 = 4_096;

/// The most connections that a front has open.
pub const MOST_SESSIONS: usize = 1_024;

/// The most bytes that a port gives at once.
pub const MOST_PIECE_BYTES: usize = 4_096;

/// The most bytes that wait to be sent to one connection.
pub const MOST_REST_BYTES: usize = 1_048_576;

/// The most bytes of the head of an HTTP request.
pub const MOST_HEAD_BYTES: usize = 8_192;

/// The most header fields of the head of an HTTP request.
pub const MOST_HEAD_FIELDS: usize = 32;

/// The most bytes of a line of the control port, without its newline.
pub const MOST_CONTROL_BYTES: usize = 64;

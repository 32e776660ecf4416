//! What becomes of a session, and why it is left.

/// Why a connection is left.
#[derive(Clone, Copy)]
pub enum Reason {
    /// The peer sends no more.
    Ended,
    /// The connection failed.
    Lost,
    /// A drawing that it waited for found no memory.
    Cut,
    /// Its rest would pass 1,048,576 bytes.
    Full,
    /// An unknown version, or a line that is too long, stands next in its bytes.
    Unread,
    /// The last of its answers was sent whole.
    SentWhole,
    /// A send on it failed.
    SendFailed,
    /// An entry of it was answered with want of memory.
    NoMemory,
    /// Another want of memory, which no entry shows.
    Starved,
}

/// What becomes of a session as its round ends.
#[derive(Clone, Copy)]
pub enum Disposition {
    Stays,
    Leaves(Reason),
}

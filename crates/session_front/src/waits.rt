//! What is kept of a connection.
ghost use Rattle.std.specs.Prelude.{IsTrue};
ghost use Rattle.renderd_protocol.specs.Messages.{is_version};

use renderd_protocol::Request;

/// An ask that waits: its number, and its request, which the answer repeats.
#[derive(Drop)]
pub struct Waiting {
    pub number: u64,
    pub request: Request,
    pub ghost known: { IsTrue (is_version request.ver) },
}

/// What is kept of a connection.
#[derive(Drop)]
pub struct ConnState {
    /// The bytes after its last whole message.
    pub unread: Vec<u8>,
    /// Its asks that wait, in the order in which they were made.
    pub waits: Vec<Waiting>,
}

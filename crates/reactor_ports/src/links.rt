//! One connection: its socket, and what is known of it.
ghost use Rattle.std.specs.Prelude.{◌≡◌, ◌≤◌, ◌<◌, length, IfOk};
ghost use Rattle.reactor_ports.specs.declared.links.Heard.TheVariants as heard;
ghost use Rattle.reactor_ports.specs.inner.Pieces.{HasPiece};

use crate::streams::Stream;
use farm_base::MOST_PIECE_BYTES;
use mio::{Interest, Registry, Token};
use std::io;

/// How many reads pass over what was not read of a connection that is closed.
const LAST_READS: u32 = 16;

/// What a read of a connection gave.
#[derive(Clone, Copy)]
pub enum Heard {
    /// A piece, which is in the room.
    Piece,
    /// The peer sends no more.
    End,
    Nothing,
    Failed,
    NoMemory,
}

/// A connection.
#[derive(Drop)]
pub struct Link {
    pub(crate) conn: u32,
    stream: Stream,
    // the peer sends no more, and no event comes any more
    ended: bool,
    // there may be something to read
    readable: bool,
    // the peer has closed or failed, so a read tells more until it gives nothing
    closing: bool,
    // the last send was short, and no Writable was given since
    short: bool,
    // it takes bytes again
    writable: bool,
    // readiness to write is asked for
    asks: bool,
    // it stands in the queue
    pub(crate) queued: bool,
}

fn is_passing(error: &io::Error) -> bool {
    matches!(
        error.kind(),
        io::ErrorKind::WouldBlock | io::ErrorKind::Interrupted
    )
}

impl Link {
    /// A connection of this number whose readiness to read is asked for, and which is to be queued: what a peer asks has
    /// mostly come by the time that its connection is accepted, so that it is looked for before the system says so.
    pub(crate) fn new(conn: u32, mut stream: Stream, registry: &Registry) -> io::Result<Link> {
        stream.register(registry, Token(conn as usize))?;
        Ok(Link {
            conn,
            stream,
            ended: false,
            readable: true,
            closing: false,
            short: false,
            writable: false,
            asks: false,
            queued: true,
        })
    }

    /// Notes what the system says of the connection. Whether it is to be queued: there is something, and
    /// it does not stand in the queue.
    pub(crate) fn note(&mut self, readable: bool, closing: bool, writable: bool) -> bool {
        self.readable = self.readable || readable || closing;
        self.closing = self.closing || closing;
        self.writable = self.writable || writable;
        let new = !self.queued && self.is_ready();
        self.queued = self.queued || new;
        new
    }

    /// Whether there is something on it.
    pub(crate) fn is_ready(&self) -> bool {
        !self.ended && (self.readable || self.short && self.writable)
    }

    /// Whether it takes bytes again after a short send; says so once.
    pub(crate) fn take_writable(&mut self) -> bool {
        let again = self.short && self.writable && !self.ended;
        if again {
            self.short = false;
            self.writable = false;
        }
        again
    }

    /// Reads a piece into the room. After a read of less than the room takes there is nothing more,
    /// until the system says so again.
    pub(crate) fn read(&mut self, room: &mut Vec<u8>) -> Heard
        ensures { HasPiece result room.new.items }
    {
        room.clear();
        if self.ended || !self.readable {
            return Heard::Nothing;
        }
        if room.resize(MOST_PIECE_BYTES, 0).is_err() {
            return Heard::NoMemory;
        }
        match self.stream.read(room.as_mut_slice()) {
            Ok(0) => {
                self.ended = true;
                Heard::End
            }
            Ok(count) => {
                room.truncate(count);
                self.readable = self.closing || count == MOST_PIECE_BYTES;
                Heard::Piece
            }
            Err(error) if is_passing(&error) => {
                self.readable = error.kind() == io::ErrorKind::Interrupted;
                Heard::Nothing
            }
            Err(error) if error.kind() == io::ErrorKind::OutOfMemory => Heard::NoMemory,
            Err(_) => Heard::Failed,
        }
    }

    /// Writes as much as the system takes at once. Readiness to write is asked for only where bytes are
    /// left.
    pub(crate) fn write(&mut self, registry: &Registry, bytes: &[u8]) -> io::Result<usize>
        ensures { IfOk result (λ n. n ≤ length bytes.now) }
    {
        let count = match self.stream.write(bytes) {
            Ok(count) => count,
            Err(error) if is_passing(&error) => 0,
            Err(error) => return Err(error),
        };
        let short = count < bytes.len();
        self.writable = false;
        self.short = short;
        if !short && !self.asks {
            return Ok(count);
        }
        self.asks = short;
        let interest = if short {
            Interest::READABLE | Interest::WRITABLE
        } else {
            Interest::READABLE
        };
        // bytes may be gone: whatever fails here loses the connection
        match self
            .stream
            .reregister(registry, Token(self.conn as usize), interest)
        {
            Ok(()) => Ok(count),
            Err(_) => Err(io::Error::from(io::ErrorKind::BrokenPipe)),
        }
    }

    /// Passes over what the peer has sent so far, up to 65,536 bytes: where bytes are left unread as a
    /// socket is closed, the system may drop the end of what was sent on it.
    pub(crate) fn pass_over(&mut self) {
        let mut room = [0; MOST_PIECE_BYTES];
        for _ in 0..LAST_READS {
            match self.stream.read(&mut room) {
                Ok(count) if count > 0 => {}
                _ => return,
            }
        }
    }
}

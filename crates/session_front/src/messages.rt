//! The messages of a connection, one after another.
ghost use Rattle.std.specs.Prelude.{◌≡◌, ◌+◌, true, Err};
ghost use Rattle.front_loop.specs.Calls.{SameSeat};
ghost use Rattle.session_front.specs.declared.asking.Halt.{Halt};
ghost use Rattle.session_front.specs.inner.Reads.{disposition_at, ReadsAll};

use crate::asking::{Halt, ask};
use crate::renderd::Renderd;
use crate::waits::Waiting;
use front_loop::{Context, Disposition, Farm, Piece, Reason};
use renderd_protocol::{Found, next};
use std::sync::Wait;

/// Asks for the whole messages that the bytes begin with, and answers how many bytes they take.
pub fn read_all<R: Wait, M: Farm>(
    context: &Context<'_, R, M, Renderd>,
    seat: &mut M::Seat,
    piece: &Piece<'_>,
    waits: &mut Vec<Waiting>,
    response: &mut Vec<u8>,
) -> Result<usize, Halt>
    requires seat { (M.seats context.now.farm.now).is_seat seat.old }
    requires number { (M.seats context.now.farm.now).number seat.old
        ≡ context.now.front.now.front + 1 }
    ensures seat { SameSeat (M.seats context.now.farm.now) seat.old seat.new }
    ensures worn { result ≡ Err Halt.Worn → (M.seats context.now.farm.now).worn seat.new ≡ true }
    ensures read { ReadsAll M.map_at M.seats context.now piece.now.conn piece.now.bytes.now
        seat.old seat.new waits.old.items waits.new.items response.old.items response.new.items
        result }
{
    let mut used = 0;
    'messages: loop {
        let Found::Message(request, len) = next(&piece.bytes[used..]) else {
            return Ok(used);
        };
        ask(context, seat, piece.conn, request, waits, response)?;
        used += len;
    }
}

/// What becomes of a connection whose bytes were read up to these: an unknown version ends it.
pub fn disposition_at(bytes: &[u8]) -> Disposition
    ensures { result ≡ disposition_at bytes.now }
{
    match next(bytes) {
        Found::BadVersion(_) => Disposition::Leaves(Reason::Unread),
        Found::Message(_, _) | Found::NeedMore => Disposition::Stays,
    }
}

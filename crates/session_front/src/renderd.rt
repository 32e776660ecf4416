//! The renderd front.
use crate::asked::Asked;
use crate::asking::Halt;
use crate::messages::{disposition_at, read_all};
use crate::replies::answer_reply;
use crate::waits::ConnState;
use farm_base::Worn;
use farm_history::Reply;
use front_loop::{Context, Disposition, Farm, Front, Piece, Reason};
use reactor_ports::drop_front;
use renderd_protocol::Request;
use std::alloc::Global;
use std::sync::Wait;

/// The renderd front, by its number.
#[derive(Clone, Copy)]
pub struct Renderd {
    pub front: u32,
}

impl Front for Renderd {
    ghost use Rattle.std.specs.Prelude.{refl};
    ghost use Rattle.session_front.specs.Renderd.{renderd_rules};
    ghost use Rattle.session_front.specs.inner.Reads.{Knows};

    type ConnState = ConnState;

    type Want = Request;

    type Act = Asked;

    ghost rules = { λ renderd maps. renderd_rules renderd.front maps };

    ghost knows = { Knows };

    ghost alone = { λ _ _ _ _. (refl, refl) };

    fn number(&self) -> u32 {
        self.front
    }

    fn begin(&self, alloc: Global) -> ConnState {
        ConnState {
            unread: Vec::new(alloc),
            waits: Vec::new(alloc),
        }
    }

    fn hear<R: Wait, M: Farm>(
        context: &Context<'_, R, M, Renderd>,
        seat: &mut M::Seat,
        conn_state: &mut ConnState,
        piece: &Piece<'_>,
        response: &mut Vec<u8>,
    ) -> Result<Disposition, Worn> {
        if conn_state.unread.extend_from_slice(piece.bytes).is_err() {
            return Ok(Disposition::Leaves(Reason::Starved));
        }
        let unread = Piece {
            conn: piece.conn,
            bytes: conn_state.unread.as_slice(),
        };
        match read_all(context, seat, &unread, &mut conn_state.waits, response) {
            Ok(used) => {
                drop_front(&mut conn_state.unread, used);
                Ok(disposition_at(conn_state.unread.as_slice()))
            }
            Err(Halt::NoMemory) => Ok(Disposition::Leaves(Reason::Starved)),
            Err(Halt::Worn) => Err(Worn),
        }
    }

    fn reply<R: Wait, M: Farm>(
        _context: &Context<'_, R, M, Renderd>,
        _seat: &mut M::Seat,
        conn_state: &mut ConnState,
        reply: Reply,
        response: &mut Vec<u8>,
    ) -> Result<Disposition, Worn> {
        match answer_reply(&mut conn_state.waits, response, reply) {
            Ok(()) => Ok(Disposition::Stays),
            Err(_) => Ok(Disposition::Leaves(Reason::Starved)),
        }
    }

    fn is_done(&self, _conn_state: &ConnState) -> bool {
        false
    }
}

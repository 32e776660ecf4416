//! The tile front as one of the three.
ghost use Rattle.std.specs.Prelude.{refl};
ghost use Rattle.tile_front.specs.Tiles.{tile_rules, Knows};

use crate::acts::{Act, HttpAsk};
use crate::answering::{fetch_and_say, http_ask_in, serve_http_ask};
use crate::conn_states::{ConnState, Stage, spot_of_ask};
use farm_base::{MOST_HEAD_BYTES, Worn};
use farm_history::{Conn, Reply};
use front_loop::{Context, Disposition, Farm, Front, Piece, Reason};
use std::alloc::Global;
use std::sync::Wait;

/// The tile front, by its number.
#[derive(Clone, Copy)]
pub struct Tiles {
    pub front: u32,
}

impl Front for Tiles {
    type ConnState = ConnState;

    type Want = HttpAsk;

    type Act = Act;

    ghost rules = { λ tiles maps. tile_rules tiles.front maps };

    ghost knows = { Knows };

    fn number(&self) -> u32 {
        self.front
    }

    fn begin(&self, alloc: Global) -> ConnState {
        ConnState {
            head: Vec::new(alloc),
            stage: Stage::Reading,
        }
    }

    /// Reads the bytes of the one head, and does the ask that becomes whole by them.
    fn hear<R: Wait, M: Farm>(
        context: &Context<'_, R, M, Tiles>,
        seat: &mut M::Seat,
        conn_state: &mut ConnState,
        piece: &Piece<'_>,
        response: &mut Vec<u8>,
    ) -> Result<Disposition, Worn> {
        let Stage::Reading = conn_state.stage else {
            return Ok(Disposition::Stays);
        };
        let Ok(()) = conn_state.head.extend_from_slice(piece.bytes) else {
            return Ok(Disposition::Leaves(Reason::Starved));
        };
        conn_state.head.truncate(MOST_HEAD_BYTES);
        let Some(http_ask) = http_ask_in(context.farm, conn_state.head.as_slice()) else {
            return Ok(Disposition::Stays);
        };
        let conn = Conn {
            front: context.front.front,
            number: piece.conn,
        };
        let stage = &mut conn_state.stage;
        serve_http_ask(context, seat, conn, http_ask, stage, response)
    }

    /// Fetches the tile that waits for the reply.
    fn reply<R: Wait, M: Farm>(
        context: &Context<'_, R, M, Tiles>,
        seat: &mut M::Seat,
        conn_state: &mut ConnState,
        reply: Reply,
        response: &mut Vec<u8>,
    ) -> Result<Disposition, Worn> {
        let Some(spot) = spot_of_ask(conn_state.stage, reply.ask) else {
            return Ok(Disposition::Stays);
        };
        conn_state.stage = Stage::Answered;
        fetch_and_say(context, seat, spot, response)
    }

    fn is_done(&self, conn_state: &ConnState) -> bool {
        matches!(conn_state.stage, Stage::Answered)
    }

    ghost alone = { λ tiles maps reply ms. (refl, refl) };
}

//! The control front, as one of the three.
use crate::acts::{Act, Line};
use crate::hearing::{ConnState, hear_piece};
use expiry_lists::TileList;
use farm_base::Worn;
use farm_history::Reply;
use front_loop::{Context, Disposition, Farm, Front, Piece};
use std::alloc::Global;
use std::sync::Wait;

/// The control front of this number, with the tile lists of its `expire N`.
#[derive(Drop)]
pub struct Control<'a> {
    pub front: u32,
    pub lists: &'a [TileList],
}

impl<'a> Front for Control<'a> {
    ghost use Rattle.std.specs.Prelude.{refl};
    ghost use Rattle.control_front.specs.Control.{control_rules};
    ghost use Rattle.control_front.specs.inner.Doing.{Knows};

    type ConnState = ConnState;

    type Want = Line;

    type Act = Act;

    ghost rules = { λ control _. control_rules control.front control.lists.now };

    ghost knows = { Knows };

    ghost alone = { λ _ _ _ _. (refl, refl) };

    fn number(&self) -> u32 {
        self.front
    }

    fn begin(&self, alloc: Global) -> ConnState {
        ConnState {
            part: Vec::new(alloc),
        }
    }

    fn hear<R: Wait, M: Farm>(
        context: &Context<'_, R, M, Control<'a>>,
        seat: &mut M::Seat,
        conn_state: &mut ConnState,
        piece: &Piece<'_>,
        response: &mut Vec<u8>,
    ) -> Result<Disposition, Worn> {
        hear_piece(context, seat, &mut conn_state.part, piece.bytes, response)
    }

    /// No ask is made, so no reply is for this front.
    fn reply<R: Wait, M: Farm>(
        _context: &Context<'_, R, M, Control<'a>>,
        _seat: &mut M::Seat,
        _conn_state: &mut ConnState,
        _reply: Reply,
        _said: &mut Vec<u8>,
    ) -> Result<Disposition, Worn> {
        Ok(Disposition::Stays)
    }

    fn is_done(&self, _conn_state: &ConnState) -> bool {
        false
    }
}

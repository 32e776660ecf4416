//! What a front has of its own.
ghost use Rattle.std.specs.Prelude.{◌≡◌, ◌≢◌, ◌+◌, ℕ, List, Option, [], true, OnErr};
ghost use Rattle.front_loop.specs.Rules.{Rules, Move};
ghost use Rattle.front_loop.specs.Calls.{SameSeat};
ghost use Rattle.front_loop.specs.Front.{Begins, HearsAt, RepliesAt, Ends, MayStandAlone, rules_in};
ghost use Rattle.farm_history.specs.declared.queues.Outcome.TheVariants as outcome;

use crate::context::{Context, Piece};
use crate::dispositions::Disposition;
use crate::farm::Farm;
use farm_base::Worn;
use farm_history::Reply;
use std::alloc::Global;
use std::sync::Wait;

/// A front: what it makes of a piece of bytes and of a reply, each on one connection. Sessions, rests,
/// offers and ends are `serve`'s.
pub trait Front {
    /// What it keeps of a session.
    type ConnState: Drop;
    /// A request, and a request that was done, with its answers; no value of them need be made.
    type Want;

    type Act;

    /// What it makes of a connection, at a farm that has the maps of these names.
    ghost rules: { Self → (List ℕ → Option ℕ) → Rules Self.Act Self.Want };

    /// What is kept of a session is right where these bytes came and these moves were made.
    ghost knows: { List ℕ → List (Move Self.Act) → Self.ConnState → Type 0 };

    /// The front's number.
    fn number(&self) -> u32
        ensures { (maps : List ℕ → Option ℕ) → result ≡ (rules self.now maps).number };

    /// What is kept of a new session.
    fn begin(&self, alloc: Global) -> Self::ConnState
        ensures { (maps : List ℕ → Option ℕ) → Begins (rules self.now maps) knows result };

    /// A piece of bytes came: does the requests that became whole, and puts the bytes that are answered
    /// to them into `response`.
    fn hear<R: Wait, M: Farm>(
        context: &Context<'_, R, M, Self>,
        seat: &mut M::Seat,
        conn_state: &mut Self::ConnState,
        piece: &Piece<'_>,
        response: &mut Vec<u8>,
    ) -> Result<Disposition, Worn>
        requires seat { (M.seats context.now.farm.now).is_seat seat.old }
        requires number { (M.seats context.now.farm.now).number seat.old
            ≡ (rules_in rules M.map_at context.now).number + 1 }
        requires empty { response.old.items ≡ [] }
        ensures seat { SameSeat (M.seats context.now.farm.now) seat.old seat.new }
        ensures worn { OnErr result ((M.seats context.now.farm.now).worn seat.new ≡ true) }
        ensures heard { HearsAt (rules_in rules M.map_at context.now) knows
            (M.seats context.now.farm.now) piece.now seat.old seat.new conn_state.old conn_state.new
            response.new.items result };

    /// A reply to an ask of the connection was collected, which is not Cut: puts the bytes that are
    /// answered to it into `response`.
    fn reply<R: Wait, M: Farm>(
        context: &Context<'_, R, M, Self>,
        seat: &mut M::Seat,
        conn_state: &mut Self::ConnState,
        reply: Reply,
        response: &mut Vec<u8>,
    ) -> Result<Disposition, Worn>
        requires seat { (M.seats context.now.farm.now).is_seat seat.old }
        requires number { (M.seats context.now.farm.now).number seat.old
            ≡ (rules_in rules M.map_at context.now).number + 1 }
        requires empty { response.old.items ≡ [] }
        requires uncut { reply.outcome ≢ outcome.Cut }
        ensures seat { SameSeat (M.seats context.now.farm.now) seat.old seat.new }
        ensures worn { OnErr result ((M.seats context.now.farm.now).worn seat.new ≡ true) }
        ensures replied { RepliesAt (rules_in rules M.map_at context.now) knows
            (M.seats context.now.farm.now) reply seat.old seat.new conn_state.old conn_state.new
            response.new.items result };

    /// Whether all is answered on the session that will be.
    fn is_done(&self, conn_state: &Self::ConnState) -> bool
        ensures { (maps : List ℕ → Option ℕ)
            → Ends (rules self.now maps) knows conn_state.now result };

    /// A reply to a connection that is heard no more stands alone.
    ghost alone: { (front : Self) (maps : List ℕ → Option ℕ) → MayStandAlone (rules front maps) };
}

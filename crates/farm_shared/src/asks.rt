//! What fronts ask: asks, replies and the leaving of connections.
ghost use Rattle.std.specs.Prelude.{◌≡◌, ◌+◌, IfOk, MatchResult};
ghost use Rattle.farm_history.specs.Entries.{Ask, Collect, Leave};
ghost use Rattle.farm_shared.specs.Shared.{Adds, IsLegalSo, OwnReply, lasts};
ghost use Rattle.turn_cell.specs.SeatStates.{IsSeatOf, Knows, SameSeat, worn_out};

use crate::shared::{Seat, SharedFarm};
use farm_plan::{AskAnswer, Cmd, Collected, Conn, Spot};
use std::sync::Wait;
use tile_store::TileStore;
use turn_cell::Worn;

impl<D: TileStore> SharedFarm<D> {
    /// A connection asks for the metatile of a spot, as `Farm::ask`. The seat is that of the connection's front: its
    /// number is one more than the front's.
    pub fn ask<R: Wait>(
        &self,
        rt: &R,
        seat: &mut Seat<D>,
        conn: Conn,
        cmd: Cmd,
        spot: Spot,
    ) -> Result<AskAnswer, Worn>
        requires seat { IsSeatOf self.now seat.old }
        requires front { seat.old.number ≡ conn.front + 1 }
        ensures seat { IsSeatOf self.now seat.new }
        ensures same { SameSeat seat.old seat.new }
        ensures known { Knows seat.new }
        ensures turn { MatchResult result
            (λ answer. Adds (Ask conn cmd spot answer) seat.old seat.new)
            (λ _. seat.new ≡ worn_out seat.old) }
        ensures legal { IfOk result
            (λ _. IsLegalSo D.state (lasts D.state self.now) seat.new.seen) }
    {
        self.turn(rt, seat, crate::Ask { conn, cmd, spot })
    }

    /// A front takes the first of its replies, as `Farm::collect`, through its own seat. A reply is that of an ask
    /// among the seat's own entries.
    pub fn collect<R: Wait>(
        &self,
        rt: &R,
        seat: &mut Seat<D>,
        front: u32,
    ) -> Result<Collected, Worn>
        requires seat { IsSeatOf self.now seat.old }
        requires front { seat.old.number ≡ front + 1 }
        ensures seat { IsSeatOf self.now seat.new }
        ensures same { SameSeat seat.old seat.new }
        ensures known { Knows seat.new }
        ensures turn { MatchResult result (λ answer. Adds (Collect front answer) seat.old seat.new)
            (λ _. seat.new ≡ worn_out seat.old) }
        ensures legal { IfOk result
            (λ _. IsLegalSo D.state (lasts D.state self.now) seat.new.seen) }
        ensures own { IfOk result (λ answer. OwnReply front seat.old.mine answer) }
    {
        self.turn(rt, seat, crate::Collect { front })
    }

    /// Forgets the open asks of a connection, as `Farm::leave`, through the seat of its front.
    pub fn leave<R: Wait>(&self, rt: &R, seat: &mut Seat<D>, conn: Conn) -> Result<u32, Worn>
        requires seat { IsSeatOf self.now seat.old }
        requires front { seat.old.number ≡ conn.front + 1 }
        ensures seat { IsSeatOf self.now seat.new }
        ensures same { SameSeat seat.old seat.new }
        ensures known { Knows seat.new }
        ensures turn { MatchResult result (λ answer. Adds (Leave conn answer) seat.old seat.new)
            (λ _. seat.new ≡ worn_out seat.old) }
        ensures legal { IfOk result
            (λ _. IsLegalSo D.state (lasts D.state self.now) seat.new.seen) }
    {
        self.turn(rt, seat, crate::Leave { conn })
    }
}

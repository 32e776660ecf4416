//! Changes of the farm: updates, renews, styles, expiries and the stop.
ghost use Rattle.std.specs.Prelude.{◌≡◌, IfOk, MatchResult};
ghost use Rattle.farm_history.specs.Entries.{Expire, Renew, Restyle, Stop, Update};
ghost use Rattle.farm_shared.specs.Shared.{Adds, IsLegalSo, lasts};
ghost use Rattle.turn_cell.specs.SeatStates.{IsSeatOf, Knows, SameSeat, worn_out};
ghost use Rattle.plain_world.specs.World.{IsTile};

use crate::shared::{Seat, SharedFarm};
use farm_plan::{Renewed, Restyled, Updated};
use plain_world::Tile;
use std::alloc::Global;
use std::sync::Wait;
use tile_store::TileStore;
use turn_cell::Worn;

impl<D: TileStore> SharedFarm<D> {
    /// Applies the update of the number to the newest data, as `Farm::update`.
    pub fn update<R: Wait>(
        &self,
        rt: &R,
        seat: &mut Seat<D>,
        alloc: Global,
        number: u32,
    ) -> Result<Updated, Worn>
        requires seat { IsSeatOf self.now seat.old }
        ensures seat { IsSeatOf self.now seat.new }
        ensures same { SameSeat seat.old seat.new }
        ensures known { Knows seat.new }
        ensures turn { MatchResult result (λ answer. Adds (Update number answer) seat.old seat.new)
            (λ _. seat.new ≡ worn_out seat.old) }
        ensures legal { IfOk result
            (λ _. IsLegalSo D.state (lasts D.state self.now) seat.new.seen) }
    {
        self.turn(rt, seat, crate::Update { alloc, number })
    }

    /// Applies the update of the number and expires what it reaches, as `Farm::renew`.
    pub fn renew<R: Wait>(
        &self,
        rt: &R,
        seat: &mut Seat<D>,
        alloc: Global,
        number: u32,
    ) -> Result<Renewed, Worn>
        requires seat { IsSeatOf self.now seat.old }
        ensures seat { IsSeatOf self.now seat.new }
        ensures same { SameSeat seat.old seat.new }
        ensures known { Knows seat.new }
        ensures turn { MatchResult result (λ answer. Adds (Renew number answer) seat.old seat.new)
            (λ _. seat.new ≡ worn_out seat.old) }
        ensures legal { IfOk result
            (λ _. IsLegalSo D.state (lasts D.state self.now) seat.new.seen) }
    {
        self.turn(rt, seat, crate::Renew { alloc, number })
    }

    /// Gives a map the style of the number, as `Farm::restyle`.
    pub fn restyle<R: Wait>(
        &self,
        rt: &R,
        seat: &mut Seat<D>,
        number: u32,
    ) -> Result<Restyled, Worn>
        requires seat { IsSeatOf self.now seat.old }
        ensures seat { IsSeatOf self.now seat.new }
        ensures same { SameSeat seat.old seat.new }
        ensures known { Knows seat.new }
        ensures turn { MatchResult result (λ answer. Adds (Restyle number answer) seat.old seat.new)
            (λ _. seat.new ≡ worn_out seat.old) }
        ensures legal { IfOk result
            (λ _. IsLegalSo D.state (lasts D.state self.now) seat.new.seen) }
    {
        self.turn(rt, seat, crate::Restyle { number })
    }

    /// Expires a tile, as `Farm::expire`.
    pub fn expire<R: Wait>(&self, rt: &R, seat: &mut Seat<D>, t: Tile) -> Result<u64, Worn>
        requires seat { IsSeatOf self.now seat.old }
        requires tile { IsTile t }
        ensures seat { IsSeatOf self.now seat.new }
        ensures same { SameSeat seat.old seat.new }
        ensures known { Knows seat.new }
        ensures turn { MatchResult result (λ answer. Adds (Expire t answer) seat.old seat.new)
            (λ _. seat.new ≡ worn_out seat.old) }
        ensures legal { IfOk result
            (λ _. IsLegalSo D.state (lasts D.state self.now) seat.new.seen) }
    {
        self.turn(rt, seat, crate::Expire { tile: t })
    }

    /// Stops the farm for good, as `Farm::stop`.
    pub fn stop<R: Wait>(&self, rt: &R, seat: &mut Seat<D>) -> Result<(), Worn>
        requires seat { IsSeatOf self.now seat.old }
        ensures seat { IsSeatOf self.now seat.new }
        ensures same { SameSeat seat.old seat.new }
        ensures known { Knows seat.new }
        ensures turn { MatchResult result (λ answer. Adds (Stop) seat.old seat.new)
            (λ _. seat.new ≡ worn_out seat.old) }
        ensures legal { IfOk result
            (λ _. IsLegalSo D.state (lasts D.state self.now) seat.new.seen) }
    {
        self.turn(rt, seat, crate::Stop)
    }
}

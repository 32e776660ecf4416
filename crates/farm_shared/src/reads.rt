//! What is read of the farm: tiles, how metatiles stand, and counts.
ghost use Rattle.std.specs.Prelude.{◌≡◌, IfOk, MatchResult};
ghost use Rattle.farm_history.specs.Entries.{Fetch, Look, Tally as Counted};
ghost use Rattle.farm_shared.specs.Shared.{Adds, IsLegalSo, lasts};
ghost use Rattle.turn_cell.specs.SeatStates.{IsSeatOf, Knows, SameSeat, worn_out};

use crate::shared::{Seat, SharedFarm};
use farm_plan::{Fetched, Looked, Spot, Tally};
use std::alloc::Global;
use std::sync::Wait;
use tile_store::TileStore;
use turn_cell::Worn;

impl<D: TileStore> SharedFarm<D> {
    /// The bytes of a spot's tile, as `Farm::fetch`.
    pub fn fetch<R: Wait>(
        &self,
        rt: &R,
        seat: &mut Seat<D>,
        alloc: Global,
        spot: Spot,
    ) -> Result<Fetched, Worn>
        requires seat { IsSeatOf self.now seat.old }
        ensures seat { IsSeatOf self.now seat.new }
        ensures same { SameSeat seat.old seat.new }
        ensures known { Knows seat.new }
        ensures turn { MatchResult result (λ answer. Adds (Fetch spot answer) seat.old seat.new)
            (λ _. seat.new ≡ worn_out seat.old) }
        ensures legal { IfOk result
            (λ _. IsLegalSo D.state (lasts D.state self.now) seat.new.seen) }
    {
        self.turn(rt, seat, crate::Fetch { alloc, spot })
    }

    /// How a spot's metatile stands, as `Farm::look`.
    pub fn look<R: Wait>(&self, rt: &R, seat: &mut Seat<D>, spot: Spot) -> Result<Looked, Worn>
        requires seat { IsSeatOf self.now seat.old }
        ensures seat { IsSeatOf self.now seat.new }
        ensures same { SameSeat seat.old seat.new }
        ensures known { Knows seat.new }
        ensures turn { MatchResult result (λ answer. Adds (Look spot answer) seat.old seat.new)
            (λ _. seat.new ≡ worn_out seat.old) }
        ensures legal { IfOk result
            (λ _. IsLegalSo D.state (lasts D.state self.now) seat.new.seen) }
    {
        self.turn(rt, seat, crate::Look { spot })
    }

    /// The farm's counts, as `Farm::tally`.
    pub fn tally<R: Wait>(&self, rt: &R, seat: &mut Seat<D>) -> Result<Tally, Worn>
        requires seat { IsSeatOf self.now seat.old }
        ensures seat { IsSeatOf self.now seat.new }
        ensures same { SameSeat seat.old seat.new }
        ensures known { Knows seat.new }
        ensures turn { MatchResult result (λ answer. Adds (Counted answer) seat.old seat.new)
            (λ _. seat.new ≡ worn_out seat.old) }
        ensures legal { IfOk result
            (λ _. IsLegalSo D.state (lasts D.state self.now) seat.new.seen) }
    {
        self.turn(rt, seat, crate::Count)
    }
}

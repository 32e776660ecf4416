//! The shared farm and its seats.
ghost use Rattle.std.specs.Prelude.{◌≡◌, ◌<◌, Bool, true, [], length, map, IfErr, IfOk, IsOkAnd, MatchResult};
ghost use Rattle.farm_base.specs.Limits.{most_turns};
ghost use Rattle.farm_refinement.specs.Stands.{StandsFor};
ghost use Rattle.farm_shared.specs.inner.Turns.{AreNames};
ghost use Rattle.farm_core.specs.Begins.{origin};
ghost use Rattle.farm_shared.specs.Afters.{IsAfter, MayTell, lasting_of};
ghost use Rattle.farm_shared.specs.Needs.{NeedOf};
ghost use Rattle.farm_shared.specs.Shared.{Adds, IsClosed, IsLegalSo, lasts, maps_of};
ghost use Rattle.turn_cell.specs.SeatStates.{IsSeatOf, IsWhole, Knows, SameSeat, Took, first_of, joining, split_left, split_right, worn_out};
ghost use Rattle.turn_cell.specs.Turns.{StartsWith};

use crate::Event;
use crate::closed::Closed;
use crate::turned::{Turn, Turned};
use farm_base::{MOST_TURNS, NoMemory, Text};
use farm_core::Farm;
use std::alloc::Global;
use std::marker::Model;
use std::snapshot::Snapshot;
use std::sync::Wait;
use tile_store::TileStore;
use turn_cell::{TurnCell, Worn};

/// The right to take turns of one shared farm, and what is known of its history. It has no bytes.
#[derive(Drop)]
pub struct Seat<D: TileStore> {
    pub(crate) seat: turn_cell::Seat<Turned<D>>,
}

impl<D: TileStore> Model for Seat<D> {
    ghost use Rattle.turn_cell.specs.SeatStates.{SeatState};
    ghost use Rattle.farm_history.specs.Entries.{Entry};
    ghost use Rattle.farm_shared.specs.declared.turned.Turned.{Turned};
    ghost use Rattle.plain_filters.specs.inner.FilterCodes.{filter_code};
    ghost use Rattle.std.specs.Coded.{codes};

    ghost Value = { SeatState (Turned D) Entry };

    ghost coded = { Prim.hlevel (codes, filter_code) };

    ghost view = { λ s. s.seat };
}

/// The names of a farm's maps, by their places.
#[derive(Drop)]
pub(crate) struct Names {
    texts: Vec<Text>,
}

/// A farm that threads share by reference. Each call is one turn, through a seat of this farm: the call's event
/// on the farm, with the farm's answer. `Worn` comes only where all of `2^62` turns were drawn, and then the
/// call was not run.
#[derive(Drop)]
pub struct SharedFarm<D: TileStore> {
    pub(crate) cell: TurnCell<Turned<D>>,
    names: Names,
}

impl<D: TileStore> Model for SharedFarm<D> {
    ghost use Rattle.turn_cell.specs.SeatStates.{Made};
    ghost use Rattle.farm_shared.specs.inner.Turns.{AreNames};
    ghost use Rattle.farm_shared.specs.declared.turned.Turned.{Turned};
    ghost use Rattle.plain_filters.specs.inner.FilterCodes.{filter_code};
    ghost use Rattle.std.specs.Coded.{codes};

    ghost Value = { Made (Turned D) };

    ghost coded = { Prim.hlevel (codes, filter_code) };

    ghost view = { λ f. f.cell };

    ghost invariant = { λ f. AreNames f.cell.about.first.value.farm.plan.maps f.names.texts.items };
}

fn names_of<D: TileStore>(alloc: Global, farm: &Farm<D>) -> Result<Vec<Text>, NoMemory>
    ensures { IfOk result (λ texts. AreNames farm.now.plan.maps texts.items) }
{
    let mut names = Vec::new(alloc);
    for place in 0..farm.maps() {
        names.push(Text::of(alloc, farm.map_name(place))?)?;
    }
    Ok(names)
}

impl<D: TileStore> SharedFarm<D> {
    /// Shares a farm, and gives its first seat, which has the number 0. Where memory is wanting the farm comes
    /// back.
    ///
    /// The farm is as it was started or resumed, but for what was put beside the metatiles: it stands for
    /// nothing, or for the replay of what it was resumed from.
    pub fn new(alloc: Global, farm: Farm<D>) -> Result<(SharedFarm<D>, Seat<D>), Farm<D>>
        requires stands { (store_tells : Bool)
            → MayTell D.state (lasting_of D.state farm) store_tells
            → StandsFor D.state store_tells farm (origin farm.plan farm.saved) }
        requires short { length (origin farm.plan farm.saved) < most_turns }
        ensures farm { IfOk result
            (λ made. (made.0.about.limit ≡ most_turns) × (made.0.about.first.value.farm ≡ farm)) }
        ensures seat { IfOk result (λ made. IsSeatOf made.0 made.1 × (made.1 ≡ first_of made.0)) }
        ensures err { IfErr result (λ back. back ≡ farm) }
    {
        let Ok(texts) = names_of(alloc, &farm) else {
            return Err(farm);
        };
        match TurnCell::new(alloc, Turned { farm }, MOST_TURNS) {
            Ok((cell, seat)) => Ok((
                SharedFarm {
                    cell,
                    names: Names { texts },
                },
                Seat { seat },
            )),
            Err(Turned { farm }) => Err(farm),
        }
    }

    /// The place of the map of the name; nothing exactly where the plan has none of that name. It is no turn.
    pub fn map_of(&self, name: &[u8]) -> Option<u32>
        ensures { result ≡ maps_of self.now name.now }
    {
        let names = self.names.texts.as_slice();
        let place = names.iter().position(|n| n.as_str().as_bytes() == name)?;
        Some(place as u32)
    }

    /// One turn of the farm through the seat: the event on the farm, with the farm's answer. Each of the other calls
    /// that take a turn is this one, of its own event.
    pub fn turn<R: Wait, C: Event>(
        &self,
        rt: &R,
        seat: &mut Seat<D>,
        event: C,
    ) -> Result<C::Answer, Worn>
        requires seat { IsSeatOf self.now seat.old }
        requires need { NeedOf (C.need event) seat.old.number seat.old.seen
            (lasts D.state self.now) }
        ensures seat { IsSeatOf self.now seat.new }
        ensures same { SameSeat seat.old seat.new }
        ensures known { Knows seat.new }
        ensures turn { MatchResult result (λ answer. Adds (C.entry event answer) seat.old seat.new)
            (λ _. seat.new ≡ worn_out seat.old) }
        ensures legal { IfOk result
            (λ _. IsLegalSo D.state (lasts D.state self.now) seat.new.seen) }
        ensures took { MatchResult result
            (λ answer. Took (λ t log. IsAfter D.state t.farm log)
            (λ t. lasting_of D.state t.farm) self.now.about
            (C.entry event answer) (λ log part. C.promise event answer log part.plan part.saved)
            seat.old seat.new)
            (λ _. seat.new ≡ worn_out seat.old) }
    {
        self.cell.turn(rt, &mut seat.seat, Turn { event })
    }

    /// A new seat, split from the first. Its number is the number of splits, this one included. No memory is
    /// taken, so it is always given.
    pub fn split(&self, first: &mut Seat<D>) -> Result<Seat<D>, NoMemory>
        requires seat { IsSeatOf self.now first.old }
        requires first { first.old.first ≡ true }
        ensures first { first.new ≡ split_left first.old }
        ensures new { IsOkAnd result (λ seat. seat ≡ split_right first.old) }
        ensures known { Knows first.new × IfOk result Knows }
    {
        let seat = self.cell.split(&mut first.seat)?;
        Ok(Seat { seat })
    }

    /// Ends a seat, which is joined into the first.
    pub fn join(&self, into: &mut Seat<D>, ended: Seat<D>)
        requires into { IsSeatOf self.now into.old }
        requires first { into.old.first ≡ true }
        requires ended { IsSeatOf self.now ended }
        ensures joined { into.new ≡ joining into.old ended }
        ensures seen { StartsWith into.new.seen into.old.seen
            × StartsWith into.new.seen ended.seen }
        ensures known { Knows into.new }
    {
        let Seat { seat } = ended;
        self.cell.join(&mut into.seat, seat);
    }

    /// Ends the sharing, by the first seat, into which every other seat was joined. What is left is the farm,
    /// which stands for its whole history.
    pub fn close(self, seat: Seat<D>) -> Closed<D>
        requires seat { IsSeatOf self seat }
        requires first { IsWhole seat }
        ensures history { result.1 ≡ seat.seen }
        ensures farm { IsClosed D.state self.about.limit self.about.first.value.farm seat result.0 }
        ensures known { Knows seat }
    {
        let last = Snapshot::of(&seat);
        let SharedFarm { cell, names: _ } = self;
        let Seat { seat } = seat;
        let Turned { farm } = cell.close(seat).into_value();
        Closed { farm, last }
    }
}

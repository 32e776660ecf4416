//! The cell, its seats, and what is left when it is closed.
ghost use Rattle.std.specs.Prelude.{◌≡◌, ◌≤◌, true, [], IfOk, IfErr, IsOkAnd, MatchResult};
ghost use Rattle.farm_base.specs.Limits.{most_turns};
ghost use Rattle.turn_cell.specs.SeatStates.{IsSeatOf, first_of, SameSeat, worn_out, split_left, split_right, joining, Knows, IsWhole, Took, Closes};
ghost use Rattle.turn_cell.specs.Turns.{StartsWith};

use crate::call::{Call, StandsFor};
use crate::inner::{Core, Place};
use crate::view::Terms;
use farm_base::{NoMemory, Worn};
use std::alloc::Global;
use std::marker::{Brand, Model};
use std::snapshot::Snapshot;
use std::sync::Wait;

/// A value under a lock, whose turns have one history. It is shared by reference among threads, each
/// of which takes its turns on a seat of its own.
#[derive(Drop)]
pub struct TurnCell<T: StandsFor> {
    core: Core<T>,
}

impl<T: StandsFor> Model for TurnCell<T> {
    ghost use Rattle.turn_cell.specs.SeatStates.{Made};

    ghost Value = { Made T };

    ghost view = { λ c. record { cell = c.core.table.shared.table_id; about = c.core.table.shared.key } };
}

/// The right to take turns of one cell, and what is known of its history. It has no bytes.
#[derive(Drop)]
pub struct Seat<T: StandsFor> {
    place: Place<T, T::Entry>,
}

impl<T: StandsFor> Model for Seat<T> {
    ghost use Rattle.turn_cell.specs.SeatStates.{SeatState, seat_state};
    ghost use Rattle.turn_cell.specs.inner.Words.{IsSettled};

    ghost Value = { SeatState T T.Entry };

    ghost view = { λ s. seat_state s.place.table_id s.place.me.0 };

    ghost invariant = { λ s. IsSettled s.place.me };
}

/// What is left of a cell: its value, and its whole history, of which no bytes are kept.
#[derive(Drop)]
pub struct ClosedCell<T: StandsFor> {
    value: T,
    last: Snapshot<Seat<T>>,
}

impl<T: StandsFor> Model for ClosedCell<T> {
    ghost use Rattle.std.specs.Prelude.{List, ℕ};

    ghost Value = { T × List (ℕ × T.Entry) };

    ghost view = { λ c. (c.value, c.last.value.seen) };
}

impl<T: StandsFor> TurnCell<T> {
    /// A cell over the value, which gives at most `limit` turns, and its first seat, which has the
    /// number 0. Where memory is wanting the value comes back.
    pub fn new(alloc: Global, value: T, limit: u64) -> Result<(TurnCell<T>, Seat<T>), T>
        requires stands { T.stands value [] }
        requires limit { limit ≤ most_turns }
        ensures cell { IfOk result
            (λ made. (made.0.about.limit ≡ limit) × (made.0.about.first.value ≡ value)) }
        ensures seat { IfOk result (λ made. IsSeatOf made.0 made.1 × (made.1 ≡ first_of made.0)) }
        ensures err { IfErr result (λ back. back ≡ value) }
    {
        match Core::new(alloc, value, limit) {
            Ok((core, place)) => Ok((TurnCell { core }, Seat { place })),
            Err(back) => Err(back),
        }
    }

    /// Waits for a turn, runs the call on the value and counts its entry. `Worn` comes only where the
    /// limit of turns was drawn; the call was not run then.
    pub fn turn<R: Wait, C: Call<T>>(
        &self,
        rt: &R,
        seat: &mut Seat<T>,
        call: C,
    ) -> Result<C::Answer, Worn>
        requires seat { IsSeatOf self.now seat.old }
        requires need { C.need call seat.old.number seat.old.seen
            (T.lasting self.now.about.first.value) }
        ensures seat { IsSeatOf self.now seat.new }
        ensures same { SameSeat seat.old seat.new }
        ensures known { Knows seat.new }
        ensures turn { MatchResult result
            (λ answer. Took T.stands T.lasting self.now.about (C.entry call answer)
            (C.promise call answer) seat.old seat.new)
            (λ _. seat.new ≡ worn_out seat.old) }
    {
        let ticket = self.core.draw(rt, &mut seat.place)?;
        let mut value = self.core.enter(rt, &mut seat.place, ticket);
        let asked = Snapshot::of(&call);
        let answer = call.run(&mut value);
        self.core
            .count::<Brand, C>(&mut seat.place, &asked, &answer);
        self.core.leave(&mut seat.place, value);
        Ok(answer)
    }

    /// A new seat, split from the first. Its number is the number of splits, this one included. No
    /// memory is taken, so it is always given.
    pub fn split(&self, first: &mut Seat<T>) -> Result<Seat<T>, NoMemory>
        requires seat { IsSeatOf self.now first.old }
        requires first { first.old.first ≡ true }
        ensures first { first.new ≡ split_left first.old }
        ensures new { IsOkAnd result (λ seat. seat ≡ split_right first.old) }
        ensures known { Knows first.new × IfOk result Knows }
    {
        let place = self.core.split(&mut first.place);
        Ok(Seat { place })
    }

    /// Ends a seat, which is joined into the first.
    pub fn join(&self, into: &mut Seat<T>, ended: Seat<T>)
        requires into { IsSeatOf self.now into.old }
        requires first { into.old.first ≡ true }
        requires ended { IsSeatOf self.now ended }
        ensures joined { into.new ≡ joining into.old ended }
        ensures seen { StartsWith into.new.seen into.old.seen
            × StartsWith into.new.seen ended.seen }
        ensures known { Knows into.new }
    {
        let Seat { place } = ended;
        self.core.join(&mut into.place, place);
    }

    /// Closes the cell by its first seat, into which every other seat was joined.
    pub fn close(self, seat: Seat<T>) -> ClosedCell<T>
        requires seat { IsSeatOf self seat }
        requires first { IsWhole seat }
        ensures history { result.1 ≡ seat.seen }
        ensures value { Closes T.stands T.lasting self.about seat result.0 }
        ensures known { Knows seat }
    {
        let last = Snapshot::of(&seat);
        let TurnCell { core } = self;
        let Seat { place } = seat;
        ClosedCell {
            value: core.close(place),
            last,
        }
    }
}

impl<T: StandsFor> ClosedCell<T> {
    /// The cell's last value.
    pub fn into_value(self) -> T
        ensures { result ≡ self.0 }
    {
        let ClosedCell { value, last: _ } = self;
        value
    }
}

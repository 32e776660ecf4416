//! The adapter.
use crate::Farm;
use farm_base::{Bell, Worn};
use farm_shared::{Alarms, Event, Seat, SharedFarm};
use std::collections::LinkedList;
use std::sync::Wait;
use tile_store::TileStore;

/// What stays of a seat over its turns: whether it is the first, how often it was split, and what was
/// joined into it. No value of it is made.
pub struct Place {
    pub first: bool,
    pub splits: u64,
    pub joined: LinkedList<(u64, LinkedList<(u64, farm_history::Event)>)>,
}

/// The shared farm, with those who are woken when something happened.
pub struct FarmAdapter<'a, D: TileStore, B> {
    pub farm: &'a SharedFarm<D>,
    pub alarms: &'a Alarms<'a, B>,
}

// A derive would ask that `D` and `B` be `Drop`.
impl<'a, D: TileStore, B> Drop for FarmAdapter<'a, D, B> {
    fn drop(self) {
        let Self { farm: _, alarms: _ } = self;
    }
}

impl<'a, D: TileStore, B: Bell> Farm for FarmAdapter<'a, D, B> {
    ghost use Rattle.farm_shared.specs.Shared.{maps_of};
    ghost use Rattle.front_loop.specs.FarmAdapters.{seats_of};

    type Seat = Seat<D>;

    type Place = Place;

    ghost seats = { λ adapter. seats_of adapter.farm.now };

    ghost map_at = { λ adapter. maps_of adapter.farm.now };

    fn map_of(&self, name: &[u8]) -> Option<u32> {
        self.farm.map_of(name)
    }

    /// One turn of the shared farm; then whom the event's answer is to wake are woken, also where no turn was
    /// left.
    fn turn<R: Wait, C: Event>(
        &self,
        rt: &R,
        seat: &mut Seat<D>,
        event: C,
    ) -> Result<C::Answer, Worn> {
        let answer = self.farm.turn(rt, seat, event);
        self.alarms.ring(C::wakes(&answer));
        answer
    }
}

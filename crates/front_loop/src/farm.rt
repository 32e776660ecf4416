//! The farm as a front uses it.
ghost use Rattle.std.specs.Prelude.{◌≡◌, ℕ, List, Option};
ghost use Rattle.farm_shared.specs.Needs.{NeedAlone};
ghost use Rattle.front_loop.specs.Calls.{Seats, Turns};

use farm_base::Worn;
use farm_shared::Event;
use std::sync::Wait;

/// A farm that is shared, as far as a front calls it.
pub trait Farm {
    /// The right to take turns.
    type Seat;
    /// What stays of a seat over its turns; no value of it need be made.
    type Place;

    /// What contracts know of the seats.
    ghost seats: { Self → Seats Self.Seat Self.Place };

    /// The place of the map of a name.
    ghost map_at: { Self → List ℕ → Option ℕ };

    /// The place of the map of this name. It is no turn.
    fn map_of(&self, name: &[u8]) -> Option<u32>
        ensures { result ≡ map_at self.now name.now };

    /// One event, as a turn on the front's seat: its entry stands behind the seat's own. It may wait. Worn
    /// comes only where the limit of turns was drawn: nothing was done then, and the seat has its mark.
    fn turn<R: Wait, C: Event>(
        &self,
        rt: &R,
        seat: &mut Self::Seat,
        event: C,
    ) -> Result<C::Answer, Worn>
        requires seat { (seats self.now).is_seat seat.old }
        requires need { NeedAlone (C.need event) ((seats self.now).number seat.old) }
        ensures { Turns (seats self.now) (C.entry event) seat.old seat.new result };
}

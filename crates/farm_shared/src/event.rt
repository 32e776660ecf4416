//! What an event of a farm is.
ghost use Rattle.std.specs.Prelude.{ℕ, List, Option};
ghost use Rattle.farm_history.specs.Entries.{Entry};
ghost use Rattle.farm_history.specs.Replays.{Saving};
ghost use Rattle.farm_plan.specs.Plans.{FarmPlan};
ghost use Rattle.farm_shared.specs.Afters.{IsAfter, lasting_of};
ghost use Rattle.farm_shared.specs.Needs.{NeedOf};
ghost use Rattle.turn_cell.specs.Turns.{Ran, Ready};

use farm_base::Worn;
use farm_core::Farm;
use tile_store::TileStore;

/// Who is to be woken after an event: who sleeps may have work by it.
#[derive(Clone, Copy)]
pub enum Wakes {
    Nobody,
    Workers,
    Fronts,
    Everybody,
}

/// An event of a farm, which one turn takes. It is let go where no turn is left, so it is `Drop`.
pub trait Event: Drop {
    /// What the caller is answered.
    type Answer;

    /// The entry of the history, which the event and its answer determine.
    ghost entry: { Self → Self.Answer → Entry };

    /// What it needs of the seat's number, of the turns that the seat has seen, of the farm's plan and of what the
    /// farm was resumed from.
    ghost need: { Self → ℕ → List (ℕ × Entry) → FarmPlan → Option Saving → Type 0 };

    /// What it promises of its answer, of the turns before its own, of the plan and of what the farm was resumed
    /// from.
    ghost promise: { Self → Self.Answer → List (ℕ × Entry) → FarmPlan → Option Saving → Type 0 };

    /// Lets it happen on the farm, which no other event sees meanwhile.
    fn run<D: TileStore>(self, farm: &mut Farm<D>) -> Self::Answer
        requires { Ready (IsAfter D.state) (lasting_of D.state) (NeedOf (need self)) farm.old }
        ensures { Ran (IsAfter D.state) (lasting_of D.state) (NeedOf (need self)) (entry self)
            (λ answer log part. promise self answer log part.plan part.saved)
            farm.old farm.new result };

    /// Whom the answer is to wake, also that no turn was left. It promises nothing, since no contract knows who
    /// sleeps.
    fn wakes(_answer: &Result<Self::Answer, Worn>) -> Wakes {
        Wakes::Nobody
    }
}

//! What workers do: claims and ends of drawings.
ghost use Rattle.std.specs.Prelude.{◌≡◌, IfOk, MatchResult};
ghost use Rattle.farm_history.specs.Entries.{Claim, Finish};
ghost use Rattle.farm_shared.specs.Afters.{HasJob};
ghost use Rattle.farm_shared.specs.Shared.{Adds, IsLegalSo, lasts};
ghost use Rattle.turn_cell.specs.SeatStates.{IsSeatOf, Knows, SameSeat, worn_out};
ghost use Rattle.farm_core.specs.Answers.{IfJob, IsDrawingOf, claim_answer, is_drawn};
ghost use Rattle.farm_plan.specs.Jobs.{IsValidJob};

use crate::shared::{Seat, SharedFarm};
use farm_core::{Claimed, Drawn, Job};
use farm_plan::Finished;
use std::alloc::Global;
use std::sync::Wait;
use tile_store::TileStore;
use turn_cell::Worn;

impl<D: TileStore> SharedFarm<D> {
    /// A worker, by its number, asks for a drawing to make, as `Farm::claim`. A job is the seat's to finish.
    pub fn claim<R: Wait>(&self, rt: &R, seat: &mut Seat<D>, worker: u32) -> Result<Claimed, Worn>
        requires seat { IsSeatOf self.now seat.old }
        ensures seat { IsSeatOf self.now seat.new }
        ensures same { SameSeat seat.old seat.new }
        ensures known { Knows seat.new }
        ensures turn { MatchResult result
            (λ answer. Adds (Claim worker (claim_answer answer)) seat.old seat.new)
            (λ _. seat.new ≡ worn_out seat.old) }
        ensures legal { IfOk result
            (λ _. IsLegalSo D.state (lasts D.state self.now) seat.new.seen) }
        ensures job { IfOk result (λ answer. IfJob answer (λ job.
            IsValidJob job
            × (job.worker ≡ worker)
            × HasJob (lasts D.state self.now) seat.new.number seat.new.seen job)) }
    {
        self.turn(rt, seat, crate::Claim { worker })
    }

    /// A worker hands back its drawing, as `Farm::finish`. A Claim among the seat's own entries gave the job, and no
    /// Finish of its ticket stands among them; what was drawn is the container of the plain drawings of its
    /// metatile's tiles, in its style and over its data.
    pub fn finish<R: Wait>(
        &self,
        rt: &R,
        seat: &mut Seat<D>,
        alloc: Global,
        job: Job,
        drawn: Drawn,
    ) -> Result<Finished, Worn>
        requires seat { IsSeatOf self.now seat.old }
        requires job { HasJob (lasts D.state self.now) seat.old.number seat.old.seen job }
        requires drawn { IsDrawingOf job drawn }
        ensures seat { IsSeatOf self.now seat.new }
        ensures same { SameSeat seat.old seat.new }
        ensures known { Knows seat.new }
        ensures turn { MatchResult result
            (λ answer. Adds (Finish job.ticket (is_drawn drawn) answer) seat.old seat.new)
            (λ _. seat.new ≡ worn_out seat.old) }
        ensures legal { IfOk result
            (λ _. IsLegalSo D.state (lasts D.state self.now) seat.new.seen) }
    {
        self.turn(rt, seat, crate::Finish { alloc, job, drawn })
    }
}

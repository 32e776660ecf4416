//! The end of a farm that has served.
ghost use Rattle.std.specs.Prelude.{◌≡◌};
ghost use Rattle.farm_shared.specs.Shared.{IsAfter};
ghost use Rattle.farm_call.specs.Endings.{WindsUp};
ghost use Rattle.farm_call.specs.Savings.{MaySave};

use crate::counts::tell;
use crate::saves::save;
use exit_status::Stop;
use farm_base::Sink;
use farm_plan::Tally;
use farm_shared::Closed;
use std::alloc::Global;
use tile_store::TileStore;

fn save_if<D: TileStore>(
    alloc: Global,
    resume: bool,
    why: Result<(), Stop>,
    closed: &mut Closed<D>,
) -> Result<(), Stop>
    requires { IsAfter D.state closed.old.0 closed.old.1 }
    ensures saves { MaySave D.state resume why closed.old.0 closed.new.0 closed.old.1 result }
    ensures history { closed.new.1 ≡ closed.old.1 }
{
    why?;
    if resume { save(alloc, closed) } else { Ok(()) }
}

/// Ends a farm that has served: where it is to resume and ended in order it is saved, and then the line of its counts is
/// put, also where it did not end in order. Answers how the call ends: SinkFailed where the line could not be put, and
/// else as the run ended or the saving did.
pub fn wind_up<D: TileStore, O: Sink>(
    alloc: Global,
    resume: bool,
    why: Result<(), Stop>,
    tally: Option<Tally>,
    closed: &mut Closed<D>,
    out: &mut O,
) -> Result<(), Stop>
    requires { IsAfter D.state closed.old.0 closed.old.1 }
    ensures winds { WindsUp D.state resume why tally closed.old.0 closed.new.0 closed.old.1 (O.state out.old) (O.state out.new) result }
    ensures history { closed.new.1 ≡ closed.old.1 }
{
    let end = save_if(alloc, resume, why, closed);
    tell(out, tally, end)
}

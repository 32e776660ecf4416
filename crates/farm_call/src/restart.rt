//! Farms that go on where another one stopped.
ghost use Rattle.farm_call.specs.Restart.{LawRestart, LawGoesOn};

use tile_store::TileStore;

/// Over any number of runs, each of which goes on where the one before it stopped, what is promised of each rests on what the
/// store told when the first began.
pub fn law_restart<D: TileStore>()
    ensures tells { LawRestart D.state }
    ensures promise { LawGoesOn D.state }
{}

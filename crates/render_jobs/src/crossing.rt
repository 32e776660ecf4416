//! What of a drawing crosses threads. Each fact is stated of a whole type, since the check opens a type to
//! its bottom where none is at hand.
ghost use Rattle.std.specs.Thread.{IsSend, IsSync};
ghost use Rattle.data_versions.specs.contracts.dataset.Update as update;
ghost use Rattle.data_versions.specs.contracts.snapshot.Snapshot as snapshot;
ghost use Rattle.render_jobs.specs.contracts.shares.Setup as setup;
ghost use Rattle.render_jobs.specs.contracts.shares.Share as share;
ghost use Rattle.render_jobs.specs.contracts.taken.Taken as taken;
ghost use Rattle.farm_plan.specs.contracts.plans.MapPlan as map_plan;
ghost use Rattle.farm_plan.specs.contracts.plans.Restyle as restyle;

use crate::shares::Share;
use crate::taken::Taken;
use data_versions::{Snapshot, Update};
use farm_plan::{MapPlan, Restyle};

fn sends<T: Send>()
    ensures { IsSend T.row }
{}

fn syncs<T: Sync>()
    ensures { IsSync T.row }
{}

fn cross_map_plan()
    ensures send { IsSend map_plan.the_row }
    ensures sync { IsSync map_plan.the_row }
{
    sends::<MapPlan>();
    syncs::<MapPlan>();
}

fn cross_restyle()
    ensures send { IsSend restyle.the_row }
    ensures sync { IsSync restyle.the_row }
{
    sends::<Restyle>();
    syncs::<Restyle>();
}

fn cross_snapshot()
    ensures send { IsSend snapshot.the_row }
    ensures sync { IsSync snapshot.the_row }
{
    sends::<Snapshot>();
    syncs::<Snapshot>();
}

fn cross_update()
    ensures send { IsSend update.the_row }
    ensures sync { IsSync update.the_row }
{
    sends::<Update>();
    syncs::<Update>();
}

fn cross_setup()
    ensures send { IsSend setup.the_row }
    ensures sync { IsSync setup.the_row }
{
    cross_map_plan();
    cross_restyle();
    cross_snapshot();
    cross_update();
}

/// A share crosses threads.
pub fn cross_share()
    ensures send { IsSend share.the_row }
    ensures sync { IsSync share.the_row }
{
    cross_setup();
    cross_snapshot();
    sends::<Share>();
    syncs::<Share>();
}

/// A drawing under way crosses threads.
pub fn cross_taken()
    ensures { IsSend taken.the_row }
{
    sends::<Taken>();
}

//! That a farm crosses threads. Each fact is stated of a whole type, since the check opens a type to its bottom
//! where none is at hand.
ghost use denote.Builtin.{u32};
ghost use Rattle.std.specs.Thread.{IsSend};
ghost use Rattle.std.specs.contracts.option.Option as option;
ghost use Rattle.expiry_lists.specs.contracts.marks.Marks as marks;
ghost use Rattle.farm_core.specs.contracts.farm.Farm as farm;
ghost use Rattle.farm_history.specs.contracts.saved.Past as past;
ghost use Rattle.farm_history.specs.contracts.saved.Saved as saved;
ghost use Rattle.render_queues.specs.contracts.queues.Queues as queues;

use expiry_lists::Marks;
use farm_history::{Past, Saved};
use render_jobs::{cross_share, cross_taken};
use render_queues::Queues;

fn sends<T: Send>()
    ensures { IsSend T.row }
{}

fn cross_marks()
    ensures { IsSend marks.the_row }
{
    sends::<Marks>();
}

fn cross_queues()
    ensures { IsSend queues.the_row }
{
    sends::<Queues>();
}

fn cross_styled()
    ensures { IsSend (option.the_row u32) }
{
    sends::<Option<u32>>();
}

fn cross_past()
    ensures past { IsSend past.the_row }
    ensures saved { IsSend saved.the_row }
{
    sends::<Past>();
    sends::<Saved>();
}

/// A farm crosses threads where its store does.
pub fn cross_farm<D: Send>()
    ensures { IsSend (farm.the_row D.row) }
{
    cross_share();
    cross_taken();
    cross_marks();
    cross_queues();
    cross_past();
    cross_styled();
}

//! A farm that begins where another stopped in order, or anew.
ghost use Rattle.std.specs.Prelude.{◌≡◌, ◌<◌, Some, None, IfOk, length, option_map};
ghost use Rattle.farm_plan.specs.Plans.{IsPlan};
ghost use Rattle.farm_call.specs.Beginnings as spec;
ghost use Rattle.farm_call.specs.inner.Setups.{BeganBy, Tells};

use exit_status::{FaultText, Stop, refused};
use farm_base::{NoMemory, Text};
use farm_core::{Farm, FarmPlan, ResumeFault};
use farm_saved::read_saved;
use std::alloc::Global;
use tile_store::TileStore;

/// Where a farm that stops in order is saved in its store.
pub const SAVED_PATH: &str = "farm.saved";

fn resume_text(alloc: Global, fault: ResumeFault) -> Result<Text, NoMemory>
    ensures { IfOk result (λ t. spec.resume_text fault ≡ Some t) }
{
    match fault {
        ResumeFault::Maps(_) => Text::of(alloc, "resume 1"),
        ResumeFault::Number(_) => Text::of(alloc, "resume 2"),
        ResumeFault::Kept(_) => Text::of(alloc, "resume 3"),
        ResumeFault::Apply(_, _) => Text::of(alloc, "resume 4"),
        ResumeFault::NoMemory => Err(NoMemory),
    }
}

fn refusal(alloc: Global, text: Result<Text, NoMemory>) -> Stop
    ensures { Tells text result }
{
    match text {
        Ok(text) => refused(alloc, SAVED_PATH, text.as_str()),
        Err(_) => Stop::NoMemory,
    }
}

/// A farm of the plan over the store, in which nothing has happened.
pub fn start<D: TileStore>(alloc: Global, plan: FarmPlan, store: D) -> Result<Farm<D>, (D, Stop)>
    requires { IsPlan plan }
    ensures { BeganBy D.state plan store None result }
{
    match Farm::start(alloc, plan, store) {
        Ok(farm) => Ok(farm),
        Err(store) => Err((store, Stop::NoMemory)),
    }
}

// A farm of the plan over the store that begins where the one stopped of which this is the text.
fn resume<D: TileStore>(
    alloc: Global,
    plan: FarmPlan,
    store: D,
    bytes: &[u8],
) -> Result<Farm<D>, (D, Stop)>
    requires plan { IsPlan plan }
    requires some { 0 < length bytes.now }
    ensures { BeganBy D.state plan store (Some bytes.now) result }
{
    let saved = match read_saved(alloc, bytes) {
        Ok(saved) => saved,
        Err(fault) => return Err((store, refusal(alloc, fault.text(alloc)))),
    };
    match Farm::resume(alloc, plan, store, &saved) {
        Ok(farm) => Ok(farm),
        Err((store, fault)) => Err((store, refusal(alloc, resume_text(alloc, fault)))),
    }
}

/// A farm of the plan over the store that begins by what was found of a saved one: anew where nothing was, or no
/// bytes.
#[tactic(auto, using(crate::proofs::Found::began_empty))]
pub fn begin_by<D: TileStore>(
    alloc: Global,
    plan: FarmPlan,
    store: D,
    found: &Option<Vec<u8>>,
) -> Result<Farm<D>, (D, Stop)>
    requires { IsPlan plan }
    ensures { BeganBy D.state plan store (option_map (λ v. v.items) found.now) result }
{
    match found {
        None => start(alloc, plan, store),
        Some(bytes) => {
            if bytes.is_empty() {
                return start(alloc, plan, store);
            }
            resume(alloc, plan, store, bytes.as_slice())
        }
    }
}

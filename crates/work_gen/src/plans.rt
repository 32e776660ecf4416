//! The plan.
ghost use Rattle.std.specs.Prelude.{◌≡◌, ◌≤◌, IfOk};
ghost use Rattle.farm_plan.specs.Plans.{IsPlan};
ghost use Rattle.work_gen.specs.Work.{work_plan};

use crate::data::dataset;
use crate::styles::map_style;
use arrayvec::ArrayString;
use farm_base::NoMemory;
use farm_plan::{FarmPlan, Limits, MapPlan};
use std::alloc::Global;

/// The plan of a farm with so many features, from 1 to 100,000: their places, sizes and kinds are the
/// draws of the seed, four for each.
#[tactic(auto, unfolding(crate::specs::Work::work_plan), using(crate::proofs::Sound::plan_sound))]
pub fn plan(alloc: Global, seed: u64, features: u32) -> Result<FarmPlan, NoMemory>
    requires { features ≤ 100000 }
    ensures value { IfOk result (λ p. p ≡ work_plan seed features) }
    ensures valid { IfOk result (λ p. IsPlan p) }
{
    let dataset = dataset(alloc, seed, features)?;
    let mut maps = Vec::new(alloc);
    maps.push(MapPlan {
        name: ArrayString::from("default").unwrap(),
        style: map_style(alloc)?,
        tile: 256,
        max_zoom: 18,
    })?;
    Ok(FarmPlan {
        maps,
        dataset,
        updates: Vec::new(alloc),
        workers: 1,
        limits: Limits {
            prio: 32,
            request: 32,
            low: 32,
            dirty: 1000,
            bulk: 32,
        },
        restyles: Vec::new(alloc),
    })
}

//! All files that a configuration names.
ghost use Rattle.std.specs.Prelude.{◌≡◌, IfOk};
ghost use Rattle.farm_files.specs.inner.Follows.{Follows};
ghost use Rattle.farm_plan.specs.Plans.{IsPlan};
ghost use Rattle.farm_files.specs.Courses.{inputs_course};

use crate::layers::data_layers;
use crate::lists::load_each;
use crate::loaders::{ListFiles, MapFiles, RestyleFiles, UpdateFiles};
use exit_status::Stop;
use expiry_lists::TileList;
use farm_base::Files;
use farm_config::Config;
use farm_plan::FarmPlan;
use std::alloc::Global;
use std::marker::Model;

/// What a configuration's files say: the plan of the farm, and its expiry lists.
#[derive(Drop)]
pub struct FarmInputs {
    pub plan: FarmPlan,
    pub lists: Vec<TileList>,
}

impl Model for FarmInputs {
    ghost use Rattle.farm_files.specs.Inputs.{FarmInputs};
    ghost use Rattle.plain_filters.specs.inner.FilterCodes.{filter_code};
    ghost use Rattle.std.specs.Coded.{codes};

    ghost Value = { FarmInputs };

    ghost coded = { Prim.hlevel (codes, filter_code) };

    ghost view = { λ i. record { plan = i.plan; lists = i.lists.items } };
}

/// Reads the files that a configuration names: the styles of its maps, each with its rasters, those of its
/// restyles, the data, the updates and the expiry lists, in this order, and gives the plan that they make.
/// It ends at the first file that is refused or cannot be read.
pub fn farm_inputs<F: Files>(
    alloc: Global,
    files: &mut F,
    config: &Config,
) -> Result<FarmInputs, Stop>
    ensures follows { Follows (inputs_course config.now) (F.state files.old)
        (F.state files.new) result }
    ensures valid { IfOk result (λ i. IsPlan i.plan) }
{
    let maps = load_each(alloc, &MapFiles, files, config.maps.as_slice())?;
    let restyles = load_each(alloc, &RestyleFiles, files, config.restyles.as_slice())?;
    let dataset = data_layers(alloc, files, config.dataset.as_str())?;
    let updates = load_each(alloc, &UpdateFiles, files, config.updates.as_slice())?;
    let lists = load_each(alloc, &ListFiles, files, config.expiries.as_slice())?;
    Ok(FarmInputs {
        plan: FarmPlan {
            maps,
            dataset,
            updates,
            workers: config.workers,
            limits: config.limits,
            restyles,
        },
        lists,
    })
}

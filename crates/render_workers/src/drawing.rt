//! The drawing of a job.
ghost use Rattle.std.specs.Prelude.{◌≡◌};
ghost use Rattle.farm_plan.specs.Jobs.{IsValidJob};
ghost use Rattle.farm_core.specs.Answers.{IsDrawingOf};

use farm_base::NoMemory;
use farm_core::{Drawn, Job};
use meta_drawing::draw_job;
use std::alloc::Global;
use tile_store::{Stage, stage_bytes};

/// What is handed back of a job: the container of its metatile, or that there was no memory for it.
pub fn draw(alloc: Global, job: &Job) -> Drawn
    requires { IsValidJob job.now }
    ensures { IsDrawingOf job.now result }
{
    match draw_job(alloc, job) {
        Ok(bytes) => Drawn::Bytes(bytes),
        Err(NoMemory) => Drawn::NoMemory,
    }
}

/// The same drawing, staged under its ticket where that can be done.
pub(crate) fn stage<G: Stage>(gate: &G, alloc: Global, job: &Job, drawn: Drawn) -> Drawn
    requires { IsDrawingOf job.now drawn }
    ensures { IsDrawingOf job.now result }
{
    match drawn {
        Drawn::Bytes(bytes) => match stage_bytes(gate, alloc, job.ticket, bytes) {
            Ok(staged) => Drawn::Staged(staged),
            Err(bytes) => Drawn::Bytes(bytes),
        },
        other => other,
    }
}

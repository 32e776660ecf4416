//! The drawing of a job.
ghost use Rattle.std.specs.Prelude.{◌≡◌, IfOk};
ghost use Rattle.farm_plan.specs.Jobs.{IsValidJob, job_text};

use crate::containers::draw_container;
use farm_base::NoMemory;
use render_jobs::Job;
use std::alloc::Global;

/// Draws the metatile of a job, in its style and over its data, and gives it as the container that is
/// stored.
pub fn draw_job(alloc: Global, job: &Job) -> Result<Vec<u8>, NoMemory>
    requires { IsValidJob job.now }
    ensures { IfOk result (λ v. v.items ≡ job_text job.now) }
{
    draw_container(alloc, job.style(), job.tile, job.meta, job.snapshot())
}

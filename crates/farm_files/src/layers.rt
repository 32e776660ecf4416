//! Data files.
ghost use Rattle.geo_json.specs.DataTexts.{dataset_in};
ghost use Rattle.exit_status.specs.DataFaults.{data_text};
ghost use Rattle.farm_files.specs.Course.{file};
ghost use Rattle.farm_files.specs.inner.Follows.{Follows};

use crate::files::{checked, read_file};
use data_versions::Dataset;
use exit_status::Stop;
use farm_base::Files;
use geo_json::read_data;
use std::alloc::Global;

/// Reads a data file and checks it.
#[tactic(auto, using(crate::proofs::Judged::file_stops))]
pub fn data_layers<F: Files>(alloc: Global, files: &mut F, name: &str) -> Result<Dataset, Stop>
    ensures { Follows (file dataset_in data_text name.now) (F.state files.old)
        (F.state files.new) result }
{
    let bytes = read_file(alloc, files, name)?;
    checked(alloc, name, read_data(alloc, bytes.as_slice()))
}

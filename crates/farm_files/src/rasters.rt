//! Raster files: each is a PPM text that makes the grid of a raster.
ghost use Rattle.std.specs.Prelude.{◌≡◌, Some, IfOk};
ghost use Rattle.plain_image.specs.declared.reading.PpmFault.TheVariants as ppm;
ghost use Rattle.reading.specs.Steps.{Gives};
ghost use Rattle.farm_files.specs.inner.Follows.{Follows};
ghost use Rattle.farm_files.specs.MapCourses.{raster_course};
ghost use Rattle.farm_files.specs.inner.Rasters.{raster_in, raster_text, with_image};
ghost use Rattle.farm_files.specs.declared.rasters.RasterFault.TheVariants as fault;

use crate::files::{checked, read_file};
use crate::lists::Load;
use exit_status::{FaultText, Stop, grid_text, ppm_text};
use farm_base::{Files, NoMemory, Text};
use plain_drawing::{Grid, RasterRef};
use plain_image::{Image, PpmFault, read_ppm};
use raster_layers::{GridFault, make_grid};
use std::alloc::Global;

/// Why a raster file is refused; want of memory is that of its PPM text.
#[derive(Clone, Copy)]
pub enum RasterFault {
    /// It is no PPM text.
    Ppm(PpmFault),
    /// Its picture makes no grid.
    Grid(GridFault),
}

impl From<NoMemory> for RasterFault {
    ghost use Rattle.std.specs.Prelude.{◌≡◌};
    ghost use Rattle.plain_image.specs.declared.reading.PpmFault.TheVariants as ppm;
    ghost use Rattle.farm_files.specs.declared.rasters.RasterFault.TheVariants as fault;

    ghost from_gives = { λ _ e. e ≡ fault.Ppm ppm.NoMemory };

    fn from(_refused: NoMemory) -> RasterFault {
        RasterFault::Ppm(PpmFault::NoMemory)
    }
}

impl FaultText for RasterFault {
    ghost use Rattle.farm_files.specs.inner.Rasters.{raster_text};

    ghost text = { raster_text };

    fn text(self, alloc: Global) -> Result<Text, NoMemory>
        ensures { IfOk result (λ t. raster_text self ≡ Some t) }
    {
        match self {
            RasterFault::Ppm(fault) => ppm_text(alloc, fault),
            RasterFault::Grid(fault) => grid_text(alloc, fault),
        }
    }
}

/// Reads the raster files of a style, each as the grid of its raster.
pub(crate) struct RasterFiles;

impl Load for RasterFiles {
    ghost use Rattle.farm_files.specs.MapCourses.{raster_course};

    type Item = RasterRef;

    type Value = Grid;

    ghost course = { λ _ raster. raster_course raster };

    fn load<F: Files>(&self, alloc: Global, files: &mut F, raster: &RasterRef) -> Result<Grid, Stop>
        ensures { Follows (raster_course raster.now) (F.state files.old)
            (F.state files.new) result }
    {
        raster_file(alloc, files, raster)
    }
}

#[tactic(auto, using(crate::proofs::Fitting::raster_stops))]
fn raster_file<F: Files>(alloc: Global, files: &mut F, raster: &RasterRef) -> Result<Grid, Stop>
    ensures { Follows (raster_course raster.now) (F.state files.old) (F.state files.new) result }
{
    let name = raster.file.as_str();
    let bytes = read_file(alloc, files, name)?;
    checked(alloc, name, read_raster(alloc, raster, bytes.as_slice()))
}

#[tactic(auto, using(crate::proofs::Reading::ppm_refused, crate::proofs::Reading::ppm_read))]
fn read_raster(alloc: Global, raster: &RasterRef, bytes: &[u8]) -> Result<Grid, RasterFault>
    ensures { Gives (fault.Ppm ppm.NoMemory) (λ x. x) (raster_in raster.now bytes.now) result }
{
    match read_ppm(alloc, bytes) {
        Ok(image) => grid_of(alloc, raster, image),
        Err(fault) => Err(RasterFault::Ppm(fault)),
    }
}

fn grid_of(alloc: Global, raster: &RasterRef, image: Image) -> Result<Grid, RasterFault>
    ensures { Gives (fault.Ppm ppm.NoMemory) (λ x. x) (with_image raster.now image) result }
{
    let name = Text::of(alloc, raster.name.as_str())?;
    let (cols, rows) = (image.cols(), image.rows());
    let bytes = image.into_bytes();
    match make_grid(
        name,
        raster.west,
        raster.north,
        raster.pixel,
        cols,
        rows,
        bytes,
    ) {
        Ok(grid) => Ok(grid),
        Err(fault) => Err(RasterFault::Grid(fault)),
    }
}

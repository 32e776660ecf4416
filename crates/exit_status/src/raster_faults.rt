//! Faults of raster files: of their PPM text, and of the grid that it makes.
ghost use Rattle.std.specs.Prelude.{◌≡◌, Some, IfOk};
ghost use Rattle.exit_status.specs.RasterFaults as spec;

use farm_base::{NoMemory, Text};
use plain_image::PpmFault;
use raster_layers::GridFault;
use std::alloc::Global;

/// The text of a PPM text's fault: its number, and the offset of a bad byte.
pub fn ppm_text(alloc: Global, fault: PpmFault) -> Result<Text, NoMemory>
    ensures { IfOk result (λ t. spec.ppm_text fault ≡ Some t) }
{
    match fault {
        PpmFault::Bad(offset) => { Ok(Text::from_string(format!(in alloc; "ppm 1 at {offset}")?)) }
        PpmFault::TooLarge => Text::of(alloc, "ppm 2"),
        PpmFault::NoMemory => Err(NoMemory),
    }
}

/// The text of a grid's fault: its number.
pub fn grid_text(alloc: Global, fault: GridFault) -> Result<Text, NoMemory>
    ensures { IfOk result (λ t. spec.grid_text fault ≡ Some t) }
{
    match fault {
        GridFault::Size => Text::of(alloc, "grid 1"),
    }
}

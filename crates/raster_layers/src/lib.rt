//! Raster layers: base pictures that lie under the vector layers of a map.
//!
//! What is proved: `make_grid`; `law_same_scale`: at a window's own scale a picture is drawn as it is.
#![tactic(auto)]

mod grids;
mod laws;

pub use grids::{GridFault, make_grid};
pub use laws::law_same_scale;
pub use plain_drawing::Grid;

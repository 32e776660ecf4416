//! Features: shapes of the world with attributes, within the limits of the farm's data.
//!
//! What is proved: `make_feature` with its faults in order.
#![tactic(auto)]

mod bounds;
mod checks;
mod copies;
mod faults;
mod feature;

pub use bounds::Bounds;
pub use faults::GeoFault;
pub use feature::{Feature, make_feature};
pub use plain_shapes::{Geometry, Path};
pub use plain_world::Point;

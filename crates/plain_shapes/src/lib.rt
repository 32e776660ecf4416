//! Shapes, colours and data: paths and geometries, which points lie in rings, strokes and marks, how a colour is
//! painted over another, and masks and images as lists with their PPM text; features and their layers, what an
//! update makes of them, which squares a feature reaches, and the limits of data.
//!
//! The crates of pictures stand on it (`plain_image`, `raster_core`, `stroke_core`, `mark_core`), those of features
//! and their versions (`geo_model`, `data_versions`, `geo_json`), and what draws features.
//!
//! What is proved: definitions, and laws of them that crates above carry in their contracts: centres and marked bits by
//! their places.
#![tactic(auto)]

mod colour;
mod limits;
mod shapes;

pub use colour::Colour;
pub use limits::{
    MOST_ATTRS, MOST_DATA_LAYERS, MOST_FEATURES, MOST_NAME_BYTES, MOST_POINTS, MOST_WIDTH,
};
pub use shapes::{Geometry, LineCap, Path};

//! Data and updates as JSON texts: the dataset or update that a text says, or its first fault.
//!
//! What is proved: `read_data` and `read_update`: what the text says, or the first fault by place.
#![tactic(auto)]

mod attributes;
mod coordinates;
mod datasets;
mod faults;
mod feature_texts;
mod geometries;
mod openings;
mod pulled_changes;
mod pulled_data;
mod pulled_layers;
mod pulled_updates;
mod updates;

pub use coordinates::Units;
pub use datasets::read_data;
pub use faults::DataFault;
pub use updates::read_update;

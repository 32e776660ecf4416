//! Data in versions: datasets, updates and snapshots that never change.
//!
//! What is proved: `apply` is the list of changes, or its first fault; a `LayerView` is its layer's list, whatever
//! chunks it is kept in; a `Snapshot` says of its layers that they are valid data (`finders`), and a `LayerFinder`
//! finds the features of its layer by their ids, whether by a table or not; a walk over the features `near` a rectangle
//! gives those of that list, in order, and leaves out none but such as have none of the marks that it asks for. That an
//! update shares the chunks that it leaves alone is in no contract.
#![tactic(auto)]

mod block;
mod blocks;
mod builder;
mod chunk;
mod chunked;
mod dataset;
mod edit;
mod edited;
mod edits;
mod extent;
mod finder;
mod grid;
mod question;
mod segment;
mod shared;
mod sieve;
mod slot;
mod slots;
mod snapshot;
mod updates;
mod walk;

pub use dataset::{Change, Dataset, Layer, Update};
pub use farm_base::ApplyFault;
pub use finder::LayerFinder;
pub use geo_model::Feature;
pub use shared::SharedFeature;
pub use snapshot::{LayerView, Snapshot};
pub use updates::apply;
pub use walk::NearFeatures;

//! The paths of stored metatiles, both ways. Nothing here takes memory.
//!
//! What is proved: `path` and `read_path` are inverse, and no two metatiles have one path (`law_one_path`); `is_name`
//! says which names of maps have paths.
#![tactic(auto)]

mod laws;
mod names;
mod reading;
mod writing;

pub use laws::law_one_path;
pub use names::is_name;
pub use reading::read_path;
pub use writing::path;

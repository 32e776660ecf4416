//! Configurations of a farm: JSON texts, read whole, each fault by the number of its key.
//!
//! What is proved: `read_config`: the configuration that the text says, or the first fault in reading order with its
//! key (`config_in`, laid out as the table of `docs/operate/config.md`); what is read keeps its limits, names its maps
//! apart, and restyles maps that are there.
#![tactic(auto)]

mod addresses;
mod config;
mod fault;
mod files;
mod kinds;
mod limits;
mod maps;
mod opening;
mod queue_limits;
mod reading_config;
mod restyles;

pub use config::{Config, MapEntry, RestyleEntry};
pub use fault::ConfigFault;
pub use reading_config::read_config;

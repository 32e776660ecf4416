//! How a command ends: why it ended early, the status that tells it, and the line that it gives on err.
//!
//! A refusal's line has the text of a fault: of styles, data, raster files, META containers, configurations, scripts,
//! expiry lists and saved farms. Want of memory has no text: a function here that is given it answers it. No text is
//! refused for it.
//!
//! What is proved: How a command ends: its status, its line on standard error, what is put and reported (`put`,
//! `report`, `refused`, `unreadable`); the texts of the faults of styles, data, raster files, containers,
//! configurations, scripts, expiry lists and saved farms, exactly (`style_text`, `data_text`, `ppm_text`, `grid_text`,
//! `meta_text`, `config_text`, `script_text`, `list_text`, `saved_text`); whatever the bytes of such a file are refused
//! for has a text, so they are valid or refused, and never without a word (`law_styles_are_told`, `law_data_are_told`,
//! `law_rasters_are_told`, `law_configs_are_told`, `law_lines_are_told`, `law_saved_are_told`).
#![tactic(auto)]

mod config_faults;
mod data_faults;
mod laws;
mod line_faults;
mod meta_faults;
mod raster_faults;
mod saved_faults;
mod sinks;
mod stops;
mod style_faults;
mod told;

pub use laws::{
    law_configs_are_told, law_data_are_told, law_lines_are_told, law_rasters_are_told,
    law_saved_are_told, law_styles_are_told,
};
pub use raster_faults::{grid_text, ppm_text};
pub use sinks::{put, report};
pub use stops::{Stop, refused, unreadable};
pub use style_faults::part_text;
pub use told::FaultText;

//! The files of a map, a style with the raster files that it names and data; and those of a farm: its configuration
//! and all the files that this names, as the plan of the farm with its expiry lists, and scripts. Each file is read and
//! checked before the next, and the first that is refused or cannot be read ends the command. Laws tell what a call
//! promises whose text such a reading makes.
//!
//! What is proved: A command's reading of files as a course: the file that is read next, and what its bytes lead to.
//! Code follows a course (`read_file`, `checked`, `load_each`). The files of a farm: those that a configuration names,
//! in order, as a valid plan with its expiry lists (`farm_inputs`, `inputs_course`); a configuration, these files and a
//! script (`script_files`, `script_course`); a configuration with all three addresses and these files (`serve_files`,
//! `serve_course`). The files of a map: a style and then its raster files in order (`bound_style`, `style_course`),
//! data (`data_layers`).
#![tactic(auto)]

mod configs;
mod files;
mod inputs;
mod layers;
mod lists;
mod loaders;
mod rasters;
mod scripts;
mod styles;

pub use configs::addressed_config;
pub use files::{checked, read_file};
pub use inputs::{FarmInputs, farm_inputs};
pub use layers::data_layers;
pub use lists::{Load, load_each};
pub use rasters::RasterFault;
pub use scripts::{ScriptInputs, ServeInputs, script_files, serve_files};
pub use styles::bound_style;

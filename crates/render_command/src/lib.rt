//! The commands that put what one reading of files gives: `render` draws a tile of a style, its raster files and data;
//! `meta` says in lines what a META container holds.
//!
//! What is proved: `render`: the style, its raster files and the data are read, and the tile is drawn and put
//! (`render_course`). `meta`: the file is read, and the lines of its listing are put (`meta_course`).
#![tactic(auto)]

mod asked;
mod command;
mod meta_command;
mod meta_lines;

pub use asked::RenderWords;
pub use command::render;
pub use meta_command::meta;

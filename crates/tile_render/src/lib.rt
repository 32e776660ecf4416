//! Tiles of a map: the drawing of a style over data, pixel by pixel.
//!
//! What is proved: `draw_tile` is `drawn_tile`, the plain drawing, for every style over any data; `draw_meta` draws one
//! picture of a metatile and cuts it, and each tile is its plain drawing, in order of index place. `draw_picture` hands
//! out that picture, kept as the texts of its tiles with room for bytes before them. `render` calls the first; workers,
//! scripts and generated work draw by the last, through `meta_drawing`. (A symbolizer looks at the pixels near its
//! feature alone, and features far from the window are passed over; that is in no contract.)
#![tactic(auto)]

mod ahead;
mod brushes;
mod canvas;
mod covers;
mod grids;
mod items;
mod layers;
mod metatiles;
mod nearby;
mod painting;
mod pieces;
mod regions;
mod rules;
mod scaled;
mod styles;
mod symbolizers;
mod tiles;

pub use metatiles::{DrawnMeta, draw_meta, draw_picture};
pub use tiles::draw_tile;

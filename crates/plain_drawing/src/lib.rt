//! What is meant by a drawing: styles with their rules, grids, and the colour of each point of a tile.
//!
//! It joins the world, shapes, data and filters. Styles, raster files and the drawing of tiles stand on it.
//!
//! What is proved: Definitions of styles and of the drawing, and laws of them that proofs above use: a fold of pictures
//! is the fold at each centre (for `draw_tile`), a tile is the cut of its metatile's picture (for `draw_meta`).
//! `Grid::at` is the grid's pixel under a point, `MapStyle::bind` keeps the rest of the style.
#![tactic(auto)]

mod grid;
mod limits;
mod style;

pub use grid::Grid;
pub use limits::{
    MOST_FILE_BYTES, MOST_GRID_SIDE, MOST_MAP_LAYERS, MOST_RASTERS, MOST_RULES, MOST_STYLES,
    MOST_SYMBOLIZERS,
};
pub use style::{FilterMode, LayerRef, MapStyle, RasterRef, Rule, Style, Symbolizer};

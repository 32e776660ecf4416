//! Style texts: Mapnik's style objects as JSON, read whole, each fault by its place.
//!
//! What is proved: `read_style`: the style that the text says, or the first fault in reading order with its place
//! (`style_by`, laid out as the tables of `docs/maps/styles.md`), where filters, colours, numbers and pictures are what
//! their grammars say (`SaysGrammar`). There is one such reading, and so one style (`law_styles_by_grammar`);
//! `style_in` has it as a function.
#![tactic(auto)]

mod fault;
mod keys;
mod kinds;
mod laws;
mod layers;
mod map_style;
mod rasters;
mod rules;
mod style_list;
mod symbolizers;

pub use fault::{At, Part, StyleFault};
pub use laws::law_styles_by_grammar;
pub use map_style::read_style;
pub use plain_drawing::{FilterMode, Grid, LayerRef, MapStyle, RasterRef, Rule, Style, Symbolizer};
pub use plain_shapes::LineCap;

//! Square images that are kept as the texts of their tiles, one behind another, as a container stores them.
//!
//! What is proved: `TiledImage`: a square image of up to 8 by 8 tiles of one of the six sizes, whose model is that of
//! every image: its sides, and its pixels by rows. `over` makes one of one colour, `pixel` answers a colour, `blend`
//! and `blend_run` paint by the formula of `plain_image`, and `put_part` appends the text of a part. `into_texts`
//! answers bytes that were handed in and behind them the texts of its tiles by columns (`part_texts`), or the image
//! itself. (It answers the bytes where the image was made of such tiles with room for as many bytes before them,
//! without copying a pixel; that is in no contract.)
#![tactic(auto)]

mod tile_texts;
mod tiled_image;

pub use tiled_image::TiledImage;

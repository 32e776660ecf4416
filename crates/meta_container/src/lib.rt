//! META containers: the files in which a metatile's tiles are stored, written and read.
//!
//! What is proved: `encode` is the container's layout; `put_head` writes what comes before the tiles where these have
//! all one size, so that they can be written straight behind it; over a container `tile_in` and `entry_in` give each
//! tile back (`law_tiles_come_back`), and over any bytes the first fault; the drawings of a metatile's tiles can be
//! kept so, and each comes back (`law_drawn_container`).
#![tactic(auto)]

mod container;
mod laws;
mod reading;
mod writing;

pub use container::{Entry, HEAD_BYTES, Listing, PLACES};
pub use farm_base::MetaFault;
pub use laws::{law_drawn_container, law_tiles_come_back};
pub use reading::{entry_in, is_meta, listing, tile_in};
pub use writing::{encode, put_head, put_number};

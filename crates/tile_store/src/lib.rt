//! Tile stores: bytes that are put under paths and gotten back, whole or in part. The store in memory
//! tells what it holds and which calls failed; the store in files does not tell.
//!
//! What is proved: The trait of stores: a put holds the bytes and changes no other path, at once or of bytes that were
//! staged before, a get changes nothing, a failure only where the count rose. What was staged is seen as its bytes and
//! its number, which `stage_bytes` alone gives it, and as what was written, where the one who stages says more of that
//! than its answer (`wrote`). `MemStore` exactly; `FileStore` without telling its content, but it fails at texts that
//! are no paths of its own (`taken`), reads a part of the path's own file and keeps none over a put (`own`, `forgets`),
//! and gives no part that is longer than a tile's text can be (`at_most`).
#![tactic(auto)]

mod files;
mod folder;
mod memory;
mod staging;
mod stores;

pub use files::{FileStaging, FileStore, MOST_PART_BYTES};
pub use folder::Folder;
pub use memory::MemStore;
pub use staging::{Stage, Staged, stage_bytes};
pub use stores::{StoreFault, TileStore};

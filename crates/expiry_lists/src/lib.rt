//! Marks of what is shown of metatiles, kept in quadtrees, and expiry lists.
//!
//! What is proved: `Marks` is a finite map from keys to version and cleanness: `show`, `hide`, `of` exactly; `expire`,
//! `expire_map`, `expire_boxes`, `expire_box`, `expire_one` make dirty exactly the entries that overlap, are near, hold
//! a point of the rectangle or are named, and answer exactly how many were clean; `kept` lists exactly the clean ones
//! in order. Only `reserve_one` and `kept` take memory. `read_list`: the tiles of an expiry list's text, or the first
//! line that is none (`list_in`).
#![tactic(auto)]

mod boxes;
mod faults;
mod hashing;
mod keeping;
mod lists;
mod marks;
mod nodes;
mod places;
mod rectangles;
mod table;
mod waking;
mod walks;

pub use boxes::{comes_near, margin_of, some_comes_near};
pub use farm_history::{Kept, Key, Mark};
pub use faults::ListFault;
pub use lists::{TileList, read_list};
pub use marks::Marks;

//! Readers of JSON values with exact first faults: the steps, kinds of values, keys and lists that the
//! readers of styles, data, updates and configurations are made of; and the lines of texts, which those of
//! scripts and expiry lists go by. Each is generic in its fault.
//!
//! What is proved: Readers of JSON values: the value or the first fault in reading order, over what `serde_json` reads
//! (`read_json`, `opened`, `within`, `read_list`, ..); the lines of texts (`items_after`, by which scripts and expiry
//! lists are read).
#![tactic(auto)]

mod json;
mod keys;
mod lines;
mod lists;
mod scalars;

pub use json::{ReadFault, read_json};
pub use keys::opened;
pub use lines::line_text;
pub use lists::{ReadItem, ReadKnown, read_list, read_list_with};
pub use scalars::{list, signed, text, whole_number, within};

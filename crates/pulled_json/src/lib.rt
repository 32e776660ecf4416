//! JSON texts read without a tree of the whole: single values, lists and objects, pulled from the tokens of a
//! text one after another. None says that the text is refused, or read otherwise, or that memory ran out.
//!
//! What is proved: Values, lists and objects taken from the tokens of a text (`value_from`, `pull_list`, `pull_object`,
//! `pull_text`): where one answers a value, the text says it by `serde_json`'s own definition, its items are read each
//! after those before, and of its members what the caller gathers is what they say. None says nothing: it may come of a
//! refusal or of want of memory.
#![tactic(auto)]

mod lists;
mod objects;
mod texts;
mod values;

pub use lists::{PullItem, pull_list};
pub use objects::{PullMember, pull_object};
pub use texts::pull_text;
pub use values::{str_from, value_from};

//! Which columns and rows of a window have their centres in a stretch of the world, and the loop that
//! sets the bits of a shape within its own rows and columns.
//!
//! What is proved: which columns and rows have their centres in a stretch, and the roots and quotients for it: each
//! function equals its definition; `mark` sets the bits of a shape's stretches and no others; where `is_known`, all bits of
//! what lies in a round are set.
#![tactic(auto)]

mod known;
mod marking;
mod numbers;
mod shapes;
mod sides;
mod stretches;

pub use known::{Round, is_known};
pub use marking::{mark, mark_within, set_run};
pub use numbers::{apart, inverse, root, short_root};
pub use shapes::{Shape, Stretch};
pub use sides::first_at;
pub use stretches::{Growing, around, narrowed, no_more, nowhere};

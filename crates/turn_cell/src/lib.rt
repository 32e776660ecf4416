//! A lock whose turns have one history: each turn runs one call on the value and adds one entry, and
//! every seat knows a beginning of that one history, in which all of its own entries stand.
//!
//! What is proved: A lock whose turns have one history, for every schedule and any number of seats: what a seat has
//! seen is a prefix of it, a turn adds its entry, `Worn` comes only where the limit was drawn, `close` gives the value
//! with its whole history (`docs/carry-on/turns.md`).
#![tactic(auto)]

mod call;
mod cell;
mod inner;
mod rule;
mod view;

pub use call::{Call, StandsFor};
pub use cell::{ClosedCell, Seat, TurnCell};
pub use farm_base::Worn;
pub use view::Terms;

//! Histories of a farm: the plain types of its events and answers, and, in `specs/`, what a history
//! tells of the past, which answer each event has, and the laws that follow.
//!
//! What is proved: what a legal history of thirteen events is, and the laws of it that crates above carry in their
//! contracts.
#![tactic(auto)]

mod answers;
mod asks;
mod events;
mod keys;
mod queues;
mod saved;

pub use answers::{
    ClaimAnswer, Collected, Fetched, Finished, Looked, Renewed, Restyled, Tally, Updated,
};
pub use asks::{AskAnswer, Cmd, Spot, Why};
pub use events::Event;
pub use keys::{Kept, Key, Mark};
pub use queues::{Conn, Limits, MOST_DIRTY, MOST_WAITING, Outcome, Queue, Reply, Waiter};
pub use saved::{Past, Saved};

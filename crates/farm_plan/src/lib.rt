//! What a farm is started with: its maps with their styles, the data to begin with, the updates and styles
//! that may come, and its limits; and the plain types of what it is asked and answers.
//!
//! `specs/` says what such a plan means for the farm's histories: the tiles that it draws are the plain
//! drawings of its styles over its data.
//!
//! What is proved: What a farm is started with, and what it means for histories (`plan_of`): its drawing is the plain
//! drawing of its styles over its data, an update has the first fault of its changes and reaches what its features
//! reach.
#![tactic(auto)]

mod plans;

pub use farm_history::{
    AskAnswer, Cmd, Collected, Conn, Fetched, Finished, Kept, Key, Limits, Looked, Mark, Outcome,
    Past, Queue, Renewed, Reply, Restyled, Spot, Tally, Updated, Waiter, Why,
};
pub use plans::{FarmPlan, MapPlan, Restyle};

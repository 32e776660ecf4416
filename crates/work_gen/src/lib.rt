//! Generated work: a farm's plan with so many features, and the tiles that it is asked for, both by the
//! draws of a seed.
//!
//! What is proved: Generated work: `plan` is the plan of so many features (`work_plan`), `steps` the 32 tiles that are
//! asked of it (`steps_of`), each by the draws of its seed, which are the words of PCG32 modulo a bound (`draw`).
#![tactic(auto)]

mod data;
mod draws;
mod plans;
mod stepping;
mod styles;

pub use plans::plan;
pub use stepping::{Step, steps};

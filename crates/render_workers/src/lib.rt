//! The workers of a shared farm: each claims, draws outside the lock, and hands back what it drew.
//!
//! What is proved: `work`: what it adds to its seat's entries are whole rounds, a Claim and after a Job that job's
//! Finish, with the job's container, where it was staged under the job's ticket, or want of memory; it ends Stopped
//! only after a Claim that was answered so, and Worn only where all turns were drawn.
#![tactic(auto)]

mod drawing;
mod worker;

pub use drawing::draw;
pub use worker::{WorkEnd, work};

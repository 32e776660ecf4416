//! The drawing of a metatile as the container of its tiles, and of a job as the container that a worker hands back.
//!
//! What is proved: `draw_container`: the container of the drawings of a metatile's tiles (`container_of`, `tiles_of`),
//! in a style and over data, exactly. (Its picture is drawn where the container is to stand; that is in no contract.)
//! `draw_job`: the container of a job's metatile, drawn in the job's style and over its data, exactly (`job_text`).
#![tactic(auto)]

mod containers;
mod jobs;

pub use containers::draw_container;
pub use jobs::draw_job;

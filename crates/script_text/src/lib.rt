//! Scripts on one thread: each line is asked of a farm, and answered, before the next. And what a farm that was started
//! over a store leaves of it (`specs/Left.antt`).
//!
//! What is proved: `run`: a script on a farm that stands for a history leaves one that stands for a longer one, which
//! has the entries of the lines that were run, and what was put is their text: all of it, a front where a put failed,
//! or that of the lines before the one that found no memory (`Runs`, `ScriptText`). `run_noting` also tells whether a
//! call of the store failed. What a farm that was started over a store and ran leaves of it (`Leaves`): its plan, the
//! store that was handed in and the one that is handed back, and of the histories that it stands for what the run says;
//! a history in which a call of the store failed means that the store's count rose (`lost`).
#![tactic(auto)]

mod answers;
mod ends;
mod events;
mod hands;
mod runs;
mod said;

pub use ends::ScriptEnd;
pub use hands::is_failed_finish;
pub use runs::{ScriptRun, run, run_noting};
pub use said::is_failed_fetch;
pub use script_lines::{Script, ScriptFault, ScriptLine, read_script};

//! The lines in which a script is answered: one for each answer of a farm. Want of memory in an answer
//! has no line; a function here that is given it answers it.
//!
//! What is proved: Of each answer of a farm its line, exactly, as `docs/operate/script.md` tells them (`entry_text`).
//! The lines of what makes no entry (`nojob`, an expiry that is `unservable`) stand with the text of a script
//! (`HasNone` of `script_text`).
#![tactic(auto)]

mod asks;
mod changes;
mod drawings;
mod replies;
mod tiles;

pub use asks::ask_line;
pub use changes::{expire_line, renew_line, restyle_line, update_line};
pub use drawings::{claim_line, finish_line};
pub use replies::{collect_line, leave_line, tally_line};
pub use tiles::{fetch_head, look_line};

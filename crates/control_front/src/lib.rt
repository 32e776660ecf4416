//! The control front: lines that change data and styles, expire tiles, count and stop the farm.
//!
//! What is proved: `Control`, a front by its number, over any farm: its `Rules` (`control_rules`,
//! `crates/control_front/specs/Control.antt`), which `front_loop::serve` keeps. The lines in a connection's bytes and
//! what each says (`Lines.antt`), the entries of each line, in order, with one Expire for each tile of a list, and the
//! text that it is answered, as `docs/operate/control.md` tells them. Its rules are those of front 2 of a farm
//! (`IsFront`, in `proofs/OwnEntries.antt`). `serve` for the control lines on a shared farm: `FrontRun` with these
//! rules, and the seat stays a seat of that farm that has seen its own entries and keeps its number, its splits and its
//! joins.
#![tactic(auto)]

mod acts;
mod answers;
mod control;
mod doing;
mod expiring;
mod hearing;
mod lines;
mod serving;

pub use acts::{Act, Line};
pub use control::Control;
pub use expiry_lists::TileList;
pub use serving::serve;

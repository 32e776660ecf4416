//! What the tests of `farm_tests` try of a whole farm, over one map of small tiles: a script by the call that answers its end
//! alone, one metatile's life through one seat of a shared farm, and that farm asked over loopback; and of the cell under
//! it: turns of a counter, some on threads, and who is woken where a drawing or an actor has ended. Each answers which of
//! its parts came out as they should, or nothing where memory was wanting or something was refused.
#![tactic(auto)]

mod alarms;
mod cells;
mod counter;
mod loopback;
mod one_seat;
mod plans;
mod scripted;

pub use alarms::every_front_is_woken;
pub use cells::{a_cell_of_three_turns_wears_out, threads_count_every_turn_once};
pub use loopback::a_client_over_loopback;
pub use one_seat::the_life_of_a_metatile;
pub use scripted::a_script_is_answered;

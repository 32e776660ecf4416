//! A whole run of a farm: it is shared, three fronts and its workers act on it, each in a thread of its own and with
//! a seat of its own, until the fronts have ended, and what is left is the farm with its whole history, of which
//! `specs/Promise.antt` says what is promised.
//!
//! What is proved: `run_farm`: of the farm that is left and its whole history the promise `RunsWell`
//! (`crates/farm_runs/specs/Promise.antt`): the headline; that what is sent as clean is drawn over the data of that
//! very moment, where every update was a renew (`sent_now`); whose each entry is; what each front and worker did; no
//! drawing under way at the end; who stopped the farm; the counts as the last entry. What is missing of it is told, and
//! it is missing only where all of 2^62 turns were drawn. Where memory is wanting before the threads start the farm
//! comes back, and no port was touched. `docs/believe/promise.md`; `run_actors`, for any three fronts of
//! `front_loop`, any farm, ports and gate: each front leaves what a front with its rules leaves (`FrontLeaves`),
//! through its own seat and on its own ports; each worker's entries are its rounds; the fronts' seats are joined before
//! the run's own Stop. A front or worker that is not begun, since a thread is wanting, leaves nothing but a front's
//! Stop; when that is so is in no contract.
#![tactic(auto)]

mod barrier;
mod each_front;
mod ending;
mod fronts;
mod pool;
mod running;
mod seating;
mod serving;
mod together;

pub use barrier::StartBarrier;
pub use each_front::{EachFront, Fronts, RunActors, RunStart};
pub use pool::Actor;
pub use running::{Run, run_farm};
pub use serving::{FrontServing, Threaded};
pub use together::{FrontSeats, RunSeats};

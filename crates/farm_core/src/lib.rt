//! The farm: its events over one value, each list of calls a legal history. What it is started with, is
//! asked and answers are the types of `farm_plan`, passed on.
//!
//! What is proved: `Farm<D>`: each event is one call whose clause says that a farm which stands for a history stands
//! after it for that history and the event with its answer (`StandsFor`), for every store, plan and history; what no
//! event changes (`Lasts`); a job that a claim gives carries the style and the data of that moment (`Carries`); a fetch
//! is answered by what the store holds at the metatile's path, whatever was told of it (`Reads`); `finish` makes one
//! put, of what was drawn, at its metatile's path, as it was answered, or none (`PutsDrawing`), and every other
//! event leaves the store as it was (the clauses `store`). `start` and `resume` begin one (`Begins`), of a plan whose
//! symbolizers keep their ranges (`ranged`; `law_ranged` says it of any farm), resumed from what was saved it stands
//! for the replay of that; the first fault of what was saved is answered (`resume_fault`).
#![tactic(auto)]

mod asks;
mod claims;
mod crossing;
mod expiries;
mod farm;
mod fetches;
mod finishes;
mod renews;
mod replies;
mod resumes;
mod saves;
mod starts;
mod updates;

pub use claims::Claimed;
pub use crossing::cross_farm;
pub use farm::Farm;
pub use farm_history::Saved;
pub use farm_plan::{
    AskAnswer, Cmd, Collected, Conn, FarmPlan, Fetched, Finished, Kept, Key, Limits, Looked,
    MapPlan, Outcome, Past, Renewed, Reply, Restyle, Restyled, Spot, Tally, Updated, Why,
};
pub use finishes::Drawn;
pub use render_jobs::{Job, ResumeFault};

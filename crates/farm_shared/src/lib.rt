//! The farm under a lock: each call is one turn, through a seat that knows a beginning of the one history in
//! which all of its own entries stand. The events of a farm, each of them a type: what it answers, its entry in the
//! history, what it needs of the seat that it is taken on, what it promises, and its run on the farm.
//!
//! What is proved: `Event::run`, for each type and every store: on a farm that stands for what it began
//! with and then a list of turns (`IsAfter`), at a seat where its need holds, it leaves one that stands for these turns
//! and the event's entry, of that seat; what no event changes stays. The farm under the lock: each call is one turn with
//! the farm's own entry and answer (`SharedFarm`, thirteen calls), and all that happened up to it is legal (`IsLegalSo`),
//! so that who builds another server over it need not close the farm to know an answer right; a reply that a front's seat
//! collects is to an ask of its own, a job that a worker is given carries what it should, and is finished by the seat
//! that claimed it, once; `close` gives a farm that stands for its whole history and has what the shared one had for good
//! (`IsClosed`); seats and farm cross threads (`cross`). `docs/carry-on/turns.md`
#![tactic(auto)]

mod alarms;
mod ask_events;
mod asks;
mod change_events;
mod changes;
mod closed;
mod crossing;
mod drawing_events;
mod drawings;
mod event;
mod lasting;
mod read_events;
mod reads;
mod shared;
mod turned;

pub use alarms::Alarms;
pub use ask_events::{Ask, Collect, Leave};
pub use change_events::{Expire, Renew, Restyle, Stop, Update};
pub use closed::Closed;
pub use crossing::cross;
pub use drawing_events::{Claim, Finish};
pub use event::{Event, Wakes};
pub use lasting::LastingPart;
pub use read_events::{Count, Fetch, Look};
pub use shared::{Seat, SharedFarm};
pub use turn_cell::Worn;
